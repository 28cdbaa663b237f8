ghost use Rattle.sheets.specs.Distances.{ListRead, ListTaken};
ghost use Rattle.sheets.specs.DistanceReading.{distance_parts_of};
ghost use Rattle.formats.specs.DistanceText.{DistancesOrFault, read_distances};
ghost use Rattle.formats.specs.Faults.{AgreesOnText};
ghost use Rattle.tables.specs.Held.{contents};

use crate::list::DistanceList;
use crate::reading::read_text;
use crate::spans::DistanceReader;
use clocks::events::Events;
use formats::fault::SheetFault;
use std::alloc::Global;
use tables::table::Table;

// All that the text has of distances between these events.
fn read_parts<'a>(
    heap: Global,
    text: &[u8],
    events: Events<'a>,
) -> Result<DistanceReader<'a>, SheetFault>
    ensures { AgreesOnText distance_parts_of result (read_distances events.entry text.now) }
{
    let mut reader = DistanceReader::new(heap, events);
    read_text(&mut reader, text, 32768)?;
    Ok(reader)
}

// As short as `table_in`, of another type and with another promise.
fn list_in(heap: Global, text: &[u8], table: &Table) -> Result<DistanceList, SheetFault>
    ensures value { ListRead result (contents table.now).names text.now }
    ensures one { DistancesOrFault (contents table.now).names text.now }
{
    let reader = read_parts(heap, text, Events::first_eight(table.names()))?;
    Ok(reader.list(table.events().max(1)))
}

// The distances that the text has between a table's events go into the lent list, which is blank if the text is refused.
pub fn read_distances(
    heap: Global,
    text: &[u8],
    table: &Table,
    list: &mut DistanceList,
) -> Result<(), SheetFault>
    ensures value { ListTaken result (contents table.now).names text.now list.new }
    ensures one { DistancesOrFault (contents table.now).names text.now }
{
    *list = DistanceList::blank(heap);
    *list = list_in(heap, text, table)?;
    Ok(())
}
