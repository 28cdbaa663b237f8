ghost use Rattle.formats.specs.Faults.{AgreesOnText};
ghost use Rattle.sheets.specs.Reader.{TableRead, parts_of};
ghost use Rattle.formats.specs.TableText.{TableOrFault, TableTaken, read_table};
ghost use Rattle.tables.specs.Held.{contents};

use crate::reader::TableReader;
use crate::reading::read_text;
use formats::fault::SheetFault;
use std::alloc::Global;
use tables::table::Table;

// All that the text has of a table.
fn read_parts(heap: Global, text: &[u8]) -> Result<TableReader, SheetFault>
    ensures { AgreesOnText parts_of result (read_table text.now) }
{
    let mut reader = TableReader::new(heap);
    read_text(&mut reader, text, 32768)?;
    Ok(reader)
}

// This and `list_in` are what is left of a reader after the one walk: each has a type and a promise of its own.
fn table_in(heap: Global, text: &[u8]) -> Result<Table, SheetFault>
    ensures value { TableRead result text.now }
    ensures one { TableOrFault text.now }
{
    Ok(read_parts(heap, text)?.table(heap))
}

// The table that the text stands for goes into the lent one, which is blank if the text is refused.
pub fn read_table(heap: Global, text: &[u8], table: &mut Table) -> Result<(), SheetFault>
    ensures value { TableTaken result text.now (contents table.new) }
    ensures one { TableOrFault text.now }
{
    *table = Table::blank(heap);
    *table = table_in(heap, text)?;
    Ok(())
}
