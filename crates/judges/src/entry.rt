ghost use Rattle.formats.specs.EntriesText.{entry_head};
ghost use Rattle.formats.specs.EntryLines.{Says, entry_gives, entry_row};
ghost use Rattle.formats.specs.Faults.{line_in};
ghost use Rattle.formats.specs.TableText.{head_is};
ghost use Rattle.formats.specs.Walk.{head_step};
ghost use Rattle.clocks.specs.Texts.{text};
ghost use Rattle.std.specs.Option.{MatchOption};
ghost use Rattle.std.specs.Str.{bytes_eq};
ghost use Rattle.std.specs.Prelude.{◌≡◌, false, map, take, [], None};

use crate::judging::check_spacing;
use clocks::events::Events;
use clocks::name::Name;
use formats::claim::{Claim, EntryStage};
use formats::fault::LineFault;
use formats::line::TextLine;
use rows::cell::RowKind;
use rows::line::read_row_for;

// What follows the head for these names in a line that begins with it.
fn after_head<'a>(line: &'a [u8], names: &[Name]) -> Option<&'a [u8]>
    ensures { MatchOption result (bytes_eq line.now (entry_head (map text names.now)) ≡ false) (λ rest. bytes_eq line.now (entry_head (map text names.now)) ≡ bytes_eq rest.now []) }
{
    let mut rest = line.strip_prefix(b"at state")?;
    for name in names {
        rest = rest.strip_prefix(b" ")?.strip_prefix(name.bytes())?;
    }
    Some(rest)
}

// Whether the line is the head for these events.
fn is_entry_head(line: &[u8], events: &Events<'_>) -> bool
    ensures { result ≡ bytes_eq line.now (entry_head events.now) }
{
    matches!(after_head(line, events.names()), Some([]))
}

fn head_line(events: &Events<'_>, line: TextLine) -> Result<Option<Claim>, LineFault>
    ensures { Says result (head_step 0 (head_is (entry_head events.now) line.entry.bytes.now) (line_in line.entry) None) }
{
    check_spacing(line)?;
    if !is_entry_head(line.bytes, events) {
        return Err(LineFault::Head);
    }
    Ok(None)
}

fn row_line(
    count: usize,
    room: usize,
    events: &Events<'_>,
    line: TextLine,
) -> Result<Claim, LineFault>
    ensures { Says result (entry_row events.now room count (line_in line.entry)) }
{
    check_spacing(line)?;
    if count >= room {
        return Err(LineFault::Count);
    }
    let kind = RowKind::Claim(events.count());
    let row = read_row_for(kind, events, line.bytes, line.number)?;
    Ok(Claim::from(row))
}

// The claim of a line with `count` claims before it and room for `room`; none of the head.
pub fn entry_line_for(
    stage: EntryStage,
    count: usize,
    room: usize,
    events: &Events<'_>,
    line: TextLine,
) -> Result<Option<Claim>, LineFault>
    ensures { Says result (entry_gives events.now room stage count (line_in line.entry)) }
{
    match stage {
        EntryStage::Head => head_line(events, line),
        EntryStage::Rows => row_line(count, room, events, line).map(Some),
    }
}

// The same for any list of names. Names past the eighth name no event.
pub fn entry_line(
    stage: EntryStage,
    count: usize,
    room: usize,
    names: &[Name],
    line: TextLine,
) -> Result<Option<Claim>, LineFault>
    ensures { Says result (entry_gives (take 8 (map text names.now)) room stage count (line_in line.entry)) }
{
    entry_line_for(stage, count, room, &Events::first_eight(names), line)
}
