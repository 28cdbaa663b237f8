ghost use Rattle.formats.specs.EntriesText.{EntriesOrFault, EntriesTaken, EntryParts, entry_start, entry_step, read_entries};
ghost use Rattle.sheets.specs.Counting.{Counted, count_step};
ghost use Rattle.tables.specs.Held.{contents};
ghost use Rattle.formats.specs.EntryLines.{Counts, Fills, event_names};
ghost use Rattle.formats.specs.Walk.{walk};
ghost use Rattle.texts.specs.Lines.{ended, lines};
ghost use Rattle.std.specs.Prelude.{◌≡◌, ◌≤◌, ◌++◌, length, drop, Ok};

use crate::reading::{LineReader, read_text};
use clocks::events::Events;
use clocks::name::Name;
use formats::claim::{Claim, EntryStage};
use formats::fault::{LineFault, SheetFault};
use formats::line::TextLine;
use judges::cursor::Lines;
use judges::entry::entry_line_for;
use tables::table::Table;

// How many claims an entries text has for these events, as far as it has been read. There may be `room`.
#[derive(Drop)]
struct ClaimCounter<'a> {
    events: &'a Events<'a>,
    room: usize,
    stage: EntryStage,
    count: usize,
}

impl<'a> LineReader for ClaimCounter<'a> {
    ghost Parts = { Counted };

    ghost parts = { λ r. record { stage = r.stage; count = r.count } };

    ghost step = { λ r. count_step r.events.now r.room };

    ghost Good = { λ _. Unit {0} };

    ghost Lacks = { ⊥ };

    fn line(&mut self, line: TextLine) -> Result<(), LineFault> {
        if entry_line_for(self.stage, self.count, self.room, self.events, line)?.is_some() {
            self.count += 1;
        }
        self.stage = EntryStage::Rows;
        Ok(())
    }

    ghost keeps = { λ _ _ _ _ _ _. tt {0} };
}

// How many claims the text has, of which there may be `room`.
fn count_entries(text: &[u8], events: &Events<'_>, room: usize) -> Result<usize, SheetFault>
    ensures { Counts result (read_entries events.now room text.now) }
{
    let mut counter = ClaimCounter {
        events,
        room,
        stage: EntryStage::Head,
        count: 0,
    };
    read_text(&mut counter, text, 65536)?;
    Ok(counter.count)
}

// The claims of lines that are all taken, to the front of the list.
fn fill_claims(text: &[u8], events: &Events<'_>, claims: &mut [Claim])
    ensures { (s : EntryParts) → walk (entry_step events.now (length claims.old)) (ended text.now) entry_start 1 (lines text.now) ≡ Ok s → claims.new ≡ s.claims ++ drop (length s.claims) claims.old }
{
    let room = claims.len();
    let mut stage = EntryStage::Head;
    // How many claims there are so far, for which a line's judge asks; so the next one's place needs no other count.
    let mut count = 0;
    for line in Lines::new(text) {
        match entry_line_for(stage, count, room, events, line) {
            Ok(Some(claim)) => {
                claims[count] = claim;
                count += 1;
            }
            // The head.
            Ok(None) => {}
            // No line is refused, as all are taken.
            Err(_) => return,
        }
        stage = EntryStage::Rows;
    }
}

// The claims of the text go to the front of the list, and their number is the answer. They are counted first, so that a refused text
// leaves the list as it was. Names past the eighth name no event.
pub fn read_entries(text: &[u8], names: &[Name], claims: &mut [Claim]) -> Result<usize, SheetFault>
    ensures { Fills result (read_entries (event_names names.now) (length claims.old) text.now) claims.old claims.new }
{
    let events = Events::first_eight(names);
    let count = count_entries(text, &events, claims.len())?;
    fill_claims(text, &events, claims);
    Ok(count)
}

// The claims that the text has for a table's events go to the front of the list, and their number is the answer.
#[tactic(auto, using(crate::proofs::EntriesOf::entries_taken_of))]
pub fn read_entries_of(
    text: &[u8],
    table: &Table,
    claims: &mut [Claim],
) -> Result<usize, SheetFault>
    ensures value { EntriesTaken result (contents table.now).names text.now claims.old claims.new }
    ensures one { EntriesOrFault (contents table.now).names (length claims.old) text.now }
{
    read_entries(text, table.names(), claims)
}
