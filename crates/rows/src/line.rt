ghost use Rattle.rows.specs.Rows.{cells_of, columns, row_of, row_result, word_stop};
ghost use Rattle.clocks.specs.Texts.{text};
ghost use Rattle.texts.specs.Lines.{words};
ghost use Rattle.std.specs.Prelude.{◌≡◌, ◌≤◌, min, map, length, take};

use crate::cell::{Cell, Row, RowKind, WordFault};
use crate::content::number_in;
use crate::kind::{column, column_count};
use crate::word::read_cell_for;
use clocks::events::Events;
use clocks::name::Name;
use texts::lines::{Run, end_from};
use texts::words::word_count;

// The place of the first space at or after `from`, or the line's length if there is none.
// One line over `end_from`: it gives callers a word's end by its own name, and its promise names no kind of run.
pub fn word_stop(line: &[u8], from: usize) -> usize
    ensures value { result ≡ word_stop line.now from }
    ensures within { result ≤ length line.now }
    ensures after { min from (length line.now) ≤ result }
{
    end_from(line, from, Run::NoSpace)
}

// The words from the left, each in its column: the first at fault decides.
fn read_words(
    kind: RowKind,
    events: &Events<'_>,
    line: &[u8],
    number: u32,
) -> Result<Row, WordFault>
    requires { length (words line.now) ≡ length (columns kind) }
    ensures { result ≡ row_result (cells_of (columns kind) events.now 0 (words line.now)) }
{
    let mut cells = [Cell::Absent; 11];
    let mut before = 0;
    for (place, word) in line.split(|b| *b == b' ').enumerate() {
        let column = column(kind, place).ok_or(WordFault::Misfit)?;
        let cell = read_cell_for(column, events, before, word, number)?;
        cells[place] = cell;
        before = number_in(cell);
    }
    Ok(Row { cells })
}

// The cells of a line. The number of its words comes before the words.
pub fn read_row_for(
    kind: RowKind,
    events: &Events<'_>,
    line: &[u8],
    number: u32,
) -> Result<Row, WordFault>
    ensures { result ≡ row_result (row_of kind events.now line.now) }
{
    if word_count(line) == column_count(kind) {
        read_words(kind, events, line, number)
    } else {
        Err(WordFault::Misfit)
    }
}

// The same for any list of names. Names past the eighth name no event.
pub fn read_row(kind: RowKind, names: &[Name], line: &[u8], number: u32) -> Result<Row, WordFault>
    ensures { result ≡ row_result (row_of kind (take 8 (map text names.now)) line.now) }
{
    read_row_for(kind, &Events::first_eight(names), line, number)
}
