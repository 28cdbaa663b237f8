ghost use Rattle.formats.specs.Faults.{Agrees, line_in, limits_in};
ghost use Rattle.formats.specs.EntryLines.{Says};
ghost use Rattle.formats.specs.TableText.{head_is, tick_in, tick_judged};
ghost use Rattle.formats.specs.Walk.{empty, misspaced, lacks_sheet, head_step, row_step};
ghost use Rattle.formats.specs.declared.fault.LineFault.TheVariants.{Spacing};
ghost use Rattle.clocks.specs.Texts.{text};
ghost use Rattle.rows.specs.Rows.{padded};
ghost use Rattle.std.specs.Option.{option_map};
ghost use Rattle.std.specs.Prelude.{◌≡◌, ◌&&◌, ltb, if◌then◌else◌, map, take, Some, None, Ok, Err, nat_lt};

use clocks::events::Events;
use clocks::name::Name;
use formats::fault::LineFault;
use formats::line::{SheetLimits, SheetRows, TextLine};
use rows::cell::{Row, RowKind};
use rows::content::number_in;
use rows::line::read_row_for;
use rows::word::is_word;
use texts::words::is_spaced;

// A line has to be spaced and ended.
pub(crate) fn check_spacing(line: TextLine) -> Result<(), LineFault>
    ensures { result ≡ (if misspaced (line_in line.entry) then Err Spacing else Ok (tt {0})) }
{
    if is_spaced(line.bytes) && line.ended {
        Ok(())
    } else {
        Err(LineFault::Spacing)
    }
}

// The last line, with sheets still to come.
fn lacks_sheet(line: TextLine, more: usize) -> bool
    ensures { result ≡ lacks_sheet more (line_in line.entry) }
{
    line.last && more > 0
}

// A line that has to be this head, where `more` sheets follow.
pub fn judge_head(line: TextLine, more: usize, head: &[u8]) -> Result<(), LineFault>
    ensures says { Says result (head_step more (head_is head.now line.entry.bytes.now) (line_in line.entry) (tt {0})) }
    ensures agrees { Agrees (λ _. tt {0}) result (head_step more (head_is head.now line.entry.bytes.now) (line_in line.entry) (tt {0})) }
{
    check_spacing(line)?;
    if lacks_sheet(line, more) || !is_word(line.bytes, head) {
        return Err(LineFault::Head);
    }
    Ok(())
}

// An empty line, with sheets still to come.
fn ends_sheet(line: TextLine, limits: SheetLimits) -> bool
    ensures { result ≡ (empty line.entry.bytes.now && nat_lt 0 limits.more) }
{
    line.bytes.is_empty() && limits.more > 0
}

// The empty line that ends a sheet.
fn judge_end(line: TextLine, rows: SheetRows) -> Result<Option<Row>, LineFault>
    ensures says { Says result (if line.entry.last then Err 4 else (if ltb rows.count rows.limits.least then Err 7 else Ok None)) }
    ensures agrees { Agrees (option_map (λ x. x.cells)) result (if line.entry.last then Err 4 else (if ltb rows.count rows.limits.least then Err 7 else Ok None)) }
{
    if line.last {
        return Err(LineFault::Head);
    }
    if rows.count < rows.limits.least {
        return Err(LineFault::Count);
    }
    Ok(None)
}

// A line among the rows of a sheet: a row, or none where an empty line ends the sheet.
pub fn judge_row_for(
    line: TextLine,
    rows: SheetRows,
    kind: RowKind,
    events: &Events<'_>,
) -> Result<Option<Row>, LineFault>
    ensures row { Says result (row_step (limits_in rows.limits) rows.count kind events.now (line_in line.entry) (λ cells. Some (record { cells = padded cells })) None) }
    ensures cells { Agrees (option_map (λ x. x.cells)) result (row_step (limits_in rows.limits) rows.count kind events.now (line_in line.entry) (λ cells. Some (padded cells)) None) }
{
    if ends_sheet(line, rows.limits) {
        return judge_end(line, rows);
    }
    check_spacing(line)?;
    if lacks_sheet(line, rows.limits.more) {
        return Err(LineFault::Head);
    }
    if rows.count >= rows.limits.most {
        return Err(LineFault::Count);
    }
    Ok(Some(read_row_for(kind, events, line.bytes, line.number)?))
}

// The same for any list of names. Names past the eighth name no event.
pub fn judge_row(
    line: TextLine,
    limits: SheetLimits,
    count: usize,
    kind: RowKind,
    names: &[Name],
) -> Result<Option<Row>, LineFault>
    ensures row { Says result (row_step (limits_in limits) count kind (take 8 (map text names.now)) (line_in line.entry) (λ cells. Some (record { cells = padded cells })) None) }
    ensures cells { Agrees (option_map (λ x. x.cells)) result (row_step (limits_in limits) count kind (take 8 (map text names.now)) (line_in line.entry) (λ cells. Some (padded cells)) None) }
{
    let rows = SheetRows { limits, count };
    judge_row_for(line, rows, kind, &Events::first_eight(names))
}

// A line among rows of ticks: the tick, or none where an empty line ends the sheet.
// A tick is at most 60,000, so the cast loses nothing; `try_from` would need an answer for a case that does not come.
fn judge_ticks(line: TextLine, rows: SheetRows) -> Result<Option<u16>, LineFault>
    ensures { Says result (tick_in (limits_in rows.limits) rows.count (line_in line.entry)) }
{
    let row = judge_row_for(line, rows, RowKind::Tick, &Events::first_eight(&[]))?;
    Ok(row.map(|row| number_in(row.cells[0]) as u16))
}

// A line among the rows of the tick sheet, which has one row and is followed by `more` sheets.
pub fn judge_tick(line: TextLine, count: usize, more: usize) -> Result<Option<u16>, LineFault>
    ensures { Says result (tick_judged more count (line_in line.entry)) }
{
    let limits = SheetLimits {
        least: 1,
        most: 1,
        more,
    };
    judge_ticks(line, SheetRows { limits, count })
}
