ghost use Rattle.formats.specs.Faults.{line_in};
ghost use Rattle.formats.specs.TableText.{head_is};
ghost use Rattle.formats.specs.Walk.{head_step};
ghost use Rattle.sheets.specs.Reading.{Leads, tick_step};
ghost use Rattle.std.specs.Option.{option_to_list};
ghost use Rattle.std.specs.Prelude.{◌≡◌, length};

use formats::fault::LineFault;
use formats::line::TextLine;
use judges::judging::{judge_head, judge_tick};

// A head with `more` sheets after its own. The rows of its sheet are due next.
pub(crate) fn head<S: Copy>(
    stage: &mut S,
    rows: S,
    line: TextLine,
    more: usize,
    head: &[u8],
) -> Result<(), LineFault>
    ensures { Leads result stage.new (head_step more (head_is head.now line.entry.bytes.now) (line_in line.entry) rows) }
{
    judge_head(line, more, head)?;
    *stage = rows;
    Ok(())
}

fn tick_count(tick: Option<u16>) -> usize
    ensures { result ≡ length (option_to_list tick) }
{
    usize::from(tick.is_some())
}

// The row of the tick, or the end of its sheet with `more` sheets after it, of which the head is due next.
pub(crate) fn tick_row<S: Copy>(
    stage: &mut S,
    tick: &mut Option<u16>,
    head: S,
    line: TextLine,
    more: usize,
) -> Result<(), LineFault>
    ensures { Leads result (stage.new, option_to_list tick.new) (tick_step more stage.old head (option_to_list tick.old) (line_in line.entry)) }
{
    match judge_tick(line, tick_count(*tick), more)? {
        Some(read) => *tick = Some(read),
        None => *stage = head,
    }
    Ok(())
}
