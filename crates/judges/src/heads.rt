ghost use Rattle.judges.specs.Heads.{edge_names, name_list, judged_names};
ghost use Rattle.formats.specs.Faults.{Agrees, line_in};
ghost use Rattle.formats.specs.TableText.{edge_head_wrong};
ghost use Rattle.formats.specs.Walk.{head_step};
ghost use Rattle.clocks.specs.Letters.{lawful_name};
ghost use Rattle.clocks.specs.Search.{first_of};
ghost use Rattle.clocks.specs.Texts.{text};
ghost use Rattle.texts.specs.Lines.{words};
ghost use Rattle.std.specs.Prelude.{◌≡◌, ℕ, not, ◌&&◌, List, map, drop, is_some, if◌then◌else◌, Some, None, Ok};
ghost use Rattle.std.specs.Option.{option_map};
ghost use Rattle.std.specs.Str.{bytes_eq};

use crate::judging::check_spacing;
use clocks::name::Name;
use clocks::search::position;
use formats::fault::LineFault;
use formats::line::TextLine;
use std::alloc::Global;

// The word as a name, if it is one and stands not among those before it.
fn new_name(word: &[u8], names: &[Name]) -> Option<Name>
    ensures { option_map text result ≡ (if lawful_name word.now && not (is_some (first_of (λ y. bytes_eq y word.now) (map text names.now))) then Some word.now else None) }
{
    let name = Name::new(word)?;
    position(names, &name).is_none().then_some(name)
}

// The words of a part of a line as names, in memory of their own.
fn names_of(heap: Global, part: &[u8]) -> Result<Vec<Name>, LineFault>
    ensures { Agrees (λ v. map text v.items) result (name_list (words part.now)) }
{
    let mut names = Vec::new(heap);
    for word in part.split(|b| *b == b' ') {
        let name = new_name(word, names.as_slice()).ok_or(LineFault::Head)?;
        names.push(name)?;
    }
    Ok(names)
}

// A line that has to be the head of the edges, which is the last sheet: its names.
pub fn judge_edge_head(heap: Global, line: TextLine) -> Result<Vec<Name>, LineFault>
    ensures { Agrees (λ v. map text v.items) result (head_step 0 (edge_head_wrong (words line.entry.bytes.now)) (line_in line.entry) (drop 3 (words line.entry.bytes.now))) }
{
    check_spacing(line)?;
    names_in(heap, line.bytes)
}

// The names in the head of the edges, after its three words of its own.
fn names_in(heap: Global, line: &[u8]) -> Result<Vec<Name>, LineFault>
    ensures { Agrees (λ v. map text v.items) result (edge_names (words line.now)) }
{
    let rest = line.strip_prefix(b"from to on").ok_or(LineFault::Head)?;
    if rest.is_empty() {
        return Err(LineFault::Count);
    }
    let part = rest.strip_prefix(b" ").ok_or(LineFault::Head)?;
    counted(names_of(heap, part)?)
}

// Over eight names are too many.
fn counted(names: Vec<Name>) -> Result<Vec<Name>, LineFault>
    ensures { (ws : List (List ℕ)) → name_list ws ≡ Ok (map text names.items) → Agrees (λ v. map text v.items) result (judged_names ws) }
{
    if names.is_empty() || names.len() > 8 {
        return Err(LineFault::Count);
    }
    Ok(names)
}
