// How a text is tried: its reader is lent what already holds something, so that what a refusal leaves shows.
use formats::claim::Claim;
use formats::fault::{Refusal, SheetFault};
use sheets::distances::read_distances;
use sheets::entries::read_entries_of;
use sheets::list::DistanceList;
use sheets::table::read_table;
use std::alloc::{AllocError, Global};
use std::fmt;
use tables::table::Table;

// Which reader takes the text. Distances and entries are read for the events open and steam, and entries into a list of this length.
#[derive(Clone, Copy, Drop)]
pub(crate) enum Kind {
    Table,
    Distances,
    Entries(usize),
}

// What is tried, one after the other, in the same place of a text.
#[derive(Clone, Copy, Drop)]
pub(crate) struct Trials {
    pub kind: Kind,
    pub name: &'static str,
    pub before: &'static str,
    pub after: &'static str,
    pub tried: &'static [&'static str],
}

// A text that is put together of parts, one of which may stand in it many times.
#[derive(Clone, Copy, Drop)]
pub(crate) struct LongTrial {
    pub what: &'static str,
    pub kind: Kind,
    pub before: &'static [&'static str],
    pub repeated: &'static str,
    pub times: usize,
    pub after: &'static str,
}

pub(crate) const DRIVER: &[u8] = b"tick\n100\n\n\
    place start final\n0 yes no\n1 no yes\n\n\
    from to on open steam\n0 1 open none none\n1 1 steam 2..3 none\n";

pub(crate) const DISTANCES: &[u8] = b"tick\n100\n\n\
    on since least most\nsteam open 2 3\nopen open 0 250\n";

const FILLER: u64 = 77;

pub(crate) const UNTOUCHED: Claim = Claim {
    place: FILLER,
    state: FILLER,
    cells: [Some(FILLER); 8],
};

// A table with the events open and steam.
pub(crate) fn driver(heap: Global) -> Table {
    let mut table = Table::blank(heap);
    let _ = read_table(heap, DRIVER, &mut table);
    table
}

// What came of a text: how many rows its last sheet has if it is taken, or else why not. `kept` says whether the reader left what it has to
// leave, of a text that is taken and of one that is refused, so that it is no part of either.
#[derive(Clone, Copy, Drop)]
struct Outcome {
    rows: Result<usize, SheetFault>,
    kept: bool,
}

// A refusal is shown by its number and its line.
impl fmt::Display for Outcome {
    fn fmt<W: fmt::Write>(&self, f: &mut fmt::Formatter<W>) -> fmt::Result {
        match self.rows.map_err(|fault| fault.refusal()) {
            Ok(rows) => write!(f, "taken {rows}")?,
            Err(Some(Refusal { number, line })) => write!(f, "{number} {line}")?,
            Err(None) => write!(f, "no memory")?,
        }
        if !self.kept {
            write!(f, ", but what is left is wrong")?;
        }
        Ok(())
    }
}

// What is lent to a reader, which leaves it blank if it refuses the text.
trait Lent {
    // How many rows the last sheet has.
    fn rows(&self) -> usize;

    fn is_blank(&self) -> bool;
}

// A table has no ==, so that its parts are asked one by one.
impl Lent for Table {
    fn rows(&self) -> usize {
        self.edges().len()
    }

    fn is_blank(&self) -> bool {
        self.tick() == 0
            && self.names().is_empty()
            && self.places().is_empty()
            && self.edges().is_empty()
    }
}

impl Lent for DistanceList {
    fn rows(&self) -> usize {
        self.lines().len()
    }

    fn is_blank(&self) -> bool {
        self.tick() == 1 && self.events() == 1 && self.lines().is_empty()
    }
}

impl Outcome {
    fn left_in(lent: &impl Lent, came: Result<(), SheetFault>) -> Outcome {
        Outcome {
            rows: came.map(|()| lent.rows()),
            kept: came.is_ok() || lent.is_blank(),
        }
    }
}

fn try_table(heap: Global, text: &[u8]) -> Outcome {
    let mut table = driver(heap);
    let came = read_table(heap, text, &mut table);
    Outcome::left_in(&table, came)
}

fn try_distances(heap: Global, text: &[u8]) -> Outcome {
    let table = driver(heap);
    let mut list = DistanceList::blank(heap);
    let _ = read_distances(heap, DISTANCES, &table, &mut list);
    let came = read_distances(heap, text, &table, &mut list);
    Outcome::left_in(&list, came)
}

// The claims after those of the text are to be untouched, and all of them where it is refused.
fn try_entries(heap: Global, text: &[u8], room: usize) -> Result<Outcome, AllocError> {
    let table = driver(heap);
    let mut claims = vec![in heap; UNTOUCHED; room]?;
    let rows = read_entries_of(text, &table, claims.as_mut_slice());
    let kept = claims
        .iter()
        .skip(rows.unwrap_or(0))
        .all(|claim| *claim == UNTOUCHED);
    Ok(Outcome { rows, kept })
}

// The tables of cases tell by its kind which reader a text is for.
fn try_text(heap: Global, kind: Kind, text: &[u8]) -> Result<Outcome, AllocError> {
    match kind {
        Kind::Table => Ok(try_table(heap, text)),
        Kind::Distances => Ok(try_distances(heap, text)),
        Kind::Entries(room) => try_entries(heap, text, room),
    }
}

// Want of memory ends a program by `AllocError` itself: an `io::Error` in between would tell it in other words.
fn try_tried(rt: &(impl Print + AllocGlobal), trials: &Trials) -> anyhow::Result<()> {
    let heap = rt.alloc();
    let Trials {
        kind,
        name,
        before,
        after,
        tried,
    } = *trials;
    for part in tried {
        let text = format!(in heap; "{before}{part}{after}")?;
        let came = try_text(heap, kind, text.as_bytes())?;
        println!(rt; "{name} `{}`: {came}", part.escape_default())?;
    }
    Ok(())
}

fn long_text(heap: Global, trial: &LongTrial) -> Result<String, AllocError> {
    let before = trial.before.concat(heap)?;
    let repeated = trial.repeated.repeat(heap, trial.times)?;
    format!(in heap; "{before}{repeated}{}", trial.after)
}

pub(crate) fn try_texts(
    rt: &(impl Print + AllocGlobal),
    all: &[Trials],
    long: &[LongTrial],
) -> anyhow::Result<()> {
    let heap = rt.alloc();
    for trials in all {
        try_tried(rt, trials)?;
    }
    for trial in long {
        let text = long_text(heap, trial)?;
        let came = try_text(heap, trial.kind, text.as_bytes())?;
        println!(rt; "{}: {came}", trial.what)?;
    }
    Ok(())
}

// Whether a text of this one byte is refused for it.
fn is_stranger(heap: Global, byte: u8) -> bool {
    let mut table = Table::blank(heap);
    read_table(heap, &[byte], &mut table)
        .err()
        .and_then(|fault| fault.refusal())
        .is_some_and(|refusal| refusal.number == 2)
}

// All bytes that a text may have.
pub(crate) fn tell_bytes(rt: &(impl Print + AllocGlobal)) -> anyhow::Result<()> {
    let heap = rt.alloc();
    let known: Vec<u8> = (0..=255)
        .filter(|byte| !is_stranger(heap, *byte))
        .collect(heap)?;
    println!(rt; "bytes of a text: `{}`", known.as_slice().escape_ascii())?;
    Ok(())
}
