#![tactic(auto)]

// Replays words over a part: the reading at each pair, and whether the word is a behaviour of the part.
// The part is that of the file `part.txt`, or the bundled one where there is no such file.
use anyhow::Context;
use clocks::name::Name;
use clocks::reading::Reading;
use formats::fault::{Refusal, SheetFault};
use meaning::values::{Bound, Edge, Pair, Place};
use sheets::table::read_table;
use std::alloc::Global;
use std::io::ErrorKind;
use std::rt::Files;
use std::{fmt, fs, io};
use tables::table::Table;
use texts::lines::line_at;

const PART: &str = "part.txt";

// The events of the words by their numbers, as the bundled part names them.
const OPEN: u8 = 0;

const STEAM: u8 = 1;

// Only the crate of `Pair` could write a From here, and `(OPEN, 9).into()` would say less.
const fn pair(event: u8, wait: u32) -> Pair {
    Pair { event, wait }
}

fn name(letters: &[u8]) -> anyhow::Result<Name> {
    Name::new(letters).context("the bundled part has a bad name")
}

// What an edge asks of the clocks of its two events.
fn bounds(open: Bound, steam: Bound) -> [Bound; 8] {
    let mut bounds = [Bound::Any; 8];
    bounds[0] = open;
    bounds[1] = steam;
    bounds
}

// The bundled part: a steam driver that opens once, and may then let steam once, 2 or 3 ticks after the opening.
fn driver(heap: Global) -> anyhow::Result<Table> {
    let names = vec![in heap; name(b"open")?, name(b"steam")?]?;
    let shut = Place {
        start: true,
        accepting: false,
    };
    let opened = Place {
        start: false,
        accepting: true,
    };
    let opening = Edge {
        source: 0,
        target: 1,
        event: OPEN,
        bounds: bounds(Bound::Never, Bound::Never),
    };
    let steaming = Edge {
        source: 1,
        target: 1,
        event: STEAM,
        bounds: bounds(Bound::Between(2, 3), Bound::Never),
    };
    let places = vec![in heap; shut, opened]?;
    let edges = vec![in heap; opening, steaming]?;
    Table::new(100, names, places, edges).context("the bundled part breaks a limit")
}

// An event of a part, which need not have one of this number.
#[derive(Clone, Copy, Drop)]
struct PartEvent<'a> {
    part: &'a Table,
    event: u8,
}

impl fmt::Display for PartEvent<'_> {
    fn fmt<W: fmt::Write>(&self, f: &mut fmt::Formatter<W>) -> fmt::Result {
        match self.part.names().get(usize::from(self.event)) {
            None => write!(f, "unknown"),
            Some(name) => write!(f, "{name}"),
        }
    }
}

// A reading of a part's clocks, each event with the ticks since it last came.
#[derive(Clone, Copy, Drop)]
struct PartReading<'a> {
    part: &'a Table,
    reading: Reading,
}

// A number above the cap stands for itself and all larger ones, and is shown as such.
impl fmt::Display for PartReading<'_> {
    fn fmt<W: fmt::Write>(&self, f: &mut fmt::Formatter<W>) -> fmt::Result {
        let cap = u16::from(self.part.cap());
        for (name, cell) in self.part.names().iter().zip(self.reading.cells) {
            match cell {
                None => write!(f, " {name} none")?,
                Some(ticks) if ticks > cap => write!(f, " {name} {ticks}..")?,
                Some(ticks) => write!(f, " {name} {ticks}")?,
            }
        }
        Ok(())
    }
}

fn replay(rt: &impl Print, part: &Table, word: &[Pair]) -> io::Result<()> {
    for (position, pair) in word.iter().enumerate() {
        let Pair { event, wait } = *pair;
        let event = PartEvent { part, event };
        if let Some(reading) = part.reading_at(word, position) {
            println!(rt; "{event} {wait}:{}", PartReading { part, reading })?;
        }
    }
    let answer = if part.behaves(word) {
        "a behaviour"
    } else {
        "not a behaviour"
    };
    println!(rt; "{answer}\n")
}

fn replay_words(rt: &impl Print, part: &Table) -> anyhow::Result<()> {
    let words: [&[Pair]; 7] = [
        &[pair(OPEN, 9), pair(STEAM, 2)],
        &[pair(OPEN, 9), pair(STEAM, 3)],
        &[pair(OPEN, 9), pair(STEAM, 4)],
        &[pair(OPEN, 7), pair(OPEN, 2), pair(STEAM, 3)],
        &[pair(OPEN, 0), pair(STEAM, 4_294_967_295)],
        &[pair(STEAM, 2)],
        &[],
    ];
    for word in words {
        replay(rt, part, word)?;
    }
    Ok(())
}

// The refusal, and the line that it names where the text has it. A byte that does not print is shown as its number.
fn tell_fault(rt: &impl Print, text: &[u8], fault: SheetFault) -> anyhow::Result<()> {
    let Refusal { number, line } = fault.refusal().context("no memory for the part")?;
    match line_at(text, line) {
        None => println!(rt; "{PART}: refusal {number}, line {line}")?,
        Some(bytes) => {
            let shown = bytes.escape_ascii();
            println!(rt; "{PART}: refusal {number}, line {line}: {shown}")?;
        }
    }
    Ok(())
}

fn replay_text(rt: &(impl Print + AllocGlobal), text: &[u8]) -> anyhow::Result<()> {
    let heap = rt.alloc();
    let mut part = Table::blank(heap);
    match read_table(heap, text, &mut part) {
        Ok(()) => replay_words(rt, &part),
        Err(fault) => tell_fault(rt, text, fault),
    }
}

fn run(rt: &(impl Files + Print + AllocGlobal)) -> anyhow::Result<()> {
    match fs::read(rt, PART) {
        Ok(text) => replay_text(rt, text.as_slice()),
        Err(error) if error.kind() == ErrorKind::NotFound => {
            replay_words(rt, &driver(rt.alloc())?)
        }
        Err(error) => Err(error.into()),
    }
}

fn main(rt: HostRuntime) -> anyhow::Result<()> {
    run(&rt)
}
