// Names and tables within their limits and one past them.
use clocks::name::Name;
use meaning::values::{Bound, Edge, Place};
use std::alloc::{AllocError, Global};
use std::{array, io};
use tables::table::Table;

#[derive(Clone, Copy, Drop)]
struct NameTrial {
    what: &'static str,
    letters: &'static [u8],
}

const NAMES: &[NameTrial] = &[
    NameTrial {
        what: "no letter",
        letters: b"",
    },
    NameTrial {
        what: "one letter",
        letters: b"z",
    },
    NameTrial {
        what: "twelve letters",
        letters: b"abcdefghijkl",
    },
    NameTrial {
        what: "thirteen letters",
        letters: b"abcdefghijklm",
    },
    NameTrial {
        what: "the byte before a",
        letters: b"a`",
    },
    NameTrial {
        what: "the byte after z",
        letters: b"z{",
    },
    NameTrial {
        what: "a digit",
        letters: b"a1",
    },
    NameTrial {
        what: "a space",
        letters: b"a b",
    },
];

// A table by what the limits count: `twins` gives the first two events one name. Its edges are all the same, and have one bound that may be
// another than any.
#[derive(Clone, Copy, Drop)]
struct TableTrial {
    what: &'static str,
    tick: u16,
    events: usize,
    twins: bool,
    places: usize,
    edges: usize,
    source: u8,
    target: u8,
    event: u8,
    bounded: usize,
    bound: Bound,
}

const PLAIN: TableTrial = TableTrial {
    what: "plain",
    tick: 100,
    events: 1,
    twins: false,
    places: 1,
    edges: 1,
    source: 0,
    target: 0,
    event: 0,
    bounded: 0,
    bound: Bound::Any,
};

const TWO: TableTrial = TableTrial {
    events: 2,
    places: 2,
    ..PLAIN
};

const TABLES: &[TableTrial] = &[
    TableTrial {
        what: "tick 0",
        tick: 0,
        ..PLAIN
    },
    TableTrial {
        what: "tick 1",
        tick: 1,
        ..PLAIN
    },
    TableTrial {
        what: "tick 60000",
        tick: 60_000,
        ..PLAIN
    },
    TableTrial {
        what: "tick 60001",
        tick: 60_001,
        ..PLAIN
    },
    TableTrial {
        what: "0 events",
        events: 0,
        edges: 0,
        ..PLAIN
    },
    TableTrial {
        what: "1 event",
        events: 1,
        ..PLAIN
    },
    TableTrial {
        what: "8 events",
        events: 8,
        ..PLAIN
    },
    TableTrial {
        what: "9 events",
        events: 9,
        ..PLAIN
    },
    TableTrial {
        what: "2 events with one name",
        events: 2,
        twins: true,
        ..PLAIN
    },
    TableTrial {
        what: "0 places",
        places: 0,
        edges: 0,
        ..PLAIN
    },
    TableTrial {
        what: "1 place",
        places: 1,
        ..PLAIN
    },
    TableTrial {
        what: "32 places",
        places: 32,
        ..PLAIN
    },
    TableTrial {
        what: "33 places",
        places: 33,
        ..PLAIN
    },
    TableTrial {
        what: "0 edges",
        edges: 0,
        ..PLAIN
    },
    TableTrial {
        what: "64 edges",
        edges: 64,
        ..PLAIN
    },
    TableTrial {
        what: "65 edges",
        edges: 65,
        ..PLAIN
    },
    TableTrial {
        what: "source 1 of 2",
        source: 1,
        ..TWO
    },
    TableTrial {
        what: "source 2 of 2",
        source: 2,
        ..TWO
    },
    TableTrial {
        what: "target 1 of 2",
        target: 1,
        ..TWO
    },
    TableTrial {
        what: "target 2 of 2",
        target: 2,
        ..TWO
    },
    TableTrial {
        what: "event 1 of 2",
        event: 1,
        ..TWO
    },
    TableTrial {
        what: "event 2 of 2",
        event: 2,
        ..TWO
    },
    TableTrial {
        what: "250..",
        bounded: 1,
        bound: Bound::AtLeast(250),
        ..TWO
    },
    TableTrial {
        what: "251..",
        bounded: 1,
        bound: Bound::AtLeast(251),
        ..TWO
    },
    TableTrial {
        what: "0..250",
        bound: Bound::Between(0, 250),
        ..TWO
    },
    TableTrial {
        what: "0..251",
        bound: Bound::Between(0, 251),
        ..TWO
    },
    TableTrial {
        what: "4..4",
        bound: Bound::Between(4, 4),
        ..TWO
    },
    TableTrial {
        what: "5..4",
        bound: Bound::Between(5, 4),
        ..TWO
    },
    TableTrial {
        what: "none for the last event",
        bounded: 1,
        bound: Bound::Never,
        ..TWO
    },
    TableTrial {
        what: "none past the events",
        bounded: 2,
        bound: Bound::Never,
        ..TWO
    },
    TableTrial {
        what: "none in the eighth place",
        bounded: 7,
        bound: Bound::Never,
        ..TWO
    },
];

// Enough letters for the longest name.
const LETTERS: &[u8] = b"aaaaaaaaaaaa";

// The names a, aa, aaa and so on.
fn names(heap: Global, trial: &TableTrial) -> Result<Vec<Name>, AllocError> {
    (1..=trial.events)
        .map(|size| if trial.twins && size == 2 { 1 } else { size })
        .filter_map(|size| LETTERS.get(..size).and_then(Name::new))
        .collect(heap)
}

fn edge(trial: &TableTrial) -> Edge {
    Edge {
        source: trial.source,
        target: trial.target,
        event: trial.event,
        bounds: array::from_fn(|event| {
            if event == trial.bounded {
                trial.bound
            } else {
                Bound::Any
            }
        }),
    }
}

fn table(heap: Global, trial: &TableTrial) -> Result<Option<Table>, AllocError> {
    let names = names(heap, trial)?;
    let place = Place {
        start: true,
        accepting: true,
    };
    let places = vec![in heap; place; trial.places]?;
    let edges = vec![in heap; edge(trial); trial.edges]?;
    Ok(Table::new(trial.tick, names, places, edges))
}

// What was tried, and whether it was made.
fn tell<T: Drop>(rt: &impl Print, what: &str, made: Option<T>) -> io::Result<()> {
    let came = made.map_or("refused", |_| "taken");
    println!(rt; "{what}: {came}")
}

// Want of memory ends the program by `AllocError` itself: an `io::Error` in between would tell it in other words.
pub(crate) fn try_parts(rt: &(impl Print + AllocGlobal)) -> anyhow::Result<()> {
    for trial in NAMES {
        tell(rt, trial.what, Name::new(trial.letters))?;
    }
    for trial in TABLES {
        tell(rt, trial.what, table(rt.alloc(), trial)?)?;
    }
    Ok(())
}
