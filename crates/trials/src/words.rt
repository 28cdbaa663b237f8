// Which words a part has: its one event comes first by an edge that asks for none before it, and then by an edge with the bound that is tried.
use anyhow::Context;
use clocks::name::Name;
use meaning::values::{Bound, Edge, Pair, Place};
use std::alloc::Global;
use tables::table::Table;

#[derive(Clone, Copy, Drop)]
struct WordTrial {
    what: &'static str,
    bound: Bound,
    word: &'static [Pair],
}

const FIRST: Pair = Pair { event: 0, wait: 7 };

// An event that the part does not have.
const STRANGER: Pair = Pair { event: 1, wait: 0 };

const WORDS: &[WordTrial] = &[
    WordTrial {
        what: "no pair",
        bound: Bound::Any,
        word: &[],
    },
    WordTrial {
        what: "none, one pair",
        bound: Bound::Never,
        word: &[FIRST],
    },
    WordTrial {
        what: "none, two pairs",
        bound: Bound::Never,
        word: &[FIRST, Pair { event: 0, wait: 0 }],
    },
    WordTrial {
        what: "any, after the longest wait",
        bound: Bound::Any,
        word: &[
            FIRST,
            Pair {
                event: 0,
                wait: 4_294_967_295,
            },
        ],
    },
    WordTrial {
        what: "0.., after 0",
        bound: Bound::AtLeast(0),
        word: &[FIRST, Pair { event: 0, wait: 0 }],
    },
    WordTrial {
        what: "2..3, after 1",
        bound: Bound::Between(2, 3),
        word: &[FIRST, Pair { event: 0, wait: 1 }],
    },
    WordTrial {
        what: "2..3, after 2",
        bound: Bound::Between(2, 3),
        word: &[FIRST, Pair { event: 0, wait: 2 }],
    },
    WordTrial {
        what: "2..3, after 3",
        bound: Bound::Between(2, 3),
        word: &[FIRST, Pair { event: 0, wait: 3 }],
    },
    WordTrial {
        what: "2..3, after 4",
        bound: Bound::Between(2, 3),
        word: &[FIRST, Pair { event: 0, wait: 4 }],
    },
    WordTrial {
        what: "0..5, after 9",
        bound: Bound::Between(0, 5),
        word: &[FIRST, Pair { event: 0, wait: 9 }],
    },
    WordTrial {
        what: "250.., after 249",
        bound: Bound::AtLeast(250),
        word: &[
            FIRST,
            Pair {
                event: 0,
                wait: 249,
            },
        ],
    },
    WordTrial {
        what: "250.., after 250",
        bound: Bound::AtLeast(250),
        word: &[
            FIRST,
            Pair {
                event: 0,
                wait: 250,
            },
        ],
    },
    WordTrial {
        what: "250.., after the longest wait",
        bound: Bound::AtLeast(250),
        word: &[
            FIRST,
            Pair {
                event: 0,
                wait: 4_294_967_295,
            },
        ],
    },
    WordTrial {
        what: "0..250, after 251",
        bound: Bound::Between(0, 250),
        word: &[
            FIRST,
            Pair {
                event: 0,
                wait: 251,
            },
        ],
    },
    WordTrial {
        what: "event 1 of 1",
        bound: Bound::Any,
        word: &[STRANGER],
    },
    WordTrial {
        what: "event 255 of 1",
        bound: Bound::Any,
        word: &[Pair {
            event: 255,
            wait: 0,
        }],
    },
    WordTrial {
        what: "a stranger after the first",
        bound: Bound::Any,
        word: &[FIRST, STRANGER],
    },
    WordTrial {
        what: "a stranger in the middle",
        bound: Bound::Any,
        word: &[FIRST, STRANGER, Pair { event: 0, wait: 0 }],
    },
];

fn part(heap: Global, bound: Bound) -> anyhow::Result<Table> {
    let name = Name::new(b"a").context("the part has a bad name")?;
    let place = Place {
        start: true,
        accepting: true,
    };
    let edges = [Bound::Never, bound].map(|first| {
        let mut bounds = [Bound::Any; 8];
        bounds[0] = first;
        Edge {
            source: 0,
            target: 0,
            event: 0,
            bounds,
        }
    });
    let names = vec![in heap; name]?;
    let places = vec![in heap; place]?;
    let edges = Vec::from_array(heap, edges)?;
    Table::new(100, names, places, edges).context("the part breaks a limit")
}

pub(crate) fn try_words(rt: &(impl Print + AllocGlobal)) -> anyhow::Result<()> {
    for trial in WORDS {
        let part = part(rt.alloc(), trial.bound)?;
        let came = if part.behaves(trial.word) {
            "yes"
        } else {
            "no"
        };
        println!(rt; "{}: {came}", trial.what)?;
    }
    Ok(())
}
