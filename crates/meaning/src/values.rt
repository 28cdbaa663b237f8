ghost use Rattle.meaning.specs.Writing.{bound_word};
ghost use Rattle.std.specs.Prelude.{Some};

use std::fmt;

// One pair of a word: an event, and the ticks that passed since the pair before it, or since the start.
#[derive(Clone, Copy, Drop, PartialEq, Eq, Debug)]
pub struct Pair {
    pub event: u8,
    pub wait: u32,
}

// What an edge asks of one event's clock. `Never` holds only before the event first came; neither of the last two holds then.
#[derive(Clone, Copy, Drop, PartialEq, Eq, Debug)]
pub enum Bound {
    Any,
    Never,
    AtLeast(u8),
    Between(u8, u8),
}

// A bound is written as a table's text writes it: `any`, `none`, `2..` or `2..3`.
impl fmt::Display for Bound {
    ghost output = { λ b. Some (bound_word b) };

    fn fmt<W: fmt::Write>(&self, f: &mut fmt::Formatter<W>) -> fmt::Result {
        match self {
            Bound::Any => write!(f, "any"),
            Bound::Never => write!(f, "none"),
            Bound::AtLeast(least) => write!(f, "{least}.."),
            Bound::Between(least, most) => write!(f, "{least}..{most}"),
        }
    }
}

// A location of a table, numbered by where it stands in the table's list.
#[derive(Clone, Copy, Drop, PartialEq, Eq, Debug)]
pub struct Place {
    pub start: bool,
    pub accepting: bool,
}

// An edge takes its event from one place to another if every bound holds. There is a bound for each of eight events.
#[derive(Clone, Copy, Drop, PartialEq, Eq, Debug)]
pub struct Edge {
    pub source: u8,
    pub target: u8,
    pub event: u8,
    pub bounds: [Bound; 8],
}
