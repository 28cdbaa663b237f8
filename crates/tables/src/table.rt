ghost use Rattle.tables.specs.Forms.{form};
ghost use Rattle.tables.specs.Lawful.{standing};
ghost use Rattle.meaning.specs.Stepping.{cap_of};
ghost use Rattle.std.specs.Prelude.{◌≡◌, true};

use clocks::name::Name;
use meaning::values::{Edge, Place};

pub mod behaving;
pub mod making;

// An event-recording automaton: the length of its tick in milliseconds, its events by name, its places and its edges.
// It is lawful or blank, and keeps its cap, the largest number in its bounds.
// Ghost fields and no `impl Model`: of a value with a model, callers know its Value and not its invariant. Of any table they know these fields; sheets takes from `lawful` that the names are lawful, different and at most eight.
#[derive(Drop)]
pub struct Table {
    tick: u16,
    names: Vec<Name>,
    places: Vec<Place>,
    edges: Vec<Edge>,
    cap: u8,
    ghost lawful: { standing (form tick names.items places.items edges.items) ≡ true },
    ghost capped: { «cap» ≡ cap_of edges.items },
}
