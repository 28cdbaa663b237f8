ghost use Rattle.clocks.specs.Texts.{text};
ghost use Rattle.tables.specs.Forms.{form};
ghost use Rattle.tables.specs.Held.{contents};
ghost use Rattle.tables.specs.Lawful.{lawful, blank};
ghost use Rattle.meaning.specs.Stepping.{cap_of};
ghost use Rattle.std.specs.Prelude.{◌≡◌, ◌≤◌, map, length, if◌then◌else◌, Some, None};
ghost use Rattle.std.specs.Option.{option_map};

use crate::limits::{are_lawful, cap_of};
use crate::table::Table;
use clocks::name::Name;
use meaning::values::{Edge, Place};
use std::alloc::Global;

impl Table {
    // The table with tick 0 and nothing in it.
    pub fn blank(heap: Global) -> Table
        ensures { contents result ≡ blank }
    {
        Table {
            tick: 0,
            names: Vec::new(heap),
            places: Vec::new(heap),
            edges: Vec::new(heap),
            cap: 0,
        }
    }

    // The table with these parts; none exactly when a limit is broken.
    // `then` was tried: its closure, which knows nothing of the test, asks for clauses of its own.
    pub fn new(tick: u16, names: Vec<Name>, places: Vec<Place>, edges: Vec<Edge>) -> Option<Table>
        ensures { option_map contents result ≡ (if lawful (form tick names.items places.items edges.items) then Some (form tick names.items places.items edges.items) else None) }
    {
        if !are_lawful(tick, names.as_slice(), places.as_slice(), edges.as_slice()) {
            return None;
        }
        let cap = cap_of(edges.as_slice());
        Some(Table {
            tick,
            names,
            places,
            edges,
            cap,
        })
    }

    pub fn tick(&self) -> u16
        ensures { result ≡ (contents self.now).tick }
    {
        self.tick
    }

    pub fn names(&self) -> &[Name]
        ensures { map text result.now ≡ (contents self.now).names }
    {
        self.names.as_slice()
    }

    #[tactic(auto, using(crate::proofs::Held::places_are_few))]
    pub fn places(&self) -> &[Place]
        ensures value { result.now ≡ (contents self.now).places }
        ensures few { length result.now ≤ 32 }
    {
        self.places.as_slice()
    }

    pub fn edges(&self) -> &[Edge]
        ensures { result.now ≡ (contents self.now).edges }
    {
        self.edges.as_slice()
    }

    // How many events the table has.
    #[tactic(auto, using(crate::proofs::Held::names_are_few))]
    pub fn events(&self) -> u8
        ensures { result ≡ length (contents self.now).names }
    {
        // At most eight, so the cast loses nothing.
        self.names.len() as u8
    }

    // The largest number in the table's bounds, or 0.
    pub fn cap(&self) -> u8
        ensures { result ≡ cap_of (contents self.now).edges }
    {
        self.cap
    }
}
