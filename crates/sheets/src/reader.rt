ghost use Rattle.sheets.specs.Reader.{parts_of};
ghost use Rattle.formats.specs.TableText.{held, start};
ghost use Rattle.tables.specs.Held.{contents};
ghost use Rattle.tables.specs.Lawful.{lawful};
ghost use Rattle.std.specs.Prelude.{◌≡◌, true};

pub mod steps;

use clocks::name::Name;
use formats::stage::Stage;
use meaning::values::{Edge, Place};
use std::alloc::Global;
use tables::table::Table;

// A table text as far as it has been read.
#[derive(Drop)]
pub struct TableReader {
    pub stage: Stage,
    pub tick: Option<u16>,
    pub places: Vec<Place>,
    pub names: Vec<Name>,
    pub edges: Vec<Edge>,
}

impl TableReader {
    // Before the first line.
    pub(crate) fn new(heap: Global) -> TableReader
        ensures { parts_of result ≡ start }
    {
        TableReader {
            stage: Stage::TickHead,
            tick: None,
            places: Vec::new(heap),
            names: Vec::new(heap),
            edges: Vec::new(heap),
        }
    }

    // The table of all that was read. Where that is lawful, neither tick 0 nor the blank table comes.
    pub(crate) fn table(self, heap: Global) -> Table
        requires { lawful (held (parts_of self)) ≡ true }
        ensures { contents result ≡ held (parts_of self) }
    {
        let tick = self.tick.unwrap_or(0);
        Table::new(tick, self.names, self.places, self.edges).unwrap_or_else(|| Table::blank(heap))
    }
}
