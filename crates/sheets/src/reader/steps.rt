ghost use Rattle.formats.specs.Faults.{line_in};
ghost use Rattle.sheets.specs.Reader.{parts_of};
ghost use Rattle.sheets.specs.Reading.{Leads};
ghost use Rattle.formats.specs.TableText.{Parts, step_at, table_step};
ghost use Rattle.formats.specs.TableGood.{GoodAt};
ghost use Rattle.formats.proofs.TableRead.{good-kept};
ghost use Rattle.formats.specs.declared.stage.Stage.TheVariants.{PlaceRows, EdgeHead, EdgeRows};
ghost use Rattle.rows.specs.Rows.{bound_in};
ghost use Rattle.std.specs.Prelude.{◌≡◌, ◌≤◌, map, length, drop};

use crate::reader::TableReader;
use crate::reading::LineReader;
use crate::shared::{head, tick_row};
use clocks::events::Events;
use formats::fault::LineFault;
use formats::line::{SheetLimits, SheetRows, TextLine};
use formats::stage::Stage;
use judges::heads::judge_edge_head;
use judges::judging::judge_row_for;
use meaning::values::{Bound, Edge, Place};
use rows::cell::{Row, RowKind};
use rows::content::{bound_in, event_in, flag_in, number_in};

const PLACES: SheetLimits = SheetLimits {
    least: 1,
    most: 32,
    more: 1,
};

const EDGES: SheetLimits = SheetLimits {
    least: 0,
    most: 64,
    more: 0,
};

// The bounds in a row of an edge, which follow its places and its event.
fn bounds_in(row: Row) -> [Bound; 8]
    ensures { result ≡ map bound_in (drop 3 row.cells) }
{
    let [_, _, _, a, b, c, d, e, f, g, h] = row.cells;
    [a, b, c, d, e, f, g, h].map(bound_in)
}

impl TableReader {
    // A row of a place, or the end of the places. This, a row of an edge and one of a distance have the call of `judge_row_for` alike:
    // each makes another value, and only places end by an empty line.
    fn place_row(&mut self, line: TextLine) -> Result<(), LineFault>
        ensures { Leads result (parts_of self.new) (step_at PlaceRows (parts_of self.old) (line_in line.entry)) }
    {
        let rows = SheetRows {
            limits: PLACES,
            count: self.places.len(),
        };
        let kind = RowKind::Place(rows.count as u64);
        match judge_row_for(line, rows, kind, &Events::first_eight(&[]))? {
            None => self.stage = Stage::EdgeHead,
            Some(row) => {
                self.stage = Stage::PlaceRows;
                let start = flag_in(row.cells[1]);
                let accepting = flag_in(row.cells[2]);
                self.places.push(Place { start, accepting })?;
            }
        }
        Ok(())
    }

    // The head of the edges, with the names of the events.
    fn edge_head(&mut self, line: TextLine) -> Result<(), LineFault>
        ensures { Leads result (parts_of self.new) (step_at EdgeHead (parts_of self.old) (line_in line.entry)) }
    {
        self.names = judge_edge_head(*self.names.allocator(), line)?;
        self.stage = Stage::EdgeRows;
        Ok(())
    }

    // A row of an edge.
    fn edge_row(&mut self, line: TextLine) -> Result<(), LineFault>
        requires places { length self.old.places.items ≤ 32 }
        requires names { length self.old.names.items ≤ 8 }
        ensures { Leads result (parts_of self.new) (step_at EdgeRows (parts_of self.old) (line_in line.entry)) }
    {
        let rows = SheetRows {
            limits: EDGES,
            count: self.edges.len(),
        };
        let most = self.places.len().saturating_sub(1) as u64;
        let events = Events::first_eight(self.names.as_slice());
        let kind = RowKind::Edge(most, events.count());
        self.stage = Stage::EdgeRows;
        if let Some(row) = judge_row_for(line, rows, kind, &events)? {
            // The numbers are within their columns, so that the casts lose nothing.
            let source = number_in(row.cells[0]) as u8;
            let target = number_in(row.cells[1]) as u8;
            let event = event_in(row.cells[2]);
            let bounds = bounds_in(row);
            self.edges.push(Edge {
                source,
                target,
                event,
                bounds,
            })?;
        }
        Ok(())
    }
}

impl LineReader for TableReader {
    ghost Parts = { Parts };

    ghost parts = { parts_of };

    ghost step = { λ _. table_step };

    ghost Good = { λ s. GoodAt s.stage s };

    ghost Lacks = { Unit {0} };

    fn line(&mut self, line: TextLine) -> Result<(), LineFault> {
        match self.stage {
            Stage::TickHead => head(&mut self.stage, Stage::TickRows, line, 2, b"tick"),
            Stage::TickRows => tick_row(&mut self.stage, &mut self.tick, Stage::PlaceHead, line, 2),
            Stage::PlaceHead => {
                head(
                    &mut self.stage,
                    Stage::PlaceRows,
                    line,
                    1,
                    b"place start final",
                )
            }
            Stage::PlaceRows => self.place_row(line),
            Stage::EdgeHead => self.edge_head(line),
            Stage::EdgeRows => self.edge_row(line),
        }
    }

    ghost keeps = { λ _ s t l. good-kept s t l };
}
