ghost use Rattle.sheets.specs.DistanceReading.{distance_parts_of};
ghost use Rattle.sheets.specs.Reading.{Leads};
ghost use Rattle.formats.specs.DistanceText.{DistanceParts, distance_step, distance_step_at};
ghost use Rattle.formats.specs.Faults.{line_in};
ghost use Rattle.formats.specs.declared.distance.DistanceStage.TheVariants.{LineRows};
ghost use Rattle.std.specs.Prelude.{◌≡◌};

use crate::reading::LineReader;
use crate::shared::{head, tick_row};
use crate::spans::DistanceReader;
use formats::distance::{Distance, DistanceStage};
use formats::fault::LineFault;
use formats::line::{SheetLimits, SheetRows, TextLine};
use judges::judging::judge_row_for;
use rows::cell::RowKind;
use rows::content::{event_in, number_in};

const DISTANCES: SheetLimits = SheetLimits {
    least: 0,
    most: 16,
    more: 0,
};

impl<'a> DistanceReader<'a> {
    // A row of a distance.
    fn distance_row(&mut self, line: TextLine) -> Result<(), LineFault>
        ensures gives { Leads result (distance_parts_of self.new) (distance_step_at self.old.events LineRows (distance_parts_of self.old) (line_in line.entry)) }
        ensures same { self.new.events ≡ self.old.events }
    {
        self.stage = DistanceStage::LineRows;
        let rows = SheetRows {
            limits: DISTANCES,
            count: self.lines.len(),
        };
        if let Some(row) = judge_row_for(line, rows, RowKind::Distance, &self.events)? {
            let on = event_in(row.cells[0]);
            let since = event_in(row.cells[1]);
            // Both are at most 250, so that the casts lose nothing.
            let least = number_in(row.cells[2]) as u8;
            let most = number_in(row.cells[3]) as u8;
            self.lines.push(Distance {
                on,
                since,
                least,
                most,
            })?;
        }
        Ok(())
    }
}

impl<'a> LineReader for DistanceReader<'a> {
    ghost Parts = { DistanceParts };

    ghost parts = { distance_parts_of };

    ghost step = { λ r. distance_step r.events };

    ghost Good = { λ _. Unit {0} };

    ghost Lacks = { Unit {0} };

    fn line(&mut self, line: TextLine) -> Result<(), LineFault> {
        match self.stage {
            DistanceStage::TickHead => {
                head(&mut self.stage, DistanceStage::TickRows, line, 1, b"tick")
            }
            DistanceStage::TickRows => {
                let head = DistanceStage::LineHead;
                tick_row(&mut self.stage, &mut self.tick, head, line, 1)
            }
            DistanceStage::LineHead => {
                let rows = DistanceStage::LineRows;
                head(&mut self.stage, rows, line, 0, b"on since least most")
            }
            DistanceStage::LineRows => self.distance_row(line),
        }
    }

    ghost keeps = { λ _ _ _ _ _ _. tt {0} };
}
