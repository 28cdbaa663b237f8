ghost use Rattle.clocks.specs.Cells.{advanced_cell};
ghost use Rattle.meaning.specs.Stepping.{never, advanced, restarted, holds, holds_all};
ghost use Rattle.std.specs.Option.{option_eq};
ghost use Rattle.std.specs.Ordering.{on};
ghost use Rattle.std.specs.List.{list_all, zip};
ghost use Rattle.std.specs.Prelude.{◌≡◌, None, Decides, nat_eq, slice_index_or};
ghost use lib.Pointwise.{pointwise};
ghost use Rattle.std.specs.Cmp.Rules.{comparing};
ghost use Rattle.std.proofs.Common.{rules};

use meaning::values::Bound;

// For each of eight events the ticks since it last came, or None for never.
// A number may be as large as a cap plus 1, and a cap is a u8, so a cell is a u16.
#[derive(Clone, Copy, Eq, Drop)]
pub struct Reading {
    pub cells: [Option<u16>; 8],
}

impl Reading {
    // Before the first event of a word no event has come.
    pub fn never() -> Reading
        ensures { result.cells ≡ never }
    {
        Reading { cells: [None; 8] }
    }

    // The reading once the wait has passed. What lies above the cap becomes the cap plus 1, since no bound tells such numbers apart.
    pub fn advanced(self, wait: u32, cap: u8) -> Reading
        ensures { result.cells ≡ advanced «cap» wait self.cells }
    {
        let mut cells = self.cells;
        for cell in cells.iter_mut() {
            *cell = advanced_cell(*cell, wait, cap);
        }
        Reading { cells }
    }

    // The reading once the event has come. An event at or past the count has no clock, so that it changes no cell.
    pub fn restarted(self, event: u8, events: u8) -> Reading
        ensures { result.cells ≡ restarted events event self.cells }
    {
        let mut cells = self.cells;
        let place = usize::from(event);
        if event < events && place < cells.len() {
            cells[place] = Some(0);
        }
        Reading { cells }
    }

    // The ticks since the event last came. Past the eighth event there are none.
    pub fn cell(&self, event: u8) -> Option<u16>
        ensures { result ≡ slice_index_or self.now.cells event None }
    {
        self.cells.get(usize::from(event)).copied().flatten()
    }

    // Whether the readings are the same, as `==` answers it.
    pub fn is_same(&self, other: &Reading) -> bool
        ensures value { result ≡ pointwise (option_eq nat_eq) self.now.cells other.now.cells }
        ensures same { Decides result (self.now ≡ other.now) }
    {
        *self == *other
    }

    // Whether each bound holds of its event's cell.
    pub fn meets(&self, bounds: &[Bound; 8]) -> bool
        ensures { result ≡ holds_all bounds.now self.now.cells }
    {
        each_holds(bounds, &self.cells)
    }
}

// A derived `==` would promise what it computes of the cells, and not that it tells whether the readings are the same: callers of this one know both.
impl PartialEq for Reading {
    ghost eq = { on (λ r. r.cells) (pointwise (option_eq nat_eq)) };

    ghost laws = { Prim.search (comparing, rules) };

    fn eq(&self, other: &Reading) -> bool
        ensures value { result ≡ pointwise (option_eq nat_eq) self.now.cells other.now.cells }
        ensures same { Decides result (self.now ≡ other.now) }
    {
        is_equal(&self.cells, &other.cells)
    }
}

// This and `each_holds` stand alone: what `==` of arrays and a chain answer is found by the function's contract, and not inside a larger body.
fn is_equal(one: &[Option<u16>; 8], other: &[Option<u16>; 8]) -> bool
    ensures { result ≡ pointwise (option_eq nat_eq) one.now other.now }
{
    *one == *other
}

// The sum is taken in u64, where it cannot wrap, and fits a cell once it is capped.
fn advanced_cell(cell: Option<u16>, wait: u32, cap: u8) -> Option<u16>
    ensures { result ≡ advanced_cell «cap» wait cell }
{
    cell.map(|ticks| {
        let ticks = u64::from(ticks) + u64::from(wait);
        // At most 256, so the cast loses nothing.
        ticks.min(u64::from(cap) + 1) as u16
    })
}

// Whether each bound holds of the cell beside it.
fn each_holds(bounds: &[Bound], cells: &[Option<u16>]) -> bool
    ensures { result ≡ list_all (λ p. holds p.0 p.1) (zip bounds.now cells.now) }
{
    bounds
        .iter()
        .zip(cells)
        .all(|(bound, cell)| holds(*bound, *cell))
}

// Whether the bound holds of one cell.
fn holds(bound: Bound, cell: Option<u16>) -> bool
    ensures { result ≡ holds bound cell }
{
    match (bound, cell) {
        (Bound::Any, _) => true,
        (Bound::Never, None) => true,
        (Bound::AtLeast(least), Some(ticks)) => u16::from(least) <= ticks,
        (Bound::Between(least, most), Some(ticks)) => u16::from(least) <= ticks
            && ticks <= u16::from(most),
        _ => false,
    }
}

#[cfg(test)]
mod tests {
    use super::*;

    #[test]
    fn a_wait_stops_above_the_cap(rt: HostRuntime) {
        let reading = Reading {
            cells: [Some(2), None, None, None, None, None, None, None],
        };
        assert_eq!(rt; reading.advanced(1, 3).cell(0), Some(3));
        assert_eq!(rt; reading.advanced(2, 3).cell(0), Some(4));
        assert_eq!(rt; reading.advanced(u32::MAX, 3).cell(0), Some(4));
        assert_eq!(rt; reading.advanced(1, 3).cell(1), None, "never stays never");
    }

    #[test]
    fn only_a_counted_event_restarts(rt: HostRuntime) {
        let reading = Reading::never();
        assert_eq!(rt; reading.restarted(1, 2).cell(1), Some(0));
        assert!(rt; reading.restarted(2, 2) == reading, "past the count");
        assert!(rt;
            reading.restarted(8, 255) == reading,
            "past the eighth cell"
        );
    }

    #[test]
    fn every_bound_is_asked(rt: HostRuntime) {
        let reading = Reading::never().restarted(7, 8).advanced(2, 9);
        let mut bounds = [Bound::Any; 8];
        assert!(rt; reading.meets(&bounds));
        bounds[7] = Bound::Between(1, 2);
        assert!(rt; reading.meets(&bounds));
        bounds[7] = Bound::AtLeast(3);
        assert!(rt; !reading.meets(&bounds));
    }
}
