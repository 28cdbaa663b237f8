ghost use Rattle.rows.specs.Rows.{number_in, flag_in, event_in, bound_in, claimed_in};
ghost use Rattle.std.specs.Prelude.{◌≡◌};

use crate::cell::Cell;
use meaning::values::Bound;

// No public call has a `requires`, so each of these has an answer for every cell, and no caller has to show what its column already tells.
// Each takes one case out of a cell, of a type of its own, which a plain `match` shows.

// The number that a claim tells, if it tells one.
pub fn claimed_in(cell: Cell) -> Option<u64>
    ensures { result ≡ claimed_in cell }
{
    match cell {
        Cell::Number(number) => Some(number),
        _ => None,
    }
}

pub fn number_in(cell: Cell) -> u64
    ensures { result ≡ number_in cell }
{
    claimed_in(cell).unwrap_or(0)
}

pub fn flag_in(cell: Cell) -> bool
    ensures { result ≡ flag_in cell }
{
    match cell {
        Cell::Flag(flag) => flag,
        _ => false,
    }
}

pub fn event_in(cell: Cell) -> u8
    ensures { result ≡ event_in cell }
{
    match cell {
        Cell::Event(event) => event,
        _ => 0,
    }
}

pub fn bound_in(cell: Cell) -> Bound
    ensures { result ≡ bound_in cell }
{
    match cell {
        Cell::Bounded(bound) => bound,
        _ => Bound::Any,
    }
}
