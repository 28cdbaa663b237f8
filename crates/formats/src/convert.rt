ghost use Rattle.formats.specs.declared.fault.LineFault.TheVariants as line;
ghost use Rattle.formats.specs.declared.fault.SheetFault.TheVariants as sheet;
ghost use Rattle.formats.specs.EntryLines.{claim_in};
ghost use Rattle.formats.specs.Faults.{row_fault};
ghost use Rattle.std.specs.Prelude.{◌≡◌};

use crate::claim::Claim;
use crate::fault::{LineFault, SheetFault};
use rows::cell::{Row, WordFault};
use rows::content::{claimed_in, number_in};
use std::alloc::AllocFailed;
use std::array;
use texts::fault::TextFault;

// Want of memory, whatever found no place.
impl<T: Drop> From<AllocFailed<T>> for LineFault {
    ghost from_gives = { λ _ r. r ≡ line.Memory };

    fn from(refused: AllocFailed<T>) -> LineFault {
        drop(refused);
        LineFault::Memory
    }
}

// The same as a fault of a text. One impl for both types would be a macro's, and no macro here writes an impl.
impl<T: Drop> From<AllocFailed<T>> for SheetFault {
    ghost from_gives = { λ _ r. r ≡ sheet.Memory };

    fn from(refused: AllocFailed<T>) -> SheetFault {
        drop(refused);
        SheetFault::Memory
    }
}

// A fault of sheets holds the fault of the text whole.
impl From<TextFault> for SheetFault {
    ghost from_gives = { λ e r. r ≡ sheet.Text e };

    fn from(fault: TextFault) -> SheetFault {
        SheetFault::Text(fault)
    }
}

// What is wrong with a word is wrong with its line.
impl From<WordFault> for LineFault {
    ghost from_gives = { λ e r. r ≡ row_fault e };

    fn from(fault: WordFault) -> LineFault {
        match fault {
            WordFault::Misfit => LineFault::Word,
            WordFault::OutOfRange => LineFault::Range,
        }
    }
}

// A row of a claim has a place, a state, and a cell for each of eight events.
impl From<Row> for Claim {
    ghost from_gives = { λ row c. c ≡ claim_in row.cells };

    fn from(row: Row) -> Claim {
        let cells = row.cells;
        Claim {
            place: number_in(cells[0]),
            state: number_in(cells[1]),
            cells: array::from_fn(|event| claimed_in(cells[event + 2])),
        }
    }
}
