ghost use Rattle.formats.specs.Faults.{line_number, refusal, refusal_in};
ghost use Rattle.std.specs.Option.{option_map};
ghost use Rattle.std.specs.Prelude.{◌≡◌};

use texts::fault::TextFault;

// The number of a refusal, and the line that it names; line 0 is none.
// These are the numbers of docs/REFUSALS.md, and all that is told outside; the code itself goes by the enums below.
#[derive(Clone, Copy, Drop, PartialEq, Eq, Debug)]
pub struct Refusal {
    pub number: u8,
    pub line: u32,
}

// Why a text of sheets is not taken. The first case holds the fault of the text itself; want of memory says nothing of the text.
#[derive(Clone, Copy, Drop, PartialEq, Eq, Debug)]
pub enum SheetFault {
    Text(TextFault),
    // A wrong head, a bad event name, or a sheet lacks.
    Head { line: u32 },
    // Wrong number of words, or a word that its column does not take.
    Word { line: u32 },
    // A number out of range.
    Range { line: u32 },
    // Too many or too few lines or events.
    Count { line: u32 },
    Memory,
}

// What is wrong with a line where it stands.
#[derive(Clone, Copy, Drop, PartialEq, Eq, Debug)]
pub enum LineFault {
    Spacing,
    Head,
    Word,
    Range,
    Count,
    Memory,
}

impl LineFault {
    // The same as a fault of the text in which the line stands.
    pub fn at_line(&self, line: u32) -> SheetFault
        ensures { refusal result ≡ option_map (λ n. record { number = n; line = line }) (line_number self.now) }
    {
        match self {
            LineFault::Spacing => SheetFault::Text(TextFault::BadSpacing { line }),
            LineFault::Head => SheetFault::Head { line },
            LineFault::Word => SheetFault::Word { line },
            LineFault::Range => SheetFault::Range { line },
            LineFault::Count => SheetFault::Count { line },
            LineFault::Memory => SheetFault::Memory,
        }
    }
}

impl SheetFault {
    // The refusal that the fault tells; none for want of memory.
    pub fn refusal(&self) -> Option<Refusal>
        ensures { option_map refusal_in result ≡ refusal self.now }
    {
        let (number, line) = match self {
            SheetFault::Text(fault) => (fault.number(), fault.line()),
            SheetFault::Head { line } => (4, *line),
            SheetFault::Word { line } => (5, *line),
            SheetFault::Range { line } => (6, *line),
            SheetFault::Count { line } => (7, *line),
            // One case tells none. A `Some` around each of the five others, or an `Option` of the pair and a `map`, is no plainer.
            SheetFault::Memory => return None,
        };
        Some(Refusal { number, line })
    }
}
