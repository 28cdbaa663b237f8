ghost use Rattle.texts.specs.Faults.{text_number, text_line};
ghost use Rattle.std.specs.Prelude.{◌≡◌};

// What is wrong with a text as a row of bytes. Lines are numbered from 1.
#[derive(Clone, Copy, Drop, PartialEq, Eq, Debug)]
pub enum TextFault {
    TooLong,
    BadByte { line: u32 },
    BadSpacing { line: u32 },
}

impl TextFault {
    // Faults are published as numbers: a refusal is printed as its fault's number and line.
    pub fn number(&self) -> u8
        ensures { result ≡ text_number self.now }
    {
        match self {
            TextFault::TooLong => 1,
            TextFault::BadByte { .. } => 2,
            TextFault::BadSpacing { .. } => 3,
        }
    }

    // The line at fault, or 0 for a text that is too long, where no one line is: a refusal is printed with line 0 where it has none.
    pub fn line(&self) -> u32
        ensures { result ≡ text_line self.now }
    {
        match self {
            TextFault::TooLong => 0,
            TextFault::BadByte { line } => *line,
            TextFault::BadSpacing { line } => *line,
        }
    }
}
