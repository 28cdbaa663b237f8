ghost use Rattle.formats.specs.Faults.{line_in};
ghost use Rattle.formats.specs.Walk.{Line, reading, walk};
ghost use Rattle.sheets.specs.Reading.{TakesLine, TakesText};
ghost use Rattle.texts.specs.Lines.{ended, lines};
ghost use Rattle.std.specs.Prelude.{◌≡◌, ◌≤◌, ℕ, Result, Ok, length};

use formats::fault::{LineFault, SheetFault};
use formats::line::TextLine;
use judges::cursor::Lines;
use texts::bytes::check_bytes;
use texts::fault::TextFault;

// What reads one kind of text, line by line.
pub(crate) trait LineReader {
    // What has been read so far, as the definitions have it.
    ghost Parts: { Type 0 };

    ghost parts: { Self → Parts };

    // What the definitions make of one more line.
    ghost step: { Self → Parts → Line → Result Parts ℕ };

    // What is so of the parts wherever the lines lead.
    ghost Good: { Parts → Type 0 };

    // Whether memory may be wanting.
    ghost Lacks: { Type 0 };

    // The next line, wherever it stands.
    fn line(&mut self, line: TextLine) -> Result<(), LineFault>
        requires { Good (parts self.old) }
        ensures line { TakesLine Lacks result (parts self.new) (step self.old (parts self.old) (line_in line.entry)) }
        ensures same { step self.new ≡ step self.old };

    // A line that is taken leaves it so.
    ghost keeps: { (r : Self) (s t : Parts) (l : Line) → Good s → step r s l ≡ Ok t → Good t };
}

// All lines in turn. The first that is refused refuses the text.
fn read_lines<R: LineReader>(reader: &mut R, text: &[u8]) -> Result<(), SheetFault>
    requires short { length text.now ≤ 65536 }
    requires good { R.Good (R.parts reader.old) }
    ensures { TakesText R.Lacks result (R.parts reader.new) (walk (R.step reader.old) (ended text.now) (R.parts reader.old) 1 (lines text.now)) }
{
    for line in Lines::new(text) {
        reader
            .line(line)
            .map_err(|fault| fault.at_line(line.number))?;
    }
    Ok(())
}

// The length and the bytes of a text, and then its lines, of which it has to have one.
pub(crate) fn read_text<R: LineReader>(
    reader: &mut R,
    text: &[u8],
    most: u32,
) -> Result<(), SheetFault>
    requires few { most ≤ 65536 }
    requires good { R.Good (R.parts reader.old) }
    ensures { TakesText R.Lacks result (R.parts reader.new) (reading most (R.step reader.old) (R.parts reader.old) text.now) }
{
    check_bytes(text, most)?;
    if text.is_empty() {
        // Line 0, which is none: the text has no line.
        return Err(SheetFault::Text(TextFault::BadSpacing { line: 0 }));
    }
    read_lines(reader, text)
}
