ghost use Rattle.judges.specs.Cursor.{Here, StandsAt, Starts, Steps, left};
ghost use Rattle.std.specs.Iterator.{item_count};
ghost use Rattle.std.specs.Prelude.{◌≡◌, ◌<◌, length, nat_lt};

use formats::line::TextLine;
use texts::lines::line_end;

// The lines of a text in turn, with the number of the next one. Past the largest `u32` the number stays.
// The text stays whole beside the place: whether its last line is ended is a fact of the whole text, and of no rest of it.
#[derive(Clone, Copy, Drop)]
pub struct Lines<'a> {
    text: &'a [u8],
    at: usize,
    number: u32,
}

// Whether a byte stands where a line ends. It is byte 10, and ends the line; else the text ends there.
fn is_ended(text: &[u8], end: usize) -> bool
    ensures { result ≡ nat_lt end (length text.now) }
{
    end < text.len()
}

// The line at a place in the text.
fn line_at(text: &[u8], at: usize, number: u32) -> TextLine<'_>
    requires { at < length text.now }
    ensures { Here text.now at number result }
{
    let end = line_end(text, at);
    TextLine {
        bytes: &text[at..end],
        last: end + 1 >= text.len(),
        ended: is_ended(text, end),
        number,
    }
}

// The line at a place; none at the end of the text.
fn line_from(text: &[u8], at: usize, number: u32) -> Option<TextLine<'_>>
    ensures { StandsAt text.now at number result }
{
    (at < text.len()).then(|| line_at(text, at, number))
}

impl<'a> Lines<'a> {
    // At the first line.
    pub fn new(text: &'a [u8]) -> Lines<'a>
        ensures { Starts text.now result }
    {
        Lines {
            text,
            at: 0,
            number: 1,
        }
    }
}

impl<'a> Iterator for Lines<'a> {
    type Item = TextLine<'a>;

    // The line is the first of those left, and stands where it stands among them.
    ghost next_gives = { λ s r t. Steps s t r };

    ghost remaining = { item_count left };

    fn next(&mut self) -> Option<TextLine<'a>> {
        let line = line_from(self.text, self.at, self.number)?;
        self.at += line.bytes.len() + 1;
        self.number = self.number.saturating_add(1);
        Some(line)
    }
}
