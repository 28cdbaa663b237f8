ghost use Rattle.texts.specs.Lines.{end_from, goes_on, line_at, line_end, lines, unended, word_end};
ghost use Rattle.std.specs.List.{slice_get, prefix_len};
ghost use Rattle.std.specs.Option.{option_map};
ghost use Rattle.std.specs.Prelude.{◌≡◌, ◌≤◌, min, length};

// Which bytes belong to a run. The first that does not ends it.
// A closure in its place would ask of callers that it may be called, and no public call has a `requires`.
#[derive(Clone, Copy, Drop)]
pub enum Run {
    // All but byte 10.
    InLine,
    // All but the space and byte 10.
    InWord,
    // All but the space: a word of a line by itself.
    NoSpace,
}

impl Run {
    fn goes_on(self, b: u8) -> bool
        ensures { result ≡ goes_on self b }
    {
        match self {
            Run::InLine => b != b'\n',
            Run::InWord => !matches!(b, b' ' | b'\n'),
            Run::NoSpace => b != b' ',
        }
    }

    // How many bytes of the run the text begins with.
    fn front_of(self, text: &[u8]) -> usize
        ensures value { result ≡ prefix_len (goes_on self) text.now }
        ensures within { result ≤ length text.now }
    {
        text.iter().take_while(|b| self.goes_on(**b)).count()
    }
}

// The place of the first byte at or after `from` that ends the run, or the text's length if there is none.
#[tactic(auto, using(std::proofs::lemmas::List::drop_min))]
pub fn end_from(text: &[u8], from: usize, run: Run) -> usize
    ensures value { result ≡ end_from (goes_on run) text.now from }
    ensures within { result ≤ length text.now }
    ensures after { min from (length text.now) ≤ result }
{
    let start = from.min(text.len());
    start + run.front_of(&text[start..])
}

// The place of the first byte 10 at or after `from`, or the text's length if there is none.
// This and `word_end` are names for one function at two runs: what they promise is told without a run.
pub fn line_end(text: &[u8], from: usize) -> usize
    ensures value { result ≡ line_end text.now from }
    ensures within { result ≤ length text.now }
    ensures after { min from (length text.now) ≤ result }
{
    end_from(text, from, Run::InLine)
}

// The place of the first space or byte 10 at or after `from`, or the text's length if there is none.
pub fn word_end(text: &[u8], from: usize) -> usize
    ensures value { result ≡ word_end text.now from }
    ensures within { result ≤ length text.now }
    ensures after { min from (length text.now) ≤ result }
{
    end_from(text, from, Run::InWord)
}

// The text without the byte 10 at its end, if one is there.
#[tactic(auto, using(crate::proofs::Ends::unended_is))]
fn unended(text: &[u8]) -> &[u8]
    ensures { result.now ≡ unended text.now }
{
    match text {
        [front @ .., b'\n'] => front,
        _ => text,
    }
}

// The line that comes after `before` others. The empty text has none.
fn line_after(text: &[u8], before: u32) -> Option<&[u8]>
    ensures { option_map (λ x. x.now) result ≡ slice_get (lines text.now) before }
{
    (!text.is_empty())
        .then_some(unended(text))?
        .split(|b| *b == b'\n')
        .nth(before as usize)
}

// Line `number` of the text, from 1, without the byte that ends it.
pub fn line_at(text: &[u8], number: u32) -> Option<&[u8]>
    ensures { option_map (λ x. x.now) result ≡ line_at number text.now }
{
    line_after(text, number.checked_sub(1)?)
}

#[cfg(test)]
mod tests {
    use super::*;

    #[test]
    fn lines_are_numbered_from_1(rt: HostRuntime) {
        let text = b"ab\n\nc";
        assert_eq!(rt; line_at(text, 0), None);
        assert_eq!(rt; line_at(text, 1), Some(b"ab".as_slice()));
        assert_eq!(rt; line_at(text, 2), Some(b"".as_slice()));
        assert_eq!(rt; line_at(text, 3), Some(b"c".as_slice()));
        assert_eq!(rt; line_at(text, 4), None);
        assert_eq!(rt; line_at(b"c\n", 2), None);
    }
}
