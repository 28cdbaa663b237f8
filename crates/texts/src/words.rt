ghost use Rattle.texts.specs.Lines.{words, spaced};
ghost use Rattle.std.specs.Prelude.{◌≡◌, not, length};

use crate::bytes::count_of;

// Whether a word of the line is empty: two spaces stand side by side, or one at an end, or nothing stands at all.
fn has_empty_word(line: &[u8]) -> bool
    ensures { result ≡ not (spaced line.now) }
{
    // One pass over the bytes, since every line is asked: to split it into its words first takes up to twice as long.
    // The word that the next byte comes to has no byte yet.
    let mut empty = true;
    for b in line {
        let space = *b == b' ';
        if space && empty {
            return true;
        }
        empty = space;
    }
    empty
}

// Whether the line has words, parted by one space each, with none at either end.
pub fn is_spaced(line: &[u8]) -> bool
    ensures { result ≡ spaced line.now }
{
    !has_empty_word(line)
}

// How many words the line has: one more than spaces.
#[tactic(auto, using(crate::proofs::Counting::length_words))]
pub fn word_count(line: &[u8]) -> usize
    ensures { result ≡ length (words line.now) }
{
    count_of(line, b' ') + 1
}
