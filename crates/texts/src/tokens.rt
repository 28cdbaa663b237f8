ghost use Rattle.texts.specs.Bounds.{bound_of};
ghost use Rattle.texts.specs.Lines.{letter};
ghost use Rattle.texts.specs.Numbers.{digit, every};
ghost use Rattle.texts.specs.Tokens.{piece, name_word, token_of};
ghost use Rattle.std.specs.Option.{option_map};
ghost use Rattle.std.specs.List.{prefix_len};
ghost use Rattle.std.specs.Prelude.{◌≡◌, ◌≤◌, length};

use crate::numbers::is_number;

// A word of a text, which it borrows. Each case has the line, which a token tells along with its bytes.
#[derive(Clone, Copy, Drop)]
pub enum Token<'a> {
    // Letters only, at least one.
    Name {
        bytes: &'a [u8],
        line: u32,
    },
    // One to ten digits, without a needless 0 in front.
    Number {
        bytes: &'a [u8],
        line: u32,
    },
    // A number, two full stops, and a second number or nothing. The parts are bytes as they stand in the word, so nothing is the empty part.
    Bound {
        first: &'a [u8],
        second: &'a [u8],
        line: u32,
    },
    // No shape that a text has a use for.
    Other {
        bytes: &'a [u8],
        line: u32,
    },
}

fn all_letters(word: &[u8]) -> bool
    ensures { result ≡ every letter word.now }
{
    word.iter().all(|b| b.is_ascii_lowercase())
}

// Whether the word has letters only, and at least one.
pub fn is_name(word: &[u8]) -> bool
    ensures { result ≡ name_word word.now }
{
    !word.is_empty() && all_letters(word)
}

// How many digits the word begins with.
fn digits_in_front(word: &[u8]) -> usize
    ensures value { result ≡ prefix_len digit word.now }
    ensures within { result ≤ length word.now }
{
    word.iter().take_while(|b| b.is_ascii_digit()).count()
}

// The two parts of a word that is a bound, of which the second may be empty.
fn bound_parts(word: &[u8]) -> Option<(&[u8], &[u8])>
    ensures { option_map (λ p. (p.0.now, p.1.now)) result ≡ bound_of word.now }
{
    let (first, tail) = word.split_at(digits_in_front(word));
    let second = tail.strip_prefix(b"..")?;
    let numbers = is_number(first) && (second.is_empty() || is_number(second));
    numbers.then_some((first, second))
}

// What the word is, by its shape alone.
pub fn token_of(word: &[u8], line: u32) -> Token<'_>
    ensures { piece result ≡ token_of word.now line }
{
    if is_name(word) {
        return Token::Name { bytes: word, line };
    }
    if is_number(word) {
        return Token::Number { bytes: word, line };
    }
    match bound_parts(word) {
        Some((first, second)) => Token::Bound {
            first,
            second,
            line,
        },
        None => Token::Other { bytes: word, line },
    }
}

#[cfg(test)]
mod tests {
    use super::*;

    #[test]
    fn words_are_told_by_shape(rt: HostRuntime) {
        assert!(rt; matches!(token_of(b"any", 3), Token::Name { line: 3, .. }));
        assert!(rt; matches!(token_of(b"70", 3), Token::Number { line: 3, .. }));
        assert!(rt;
            matches!(
                token_of(b"2..3", 3),
                Token::Bound {
                    first: [b'2'],
                    second: [b'3'],
                    line: 3
                }
            )
        );
        assert!(rt;
            matches!(
                token_of(b"2..", 3),
                Token::Bound {
                    first: [b'2'],
                    second: [],
                    line: 3
                }
            )
        );
    }

    #[test]
    fn other_words_have_no_use(rt: HostRuntime) {
        assert!(rt; matches!(token_of(b"007", 3), Token::Other { line: 3, .. }));
        assert!(rt; matches!(token_of(b"2..03", 3), Token::Other { .. }));
        assert!(rt; matches!(token_of(b"..3", 3), Token::Other { .. }));
        assert!(rt; matches!(token_of(b"2.3", 3), Token::Other { .. }));
    }
}
