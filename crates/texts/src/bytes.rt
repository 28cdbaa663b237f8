ghost use Rattle.texts.specs.Faults.{bytes_fault};
ghost use Rattle.texts.specs.Lines.{allowed, bad_byte};
ghost use Rattle.std.specs.Result.{result_err};
ghost use Rattle.std.specs.List.{position};
ghost use Rattle.std.specs.Prelude.{◌≡◌, ◌==◌, ◌^◌, ◌<◌, count_by, length, not};

use crate::fault::TextFault;

fn is_allowed(b: u8) -> bool
    ensures { result ≡ allowed b }
{
    matches!(b, b'a'..=b'z' | b'0'..=b'9' | b'.' | b' ' | b'\n')
}

// Where the first byte is that no text may have.
fn first_bad(text: &[u8]) -> Option<usize>
    ensures { result ≡ position (λ b. not (allowed b)) text.now }
{
    text.iter().position(|b| !is_allowed(*b))
}

// How many bytes of the text are this one.
pub(crate) fn count_of(text: &[u8], byte: u8) -> usize
    ensures { result ≡ count_by (λ b. b == byte) text.now }
{
    text.iter().filter(|b| **b == byte).count()
}

// The line, from 1, of the first byte that no text may have.
#[tactic(auto, using(crate::proofs::Faulty::bad_byte_at))]
fn bad_line(text: &[u8]) -> Option<u32>
    requires { length text.now < 2 ^ 32 }
    ensures { result ≡ bad_byte text.now }
{
    let at = first_bad(text)?;
    // The text has fewer than 2 ^ 32 bytes, so the cast loses nothing.
    Some(count_of(&text[..at], b'\n') as u32 + 1)
}

// Whether the text has at most `most` bytes, and none but those that a text may have.
// The length is tested first, so that each byte's line is a `u32`.
pub fn check_bytes(text: &[u8], most: u32) -> Result<(), TextFault>
    ensures { result_err result ≡ bytes_fault most text.now }
{
    if text.len() > most as usize {
        return Err(TextFault::TooLong);
    }
    // No method of an `Option` makes an `Err` of what it holds, and `map_or` would say less plainly which case is which.
    match bad_line(text) {
        Some(line) => Err(TextFault::BadByte { line }),
        None => Ok(()),
    }
}
