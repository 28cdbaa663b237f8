ghost use Rattle.texts.specs.Numbers.{digit, every, numeral, number, read_on};
ghost use Rattle.std.specs.Prelude.{◌≡◌, true};

// Behind `&&` the check does not find what a chain gives, so this one and that of letters have contracts of their own.
fn all_digits(word: &[u8]) -> bool
    ensures { result ≡ every digit word.now }
{
    word.iter().all(|b| b.is_ascii_digit())
}

// Whether the word is a number: one to ten digits, without a needless 0 in front.
pub(crate) fn is_number(word: &[u8]) -> bool
    ensures { result ≡ numeral word.now }
{
    match word {
        [] => false,
        // A 0 before another digit adds nothing, so each number has one writing.
        [b'0', _, ..] => false,
        _ => word.len() <= 10 && all_digits(word),
    }
}

// The value of the digits of a number.
fn read_digits(digits: &[u8]) -> u64
    requires { numeral digits.now ≡ true }
    ensures { result ≡ read_on 0 digits.now }
{
    let mut value = 0;
    for digit in digits {
        value = value * 10 + u64::from(*digit - b'0');
    }
    value
}

// The value of a word that is a number.
pub fn value(digits: &[u8]) -> Option<u64>
    ensures { result ≡ number digits.now }
{
    is_number(digits).then(|| read_digits(digits))
}

#[cfg(test)]
mod tests {
    use super::*;

    #[test]
    fn ten_digits_are_the_most(rt: HostRuntime) {
        assert_eq!(rt; value(b"9999999999"), Some(9_999_999_999));
        assert_eq!(rt; value(b"10000000000"), None);
        assert_eq!(rt; value(b""), None);
    }

    #[test]
    fn a_needless_zero_is_refused(rt: HostRuntime) {
        assert_eq!(rt; value(b"0"), Some(0));
        assert_eq!(rt; value(b"00"), None);
        assert_eq!(rt; value(b"007"), None);
        assert_eq!(rt; value(b"70"), Some(70));
    }
}
