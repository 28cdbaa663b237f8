ghost use Rattle.clocks.specs.Texts.{text};
ghost use Rattle.std.specs.Prelude.{◌≡◌, Some};

use super::Name;
use std::fmt;

impl Name {
    // The letters as text. Letters are always text, so the other case does not come.
    fn as_str(&self) -> &str
        ensures { result.now ≡ text self.now }
    {
        std::str::from_utf8(self.bytes()).unwrap_or("")
    }
}

// A name is written as its letters.
impl fmt::Display for Name {
    ghost output = { λ n. Some (text n) };

    fn fmt<W: fmt::Write>(&self, f: &mut fmt::Formatter<W>) -> fmt::Result {
        write!(f, "{}", self.as_str())
    }
}
