ghost use Rattle.clocks.specs.Texts.{text};
ghost use Rattle.clocks.specs.Letters.{lawful_name};
ghost use Rattle.std.specs.Option.{option_map};
ghost use Rattle.std.specs.Prelude.{◌≡◌, ◌≤◌, length, take, if◌then◌else◌, Some, None, Decides, bytes_eq};
ghost use Rattle.std.specs.Cmp.Rules.{comparing};
ghost use Rattle.std.proofs.Common.{rules};

use super::Name;
use texts::tokens::is_name;

// The bytes, and `a` from there on.
fn padded(bytes: &[u8]) -> [u8; 12]
    requires { length bytes.now ≤ 12 }
    ensures { take (length bytes.now) result ≡ bytes.now }
{
    let mut letters = [b'a'; 12];
    letters[..bytes.len()].copy_from_slice(bytes);
    letters
}

impl Name {
    // The name with these letters; none exactly when they are not 1 to 12 letters from a to z.
    // `then` was tried: its closure leaves the goal of the type's invariant open, as it knows nothing of the test. `?` needs one more function that promises what this one does.
    pub fn new(bytes: &[u8]) -> Option<Name>
        ensures { option_map text result ≡ (if lawful_name bytes.now then Some bytes.now else None) }
    {
        let size = bytes.len();
        if size > 12 || !is_name(bytes) {
            return None;
        }
        Some(Name {
            letters: padded(bytes),
            size,
        })
    }

    pub fn bytes(&self) -> &[u8]
        ensures { result.now ≡ text self.now }
    {
        &self.letters[0..self.size]
    }
}

// Two names are the same if their letters are.
// A derived `==` would be no plainer: it compares what stands past the size too, and a place in a list of names is told by their letters.
impl PartialEq for Name {
    ghost eq = { λ a b. bytes_eq (text a) (text b) };

    ghost laws = { Prim.search (comparing, rules) };

    fn eq(&self, other: &Name) -> bool
        ensures value { result ≡ bytes_eq (text self.now) (text other.now) }
        ensures same { Decides result (text self.now ≡ text other.now) }
    {
        *self.bytes() == *other.bytes()
    }
}
