ghost use Rattle.clocks.specs.Search.{first_of};
ghost use Rattle.clocks.specs.Texts.{text};
ghost use Rattle.std.specs.Prelude.{◌≡◌, ◌≤◌, ℕ, List, map, length, take, bytes_eq};

use crate::name::Name;
use crate::search::position;
use std::marker::Model;

// The names of a table's events, in the order of their numbers: at most eight. A contract sees their letters.
#[derive(Drop)]
pub struct Events<'a> {
    names: &'a [Name],
}

impl<'a> Model for Events<'a> {
    ghost Value = { List (List ℕ) };

    ghost view = { λ e. map text e.names.now };

    ghost invariant = { λ e. length e.names.now ≤ 8 };
}

// A table has no more names, so that the number of an event is small.
pub fn first_eight(names: &[Name]) -> &[Name]
    ensures { result.now ≡ take 8 names.now }
{
    &names[..names.len().min(8)]
}

impl<'a> Events<'a> {
    // The events with the first eight of the names.
    pub fn first_eight(names: &'a [Name]) -> Events<'a>
        ensures { result ≡ take 8 (map text names.now) }
    {
        Events {
            names: first_eight(names),
        }
    }

    // The names, in the order of the events' numbers.
    pub fn names(&self) -> &'a [Name]
        ensures { map text result.now ≡ self.now }
    {
        self.names
    }

    // How many events there are.
    pub fn count(&self) -> u8
        ensures { result ≡ length self.now }
    {
        // At most eight, so the cast loses nothing.
        self.names.len() as u8
    }

    // The number of the event with this name; none where there is no such event.
    pub fn number_of(&self, word: &[u8]) -> Option<u8>
        ensures { result ≡ first_of (λ name. bytes_eq name word.now) self.now }
    {
        // Opened here, so that both ways out know the names.
        let names = self.names;
        let name = Name::new(word)?;
        let event = position(names, &name)?;
        // Below eight, so the cast loses nothing.
        Some(event as u8)
    }
}
