ghost use Rattle.clocks.specs.Letters.{lawful_name};
ghost use Rattle.std.specs.Prelude.{◌≡◌, ◌≤◌, true, take};

pub mod methods;
mod shown;

// The name of an event, 1 to 12 letters from a to z, kept in place: a word of a text becomes a name without memory.
// What stands past the size does not count. No `Model` forgets it, since a name could then not be copied.
#[derive(Clone, Copy, Drop)]
pub struct Name {
    letters: [u8; 12],
    size: usize,
    ghost short: { size ≤ 12 },
    ghost lawful: { lawful_name (take size letters) ≡ true },
}
