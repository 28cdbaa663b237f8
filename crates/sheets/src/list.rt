ghost use Rattle.formats.specs.DistanceText.{lawful_between};
ghost use Rattle.std.specs.Prelude.{◌≡◌, ◌≤◌, true};

use formats::distance::Distance;

mod making;

// Distances between the events of a table, of which there are 1 to 8, and the length of their tick in milliseconds.
#[derive(Drop)]
pub struct DistanceList {
    tick: u16,
    events: u8,
    lines: Vec<Distance>,
    ghost some: { 1 ≤ «events» },
    ghost few: { «events» ≤ 8 },
    ghost lawful: { lawful_between «events» (record { tick = tick; lines = lines.items }) ≡ true },
}
