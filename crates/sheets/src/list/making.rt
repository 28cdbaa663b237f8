ghost use Rattle.formats.specs.DistanceText.{blank_distances, lawful_between};
ghost use Rattle.sheets.specs.Distances.{distances_in};
ghost use Rattle.std.specs.Prelude.{◌≡◌, ◌≤◌, true};

use crate::list::DistanceList;
use formats::distance::Distance;
use std::alloc::Global;

impl DistanceList {
    // The list with tick 1, one event and no lines.
    pub fn blank(heap: Global) -> DistanceList
        ensures value { distances_in result ≡ blank_distances }
        ensures events { result.events ≡ 1 }
    {
        DistanceList {
            tick: 1,
            events: 1,
            lines: Vec::new(heap),
        }
    }

    pub fn tick(&self) -> u16
        ensures { result ≡ (distances_in self.now).tick }
    {
        self.tick
    }

    // How many events the distances are for.
    pub fn events(&self) -> u8
        ensures { result ≡ self.now.events }
    {
        self.events
    }

    pub fn lines(&self) -> &[Distance]
        ensures { result.now ≡ (distances_in self.now).lines }
    {
        self.lines.as_slice()
    }

    pub(crate) fn lawful(tick: u16, events: u8, lines: Vec<Distance>) -> DistanceList
        requires some { 1 ≤ events }
        requires few { events ≤ 8 }
        requires lawful { lawful_between events (record { tick = tick; lines = lines.items }) ≡ true }
        ensures value { distances_in result ≡ record { tick = tick; lines = lines.items } }
        ensures events { result.events ≡ events }
    {
        DistanceList {
            tick,
            events,
            lines,
        }
    }
}
