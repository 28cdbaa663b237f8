ghost use Rattle.sheets.specs.DistanceReading.{distance_parts_of};
ghost use Rattle.sheets.specs.Distances.{distances_in};
ghost use Rattle.formats.specs.DistanceText.{distance_start, distances_held, lawful_between};
ghost use Rattle.std.specs.Prelude.{◌≡◌, ◌≤◌, true};

use crate::list::DistanceList;
use clocks::events::Events;
use formats::distance::{Distance, DistanceStage};
use std::alloc::Global;

mod steps;

// A distance text as far as it has been read, for these events.
#[derive(Drop)]
pub(crate) struct DistanceReader<'a> {
    events: Events<'a>,
    stage: DistanceStage,
    tick: Option<u16>,
    lines: Vec<Distance>,
}

impl<'a> DistanceReader<'a> {
    // Before the first line.
    pub(crate) fn new(heap: Global, events: Events<'a>) -> DistanceReader<'a>
        ensures start { distance_parts_of result ≡ distance_start }
        ensures events { result.events ≡ events.entry }
    {
        DistanceReader {
            events,
            stage: DistanceStage::TickHead,
            tick: None,
            lines: Vec::new(heap),
        }
    }

    // The list of all that was read, for so many events. What is lawful has a tick, so the 0 does not come.
    pub(crate) fn list(self, events: u8) -> DistanceList
        requires some { 1 ≤ events }
        requires few { events ≤ 8 }
        requires lawful { lawful_between events (distances_held (distance_parts_of self)) ≡ true }
        ensures value { distances_in result ≡ distances_held (distance_parts_of self.entry) }
        ensures events { result.events ≡ events }
    {
        DistanceList::lawful(self.tick.unwrap_or(0), events, self.lines)
    }
}
