ghost use Rattle.tables.specs.Held.{contents};
ghost use Rattle.meaning.specs.Stepping.{starts, finals, places_from, in_set, leaves, targets, reached, cap_of, advanced, restarted, never, cells_after, CappedReads};
ghost use Rattle.meaning.specs.Tables.{Behaviour};
ghost use Rattle.std.specs.Prelude.{◌≡◌, ◌<◌, ◌≤◌, Bool, length, Decides, MatchOption};
ghost use mathlib.Core.List.{Memᴰ};

use crate::table::Table;
use clocks::reading::Reading;
use meaning::values::{Edge, Pair, Place};

// How far a walk along a word has come: the places reached, and the reading there.
#[derive(Clone, Copy, Drop)]
struct Front {
    set: u32,
    reading: Reading,
}

// The set of the places that pass the test. A set of places is a number in which place p counts 2^p.
fn places_where<F: Fn(Place) -> bool>(places: &[Place], test: F) -> u32
    requires few { length places.now ≤ 32 }
    requires callable { F.IsAlwaysCallable test }
    ensures { (t : Place → Bool) → ((p : Place) (r : Bool) → F.post test p r → r ≡ t p) → result ≡ places_from t 0 places.now }
{
    let mut set = 0;
    for (p, place) in places.iter().enumerate() {
        if test(*place) {
            set |= 1u32 << p;
        }
    }
    set
}

fn is_in_set(set: u32, place: u8) -> bool
    requires { place < 32 }
    ensures { result ≡ in_set set place }
{
    (set >> place) & 1 == 1
}

// Whether the edge leaves the front under the event.
fn leaves_front(edge: &Edge, front: &Front, event: u8) -> bool
    requires { edge.now.source < 32 }
    ensures { result ≡ leaves edge.now front.now.set event front.now.reading.cells }
{
    edge.event == event && is_in_set(front.set, edge.source) && front.reading.meets(&edge.bounds)
}

fn targets_of(edges: &[Edge], front: &Front, event: u8) -> u32
    requires { (e : Edge) → Memᴰ e edges.now → (e.source < 32) × (e.target < 32) }
    ensures { result ≡ targets edges.now front.now.set event front.now.reading.cells }
{
    let mut reached = 0;
    for edge in edges {
        if leaves_front(edge, front, event) {
            reached |= 1u32 << edge.target;
        }
    }
    reached
}

impl Table {
    // The set of the places where a computation may begin.
    pub fn starts(&self) -> u32
        ensures { result ≡ starts (contents self.now).places }
    {
        places_where(self.places(), |place| place.start)
    }

    // The set of the places where a computation may end.
    pub fn finals(&self) -> u32
        ensures { result ≡ finals (contents self.now).places }
    {
        places_where(self.places(), |place| place.accepting)
    }

    // The targets of all edges that leave the set under the event and the reading.
    pub fn targets(&self, set: u32, event: u8, reading: &Reading) -> u32
        ensures { result ≡ targets (contents self.now).edges set event reading.now.cells }
    {
        let front = Front {
            set,
            reading: *reading,
        };
        targets_of(self.edges(), &front, event)
    }

    // One pair further: the wait passes, the edges take the event, and only then the event's own clock restarts.
    fn stepped(&self, front: Front, pair: Pair) -> Front
        ensures set { result.set ≡ targets (contents self.now).edges front.set pair.event (advanced (cap_of (contents self.now).edges) pair.wait front.reading.cells) }
        ensures reading { result.reading.cells ≡ restarted (length (contents self.now).names) pair.event (advanced (cap_of (contents self.now).edges) pair.wait front.reading.cells) }
    {
        let reading = front.reading.advanced(pair.wait, self.cap());
        let set = self.targets(front.set, pair.event, &reading);
        Front {
            set,
            reading: reading.restarted(pair.event, self.events()),
        }
    }

    // The places reached and the reading after all pairs.
    fn walked(&self, word: &[Pair]) -> Front
        ensures set { result.set ≡ reached (cap_of (contents self.now).edges) (contents self.now) word.now }
        ensures reading { result.reading.cells ≡ cells_after (advanced (cap_of (contents self.now).edges)) (length (contents self.now).names) never word.now }
    {
        let mut front = Front {
            set: self.starts(),
            reading: Reading::never(),
        };
        for pair in word {
            front = self.stepped(front, *pair);
        }
        front
    }

    // Whether some computation over the word ends in a final place.
    fn accepts(&self, word: &[Pair]) -> bool
        ensures { 0 < length word.now → Decides result (Behaviour (contents self.now) word.now) }
    {
        self.walked(word).set & self.finals() != 0
    }

    // Whether the word is a behaviour: it has a pair, and some computation over it ends in a final place.
    pub fn behaves(&self, word: &[Pair]) -> bool
        ensures { Decides result (Behaviour (contents self.now) word.now) }
    {
        !word.is_empty() && self.accepts(word)
    }

    fn reading_within(&self, word: &[Pair], position: usize) -> Reading
        requires { position < length word.now }
        ensures { CappedReads (cap_of (contents self.now).edges) (length (contents self.now).names) word.now position result.cells }
    {
        let before = self.walked(&word[..position]).reading;
        before.advanced(word[position].wait, self.cap())
    }

    // The reading at a position of a word, capped at the table's cap; none past its end.
    // No `get` and `?`: they prove only by a written answer, and a body that stops too early is then refused there and not here.
    pub fn reading_at(&self, word: &[Pair], position: usize) -> Option<Reading>
        ensures { MatchOption result (length word.now ≤ position) (λ x. (position < length word.now) × CappedReads (cap_of (contents self.now).edges) (length (contents self.now).names) word.now position x.cells) }
    {
        if position < word.len() {
            Some(self.reading_within(word, position))
        } else {
            None
        }
    }
}
