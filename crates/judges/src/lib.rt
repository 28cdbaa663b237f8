#![tactic(auto)]

// The lines of a text in turn.
pub mod cursor;
// A line of an entries text: the head, or a claim.
pub mod entry;
// The head of the edges.
pub mod heads;
// Whether a line is taken where it stands: as a head, or among rows.
pub mod judging;
