#![tactic(auto)]

// The names of events.
pub mod name;
// The names of the events of a table.
pub mod events;
// Readings of eight clocks: how they advance and restart, and which bounds they meet.
pub mod reading;
// The one search: where in a list something first stands.
pub mod search;
