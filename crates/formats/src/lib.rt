#![tactic(auto)]

// What one layer found, as the next one tells it.
pub mod convert;
// What a line of an entries text says.
pub mod claim;
// What a line of a distance text says.
pub mod distance;
// What can be wrong with a text of sheets, and with one of its lines.
pub mod fault;
// A line where it stands in a text, and the limits of a sheet.
pub mod line;
// Where in a table text a line stands.
pub mod stage;
