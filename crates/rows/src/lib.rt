#![tactic(auto)]

// The cells, columns and rows of a sheet.
pub mod cell;
// What a cell holds.
pub mod content;
// Which columns a kind of row has.
pub mod kind;
// A whole line.
pub mod line;
// One word in its column.
pub mod word;
