#![tactic(auto)]

// Distances from their texts.
pub mod distances;
// Claims from their texts, read without memory.
pub mod entries;
// Lists of distances.
pub mod list;
// How any text of sheets is read, line by line.
mod reading;
// The reader of table texts.
pub mod reader;
// The reader of distance texts.
mod spans;
// What tables and distances have alike: heads, and the sheet of the tick.
mod shared;
// Tables from their texts.
pub mod table;
