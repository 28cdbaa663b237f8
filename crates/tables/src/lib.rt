#![tactic(auto)]

// The limits of a table's parts.
mod limits;
// Tables, and whether a word is a behaviour of one.
pub mod table;
