#![tactic(auto)]

// The values that words and tables are made of.
// What they mean is defined in specs/: Published (event-recording automata as the literature has them), then Words and Tables.
pub mod examples;
pub mod values;
