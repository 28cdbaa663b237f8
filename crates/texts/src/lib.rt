#![tactic(auto)]

pub mod bytes;
pub mod fault;
pub mod lines;
pub mod numbers;
pub mod tokens;
pub mod words;
