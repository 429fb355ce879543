// Fault trees: from the bytes of a tree to its source text.
#![tactic(auto)]

mod counts;
mod inputs;
mod join;
pub mod reader;
pub mod record;
pub mod refusal;
