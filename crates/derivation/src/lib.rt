// The derivation bench: a tree is opened, rewritten step by step, and closed into a table of cut sequences.
#![tactic(auto)]

pub mod bench;
pub mod job;
pub mod tables;
