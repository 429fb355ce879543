// Trees and steps written by hand, and the bytes that they are.
#![tactic(auto)]

pub mod fault;
pub mod step_bytes;
pub mod step_file;
pub mod tree_bytes;
