// Texts: where a term ends, whether bytes are a text, and the date of a text.
#![tactic(auto)]

pub mod dating;
pub mod derivations;
pub mod evaluation;
pub mod scan;
mod stack;
pub mod text;
