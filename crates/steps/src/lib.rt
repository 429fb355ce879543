// Steps: the records that ask for them, the rule sheet in code, matching, and rewriting.
#![tactic(auto)]

pub mod binding;
pub mod file;
mod matching;
pub mod record;
pub mod records;
pub mod refusal;
mod rewriting;
mod rules;
pub mod stepping;
