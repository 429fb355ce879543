// Cut sequences: a text that is a sum of sequences closes into a table of rows, which has a date and prints its lines.
#![tactic(auto)]

mod dating;
mod letters;
mod printing;
pub mod refusals;
mod row;
mod scan;
pub mod table;
pub mod theorems;
mod walk;
