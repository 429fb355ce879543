// The readable form of trees and steps: words, and what they say.
#![tactic(auto)]

pub mod inputs;
pub mod numbers;
pub mod records;
pub mod step_words;
pub mod words;
