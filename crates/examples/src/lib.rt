// Worked examples: those that are computed from the definitions, and those that are run.
#![tactic(auto)]

ghost use Rattle.examples.specs.Worked.{WorkedExamples};

#[cfg(test)]
mod dates_of_texts;
#[cfg(test)]
mod sequences_of_texts;
#[cfg(test)]
mod steps_of_texts;
#[cfg(test)]
mod sums;
#[cfg(test)]
mod texts_of_trees;

// The examples hold of the definitions that the contracts cite.
pub fn examples_hold()
    ensures { WorkedExamples }
{}
