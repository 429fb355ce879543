// The algebra of dates: what the operators of a term are, what the bytes of a text are, and the theorems about both.
#![tactic(auto)]

ghost use Rattle.std.specs.Prelude.{ℕ};
ghost use Rattle.algebra.specs.Kinds.{Kind};
ghost use Rattle.algebra.specs.Links.{LinkedDates};
ghost use Rattle.algebra.specs.Ranks.{RanksDecide};
ghost use Rattle.algebra.specs.Replacing.{PutsTerms};
ghost use Rattle.algebra.specs.Rules.{SheetStands};
ghost use Rattle.algebra.specs.Steps.{DerivedKeeps, ReachedKeeps, ReplacingKeeps, SheetKeeps, StepsDerive};
ghost use Rattle.algebra.specs.Texts.{EveryPlace, OneReading, ReadsTexts};

mod conversions;
mod refusal;

pub use conversions::{NoVariable, NoWay, event_of};
pub use refusal::Refusal;

// The operators of a term.
#[derive(Clone, Copy, Debug, PartialEq, Eq)]
pub enum Operator {
    Or,
    And,
    Before,
    Simultaneous,
    Inclusive,
}

// What one byte of a text is; a letter is known by its value of type V.
#[derive(Clone, Copy, Debug, PartialEq, Eq)]
pub enum Token<V> {
    Letter(V),
    Never,
    Joins(Operator),
    Unknown,
}

// The letters of a rule, which stand for any terms.
#[derive(Clone, Copy, Debug, PartialEq, Eq)]
pub enum Variable {
    X,
    Y,
    Z,
}

// The way of a step: from the left side of a rule to the right one, or back.
#[derive(Clone, Copy, Debug, PartialEq, Eq)]
pub enum Way {
    Forward,
    Backward,
}

// A text is read in one way only, reading finds the text of each term and nothing else, a term stands at each place
// of a text, and where any other is put there, the text is again that of a term.
pub fn texts_are_read()
    ensures one { OneReading }
    ensures all { ReadsTexts }
    ensures places { EveryPlace }
    ensures puts { PutsTerms }
{}

// The sheet has 42 rules, each side of which is one whole term, and every rule keeps dates, over every kind whose
// dates are numbers. Four ranks decide whether two terms over X, Y and Z always have the same date.
pub fn rules_keep_dates()
    ensures stands { SheetStands }
    ensures keeps { (K : Kind ℕ) → SheetKeeps K }
    ensures ranks { (K : Kind ℕ) → RanksDecide K }
{}

// What is reached by rules of the sheet has the date of where it began, over every kind whose dates are numbers,
// as terms and as texts; and a step of the sheet at a place of a text gives a text that is reached.
pub fn derivations_keep_dates()
    ensures reached { (K : Kind ℕ) → ReachedKeeps K }
    ensures derived { (K : Kind ℕ) → DerivedKeeps K }
    ensures steps { StepsDerive }
{}

// Putting a term of the same date for another keeps the date of the whole; more generally, where the dates of the
// letters are linked by a relation that knows never and the order, so are the dates of every term.
pub fn dates_are_congruent()
    ensures replacing { (K : Kind ℕ) → ReplacingKeeps K }
    ensures linked { (K L : Kind ℕ) → LinkedDates K L }
{}
