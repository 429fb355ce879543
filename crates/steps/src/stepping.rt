// One step: the rule that a step record asks for, applied to a text.
ghost use Rattle.std.specs.Prelude.{ℕ, List, IfOk};
ghost use Rattle.algebra.specs.Steps.{Derived};
ghost use Rattle.algebra.specs.Texts.{Whole};
ghost use Rattle.steps.specs.Stepping.{OneAnswer, StepAnswer, StepsOn};

use crate::record::read_step;
use crate::refusal::StepRefusal;
use crate::rewriting::{rewrite, supplies_lacked};
use crate::rules::Sides;
use texts::text::Text;

// The text after the step of a record, for a tree with so many events.
pub fn apply_step(text: &Text, events: u8, bytes: &[u8]) -> Result<Text, StepRefusal>
    ensures answer { StepAnswer text.now events bytes.now result }
    ensures one { OneAnswer text.now events bytes.now }
    ensures whole { IfOk result (λ new. Whole events text.now → Whole events new) }
    ensures step { IfOk result (λ new. StepsOn text.now new) }
    ensures derived { IfOk result (λ new. (bs : List ℕ) → Derived bs text.now → Derived bs new) }
{
    let said = read_step(bytes, events)?;
    let sides = Sides::of(said.rule, said.way);
    if !supplies_lacked(sides, said.supplied) {
        return Err(StepRefusal::Supplies);
    }
    let old = text.as_bytes();
    if said.place >= old.len() {
        return Err(StepRefusal::Place);
    }
    rewrite(old, said.place, sides, said.supplied)
}
