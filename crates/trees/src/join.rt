// The text of a gate from the texts of its inputs.
ghost use Rattle.std.specs.Prelude.{◌≡◌, ℕ, ◌∷◌, ◌++◌};
ghost use Rattle.algebra.specs.Terms.{Term};
ghost use Rattle.algebra.specs.Texts.{operator_byte, text_of};
ghost use Rattle.trees.specs.Fit.{Fit};
ghost use Rattle.trees.specs.Gates.{gate_term};
ghost use Rattle.trees.specs.Triggers.{with_trigger};

use crate::record::Gate;
use crate::refusal::TreeRefusal;
use algebra::Operator;
use texts::text::Text;

// The operator and its two sides.
fn joined(operator: Operator, left: &[u8], right: &[u8]) -> Result<Text, TreeRefusal>
    ensures { Fit result (operator_byte operator ∷ (left.now ++ right.now)) }
{
    let mut text = Text::empty();
    text.append(&[u8::from(operator)])?;
    text.append(left)?;
    text.append(right)?;
    Ok(text)
}

// The text of a gate.
pub fn gate_text(gate: Gate, first: &[u8], second: &[u8]) -> Result<Text, TreeRefusal>
    ensures { (p q : Term ℕ) → first.now ≡ text_of p → second.now ≡ text_of q → Fit result (text_of (gate_term gate p q)) }
{
    match gate {
        Gate::Or => joined(Operator::Or, first, second),
        Gate::And => joined(Operator::And, first, second),
        Gate::Pand => {
            let in_order = joined(Operator::Inclusive, first, second)?;
            joined(Operator::And, second, in_order.as_bytes())
        }
        Gate::Before => joined(Operator::Before, first, second),
    }
}

// The text of an event with one more trigger.
pub fn triggered_text(dependent: &[u8], trigger: &[u8]) -> Result<Text, TreeRefusal>
    ensures { (p q : Term ℕ) → dependent.now ≡ text_of p → trigger.now ≡ text_of q → Fit result (text_of (with_trigger p q)) }
{
    joined(Operator::Or, dependent, trigger)
}
