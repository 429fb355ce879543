// One text made from another by a rule.
ghost use Rattle.std.specs.Prelude.{◌≡◌, ℕ, ◌≤◌, true, not, ◌&&◌, List, length, is_some, Decides, IfOk};
ghost use Rattle.algebra.specs.Rules.{has};
ghost use Rattle.algebra.specs.Terms.{Term, inst};
ghost use Rattle.algebra.specs.Texts.{text_of};
ghost use Rattle.algebra.specs.declared.Variable.{Variable as Letter};
ghost use Rattle.steps.specs.Rewrites.{Added, BoundSide, BoundSymbol, Piece, Provided, Ready, Rewritten};
ghost use Rattle.steps.specs.Sides.{Agrees, WritesSides, side_text, slot};

use crate::binding::Binding;
use crate::matching::{Walk, fit};
use crate::refusal::StepRefusal;
use crate::rules::Sides;
use algebra::Variable;
use texts::text::{NoRoom, Text};

// Whether exactly the terms of the letters that a rule lacks are supplied.
pub fn supplies_lacked(sides: Sides, supplied: Binding<'_>) -> bool
    ensures { (s t : Term Letter) → WritesSides sides s t → Decides result ((v : Letter) → is_some (slot supplied.entry v) ≡ (has v t && not (has v s))) }
{
    supplied.all(|letter, term| term.is_some() == sides.lacks(letter))
}

// Adds the bytes of one symbol of a side: those that a letter is bound to, or else the symbol itself.
fn append_symbol(text: &mut Text, symbol: u8, bound: Binding<'_>) -> Result<(), NoRoom>
    requires { BoundSymbol bound symbol }
    ensures { (w : List ℕ) → Piece bound.entry symbol w → Added result text.old text.new w }
{
    match Variable::try_from(symbol) {
        Ok(letter) => text.append(bound.get(letter).unwrap()),
        Err(_) => text.append(&[symbol]),
    }
}

// Adds the side with the bound terms in place of its letters.
fn append_side(text: &mut Text, side: &[u8], bound: Binding<'_>) -> Result<(), NoRoom>
    requires { BoundSide bound side.now }
    ensures { (s : Term Letter) → side.now ≡ side_text s → ((v : Letter) → has v s ≡ true → is_some (slot bound.entry v) ≡ true) → (σ : Letter → Term ℕ) → Agrees bound.entry σ → Added result text.old text.new (text_of (inst σ s)) }
{
    for symbol in side {
        append_symbol(text, *symbol, bound)?;
    }
    Ok(())
}

// The text that a rule makes of the old bytes at a place.
pub fn rewrite<'a>(
    old: &'a [u8],
    place: usize,
    sides: Sides,
    supplied: Binding<'a>,
) -> Result<Text, StepRefusal>
    requires place { place ≤ length old.now }
    requires ready { Ready sides supplied }
    ensures made { (s t : Term Letter) → WritesSides sides s t → Provided s t supplied.entry → Rewritten old.now place s t supplied.entry result }
    ensures short { IfOk result (λ new. length new ≤ 511) }
{
    let (before, here) = old.split_at(place);
    let Walk { bound, rest } = fit(sides.old, here).ok_or(StepRefusal::NoFit)?;
    let bound = bound.or(supplied);
    let mut new = Text::empty();
    new.append(before)?;
    append_side(&mut new, sides.new, bound)?;
    new.append(rest)?;
    Ok(new)
}
