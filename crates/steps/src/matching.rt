// A rule's side beside a text: X, Y and Z stand for terms of the text.
ghost use Rattle.std.specs.Prelude.{◌≡◌, ℕ, List, ◌++◌, None, MatchOption, ◌≢◌};
ghost use Rattle.algebra.specs.Terms.{Term};
ghost use Rattle.algebra.specs.declared.Variable.{Variable as Letter};
ghost use Rattle.steps.specs.Sides.{Fitted, Matches, Takes, side_text, slot};
ghost use Rattle.steps.specs.Walks.{Stuck, Took};

use crate::binding::Binding;
use algebra::Variable;
use texts::scan::term_end;

// The text's first bytes that the letter stands for, and the bytes after them.
fn bind<'a>(bound: Option<&'a [u8]>, text: &'a [u8]) -> Option<(&'a [u8], &'a [u8])>
    ensures { MatchOption result ((w rest : List ℕ) → Takes bound.entry w → text.now ≢ w ++ rest) (λ p. Takes bound.entry p.0.now × (text.now ≡ p.0.now ++ p.1.now)) }
{
    match bound {
        None => Some(text.split_at(term_end(text, 0)?)),
        Some(term) => Some((term, text.strip_prefix(term)?)),
    }
}

// A match under way: what the letters stand for so far, and the bytes of the text that are left.
#[derive(Clone, Copy)]
pub struct Walk<'a> {
    pub bound: Binding<'a>,
    pub rest: &'a [u8],
}

impl<'a> Walk<'a> {
    fn start(text: &'a [u8]) -> Walk<'a>
        ensures none { (v : Letter) → slot result.bound v ≡ None }
        ensures rest { result.rest.now ≡ text.now }
    {
        Walk {
            bound: Binding::none(),
            rest: text,
        }
    }

    // One symbol of a side: a letter takes a term of the text, and any other symbol takes itself.
    fn step(self, symbol: u8) -> Option<Walk<'a>>
        ensures { MatchOption result (Stuck self.entry symbol) (λ w. Took self.entry symbol w) }
    {
        match Variable::try_from(symbol) {
            Ok(letter) => {
                let (term, after) = bind(self.bound.get(letter), self.rest)?;
                Some(Walk {
                    bound: self.bound.with(letter, term),
                    rest: after,
                })
            }
            Err(_) => {
                let (byte, after) = self.rest.split_first()?;
                (*byte == symbol).then_some(Walk {
                    rest: after,
                    ..self
                })
            }
        }
    }
}

// What the side's letters stand for where it fits the front of the text, and the bytes after that.
pub fn fit<'a>(side: &[u8], text: &'a [u8]) -> Option<Walk<'a>>
    ensures { (s : Term Letter) → side.now ≡ side_text s → MatchOption result ((σ : Letter → Term ℕ) (rest : List ℕ) → Matches s σ text.now rest → ⊥) (λ w. Fitted s text.now w.bound w.rest.now) }
{
    let mut walk = Walk::start(text);
    for symbol in side {
        walk = walk.step(*symbol)?;
    }
    Some(walk)
}
