// The date of a text: read from its end, with a stack of dates at the end of a work table.
ghost use Rattle.std.specs.Prelude.{◌≡◌, ◌≤◌, length, Decides, Result, OnErr};
ghost use Rattle.algebra.specs.Texts.{IsText};
ghost use Rattle.texts.specs.Evaluation.{DateOf, Evaluated, evaluation_code};
ghost use Rattle.texts.specs.declared.evaluation.EvaluationRefusal.{EvaluationRefusal};

use crate::dating::Dating;
use crate::scan::is_text;
use crate::stack::Stack;
use algebra::{Refusal, Token};
use dates::Date;
use thiserror::Error;

// Why a text is not evaluated.
#[derive(Clone, Copy, Debug, PartialEq, Eq, Error)]
pub enum EvaluationRefusal {
    #[error("the bytes are no text")]
    NoText,
    #[error("the dating has not exactly 24 dates")]
    NoDating,
    #[error("the work table has under 256 dates")]
    SmallWork,
}

impl Refusal for EvaluationRefusal {
    ghost use Rattle.texts.specs.Evaluation.{evaluation_code, evaluation_codes_differ};

    ghost number = { evaluation_code };

    ghost distinct = { evaluation_codes_differ };

    fn code(self) -> u8 {
        match self {
            EvaluationRefusal::NoText => 51,
            EvaluationRefusal::NoDating => 52,
            EvaluationRefusal::SmallWork => 53,
        }
    }
}

// The date of a text.
fn date_of_text<D: Date>(text: &[u8], dating: &Dating<'_, D>, work: &mut [D]) -> D
    requires text { IsText text.now }
    requires room { 256 ≤ length work.old }
    ensures { DateOf D.kind dating.now text.now result }
{
    let mut stack = Stack::new(work);
    for byte in text.iter().rev() {
        stack.take(Token::from(*byte), dating);
    }
    stack.pop()
}

// Whether the table is large enough for every text.
fn has_room<D: Date>(work: &[D]) -> bool
    ensures { Decides result (256 ≤ length work.now) }
{
    work.len() >= 256
}

// The date of a text under a dating. The work table is written over; a refusal leaves it as it was.
pub fn evaluate<D: Date>(text: &[u8], dating: &[D], work: &mut [D]) -> Result<D, EvaluationRefusal>
    ensures outcome { Evaluated D.kind text.now dating.now (length work.old) result }
    ensures only { (s : Result D EvaluationRefusal) → Evaluated D.kind text.now dating.now (length work.old) s → s ≡ result }
    ensures sized { length work.new ≡ length work.old }
    ensures left { OnErr result (work.new ≡ work.old) }
{
    if !is_text(text) {
        return Err(EvaluationRefusal::NoText);
    }
    let dating = Dating::new(dating).ok_or(EvaluationRefusal::NoDating)?;
    if !has_room(work) {
        return Err(EvaluationRefusal::SmallWork);
    }
    Ok(date_of_text(text, &dating, work))
}
