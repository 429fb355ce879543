// The reasons to refuse a step, with the words and the number of each.
ghost use Rattle.std.specs.Prelude.{◌≡◌};
ghost use Rattle.steps.specs.declared.refusal.StepRefusal.TheVariants.{TooLong};

use algebra::Refusal;
use texts::text::NoRoom;
use thiserror::Error;

// Why a step is refused. `NoTree` is for callers whose text comes from a tree that has to be open.
#[derive(Clone, Copy, Debug, PartialEq, Eq, Error)]
pub enum StepRefusal {
    #[error("no tree is open")]
    NoTree,
    #[error("the step record is not well-formed")]
    Form,
    #[error("the supplied terms are not those that the rule lacks")]
    Supplies,
    #[error("the place is at or past the end of the text")]
    Place,
    #[error("the rule does not fit at the place")]
    NoFit,
    #[error("the new text would have more than 511 bytes")]
    TooLong,
}

impl Refusal for StepRefusal {
    ghost use Rattle.steps.specs.Refusals.{step_code, step_codes_differ};

    ghost number = { step_code };

    ghost distinct = { step_codes_differ };

    fn code(self) -> u8 {
        match self {
            StepRefusal::NoTree => 11,
            StepRefusal::Form => 12,
            StepRefusal::Supplies => 13,
            StepRefusal::Place => 14,
            StepRefusal::NoFit => 15,
            StepRefusal::TooLong => 16,
        }
    }
}

// Where bytes do not fit into a text, the new text would be too long.
impl From<NoRoom> for StepRefusal {
    ghost from_gives = { λ _ refusal. refusal ≡ TooLong };

    fn from(_full: NoRoom) -> StepRefusal {
        StepRefusal::TooLong
    }
}
