// Why the bytes of a tree are refused.
ghost use Rattle.std.specs.Prelude.{◌≡◌};
ghost use Rattle.trees.specs.declared.refusal.TreeRefusal.TheVariants.{TooLong};

use algebra::Refusal;
use texts::text::NoRoom;
use thiserror::Error;

#[derive(Clone, Copy, Debug, PartialEq, Eq, Error)]
pub enum TreeRefusal {
    #[error("it is too short, has bytes left over, or a record's map or kind is wrong")]
    Form,
    #[error("it has not 1 to 24 events and 1 to 32 records")]
    Counts,
    #[error("an input is no event of the tree and no earlier gate")]
    Input,
    #[error("a dependent is no event, its own trigger, or read already")]
    Dependent,
    #[error("a record makes a text above 511 bytes")]
    TooLong,
    #[error("the last record is an FDEP")]
    NoSource,
}

impl Refusal for TreeRefusal {
    ghost use Rattle.trees.specs.Refusals.{tree_code, tree_codes_differ};

    ghost number = { tree_code };

    ghost distinct = { tree_codes_differ };

    fn code(self) -> u8 {
        match self {
            TreeRefusal::Form => 1,
            TreeRefusal::Counts => 2,
            TreeRefusal::Input => 3,
            TreeRefusal::Dependent => 4,
            TreeRefusal::TooLong => 5,
            TreeRefusal::NoSource => 6,
        }
    }
}

impl From<NoRoom> for TreeRefusal {
    ghost from_gives = { λ _ refusal. refusal ≡ TooLong };

    fn from(_no: NoRoom) -> TreeRefusal {
        TreeRefusal::TooLong
    }
}
