// Why bytes cannot be written or read.
ghost use Rattle.std.specs.Prelude.{◌≡◌};
ghost use Rattle.assembly.specs.declared.fault.BytesFault.TheVariants.{NoForm, Memory};

use std::alloc::{AllocError, AllocFailed};
use thiserror::Error;
use trees::refusal::TreeRefusal;

#[derive(Clone, Copy, Debug, PartialEq, Eq, Error)]
pub enum BytesFault {
    // What was to be written has no byte form, or the bytes are no such form.
    #[error("it has no byte form")]
    NoForm,
    #[error("there is no memory left")]
    Memory,
}

impl From<AllocError> for BytesFault {
    ghost from_gives = { λ _ r. r ≡ Memory };

    fn from(_error: AllocError) -> BytesFault {
        BytesFault::Memory
    }
}

impl<T: Drop> From<AllocFailed<T>> for BytesFault {
    ghost from_gives = { λ _ r. r ≡ Memory };

    fn from(_error: AllocFailed<T>) -> BytesFault {
        BytesFault::Memory
    }
}

// Bytes that are no record of a tree have no form.
impl From<TreeRefusal> for BytesFault {
    ghost from_gives = { λ _ r. r ≡ NoForm };

    fn from(_refusal: TreeRefusal) -> BytesFault {
        Self::NoForm
    }
}
