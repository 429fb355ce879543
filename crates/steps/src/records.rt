// The records of a file of steps, one after the other.
ghost use Rattle.std.specs.Prelude.{◌≡◌, ◌+◌, ◌^◌, ◌<◌, length};
ghost use Rattle.std.specs.Iterator.{at_most};

use crate::file::{StepFault, at_step, next_record};

// The records of a file that are left, and the number of the first of them.
#[derive(Clone, Copy, Debug, PartialEq, Eq)]
pub struct Records<'a> {
    pub left: &'a [u8],
    pub step: usize,
    ghost counted: { step + length left.now < 2 ^ 64 },
}

impl<'a> Records<'a> {
    // The records of a file, the first of which has the number 1.
    pub fn of(file: &'a [u8]) -> Records<'a>
        ensures left { result.left.now ≡ file.now }
        ensures step { result.step ≡ 1 }
    {
        Records {
            left: file,
            step: 1,
        }
    }
}

// Each record with its number. A file that is cut off ends with a fault.
impl<'a> Iterator for Records<'a> {
    ghost use Rattle.steps.specs.Files.{NextOf};

    type Item = Result<(usize, &'a [u8]), StepFault>;

    ghost remaining = { λ s. at_most (length s.left.now) };

    ghost next_gives = { NextOf };

    fn next(&mut self) -> Option<Result<(usize, &'a [u8]), StepFault>> {
        let Records { left, step } = *self;
        match at_step(next_record(left), step) {
            Ok(None) => None,
            Ok(Some((bytes, rest))) => {
                *self = Records {
                    left: rest,
                    step: step + 1,
                };
                Some(Ok((step, bytes)))
            }
            Err(fault) => {
                *self = Records { left: &[], step };
                Some(Err(fault))
            }
        }
    }
}
