// A file of steps: its records, and the text after all of them.
ghost use Rattle.std.specs.Prelude.{◌≡◌, ℕ, ◌≤◌, List, length, IfOk};
ghost use Rattle.algebra.specs.Steps.{Derived};
ghost use Rattle.algebra.specs.Texts.{Whole};
ghost use Rattle.steps.specs.Files.{NextRecord, OneRecord, OneRun, Runs, answer_at};

use crate::records::Records;
use crate::refusal::StepRefusal;
use crate::stepping::apply_step;
use texts::text::Text;
use thiserror::Error;

// The step of a file that is refused, counted from 1, and why.
#[derive(Clone, Copy, Debug, PartialEq, Eq, Error)]
#[error("step {step}: {refusal}")]
pub struct StepFault {
    pub step: usize,
    pub refusal: StepRefusal,
}

// The first record of the file and the bytes after it; none at the end of the file.
pub fn next_record(file: &[u8]) -> Result<Option<(&[u8], &[u8])>, StepRefusal>
    ensures next { NextRecord file.now result }
    ensures one { OneRecord file.now }
{
    match file {
        [] => Ok(None),
        [high, low, rest @ ..] => {
            let size = usize::from(u16::from_be_bytes([*high, *low]));
            let record = rest.split_at_checked(size).ok_or(StepRefusal::Form)?;
            Ok(Some(record))
        }
        _ => Err(StepRefusal::Form),
    }
}

// Names the step in a refusal.
pub fn at_step<T>(answer: Result<T, StepRefusal>, step: usize) -> Result<T, StepFault>
    ensures { result ≡ answer_at step answer }
{
    answer.map_err(|refusal| StepFault { step, refusal })
}

// The text after all steps of the file.
pub fn apply_steps(text: Text, events: u8, file: &[u8]) -> Result<Text, StepFault>
    ensures run { Runs events 1 text file.now result }
    ensures one { OneRun events text file.now }
    ensures whole { IfOk result (λ new. Whole events text → Whole events new) }
    ensures derived { IfOk result (λ new. (bs : List ℕ) → Derived bs text → Derived bs new) }
    ensures short { IfOk result (λ new. length new ≤ 511) }
{
    let mut present = text;
    for record in Records::of(file) {
        let (step, bytes) = record?;
        present = at_step(apply_step(&present, events, bytes), step)?;
    }
    // A text tells its bound where its bytes are asked for.
    let _bytes = present.as_bytes();
    Ok(present)
}
