// A file of step records, each with its length before it.
ghost use Rattle.std.specs.Prelude.{◌≡◌, ℕ, ◌<◌, List, [], ◌∷◌, ◌++◌, length, IfOk, MatchResult, OnErr};
ghost use Rattle.steps.specs.Files.{Begins};
ghost use Rattle.steps.specs.Readings.{request_of};
ghost use Rattle.steps.specs.Records.{Request};
ghost use Rattle.assembly.specs.StepFiles.{OneList, StepFile};
ghost use Rattle.assembly.specs.Writing.{NoBytesSay};

use crate::fault::BytesFault;
use crate::step_bytes::write_step;
use std::alloc::{AllocError, Global};
use steps::record::StepRecord;

// The record with its length before it, in two bytes.
fn framed(heap: Global, bytes: &[u8]) -> Result<Vec<u8>, AllocError>
    requires { length bytes.now < 65536 }
    ensures { IfOk result (λ v. Begins v.items bytes.now []) }
{
    let size = bytes.len() as u16;
    let mut out = Vec::from_slice(heap, &size.to_be_bytes())?;
    out.extend_from_slice(bytes)?;
    Ok(out)
}

// A file of one step.
fn one_step(heap: Global, events: u8, said: &StepRecord<'_>) -> Result<Vec<u8>, BytesFault>
    ensures { MatchResult result (λ v. StepFile events (request_of said.now ∷ []) v.items) (λ e. NoBytesSay e events (request_of said.now)) }
{
    let bytes = write_step(heap, events, said)?;
    Ok(framed(heap, bytes.as_slice())?)
}

// Adds a step to the file of a tree with so many events, after those that it holds. A refusal leaves the file as it was.
pub fn add_step(
    heap: Global,
    file: &mut Vec<u8>,
    events: u8,
    said: &StepRecord<'_>,
) -> Result<(), BytesFault>
    ensures added { MatchResult result (λ _. (qs : List Request) → StepFile events qs file.old.items → StepFile events (qs ++ (request_of said.now ∷ [])) file.new.items) (λ e. NoBytesSay e events (request_of said.now)) }
    ensures one { OneList events file.new.items }
    ensures left { OnErr result (file.new.items ≡ file.old.items) }
{
    let more = one_step(heap, events, said)?;
    file.extend_from_slice(more.as_slice())?;
    Ok(())
}
