// A tree and its steps, taken line by line.
ghost use Rattle.std.specs.Prelude.{◌≡◌, ℕ, ◌≤◌, false, List, [], length, map, MatchResult};
ghost use Rattle.steps.specs.Readings.{request_of};
ghost use Rattle.steps.specs.Records.{Request};
ghost use Rattle.assembly.specs.declared.fault.BytesFault.TheVariants.{Memory as no_memory};
ghost use Rattle.assembly.specs.Layouts.{Lays};
ghost use Rattle.assembly.specs.StepFiles.{StepFile};
ghost use Rattle.assemble.specs.Faults.{fault_of};
ghost use Rattle.assemble.specs.Taking.{EventsTaken, RecordTaken, StepTaken, Taken};
ghost use Rattle.assemble.specs.declared.job.LineFault.TheVariants.{Memory};

use assembly::fault::BytesFault;
use assembly::step_file::add_step;
use assembly::tree_bytes::write_tree;
use notation::numbers::read_byte;
use notation::records::read_record;
use notation::step_words::read_step;
use std::alloc::{AllocFailed, Global};
use std::marker::Model;
use steps::record::StepRecord;
use thiserror::Error;
use trees::record::Record;

// The most records that one byte can count.
const MOST_RECORDS: usize = 255;

// Why a line cannot be taken.
#[derive(Clone, Copy, Debug, PartialEq, Eq, Hash, Error)]
pub enum LineFault {
    #[error("it is no line of events, no record and no step")]
    Unread,
    #[error("a line of events has to come first")]
    NoEvents,
    #[error("the events stand already")]
    SecondEvents,
    #[error("a record cannot come after a step")]
    LateRecord,
    #[error("there are 255 records already")]
    TooMany,
    #[error("a step has a rule from 1 to 42, and terms of at most 255 bytes over the events")]
    NoForm,
    #[error("there is no memory left")]
    Memory,
}

impl From<BytesFault> for LineFault {
    ghost from_gives = { λ fault r. r ≡ fault_of fault };

    fn from(fault: BytesFault) -> LineFault {
        match fault {
            BytesFault::NoForm => LineFault::NoForm,
            BytesFault::Memory => LineFault::Memory,
        }
    }
}

impl<T: Drop> From<AllocFailed<T>> for LineFault {
    ghost from_gives = { λ _ r. r ≡ Memory };

    fn from(_error: AllocFailed<T>) -> LineFault {
        Self::Memory
    }
}

// The events, where their line was read, the records in order, and the file of the steps.
#[derive(Drop)]
pub struct Job {
    events: Option<u8>,
    records: Vec<Record>,
    steps: Vec<u8>,
}

impl Model for Job {
    ghost use Rattle.assemble.specs.Taking.{Held};

    ghost Value = { Held };

    ghost use Rattle.assemble.specs.Views.{held_of, IsJob};

    ghost view = { held_of };

    ghost invariant = { IsJob };
}

impl Job {
    // A job of which no line was read.
    pub fn new(heap: Global) -> Job
        ensures named { result.named ≡ false }
        ensures records { result.records ≡ [] }
        ensures steps { result.steps ≡ [] }
    {
        Job {
            events: None,
            records: Vec::new(heap),
            steps: Vec::new(heap),
        }
    }

    // The line that says how many events there are, before any other.
    fn add_events(&mut self, number: &str) -> Result<(), LineFault>
        ensures { MatchResult result (λ _. EventsTaken number.now self.old self.new) (λ _. self.new ≡ self.old) }
    {
        if self.events.is_some() {
            return Err(LineFault::SecondEvents);
        }
        let events = read_byte(number.as_bytes()).ok_or(LineFault::Unread)?;
        self.events = Some(events);
        Ok(())
    }

    // A record after the others.
    fn add_record(&mut self, one: Record) -> Result<(), LineFault>
        ensures { MatchResult result (λ _. RecordTaken one self.old self.new) (λ _. self.new ≡ self.old) }
    {
        if self.events.is_none() {
            return Err(LineFault::NoEvents);
        }
        if !self.steps.is_empty() {
            return Err(LineFault::LateRecord);
        }
        if self.records.len() >= MOST_RECORDS {
            return Err(LineFault::TooMany);
        }
        self.records.push(one)?;
        Ok(())
    }

    // A step after the others.
    fn add_step(&mut self, heap: Global, said: &StepRecord<'_>) -> Result<(), LineFault>
        ensures { MatchResult result (λ _. StepTaken (request_of said.now) self.old self.new) (λ _. self.new ≡ self.old) }
    {
        let events = self.events.ok_or(LineFault::NoEvents)?;
        add_step(heap, &mut self.steps, events, said)?;
        Ok(())
    }

    // One line, by its words. A line with none is passed over, and a refused one leaves the job as it was.
    pub fn add_line(&mut self, heap: Global, words: &[&str]) -> Result<(), LineFault>
        ensures { MatchResult result (λ _. Taken (map (λ x. x.now) words.now) self.old self.new) (λ _. self.new ≡ self.old) }
    {
        if words.is_empty() {
            return Ok(());
        }
        if let ["events", number] = words {
            return self.add_events(number);
        }
        if let Some(one) = read_record(words) {
            return self.add_record(one);
        }
        let said = read_step(words).ok_or(LineFault::Unread)?;
        self.add_step(heap, &said)
    }

    // The bytes of the tree. They always exist, so that nothing but memory can be wanting.
    pub fn tree_bytes(&self, heap: Global) -> Result<Vec<u8>, BytesFault>
        ensures { MatchResult result (λ v. Lays v.items self.now.events self.now.records) (λ e. e ≡ no_memory) }
    {
        write_tree(heap, self.events.unwrap_or(0), self.records.as_slice())
    }

    // The file of the steps, each of which is well-formed for a tree with these events.
    pub fn step_bytes(&self) -> &[u8]
        ensures is { result.now ≡ self.now.steps }
        ensures filed { ∥ ((qs : List Request) × StepFile self.now.events qs result.now) ∥₁ }
    {
        self.steps.as_slice()
    }
}
