// The bytes of a tree, written from its records, and the records read back.
ghost use Rattle.std.specs.Prelude.{◌≡◌, ℕ, ◌<◌, List, length, IfErr, IfOk, MatchResult};
ghost use Rattle.trees.specs.declared.record.Record.{Record as TreeRecord};
ghost use Rattle.assembly.specs.declared.fault.BytesFault.TheVariants.{NoForm};
ghost use Rattle.assembly.specs.Faults.{WhereNone};
ghost use Rattle.assembly.specs.Layouts.{Lays, MeansAsLaid, OneLayout, RecordsLie};

use crate::fault::BytesFault;
use std::alloc::Global;
use trees::record::{Record, read_record};

// How many events a tree has, and its records in order.
#[derive(Debug, PartialEq, Eq, Drop)]
pub struct Layout {
    pub events: u8,
    pub records: Vec<Record>,
}

// The bytes of a tree. It has none where there are more records than one byte can count. They are read back as the same
// records, and mean the same tree as any other bytes of these records.
pub fn write_tree(heap: Global, events: u8, records: &[Record]) -> Result<Vec<u8>, BytesFault>
    ensures written { MatchResult result (λ v. Lays v.items events records.now) (λ e. WhereNone e ((bs : List ℕ) → Lays bs events records.now → ⊥)) }
    ensures many { IfErr result (λ e. e ≡ NoForm → 255 < length records.now) }
    ensures back { IfOk result (λ v. OneLayout v.items) }
    ensures meaning { IfOk result (λ v. MeansAsLaid v.items events records.now) }
{
    let count = u8::try_from(records.len()).map_err(|_| BytesFault::NoForm)?;
    let mut bytes = Vec::from_slice(heap, &[events, count])?;
    for one in records {
        bytes.extend_from_slice(&one.bytes())?;
    }
    Ok(bytes)
}

// The records that are all of the bytes, where there are so many.
fn read_records(heap: Global, count: u8, bytes: &[u8]) -> Result<Vec<Record>, BytesFault>
    ensures { MatchResult result (λ v. RecordsLie v.items count bytes.now) (λ e. WhereNone e ((rs : List TreeRecord) → RecordsLie rs count bytes.now → ⊥)) }
{
    let mut records = Vec::new(heap);
    let mut rest = bytes;
    // A loop, since each record begins where the one before it ends, and both steps may fail.
    for _ in 0..count {
        let (one, after) = read_record(rest)?;
        records.push(one)?;
        rest = after;
    }
    if !rest.is_empty() {
        return Err(BytesFault::NoForm);
    }
    Ok(records)
}

// The number of events and the records of a tree's bytes, whether or not a tree can be made of them.
pub fn read_layout(heap: Global, bytes: &[u8]) -> Result<Layout, BytesFault>
    ensures { MatchResult result (λ l. Lays bytes.now l.events l.records.items) (λ e. WhereNone e ((events : ℕ) (rs : List TreeRecord) → Lays bytes.now events rs → ⊥)) }
{
    let [events, count, body @ ..] = bytes else {
        return Err(BytesFault::NoForm);
    };
    let records = read_records(heap, *count, body)?;
    Ok(Layout {
        events: *events,
        records,
    })
}
