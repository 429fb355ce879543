// A tree's records in words: the kind, and the two inputs.
ghost use Rattle.std.specs.Prelude.{◌≡◌, ◌<◌, map, IfOk, Some, string_bytes, MatchOption, ◌≢◌};
ghost use Rattle.trees.specs.Records.{first as firstInput, second as secondInput};
ghost use Rattle.trees.specs.declared.record.Kind.{Kind as RecordKind};
ghost use Rattle.notation.specs.Records.{OneRecord, RecordWords, kind_word, record_words};
ghost use Rattle.notation.specs.Words.{joined};
ghost use Rattle.trees.specs.declared.record.Record.{Record as TreeRecord};

use crate::inputs::{input_word, read_input};
use std::alloc::{AllocError, Global};
use trees::record::{Gate, Kind, Record};

// The kind that a word is. The words of kinds are those of this notation, so `trees` knows none.
fn read_kind(word: &str) -> Option<Kind>
    ensures { MatchOption result ((k : RecordKind) → word.now ≢ kind_word k) (λ k. word.now ≡ kind_word k) }
{
    match word {
        "or" => Some(Kind::Joins(Gate::Or)),
        "and" => Some(Kind::Joins(Gate::And)),
        "pand" => Some(Kind::Joins(Gate::Pand)),
        "before" => Some(Kind::Joins(Gate::Before)),
        "fdep" => Some(Kind::Triggers),
        _ => None,
    }
}

// The record that words say: its kind and its two inputs. The words that are written for a record are read back as it.
pub fn read_record(words: &[&str]) -> Option<Record>
    ensures read { MatchOption result ((x : TreeRecord) → RecordWords x (map (λ x. x.now) words.now) → ⊥) (λ x. RecordWords x (map (λ x. x.now) words.now)) }
    ensures one { OneRecord (map (λ x. x.now) words.now) }
    ensures back { (x : TreeRecord) → firstInput x < 256 → secondInput x < 256 → map (λ x. x.now) words.now ≡ record_words x → result ≡ Some x }
{
    let [name, one, two] = words else {
        return None;
    };
    let kind = read_kind(name)?;
    let first = read_input(one.as_bytes())?;
    let second = read_input(two.as_bytes())?;
    Some(Record::new(kind, first, second))
}

// The word of a kind.
fn kind_word(kind: Kind) -> &'static str
    ensures { result.now ≡ kind_word kind }
{
    match kind {
        Kind::Joins(Gate::Or) => "or",
        Kind::Joins(Gate::And) => "and",
        Kind::Joins(Gate::Pand) => "pand",
        Kind::Joins(Gate::Before) => "before",
        Kind::Triggers => "fdep",
    }
}

// The line of a record: the words that are written for it, with a space between each two.
pub fn record_line(heap: Global, one: Record) -> Result<String, AllocError>
    ensures { IfOk result (λ l. string_bytes l ≡ joined (record_words one)) }
{
    let name = kind_word(one.kind());
    let first = input_word(heap, one.first())?;
    let second = input_word(heap, one.second())?;
    format!(in heap; "{name} {first} {second}")
}
