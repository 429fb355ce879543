// Step records: what one says, read field by field.
ghost use Rattle.std.specs.Prelude.{◌≡◌, ℕ, ◌<◌, ◌≤◌, true, List, Decides};
ghost use Rattle.algebra.specs.declared.Variable.{Variable as Letter};
ghost use Rattle.steps.specs.Readings.{FieldRead, FieldsRead, NextRead, StepRead, bytes_of, field_of, kind_bit, request_of};
ghost use Rattle.steps.specs.Records.{Request, Says, WholeTerm, bit_of, bit_stands, blank, put, supplied_for, the_term};

use crate::binding::Binding;
use crate::refusal::StepRefusal;
use algebra::{Variable, Way};
use texts::scan::is_whole;

// The number of rules.
const RULES: u8 = 42;

// What a step record says.
#[derive(Clone, Copy, Debug, PartialEq, Eq)]
pub struct StepRecord<'a> {
    pub rule: u8,
    pub way: Way,
    pub place: usize,
    pub supplied: Binding<'a>,
}

// A field of a step record. A supplied term is a part of the record.
#[derive(Clone, Copy, Debug, PartialEq, Eq)]
pub enum StepField<'a> {
    Rule(u8),
    Way(Way),
    Place(usize),
    Supply(Variable, &'a [u8]),
}

// What a field of a step record is about.
#[derive(Clone, Copy, Debug, PartialEq, Eq)]
pub(crate) enum FieldKind {
    Rule,
    Way,
    Place,
    Supply(Variable),
}

// The fields, in the order of their bits in the map byte, which is the order in which a record has them.
const FIELDS: [FieldKind; 6] = [
    FieldKind::Rule,
    FieldKind::Way,
    FieldKind::Place,
    FieldKind::Supply(Variable::X),
    FieldKind::Supply(Variable::Y),
    FieldKind::Supply(Variable::Z),
];

impl<'a> StepRecord<'a> {
    // What is said before any field is read: the rule 0 stands for none yet.
    fn blank() -> StepRecord<'a>
        ensures { request_of result ≡ blank }
    {
        StepRecord {
            rule: 0,
            way: Way::Forward,
            place: 0,
            supplied: Binding::none(),
        }
    }

    // The same with what a field says.
    fn with(self, field: StepField<'a>) -> StepRecord<'a>
        ensures { request_of result ≡ put (field_of field.entry) (request_of self.entry) }
    {
        match field {
            StepField::Rule(rule) => StepRecord { rule, ..self },
            StepField::Way(way) => StepRecord { way, ..self },
            StepField::Place(place) => StepRecord { place, ..self },
            StepField::Supply(letter, term) => StepRecord {
                supplied: self.supplied.with(letter, term),
                ..self
            },
        }
    }
}

// The rule, and the bytes after it.
fn read_rule(bytes: &[u8]) -> Result<(StepField<'_>, &[u8]), StepRefusal>
    ensures { FieldRead 0 bytes.now result }
{
    let (number, rest) = bytes.split_first().ok_or(StepRefusal::Form)?;
    Ok((StepField::Rule(*number), rest))
}

// The way, and the bytes after it.
fn read_way(bytes: &[u8]) -> Result<(StepField<'_>, &[u8]), StepRefusal>
    ensures { FieldRead 1 bytes.now result }
{
    let (byte, rest) = bytes.split_first().ok_or(StepRefusal::Form)?;
    let way = Way::try_from(*byte).map_err(|_| StepRefusal::Form)?;
    Ok((StepField::Way(way), rest))
}

// The place, and the bytes after it.
fn read_place(bytes: &[u8]) -> Result<(StepField<'_>, &[u8]), StepRefusal>
    ensures { FieldRead 2 bytes.now result }
{
    let [high, low, rest @ ..] = bytes else {
        return Err(StepRefusal::Form);
    };
    let place = u16::from_be_bytes([*high, *low]);
    Ok((StepField::Place(usize::from(place)), rest))
}

// The term for a letter, and the bytes after it.
fn read_supply<'a>(
    letter: Variable,
    bytes: &'a [u8],
) -> Result<(StepField<'a>, &'a [u8]), StepRefusal>
    ensures { (t : List ℕ) → FieldRead (bit_of (the_term letter t)) bytes.now result }
{
    let (length, rest) = bytes.split_first().ok_or(StepRefusal::Form)?;
    if *length == 0 {
        return Err(StepRefusal::Form);
    }
    let (term, rest) = rest
        .split_at_checked(usize::from(*length))
        .ok_or(StepRefusal::Form)?;
    Ok((StepField::Supply(letter, term), rest))
}

// A field of a kind, and the bytes after it.
fn read_field<'a>(
    kind: FieldKind,
    bytes: &'a [u8],
) -> Result<(StepField<'a>, &'a [u8]), StepRefusal>
    ensures { FieldRead (kind_bit kind) bytes.now result }
{
    match kind {
        FieldKind::Rule => read_rule(bytes),
        FieldKind::Way => read_way(bytes),
        FieldKind::Place => read_place(bytes),
        FieldKind::Supply(letter) => read_supply(letter, bytes),
    }
}

// Whether a bit of the map byte stands.
fn bit_stands(map: u8, bit: usize) -> bool
    requires { bit < 8 }
    ensures { result ≡ bit_stands map bit }
{
    (map >> bit) & 1 == 1
}

// A record half read: what it says so far, and the bytes that are left.
#[derive(Clone, Copy)]
pub(crate) struct Reading<'a> {
    pub said: StepRecord<'a>,
    pub rest: &'a [u8],
}

impl<'a> Reading<'a> {
    // Reads a field of the kind.
    fn next(self, kind: FieldKind) -> Result<Reading<'a>, StepRefusal>
        ensures { NextRead true (kind_bit kind) self.entry result }
    {
        let (field, rest) = read_field(kind, self.rest)?;
        Ok(Reading {
            said: self.said.with(field),
            rest,
        })
    }
}

// What the fields that stand in the map say, where they are all the bytes. The bits of the map are walked in their
// order, as the form of a record is defined.
fn read_fields<'a>(map: u8, bytes: &'a [u8]) -> Result<StepRecord<'a>, StepRefusal>
    ensures { FieldsRead map bytes.now result }
{
    let mut reading = Reading {
        said: StepRecord::blank(),
        rest: bytes,
    };
    for (bit, kind) in FIELDS.iter().enumerate() {
        if bit_stands(map, bit) {
            reading = reading.next(*kind)?;
        }
    }
    if !reading.rest.is_empty() {
        return Err(StepRefusal::Form);
    }
    Ok(reading.said)
}

// Whether the byte can be the map of a step record: bit 0 stands, bits 6 and 7 do not.
fn is_map(map: u8) -> bool
    ensures { Decides result ((map < 64) × (bit_stands map 0 ≡ true)) }
{
    map < 64 && bit_stands(map, 0)
}

// Whether the sheet has a rule of this number.
pub fn is_rule(number: u8) -> bool
    ensures { Decides result ((1 ≤ number) × (number ≤ 42)) }
{
    (1..=RULES).contains(&number)
}

// Whether a supplied term is one whole term with letters among the events.
fn is_term(term: Option<&[u8]>, events: u8) -> bool
    ensures { Decides result (WholeTerm events (bytes_of term.entry)) }
{
    term.is_none_or(|bytes| is_whole(bytes, events))
}

// Whether each supplied term is whole.
fn has_whole_terms(said: &StepRecord<'_>, events: u8) -> bool
    ensures { Decides result ((v : Letter) → WholeTerm events (supplied_for (request_of said.now) v)) }
{
    said.supplied.all(|_, term| is_term(term, events))
}

// Whether the rule is one of the sheet, and each supplied term whole.
fn is_sound(said: &StepRecord<'_>, events: u8) -> bool
    ensures { Decides result (((1 ≤ said.now.rule) × (said.now.rule ≤ 42)) × ((v : Letter) → WholeTerm events (supplied_for (request_of said.now) v))) }
{
    is_rule(said.rule) && has_whole_terms(said, events)
}

// What a step record says, for a tree with so many events.
pub fn read_step(bytes: &[u8], events: u8) -> Result<StepRecord<'_>, StepRefusal>
    ensures read { StepRead events bytes.now result }
    ensures one { (p q : Request) → Says events bytes.now p → Says events bytes.now q → p ≡ q }
{
    let [map, rest @ ..] = bytes else {
        return Err(StepRefusal::Form);
    };
    if !is_map(*map) {
        return Err(StepRefusal::Form);
    }
    let said = read_fields(*map, rest)?;
    if !is_sound(&said, events) {
        return Err(StepRefusal::Form);
    }
    Ok(said)
}
