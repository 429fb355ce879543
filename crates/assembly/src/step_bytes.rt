// The bytes of a step record, written from what it says.
ghost use Rattle.std.specs.Prelude.{◌≡◌, ℕ, ◌+◌, ◌<◌, ◌≤◌, ◌&&◌, ◌∷◌, ◌++◌, length, is_some, map, All, IfOk, Some, Decides, MatchResult, OnOk};
ghost use Rattle.std.specs.Option.{option_map};
ghost use Rattle.algebra.specs.declared.Variable.{Variable as Letter};
ghost use Rattle.steps.specs.Readings.{bytes_of, field_of, request_of};
ghost use Rattle.steps.specs.Records.{Request, Says, the_term};
ghost use Rattle.assembly.specs.Writing.{Added, AddedIf, Each, Fits, NoBytesSay, Sayable, Sized, WritableTerm, fields_of, map_of_all, place_field, term_field, way_field};

use crate::fault::BytesFault;
use algebra::{Variable, Way};
use std::alloc::{AllocError, Global};
use steps::binding::Binding;
use steps::record::{StepField, StepRecord, is_rule};
use texts::scan::is_whole;

// The way of a step as a field; forward has none.
fn way_field<'a>(way: Way) -> Option<StepField<'a>>
    ensures { option_map field_of result ≡ way_field way }
{
    (way == Way::Backward).then_some(StepField::Way(way))
}

// The place of a step as a field; place 0 has none.
fn place_field<'a>(place: usize) -> Option<StepField<'a>>
    ensures { option_map field_of result ≡ place_field place }
{
    (place != 0).then_some(StepField::Place(place))
}

// A supplied term as a field.
fn term_field<'a>(letter: Variable, term: Option<&'a [u8]>) -> Option<StepField<'a>>
    ensures { option_map field_of result ≡ term_field letter (bytes_of term.entry) }
{
    term.map(|bytes| StepField::Supply(letter, bytes))
}

// The fields of a step record beside its rule, in order, where each stands.
fn fields_of<'a>(said: &StepRecord<'a>) -> [Option<StepField<'a>>; 5]
    ensures { map (option_map field_of) result ≡ fields_of (request_of said.now) }
{
    let supplied = said.supplied;
    [
        way_field(said.way),
        place_field(said.place),
        term_field(Variable::X, supplied.x),
        term_field(Variable::Y, supplied.y),
        term_field(Variable::Z, supplied.z),
    ]
}

// The map byte of a record with a rule, and with those of the fields that stand.
fn map_byte(fields: [Option<StepField<'_>>; 5]) -> u8
    ensures { result ≡ map_of_all (map is_some fields.entry) }
{
    let [way, place, x, y, z] = fields.map(|field| u8::from(field.is_some()));
    1 + 2 * way + 4 * place + 8 * x + 16 * y + 32 * z
}

// Adds a term, with its length before it.
fn add_term(out: &mut Vec<u8>, term: &[u8]) -> Result<(), AllocError>
    requires { (1 ≤ length term.now) × (length term.now ≤ 255) }
    ensures { OnOk result ((v : Letter) → Added (the_term v term.now) out.old.items out.new.items) }
{
    out.push(term.len() as u8)?;
    out.extend_from_slice(term)?;
    Ok(())
}

// Adds the bytes of a field.
fn add_field(out: &mut Vec<u8>, field: StepField<'_>) -> Result<(), AllocError>
    requires { Fits (field_of field) }
    ensures { OnOk result (Added (field_of field.entry) out.old.items out.new.items) }
{
    match field {
        StepField::Rule(rule) => out.push(rule)?,
        StepField::Way(way) => out.push(u8::from(way))?,
        StepField::Place(place) => { out.extend_from_slice(&(place as u16).to_be_bytes())? }
        StepField::Supply(_, term) => add_term(out, term)?,
    }
    Ok(())
}

// Adds the bytes of a field, where it stands.
fn add(out: &mut Vec<u8>, field: Option<StepField<'_>>) -> Result<(), AllocError>
    requires { Each Fits (option_map field_of field) }
    ensures { OnOk result (AddedIf (option_map field_of field.entry) out.old.items out.new.items) }
{
    if let Some(one) = field {
        add_field(out, one)?;
    }
    Ok(())
}

// The bytes of a step record; what is said without a field has none.
fn encode(heap: Global, said: &StepRecord<'_>) -> Result<Vec<u8>, AllocError>
    requires { Sized (request_of said.now) }
    ensures { IfOk result (λ v. (events : ℕ) → Sayable events (request_of said.now) → Says events v.items (request_of said.now)) }
{
    let fields = fields_of(said);
    let mut out = Vec::from_slice(heap, &[map_byte(fields), said.rule])?;
    for field in fields {
        add(&mut out, field)?;
    }
    Ok(out)
}

// Whether a supplied term can be written: it is whole, has letters among the events, and its length fits one byte.
fn is_term(term: Option<&[u8]>, events: u8) -> bool
    ensures { Decides result (WritableTerm events (bytes_of term.entry)) }
{
    term.is_none_or(|bytes| bytes.len() <= 255 && is_whole(bytes, events))
}

// Whether each of these supplied terms can be written.
fn are_terms(terms: &[Option<&[u8]>], events: u8) -> bool
    ensures { Decides result (All (λ term. WritableTerm events (bytes_of term)) terms.now) }
{
    terms.iter().all(|term| is_term(*term, events))
}

// Whether a step record can say this, for a tree with so many events.
fn is_sayable(said: &StepRecord<'_>, events: u8) -> bool
    ensures { Decides result (Sayable events (request_of said.now)) }
{
    let Binding { x, y, z } = said.supplied;
    is_rule(said.rule) && said.place < 65536 && are_terms(&[x, y, z], events)
}

// The bytes of a step record, for a tree with so many events. What has none cannot be said by any bytes.
pub fn write_step(heap: Global, events: u8, said: &StepRecord<'_>) -> Result<Vec<u8>, BytesFault>
    ensures written { MatchResult result (λ v. Says events v.items (request_of said.now)) (λ e. NoBytesSay e events (request_of said.now)) }
    ensures back { IfOk result (λ v. (q : Request) → Says events v.items q → q ≡ request_of said.now) }
{
    if !is_sayable(said, events) {
        return Err(BytesFault::NoForm);
    }
    Ok(encode(heap, said)?)
}
