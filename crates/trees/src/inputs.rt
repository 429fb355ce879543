// The inputs of a tree: their texts, as its records give them, and which of them a record has read.
ghost use Rattle.std.specs.Prelude.{◌≡◌, ℕ, ◌<◌, ◌≤◌, false, cond, ◌||◌, Some, List, [], length, option_map, IsSome, ◌==◌, nat_le};
ghost use Rattle.algebra.specs.Terms.{leaf};
ghost use Rattle.algebra.specs.Texts.{text_of};
ghost use Rattle.trees.specs.Held.{Holds, After, input_at, text_in, read_in};
ghost use Rattle.trees.specs.declared.record.Record.{Record};
ghost use Rattle.trees.specs.declared.record.Record.TheVariants.{Joins, Triggers};

use crate::counts::Counts;
use crate::join::{gate_text, triggered_text};
use crate::record::{Gate, Record};
use crate::refusal::TreeRefusal;
use texts::text::Text;

// An input: its text, and whether a record has read it.
#[derive(Clone, Copy)]
struct Input {
    text: Text,
    is_read: bool,
}

// By place, in fixed memory: the events from 0, and the gate of record k at 64 + k.
#[derive(Drop)]
pub struct Inputs {
    places: [Option<Input>; 96],
}

// The letter of an event.
fn letter_text(event: u8) -> Text
    requires { event < 24 }
    ensures { result ≡ text_of (leaf event) }
{
    let mut text = Text::empty();
    text.append(&[b'a' + event]).unwrap();
    text
}

// No FDEP may have this dependent: it is no event, its own trigger, or was read before.
fn misplaced(trigger: u8, dependent: u8, was_read: bool) -> bool
    ensures { result ≡ (nat_le 64 dependent || (trigger == dependent || was_read)) }
{
    dependent >= 64 || trigger == dependent || was_read
}

impl Inputs {
    // The inputs of a tree before its first record.
    pub fn new(counts: Counts) -> Inputs
        ensures { Holds counts.events [] result }
    {
        // One event after another: `array::from_fn` moves all the places, and a tree is then read several times slower.
        let mut inputs = Inputs { places: [None; 96] };
        for event in 0..counts.events {
            inputs.put(usize::from(event), letter_text(event));
        }
        inputs
    }

    // The input at a place, where there is one.
    fn get(&self, place: u8) -> Option<&Input>
        ensures { option_map (λ x. x.now) result ≡ input_at self.now place }
    {
        self.places.get(usize::from(place))?.as_ref()
    }

    // The text of an input, where it has one.
    pub fn text(&self, input: u8) -> Option<&Text>
        ensures { option_map (λ x. x.now) result ≡ text_in (input_at self.now input) }
    {
        self.get(input).map(|held| &held.text)
    }

    // The input at a place has this text, which no record has read.
    fn put(&mut self, place: usize, text: Text)
        requires { place < 96 }
        ensures texts { (i : ℕ) → text_in (input_at self.new i) ≡ cond (i == place) (Some text) (text_in (input_at self.old i)) }
        ensures reads { (i : ℕ) → read_in (input_at self.new i) ≡ cond (i == place) false (read_in (input_at self.old i)) }
    {
        self.places[place] = Some(Input {
            text,
            is_read: false,
        });
    }

    // A record reads this input.
    fn mark(&mut self, place: u8)
        requires { IsSome (input_at self.old place) }
        ensures texts { (i : ℕ) → text_in (input_at self.new i) ≡ text_in (input_at self.old i) }
        ensures reads { (i : ℕ) → read_in (input_at self.new i) ≡ (i == place || read_in (input_at self.old i)) }
    {
        self.places[usize::from(place)].as_mut().unwrap().is_read = true;
    }

    // Record k is a gate.
    fn add_gate(&mut self, k: usize, gate: Gate, first: u8, second: u8) -> Result<(), TreeRefusal>
        requires { k < 32 }
        ensures { (E : ℕ) (rs : List Record) → Holds E rs self.old → length rs ≡ k → After E rs (Joins gate first second) self.new result }
    {
        let a = self.text(first).ok_or(TreeRefusal::Input)?;
        let b = self.text(second).ok_or(TreeRefusal::Input)?;
        let text = gate_text(gate, a.as_bytes(), b.as_bytes())?;
        self.put(64 + k, text);
        self.mark(first);
        self.mark(second);
        Ok(())
    }

    // The dependent has one more trigger.
    fn add_trigger(&mut self, trigger: u8, dependent: u8) -> Result<(), TreeRefusal>
        ensures { (E : ℕ) (rs : List Record) → Holds E rs self.old → After E rs (Triggers trigger dependent) self.new result }
    {
        let a = self.get(trigger).ok_or(TreeRefusal::Input)?;
        let b = self.get(dependent).ok_or(TreeRefusal::Input)?;
        if misplaced(trigger, dependent, b.is_read) {
            return Err(TreeRefusal::Dependent);
        }
        let text = triggered_text(b.text.as_bytes(), a.text.as_bytes())?;
        self.put(usize::from(dependent), text);
        self.mark(trigger);
        Ok(())
    }

    // Record k comes after those before it.
    pub fn add(&mut self, k: usize, next: Record) -> Result<(), TreeRefusal>
        requires { k < 32 }
        ensures { (E : ℕ) (rs : List Record) → Holds E rs self.old → length rs ≡ k → After E rs next self.new result }
    {
        match next {
            Record::Joins {
                gate,
                first,
                second,
            } => self.add_gate(k, gate, first, second),
            Record::Triggers { trigger, dependent } => self.add_trigger(trigger, dependent),
        }
    }
}
