// Inputs of a tree's records in words.
ghost use Rattle.std.specs.Prelude.{◌≡◌, ℕ, ◌+◌, ◌<◌, [], ◌∷◌, IfOk, Some, string_bytes, MatchOption};
ghost use Rattle.notation.specs.Inputs.{Names, OneName, input_word};
ghost use Rattle.notation.specs.Numbers.{Number};

use crate::numbers::read_byte;
use algebra::event_of;
use std::alloc::{AllocError, Global};

// How many events have a letter.
const LETTERS: u8 = 24;

// The input of the first gate; those before it are events.
const FIRST_GATE: u8 = 64;

// The number that a word of digits writes, where it is below a limit.
fn read_below(digits: &[u8], limit: u8) -> Option<u8>
    ensures { MatchOption result ((n : ℕ) → n < limit → Number digits.now n → ⊥) (λ n. (n < limit) × Number digits.now n) }
{
    read_byte(digits).filter(|number| *number < limit)
}

// The input that is the gate of a record.
fn read_gate(digits: &[u8]) -> Option<u8>
    ensures { MatchOption result ((k : ℕ) → k < 192 → Number digits.now k → ⊥) (λ i. (k : ℕ) × (k < 192) × Number digits.now k × (i ≡ 64 + k)) }
{
    FIRST_GATE.checked_add(read_byte(digits)?)
}

// The input that a word names.
pub fn read_input(word: &[u8]) -> Option<u8>
    ensures named { MatchOption result ((i : ℕ) → Names word.now i → ⊥) (λ i. Names word.now i) }
    ensures one { OneName word.now }
    ensures back { (i : ℕ) → i < 256 → word.now ≡ input_word i → result ≡ Some i }
{
    match word {
        [letter] => event_of(*letter),
        [b'e', digits @ ..] => read_below(digits, FIRST_GATE),
        [b'g', digits @ ..] => read_gate(digits),
        _ => None,
    }
}

// The letter of an event.
fn letter_word(heap: Global, event: u8) -> Result<String, AllocError>
    requires { event < 24 }
    ensures { IfOk result (λ w. string_bytes w ≡ (97 + event) ∷ []) }
{
    let letter = char::from(b'a' + event);
    format!(in heap; "{letter}")
}

// The word of an input: the letter of an event that has one, or else its number after an e, or that of a record after a g.
pub fn input_word(heap: Global, input: u8) -> Result<String, AllocError>
    ensures { IfOk result (λ w. string_bytes w ≡ input_word input) }
{
    if input < LETTERS {
        letter_word(heap, input)
    } else if input < FIRST_GATE {
        format!(in heap; "e{input}")
    } else {
        let record = input - FIRST_GATE;
        format!(in heap; "g{record}")
    }
}
