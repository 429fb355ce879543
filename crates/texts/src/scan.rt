// Reads the bytes of texts from the front: tokens, where a term ends, and whether bytes are a text.
ghost use Rattle.std.specs.Prelude.{◌≡◌, ℕ, ◌+◌, ◌^◌, ◌<◌, List, ◌++◌, drop, Decides, All, MatchOption, ◌≢◌, nat_le};
ghost use Rattle.algebra.specs.Terms.{Term};
ghost use Rattle.algebra.specs.Texts.{IsText, Whole, text_of};
ghost use Rattle.texts.specs.Spans.{Spans, still_to_come};

use algebra::Token;

// How many terms are still to come after a token, where so many were before it.
fn still_to_come(token: Token<u8>, terms: usize) -> Option<usize>
    requires some { 0 < terms }
    requires fits { terms + 1 < 2 ^ 64 }
    ensures { result ≡ still_to_come token terms }
{
    match token {
        Token::Joins(_) => Some(terms + 1),
        Token::Letter(_) => Some(terms - 1),
        Token::Never => Some(terms - 1),
        Token::Unknown => None,
    }
}

// How many bytes the term at the front has, or `None` where no term stands there.
fn front_length(bytes: &[u8]) -> Option<usize>
    ensures { MatchOption result ((t : Term ℕ) (rest : List ℕ) → bytes.now ≢ text_of t ++ rest) (λ length. (t : Term ℕ) × Spans bytes.now 0 t length) }
{
    let mut terms = 1;
    for (before, byte) in bytes.iter().enumerate() {
        terms = still_to_come(Token::from(*byte), terms)?;
        if terms == 0 {
            return Some(before + 1);
        }
    }
    None
}

// Where the term at `place` ends, or `None` where no term stands there.
pub fn term_end(bytes: &[u8], place: usize) -> Option<usize>
    ensures { MatchOption result ((t : Term ℕ) (rest : List ℕ) → drop place bytes.now ≢ text_of t ++ rest) (λ end. (t : Term ℕ) × Spans bytes.now place t end) }
{
    let length = front_length(bytes.get(place..)?)?;
    Some(place + length)
}

// Whether every letter is one of the first `events`.
fn letters_below(bytes: &[u8], events: u8) -> bool
    ensures { Decides result (All (λ b. b < 97 + events) bytes.now) }
{
    bytes
        .iter()
        .all(|byte| *byte < b'a' || *byte - b'a' < events)
}

// Whether the bytes are one whole term, whose letters are among the first `events`.
pub fn is_whole(bytes: &[u8], events: u8) -> bool
    ensures { Decides result (Whole events bytes.now) }
{
    term_end(bytes, 0) == Some(bytes.len()) && letters_below(bytes, events)
}

// Whether the bytes are a text: one whole term over the letters a to x, of at most 511 bytes.
pub fn is_text(bytes: &[u8]) -> bool
    ensures { Decides result (IsText bytes.now) }
{
    bytes.len() <= 511 && is_whole(bytes, 24)
}
