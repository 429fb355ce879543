// A text: the bytes of a term in a fixed array, and the byte N in every unused place.
ghost use Rattle.std.specs.Prelude.{◌≡◌, ◌+◌, ◌<◌, ◌≤◌, [], ◌∷◌, ◌++◌, length, nat_le, OnOk, OnErr};
ghost use Rattle.algebra.specs.Texts.{never_byte};

use std::marker::Model;
use thiserror::Error;

// The most bytes that a text has.
pub const LIMIT: usize = 511;

// The bytes of a text with no used place.
const UNUSED: [u8; 511] = [b'N'; 511];

// Clauses see the bytes of the term. An array and a count, since a text lies in fixed memory, with no heap.
#[derive(Clone, Copy, Debug, PartialEq, Eq)]
pub struct Text {
    bytes: [u8; 511],
    len: usize,
}

impl Model for Text {
    ghost use Rattle.std.specs.Prelude.{ℕ, List};

    ghost Value = { List ℕ };

    ghost use Rattle.texts.specs.Text.{used, Filled, filled_with, used_back};

    ghost view = { used };

    ghost invariant = { Filled };

    ghost inverse = { filled_with };

    ghost inverse_ok = { used_back };
}

// The bytes do not fit into a text.
#[derive(Clone, Copy, Debug, PartialEq, Eq, Error)]
#[error("a text has at most 511 bytes")]
pub struct NoRoom;

impl Text {
    // A text with no byte yet, to be filled by `append`.
    pub fn empty() -> Text
        ensures { result ≡ [] }
    {
        Text {
            bytes: UNUSED,
            len: 0,
        }
    }

    // The text of the term that is never.
    pub fn never() -> Text
        ensures { result ≡ never_byte ∷ [] }
    {
        Text {
            bytes: UNUSED,
            len: 1,
        }
    }

    // The bytes of the term.
    pub fn as_bytes(&self) -> &[u8]
        ensures bytes { result.now ≡ self.now }
        ensures short { length self.now ≤ 511 }
    {
        &self.bytes[..self.len]
    }

    // So many bytes more can be added.
    fn has_room(&self, more: usize) -> bool
        ensures { result ≡ nat_le (length self.now + more) 511 }
    {
        more <= LIMIT - self.len
    }

    // Adds the bytes, or changes nothing where they do not fit.
    pub fn append(&mut self, more: &[u8]) -> Result<(), NoRoom>
        ensures ok { OnOk result (self.new ≡ self.old ++ more.now) }
        ensures err { OnErr result (511 < length self.old + length more.now) }
        ensures left { OnErr result (self.new ≡ self.old) }
        ensures short { length self.new ≤ 511 }
    {
        if !self.has_room(more.len()) {
            return Err(NoRoom);
        }
        let end = self.len + more.len();
        self.bytes[self.len..end].copy_from_slice(more);
        self.len = end;
        Ok(())
    }
}
