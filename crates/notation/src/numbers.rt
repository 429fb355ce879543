// Numbers in words.
ghost use Rattle.std.specs.Prelude.{ℕ, ◌<◌, MatchOption};
ghost use Rattle.notation.specs.Numbers.{Number};

use std::str::from_utf8;

// The number that a word of digits writes, up to 65,535.
pub(crate) fn read_number(word: &[u8]) -> Option<u16>
    ensures { MatchOption result ((n : ℕ) → n < 65536 → Number word.now n → ⊥) (λ n. Number word.now n) }
{
    let [b'0'..=b'9', ..] = word else {
        return None;
    };
    from_utf8(word).ok()?.parse().ok()
}

// The number that a word of digits writes, up to 255.
pub fn read_byte(word: &[u8]) -> Option<u8>
    ensures { MatchOption result ((n : ℕ) → n < 256 → Number word.now n → ⊥) (λ n. (n < 256) × Number word.now n) }
{
    u8::try_from(read_number(word)?).ok()
}
