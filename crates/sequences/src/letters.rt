// Sets of the 24 letters, as the bits of numbers, and of each letter such a set.
ghost use Rattle.std.specs.Prelude.{◌≡◌, ℕ, ◌<◌, ◌||◌, replicate};
ghost use Rattle.sequences.specs.Masks.{added, has, linked};
ghost use Rattle.sequences.specs.Walks.{any};

use std::array;

// The bits of the 24 letters.
const ALL_LETTERS: u32 = 0xff_ffff;

// The letter v is in the set. A letter is a number below 24 and has no type of its own: loops take it from 0..24, which
// says so.
pub fn member(set: u32, v: u8) -> bool
    requires { v < 24 }
    ensures { result ≡ has set v }
{
    (set >> v) & 1 == 1
}

// Of each of the 24 letters, a set of letters.
#[derive(Clone, Copy, Debug, PartialEq, Eq)]
pub struct LetterSets {
    pub of: [u32; 24],
}

impl LetterSets {
    // Of each letter, no letters.
    pub fn empty() -> LetterSets
        ensures { result.of ≡ replicate 24 0 }
    {
        LetterSets { of: [0; 24] }
    }

    // The letter w is in the set of v.
    pub fn has(&self, v: u8, w: u8) -> bool
        requires { (v < 24) × (w < 24) }
        ensures { result ≡ linked self.now.of v w }
    {
        member(self.of[usize::from(v)], w)
    }

    // Whether any letter is in the set of v.
    pub fn has_any(&self, v: u8) -> bool
        requires { v < 24 }
        ensures { result ≡ any 24 (λ w. linked self.now.of v w) }
    {
        self.of[usize::from(v)] & ALL_LETTERS != 0
    }

    // The letter w goes into the set of v.
    pub fn add(&mut self, v: u8, w: u8)
        requires { (v < 24) × (w < 24) }
        ensures { self.new.of ≡ added v w self.old.of }
    {
        self.of[usize::from(v)] |= 1 << w;
    }

    // Of each letter, the letters of either set.
    pub fn union(&self, other: &LetterSets) -> LetterSets
        ensures { (v w : ℕ) → linked result.of v w ≡ linked self.now.of v w || linked other.now.of v w }
    {
        LetterSets {
            of: array::from_fn(|v| self.of[v] | other.of[v]),
        }
    }
}
