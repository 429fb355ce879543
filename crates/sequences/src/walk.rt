// Whether one can walk from a letter of a row back to itself, using at least one '<'.
ghost use Rattle.std.specs.Prelude.{◌≡◌, ℕ, ◌<◌, ◌&&◌, Decides};
ghost use Rattle.sequences.specs.Masks.{linked};
ghost use Rattle.sequences.specs.Rows.{precedes};
ghost use Rattle.sequences.specs.Walks.{Closes, Impossible, Low, Sound, any, via};

use crate::letters::{LetterSets, member};
use crate::row::Row;

// Links, which are of each letter the letters that one can go on to, are closed under going on.
impl LetterSets {
    // The links, and those by way of k.
    fn passing(self, k: u8) -> LetterSets
        requires { k < 24 }
        ensures { (v w : ℕ) → linked result.of v w ≡ via k (linked self.of) v w }
    {
        let mut out = self;
        let on = self.of[usize::from(k)];
        for set in &mut out.of {
            if member(*set, k) {
                *set |= on;
            }
        }
        out
    }

    // The links closed under going on. A loop, whose invariant says how far it came: after k turns, one goes on by way of
    // the letters below k.
    fn closed(self) -> LetterSets
        requires { Low (linked self.of) }
        ensures { Closes (linked self.of) (linked result.of) }
    {
        let mut reach = self;
        for k in 0..24 {
            reach = reach.passing(k);
        }
        reach
    }
}

impl Row {
    // One can come back to v from a letter that it precedes.
    fn returns_to(&self, reach: &LetterSets, v: u8) -> bool
        requires { v < 24 }
        ensures { result ≡ any 24 (λ w. precedes self.now v w && linked reach.now.of w v) }
    {
        (0..24).any(|w| self.before.has(v, w) && reach.has(w, v))
    }

    // One can walk from a letter back to itself along '<' and '=', using at least one '<'. That the row is sound is asked
    // for this question alone, and a table keeps it for its rows.
    pub fn impossible(&self) -> bool
        requires { Sound self.now }
        ensures { Decides result (Impossible self.now) }
    {
        let reach = self.before.union(&self.ties).closed();
        (0..24).any(|v| self.returns_to(&reach, v))
    }
}
