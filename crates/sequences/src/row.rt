// The row of a sequence: its letters and pairs, as sets of letters.
ghost use Rattle.std.specs.Prelude.{◌≡◌};
ghost use Rattle.sequences.specs.Rows.{Fitting, SignByte, blank, entered};

use crate::letters::LetterSets;

// A set of letters, and of each letter the letters that it precedes and those that it ties.
#[derive(Clone, Copy, Debug, PartialEq, Eq)]
pub struct Row {
    pub letters: u32,
    pub before: LetterSets,
    pub ties: LetterSets,
}

// What a pair is written with: '<' or '='.
#[derive(Clone, Copy, Debug, PartialEq, Eq)]
pub enum Sign {
    Precedes,
    Ties,
}

impl From<Sign> for u8 {
    ghost from_gives = { SignByte };

    fn from(sign: Sign) -> u8 {
        match sign {
            Sign::Precedes => b'<',
            Sign::Ties => b'=',
        }
    }
}

// A letter, or a pair of two.
#[derive(Clone, Copy, Debug, PartialEq, Eq)]
pub enum Factor {
    Letter(u8),
    Pair(Sign, u8, u8),
}

impl Row {
    // A row with nothing in it.
    pub fn blank() -> Row
        ensures { result ≡ blank }
    {
        Row {
            letters: 0,
            before: LetterSets::empty(),
            ties: LetterSets::empty(),
        }
    }

    // Adds the factor's letter or pair; a tie stands at both its letters.
    pub fn enter(&mut self, factor: Factor)
        requires { Fitting factor }
        ensures { self.new ≡ entered factor self.old }
    {
        match factor {
            Factor::Letter(v) => self.letters |= 1 << v,
            Factor::Pair(Sign::Precedes, v, w) => self.before.add(v, w),
            Factor::Pair(Sign::Ties, v, w) => {
                self.ties.add(v, w);
                self.ties.add(w, v);
            }
        }
    }
}
