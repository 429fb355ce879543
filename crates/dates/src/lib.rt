// Kinds of date: what a date means and the laws of its order, as a trait, and three kinds.
#![tactic(auto)]

ghost use Rattle.std.specs.Prelude.{◌≡◌, ℕ, ◌&&◌, List, length, None, Option, ◌≢◌};
ghost use Rattle.algebra.specs.Kinds.{Kind, before};
ghost use Rattle.algebra.specs.Terms.{joined};
ghost use Rattle.algebra.specs.declared.Operator.TheVariants.{And, Or};
ghost use Rattle.dates.specs.Causes.{cause_kind, cause_of, rank_of};
ghost use Rattle.dates.specs.Reading.{FrontOf};
ghost use Rattle.dates.specs.ShiftTicks.{shift_tick_kind, shift_tick_of};
ghost use Rattle.dates.specs.Ticks.{tick_kind, tick_of};
ghost use Rattle.std.proofs.Common.{rules};

use std::fmt;

// A kind of date. Its order is not that of `Ord`, in which only equal values are the same: two causes are the same date.
pub trait Date: Copy {
    // which date is never, and which is no later than which, with the laws of the order
    ghost kind: { Kind Self };

    // the date of a byte string, if it has one
    ghost date_of: { List ℕ → Option Self };

    // how many bytes a date has
    ghost WIDTH: { ℕ };

    const WIDTH: usize;

    fn never() -> Self
        ensures { result ≡ kind.never };

    fn no_later(self, other: Self) -> bool
        ensures { result ≡ kind.no_later self other };

    fn read(bytes: &[u8]) -> Option<Self>
        ensures { result ≡ date_of bytes.now };

    // Whether this one is before the other: the other is not as early.
    fn is_before(self, other: Self) -> bool
        ensures { result ≡ before kind self other }
    {
        !other.no_later(self)
    }

    // Whether each is no later than the other.
    fn is_same(self, other: Self) -> bool
        ensures { result ≡ (kind.no_later self other && kind.no_later other self) }
    {
        self.no_later(other) && other.no_later(self)
    }

    // The earlier of the two, `self` where they are the same.
    fn earlier(self, other: Self) -> Self
        ensures { result ≡ joined kind Or self other }
    {
        if self.no_later(other) { self } else { other }
    }

    // The later of the two, `self` where they are the same.
    fn later(self, other: Self) -> Self
        ensures { result ≡ joined kind And self other }
    {
        if other.no_later(self) { self } else { other }
    }

    ghost sized: { (bytes : List ℕ) → (length bytes ≢ WIDTH) → date_of bytes ≡ None };
}

// The date at the front of the bytes, and the bytes after it.
pub fn read_front<D: Date>(bytes: &[u8]) -> Option<(D, &[u8])>
    ensures { FrontOf D.date_of bytes.now result }
{
    let (front, rest) = bytes.split_at_checked(D::WIDTH)?;
    Some((D::read(front)?, rest))
}

// A whole number of ticks; the largest is never.
#[derive(Clone, Copy, Debug, PartialEq, Eq)]
pub struct Tick {
    pub value: u32,
}

impl Date for Tick {
    ghost kind = { tick_kind };

    ghost date_of = { tick_of };

    ghost WIDTH = { 4 };

    const WIDTH: usize = 4;

    ghost sized = { Prim.search rules };

    fn never() -> Tick {
        Tick { value: u32::MAX }
    }

    fn no_later(self, other: Tick) -> bool {
        self.value <= other.value
    }

    fn read(bytes: &[u8]) -> Option<Tick> {
        let [a, b, c, d] = bytes else {
            return None;
        };
        Some(Tick {
            value: u32::from_be_bytes([*a, *b, *c, *d]),
        })
    }
}

impl fmt::Display for Tick {
    fn fmt<W: fmt::Write>(&self, f: &mut fmt::Formatter<W>) -> fmt::Result {
        if self.value == u32::MAX {
            f.write_str("never")
        } else {
            write!(f, "{}", self.value)
        }
    }
}

// How many ticks a shift has.
const TICKS_OF_A_SHIFT: u32 = 28_800;

// The last tick of the last shift, which is never.
const LAST_TICK: u32 = 1_887_436_799;

// A shift and a tick within it, as the one number shift * 28800 + tick. A number above that of never is the same as never.
#[derive(Clone, Copy, Debug)]
pub struct ShiftTick {
    pub value: u32,
}

impl Date for ShiftTick {
    ghost kind = { shift_tick_kind };

    ghost date_of = { shift_tick_of };

    ghost WIDTH = { 4 };

    const WIDTH: usize = 4;

    ghost sized = { Prim.search rules };

    fn never() -> ShiftTick {
        ShiftTick { value: LAST_TICK }
    }

    fn no_later(self, other: ShiftTick) -> bool {
        self.value.min(LAST_TICK) <= other.value.min(LAST_TICK)
    }

    fn read(bytes: &[u8]) -> Option<ShiftTick> {
        let [a, b, c, d] = bytes else {
            return None;
        };
        let shift = u32::from(u16::from_be_bytes([*a, *b]));
        let tick = u32::from(u16::from_be_bytes([*c, *d]));
        (tick < TICKS_OF_A_SHIFT).then_some(ShiftTick {
            value: shift * TICKS_OF_A_SHIFT + tick,
        })
    }
}

// The cause of a failure, by its letter.
#[derive(Clone, Copy, Debug)]
pub struct Cause {
    letter: char,
}

// The rank of a letter, if it has one. M and S are two dates that are the same.
pub fn rank(letter: char) -> Option<u8>
    ensures { result ≡ rank_of letter }
{
    match letter {
        'P' => Some(0),
        'L' => Some(1),
        'C' => Some(2),
        'M' => Some(3),
        'S' => Some(3),
        'W' => Some(4),
        '-' => Some(5),
        _ => None,
    }
}

impl Date for Cause {
    ghost kind = { cause_kind };

    ghost date_of = { cause_of };

    ghost WIDTH = { 1 };

    const WIDTH: usize = 1;

    ghost sized = { Prim.search rules };

    fn never() -> Cause {
        Cause { letter: '-' }
    }

    fn no_later(self, other: Cause) -> bool {
        rank(self.letter).unwrap_or(5) <= rank(other.letter).unwrap_or(5)
    }

    fn read(bytes: &[u8]) -> Option<Cause> {
        let [b] = bytes else {
            return None;
        };
        let letter = char::from(*b);
        rank(letter).map(|_| Cause { letter })
    }
}
