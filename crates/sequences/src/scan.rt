// Reads a sum of sequences byte by byte, from the left, and enters each factor into the row of its sequence.
ghost use Rattle.std.specs.Prelude.{◌≡◌, ◌==◌, ◌<◌, ◌≤◌, length};
ghost use Rattle.sequences.specs.Scans.{Keeps, begun, completed, is_end, moved, onward, reading_at, run, start, step_of};
ghost use Rattle.sequences.specs.declared.scan.Wants.TheVariants.{First, Second, Sum};

use crate::row::{Factor, Row, Sign};
use algebra::event_of;

// What the next byte is to begin. After a byte that fits nowhere that is nothing, a state as the others are: the
// definition too reads on to the end of the text.
#[derive(Clone, Copy)]
pub enum Wants {
    Sum,
    Part,
    First(Sign),
    Second(Sign, u8),
    End,
    Nothing,
}

// What the next byte is to begin, and how many parts of this sequence and how many sums are yet to come after that.
#[derive(Clone, Copy)]
pub struct Reading {
    pub wants: Wants,
    pub parts: usize,
    pub sums: usize,
}

// The reading after one byte more, and the factor that the byte ends.
#[derive(Clone, Copy)]
pub struct Step {
    pub next: Reading,
    pub factor: Option<Factor>,
}

// How far the reading came, the rows of the first 64 sequences, and how many sequences are whole.
#[derive(Clone, Copy)]
pub struct Scan {
    pub reading: Reading,
    pub rows: [Row; 64],
    pub count: usize,
}

impl Reading {
    fn start() -> Reading
        ensures { result ≡ reading_at Sum 0 0 }
    {
        Reading {
            wants: Wants::Sum,
            parts: 0,
            sums: 0,
        }
    }

    // What comes after a factor.
    fn onward(self) -> Reading
        ensures { result ≡ onward self.parts self.sums }
    {
        match (self.parts, self.sums) {
            (0, 0) => Reading {
                wants: Wants::End,
                parts: 0,
                sums: 0,
            },
            (0, sums) => Reading {
                wants: Wants::Sum,
                parts: 0,
                sums: sums - 1,
            },
            (parts, sums) => Reading {
                wants: Wants::Part,
                parts: parts - 1,
                sums,
            },
        }
    }

    // Whether a factor ends its sequence.
    fn is_last(self) -> bool
        ensures { result ≡ (self.parts == 0) }
    {
        self.parts == 0
    }

    // Whether a whole sum was read, and nothing after it.
    pub fn ended(self) -> bool
        ensures { result ≡ is_end self.wants }
    {
        matches!(self.wants, Wants::End)
    }

    // A byte that ends no factor.
    fn moves(self, wants: Wants) -> Step
        ensures { result ≡ moved wants self.parts self.sums }
    {
        Step {
            next: Reading { wants, ..self },
            factor: None,
        }
    }

    // A byte that ends the factor.
    fn completes(self, factor: Factor) -> Step
        ensures { result ≡ completed self.parts self.sums factor }
    {
        Step {
            next: self.onward(),
            factor: Some(factor),
        }
    }

    // A byte where a part of a sequence begins.
    #[tactic(auto, using(crate::proofs::Scanning::no_letter))]
    fn begins(self, byte: u8) -> Step
        requires { self.parts < 511 }
        ensures { result ≡ begun self.parts self.sums byte }
    {
        match byte {
            b'*' => Reading {
                parts: self.parts + 1,
                ..self
            }
            .moves(Wants::Part),
            b'<' => self.moves(Wants::First(Sign::Precedes)),
            b'=' => self.moves(Wants::First(Sign::Ties)),
            _ => match event_of(byte) {
                Some(v) => self.completes(Factor::Letter(v)),
                None => self.moves(Wants::Nothing),
            },
        }
    }

    // A byte where a sum begins.
    fn begins_sum(self, byte: u8) -> Step
        requires { (self.parts < 511) × (self.sums < 511) }
        ensures { result ≡ step_of Sum self.parts self.sums byte }
    {
        if byte == b'+' {
            Reading {
                sums: self.sums + 1,
                ..self
            }
            .moves(Wants::Sum)
        } else {
            self.begins(byte)
        }
    }

    // The first letter of a pair.
    #[tactic(auto, using(crate::proofs::Scanning::no_letter))]
    fn first(self, sign: Sign, byte: u8) -> Step
        ensures { result ≡ step_of (First sign) self.parts self.sums byte }
    {
        match event_of(byte) {
            Some(v) => self.moves(Wants::Second(sign, v)),
            None => self.moves(Wants::Nothing),
        }
    }

    // The second letter of a pair, which is another.
    #[tactic(auto, using(crate::proofs::Scanning::no_letter))]
    fn second(self, sign: Sign, v: u8, byte: u8) -> Step
        ensures { result ≡ step_of (Second sign v) self.parts self.sums byte }
    {
        match event_of(byte) {
            Some(w) if w != v => self.completes(Factor::Pair(sign, v, w)),
            _ => self.moves(Wants::Nothing),
        }
    }

    // One byte more. This is a reader by states, as the definition has it. Each count grows by one at most, and a text
    // has at most 511 bytes, so neither gets to 511 before its last byte.
    fn step(self, byte: u8) -> Step
        requires { (self.parts < 511) × (self.sums < 511) }
        ensures { result ≡ step_of self.wants self.parts self.sums byte }
    {
        match self.wants {
            Wants::Sum => self.begins_sum(byte),
            Wants::Part => self.begins(byte),
            Wants::First(sign) => self.first(sign, byte),
            Wants::Second(sign, v) => self.second(sign, v, byte),
            Wants::End | Wants::Nothing => self.moves(Wants::Nothing),
        }
    }
}

// Reads the bytes. Each factor that ends is entered into the row of its sequence, if that is one of the first 64.
pub fn scan_sum(text: &[u8]) -> Scan
    requires { length text.now ≤ 511 }
    ensures { Keeps (run start text.now) result.reading result.rows result.count }
{
    let mut reading = Reading::start();
    let mut rows = [Row::blank(); 64];
    let mut count = 0usize;
    for byte in text {
        let step = reading.step(*byte);
        if let Some(factor) = step.factor {
            if count < 64 {
                // A row of a plain array is lent.
                rows[count].enter(factor);
            }
            if reading.is_last() {
                count += 1;
            }
        }
        reading = step.next;
    }
    Scan {
        reading,
        rows,
        count,
    }
}
