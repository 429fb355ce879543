// The line of a row.
ghost use Rattle.std.specs.Prelude.{◌≡◌, ℕ, ◌+◌, ◌<◌, ◌≤◌, List, [], ◌∷◌, ◌++◌, length, map, take};
ghost use Rattle.sequences.specs.Lines.{Lettered, front, gap, grown, line, paired, sifted, spelt, stands};
ghost use Rattle.sequences.specs.Rows.{listed};
ghost use Rattle.sequences.specs.declared.row.Factor.TheVariants.{Letter, Pair};

use crate::letters::member;
use crate::row::{Factor, Row, Sign};
use std::marker::Model;

// A line as far as it is written. Clauses see its bytes. It has an array and a count of its own: only four short
// methods see them, and for these the crate takes no vector from elsewhere.
#[derive(Drop)]
pub struct Line {
    bytes: [u8; 512],
    len: usize,
}

impl Model for Line {
    ghost Value = { List ℕ };

    ghost view = { λ l. take l.len l.bytes };

    ghost invariant = { λ l. l.len ≤ 512 };
}

// The pair is printed: a tie with the smaller letter first.
fn printed(row: &Row, sign: Sign, v: u8, w: u8) -> bool
    requires { (v < 24) × (w < 24) }
    ensures { result ≡ stands sign row.now v w }
{
    match sign {
        Sign::Precedes => row.before.has(v, w),
        Sign::Ties => row.ties.has(v, w) && v < w,
    }
}

impl Line {
    // A line with nothing in it.
    fn new() -> Line
        ensures { result ≡ [] }
    {
        Line {
            bytes: [0; 512],
            len: 0,
        }
    }

    // Writes one byte.
    fn push(&mut self, byte: u8)
        requires { length self.old < 512 }
        ensures { self.new ≡ self.old ++ byte ∷ [] }
    {
        self.bytes[self.len] = byte;
        self.len += 1;
    }

    // Writes a space, where something stands before.
    fn space(&mut self)
        requires { length self.old < 512 }
        ensures { self.new ≡ self.old ++ gap self.old }
    {
        if self.len > 0 {
            self.push(b' ');
        }
    }

    // Writes the two letters with the byte between them.
    fn pair(&mut self, sign: u8, v: u8, w: u8)
        requires low { (v < 24) × (w < 24) }
        requires room { length self.old + 3 ≤ 512 }
        ensures { self.new ≡ self.old ++ (97 + v) ∷ sign ∷ (97 + w) ∷ [] }
    {
        self.push(b'a' + v);
        self.push(sign);
        self.push(b'a' + w);
    }

    // Writes an item, after a space where it is not the first.
    fn put(&mut self, item: Factor)
        requires low { Lettered item }
        requires room { length (grown self.old item) ≤ 512 }
        ensures { self.new ≡ grown self.old item }
    {
        self.space();
        match item {
            Factor::Letter(v) => self.push(b'a' + v),
            Factor::Pair(sign, v, w) => self.pair(u8::from(sign), v, w),
        }
    }

    // Writes the row's letters in order.
    fn put_letters(&mut self, row: &Row)
        requires { length (spelt self.old (map Letter (sifted 24 (λ v. listed row.now v)))) ≤ 512 }
        ensures { self.new ≡ spelt self.old (map Letter (sifted 24 (λ v. listed row.now v))) }
    {
        // The test stands in the loop: with `filter(..)` it stayed open that the letter is below 24 and that its item fits.
        for v in 0..24 {
            if member(row.letters, v) {
                self.put(Factor::Letter(v));
            }
        }
    }

    // Writes the row's pairs of one sign, by first and second letter.
    fn put_pairs(&mut self, row: &Row, sign: Sign)
        requires { length (spelt self.old (paired (Pair sign) 24 (λ v w. stands sign row.now v w))) ≤ 512 }
        ensures { self.new ≡ spelt self.old (paired (Pair sign) 24 (λ v w. stands sign row.now v w)) }
    {
        // Two loops with a test say the order plainly: as one chain they would be a map in a map, and a filter over pairs.
        for v in 0..24 {
            for w in 0..24 {
                if printed(row, sign, v, w) {
                    self.put(Factor::Pair(sign, v, w));
                }
            }
        }
    }

    // The line of the row.
    pub fn of(row: &Row) -> Line
        requires { length (line row.now) ≤ 512 }
        ensures { result ≡ line row.now }
    {
        let mut line = Line::new();
        line.put_letters(row);
        line.put_pairs(row, Sign::Precedes);
        line.put_pairs(row, Sign::Ties);
        line.push(b'\n');
        line
    }

    // Copies the line to the front of the buffer, and answers its length.
    pub fn copy_to(&self, buffer: &mut [u8]) -> usize
        requires { 512 ≤ length buffer.old }
        ensures written { buffer.new ≡ front self.now buffer.old }
        ensures long { result ≡ length self.now }
    {
        buffer[..self.len].copy_from_slice(&self.bytes[..self.len]);
        self.len
    }
}
