// The stack of an evaluation: dates at the end of a work table, the one pushed last first.
ghost use Rattle.std.specs.Prelude.{◌≡◌, ◌+◌, ◌<◌, [], ◌∷◌, length};
ghost use Rattle.algebra.specs.Terms.{dating_of, joined};
ghost use Rattle.texts.specs.Stack.{Room, stacked};

use crate::dating::Dating;
use algebra::{Operator, Token};
use dates::Date;
use std::marker::Model;

// What an operator makes of the dates of its two sides.
fn join<D: Date>(operator: Operator, p: D, q: D) -> D
    ensures { result ≡ joined D.kind operator p q }
{
    match operator {
        Operator::Or => p.earlier(q),
        Operator::And => p.later(q),
        Operator::Before if p.is_before(q) => p,
        Operator::Simultaneous if p.is_same(q) => p,
        Operator::Inclusive if p.no_later(q) => p,
        Operator::Before | Operator::Simultaneous | Operator::Inclusive => D::never(),
    }
}

// Clauses see how many places are free, and the dates. A slice and an index, since the caller lends the memory.
#[derive(Drop)]
pub(crate) struct Stack<'a, D> {
    work: &'a mut [D],
    top: usize,
}

impl<'a, D> Model for Stack<'a, D> {
    ghost use Rattle.std.specs.Prelude.{◌≤◌, length, drop};
    ghost use Rattle.texts.specs.Stack.{DateStack};

    ghost Value = { DateStack D };

    ghost view = { λ s. record { free = s.top; dates = drop s.top s.work.now } };

    ghost invariant = { λ s. s.top ≤ length s.work.now };
}

impl<'a, D: Date> Stack<'a, D> {
    // A stack with no date, and every place of the table free.
    pub(crate) fn new(work: &'a mut [D]) -> Stack<'a, D>
        ensures free { result.free ≡ length work.old }
        ensures dates { result.dates ≡ [] }
    {
        let top = work.len();
        Stack { work, top }
    }

    fn push(&mut self, date: D)
        requires { 0 < self.old.free }
        ensures free { self.new.free + 1 ≡ self.old.free }
        ensures dates { self.new.dates ≡ date ∷ self.old.dates }
    {
        self.top -= 1;
        self.work[self.top] = date;
    }

    pub(crate) fn pop(&mut self) -> D
        requires { 0 < length self.old.dates }
        ensures free { self.new.free ≡ self.old.free + 1 }
        ensures dates { self.old.dates ≡ result ∷ self.new.dates }
    {
        let date = self.work[self.top];
        self.top += 1;
        date
    }

    // One token more, read from the end of a text.
    pub(crate) fn take(&mut self, token: Token<u8>, dating: &Dating<'_, D>)
        requires { Room token self.old.free (length self.old.dates) }
        ensures places { self.new.free + length self.new.dates ≡ self.old.free + length self.old.dates }
        ensures dates { self.new.dates ≡ stacked D.kind (dating_of D.kind dating.now) token self.old.dates }
    {
        match token {
            Token::Letter(event) => self.push(dating.date_of(event)),
            Token::Never => self.push(D::never()),
            Token::Joins(operator) => {
                let first = self.pop();
                let second = self.pop();
                self.push(join(operator, first, second));
            }
            Token::Unknown => {}
        }
    }
}
