// The date of a row under a dating.
ghost use Rattle.std.specs.Prelude.{◌≡◌, ◌<◌};
ghost use Rattle.algebra.specs.Terms.{dating_of};
ghost use Rattle.sequences.specs.Dates.{counts, latest, meets, pair_meets, row_date};
ghost use Rattle.sequences.specs.Walks.{all};

use crate::letters::member;
use crate::row::Row;
use dates::Date;
use texts::dating::Dating;

impl Row {
    // The letter counts for the date: it is one of the row's letters, or the left letter of a pair.
    fn counts(&self, v: u8) -> bool
        requires { v < 24 }
        ensures { result ≡ counts self.now v }
    {
        member(self.letters, v) || self.before.has_any(v) || self.ties.has_any(v)
    }

    // The pairs of v and w meet their operators' tests. Dates are looked up only where a pair stands: nearly all do not.
    fn pair_meets<D: Date>(&self, v: u8, w: u8, dating: &Dating<'_, D>) -> bool
        requires { (v < 24) × (w < 24) }
        ensures { result ≡ pair_meets D.kind self.now v w (dating_of D.kind dating.now v) (dating_of D.kind dating.now w) }
    {
        let before = !self.before.has(v, w) || dating.date_of(v).is_before(dating.date_of(w));
        before && (!self.ties.has(v, w) || dating.date_of(v).is_same(dating.date_of(w)))
    }

    // The pairs whose first letter is v meet their operators' tests.
    fn meets_from<D: Date>(&self, v: u8, dating: &Dating<'_, D>) -> bool
        requires { v < 24 }
        ensures { result ≡ all 24 (λ w. pair_meets D.kind self.now v w (dating_of D.kind dating.now v) (dating_of D.kind dating.now w)) }
    {
        (0..24).all(|w| self.pair_meets(v, w, dating))
    }

    // Every pair meets its operator's test.
    fn meets<D: Date>(&self, dating: &Dating<'_, D>) -> bool
        ensures { result ≡ meets D.kind (dating_of D.kind dating.now) self.now }
    {
        (0..24).all(|v| self.meets_from(v, dating))
    }

    // The latest date of the letters that count, the first in letter order where several are the same.
    fn latest<D: Date>(&self, dating: &Dating<'_, D>) -> Option<D>
        ensures { result ≡ latest D.kind (dating_of D.kind dating.now) (counts self.now) 24 }
    {
        (0..24)
            .filter(|v| self.counts(*v))
            .map(|v| dating.date_of(v))
            .reduce(|p, q| p.later(q))
    }

    // The date of the row.
    pub fn date<D: Date>(&self, dating: &Dating<'_, D>) -> D
        ensures { result ≡ row_date D.kind (dating_of D.kind dating.now) self.now }
    {
        if self.meets(dating) {
            self.latest(dating).unwrap_or(D::never())
        } else {
            D::never()
        }
    }
}
