// A dating: a date for each of the 24 events.
ghost use Rattle.std.specs.Prelude.{◌≡◌, ◌≢◌, ◌↔◌, length, IfSome, IsNone};
ghost use Rattle.algebra.specs.Terms.{dating_of};

use dates::Date;
use std::marker::Model;

// Exactly 24 dates, that of event 0 first. Clauses see the list of them.
#[derive(Drop)]
pub struct Dating<'a, D> {
    dates: &'a [D],
}

impl<'a, D> Model for Dating<'a, D> {
    ghost use Rattle.std.specs.Prelude.{◌≡◌, List, length};

    ghost Value = { List D };

    ghost view = { λ d. d.dates.now };

    ghost invariant = { λ d. length d.dates.now ≡ 24 };
}

impl<'a, D: Date> Dating<'a, D> {
    // The dates as a dating, if they are exactly 24.
    pub fn new(dates: &'a [D]) -> Option<Dating<'a, D>>
        ensures some { IfSome result (λ dating. dating ≡ dates.now) }
        ensures none { IsNone result ↔ (length dates.now ≢ 24) }
    {
        if dates.len() == 24 {
            Some(Dating { dates })
        } else {
            None
        }
    }

    // The date of an event; that of an event past the 24 is never.
    pub fn date_of(&self, event: u8) -> D
        ensures { result ≡ dating_of D.kind self.now event }
    {
        self.dates
            .get(usize::from(event))
            .copied()
            .unwrap_or(D::never())
    }
}
