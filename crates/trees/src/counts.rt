// How many events and records a tree has.
ghost use Rattle.std.specs.Prelude.{◌≡◌, MatchOption};
ghost use Rattle.trees.specs.Reading.{InRange};

#[derive(Clone, Copy, Debug, PartialEq, Eq)]
pub struct Counts {
    pub events: u8,
    pub records: u8,
    ghost in_range: { InRange events records },
}

impl Counts {
    // A tree may have so many events and records. An `if`, since the ghost field is a fact of the branch where the test
    // holds: `then_some` makes the value before the test.
    pub fn new(events: u8, records: u8) -> Option<Counts>
        ensures { MatchOption result (InRange events records → ⊥) (λ c. (c.events ≡ events) × (c.records ≡ records)) }
    {
        if (1..=24).contains(&events) && (1..=32).contains(&records) {
            Some(Counts { events, records })
        } else {
            None
        }
    }
}
