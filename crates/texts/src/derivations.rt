// The theorems on rules and derivations at every kind of date that is built: any `D: Date`.
ghost use Rattle.algebra.specs.Links.{NumbersSpeak};
ghost use Rattle.algebra.specs.Ranks.{RanksDecide};
ghost use Rattle.algebra.specs.Steps.{DerivedKeepsUnder, ReachedKeeps, SheetKeeps};

use dates::Date;

// Every rule of the sheet keeps dates of the kind D, and what is reached by rules has the date of where it began.
pub fn rules_keep_dates_of<D: Date>()
    ensures keeps { SheetKeeps D.kind }
    ensures ranks { RanksDecide D.kind }
    ensures reached { ReachedKeeps D.kind }
{}

// A derived text has the date of the text that it is derived from, under the dating.
pub fn derivations_keep_dates_under<D: Date>(dating: &[D])
    ensures { DerivedKeepsUnder D.kind dating.now }
{
    let _ = dating;
}

// Texts that have the same date over every kind whose dates are numbers have it under the dating, of whatever kind.
pub fn numbers_speak_for<D: Date>(dating: &[D])
    ensures { NumbersSpeak D.kind dating.now }
{
    let _ = dating;
}
