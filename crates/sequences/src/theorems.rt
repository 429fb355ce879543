// Theorems about cut sequences.
ghost use Rattle.std.specs.Prelude.{ℕ};
ghost use Rattle.algebra.specs.Kinds.{Kind};
ghost use Rattle.sequences.specs.Dates.{DatesOfRows, ImpossibleByTicks, NeverHappens};
ghost use Rattle.sequences.specs.Lines.{LinesFit, LinesTell};
ghost use Rattle.sequences.specs.Sequences.{RowsMatch, TableKeeps};

use dates::Date;

// A row is impossible exactly where it happens under no dating by ticks, and an impossible row happens under no dating of
// any kind whose dates are numbers.
pub fn impossible_rows_never_happen()
    ensures ticks { ImpossibleByTicks }
    ensures numbers { (K : Kind ℕ) → NeverHappens K }
{}

// An impossible row happens under no dating of the kind D, and the rows of a sum have the date of the sum.
pub fn impossible_rows_never_happen_at<D: Date>()
    ensures never { NeverHappens D.kind }
    ensures dates { TableKeeps D.kind }
{}

// The date of a row is that of its latest letter that counts, where every pair meets its test, and else never.
pub fn row_dates_are_latest<D: Date>()
    ensures { DatesOfRows D.kind }
{}

// Two rows have one line only where they are equal, and the line of a sequence is at most one byte longer than its text.
pub fn lines_tell_rows()
    ensures tell { LinesTell }
    ensures fit { LinesFit }
{}

// The rows that the definitions compute of a term are those of the sequences of which it is a sum.
pub fn rows_are_those_of_sequences()
    ensures { RowsMatch }
{}
