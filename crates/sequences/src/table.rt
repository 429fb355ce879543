// A table of rows, none of which is impossible.
use crate::row::Row;
use std::marker::Model;

mod closing;
mod date;
mod methods;

// At most 64 rows in fixed memory, so an array and a count; the unused rows are blank. Clauses see the list of the rows. That each line fits into 512 bytes holds
// because a table is only made from a text, which has at most 511, and the line of a sequence is at most one byte longer
// than the text that it stands in.
#[derive(Clone, Copy, Debug)]
pub struct Table {
    rows: [Row; 64],
    len: usize,
}

impl Model for Table {
    ghost use Rattle.std.specs.Prelude.{List};
    ghost use Rattle.sequences.specs.declared.row.Row.{Row};

    ghost Value = { List Row };

    ghost use Rattle.sequences.specs.Stored.{Stored, held, stored, stored_held};

    ghost view = { held };

    ghost invariant = { Stored };

    ghost inverse = { stored };

    ghost inverse_ok = { stored_held };
}
