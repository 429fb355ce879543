// The date of a table under a dating.
ghost use Rattle.std.specs.Prelude.{◌≡◌, IfOk, Result};
ghost use Rattle.algebra.specs.Terms.{dating_of};
ghost use Rattle.sequences.specs.Dates.{RowsDated, table_date};
ghost use Rattle.sequences.specs.Tables.{IsTable, KeepsDateOf, TableDated};
ghost use Rattle.sequences.specs.declared.refusals.TableRefusal.{TableRefusal};

use super::Table;
use crate::refusals::TableRefusal;
use crate::row::Row;
use dates::Date;
use texts::dating::Dating;

// The earliest of the rows' dates, the first such row's, and never if there are no rows.
// A loop: as `rev().fold(..)` the goals stay open in the generic D.
fn earliest<D: Date>(rows: &[Row], dating: &Dating<'_, D>) -> D
    ensures { result ≡ table_date D.kind (dating_of D.kind dating.now) rows.now }
{
    let mut earliest = D::never();
    for row in rows.iter().rev() {
        earliest = row.date(dating).earlier(earliest);
    }
    earliest
}

impl Table {
    // The date of the table under the dating.
    pub fn date<D: Date>(&self, dating: &[D]) -> Result<D, TableRefusal>
        ensures outcome { TableDated D.kind dating.now self.now result }
        ensures only { (s : Result D TableRefusal) → TableDated D.kind dating.now self.now s → s ≡ result }
        ensures earliest { IfOk result (λ p. RowsDated D.kind (dating_of D.kind dating.now) self.now p) }
        ensures keeps { IfOk result (λ p. KeepsDateOf D.kind dating.now self.now p) }
        ensures rows { IsTable self.now }
    {
        let rows = &self.rows[..self.len];
        let dating = Dating::new(dating).ok_or(TableRefusal::NoDating)?;
        Ok(earliest(rows, &dating))
    }
}
