// The date of a table that a bench was closed into, at every kind of date.
ghost use Rattle.std.specs.Prelude.{ℕ, List, Ok};
ghost use Rattle.sequences.specs.Tables.{IsTable, TableDated};
ghost use Rattle.sequences.specs.declared.row.Row.{Row};
ghost use Rattle.derivation.specs.Dating.{DatedAs, TablesSpeak};
ghost use Rattle.derivation.specs.Law.{Known, Run, TreeText};
ghost use Rattle.derivation.specs.Model.{Closed, State};

use dates::Date;
use sequences::refusals::TableRefusal;
use sequences::table::Table;

// The table's date. It is the same as that of the tree last opened: whatever calls a bench has known, if it was then
// closed into this table.
pub fn table_date<D: Date>(table: &Table, dating: &[D]) -> Result<D, TableRefusal>
    ensures value { TableDated D.kind dating.now table.now result }
    ensures rows { IsTable table.now }
    ensures law { (h : List Known) (s : State) (old : List Row) (text : List ℕ) → Run h s → Closed s old (Ok tt) table.now → TreeText h text → DatedAs D.kind dating.now text result }
{
    table.date(dating)
}

// A text and a table that have the same date over every kind whose dates are numbers have it under the dating, of
// whatever kind.
pub fn numbers_speak_for_tables<D: Date>(dating: &[D])
    ensures { TablesSpeak D.kind dating.now }
{
    let _ = dating;
}
