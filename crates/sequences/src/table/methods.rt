// What a table is made from, and what it answers.
ghost use Rattle.std.specs.Prelude.{◌≡◌, ℕ, ◌≤◌, ◌↔◌, [], length, All, Decides, IsTrue, Result, OnErr, OnOk};
ghost use Rattle.sequences.specs.Closing.{Closed, KeepsDates, RefusedExactly, RefusedNowhere};
ghost use Rattle.sequences.specs.Dates.{HappensByTicks};
ghost use Rattle.sequences.specs.Tables.{Holds, IsTable, LineAnswered, TellsRow};
ghost use Rattle.sequences.specs.declared.refusals.CloseRefusal.{CloseRefusal};
ghost use Rattle.sequences.specs.declared.refusals.LineRefusal.{LineRefusal};

use super::Table;
use crate::printing::Line;
use crate::refusals::{CloseRefusal, LineRefusal};
use crate::row::Row;

// Whether a line of any length fits.
fn has_room(buffer: &[u8]) -> bool
    ensures { Decides result (512 ≤ length buffer.now) }
{
    buffer.len() >= 512
}

impl Table {
    // A table with no rows.
    pub fn new() -> Table
        ensures { result ≡ [] }
    {
        Table {
            rows: [Row::blank(); 64],
            len: 0,
        }
    }

    // The number of rows. Callers learn here what holds of every table.
    pub fn len(&self) -> usize
        ensures count { result ≡ length self.now }
        ensures rows { IsTable self.now }
    {
        self.len
    }

    // Whether the table has no rows.
    pub fn is_empty(&self) -> bool
        ensures none { IsTrue result ↔ (self.now ≡ []) }
        ensures rows { IsTable self.now }
    {
        self.len == 0
    }

    // Closes the text: the table then holds the rows of its sequences. A refusal leaves the table as it was; callers speak
    // of the table before and after, so it is lent and written.
    pub fn close(&mut self, text: &[u8]) -> Result<(), CloseRefusal>
        ensures outcome { Closed text.now (λ _. Holds text.now self.new) result }
        ensures only { (s : Result (Unit {0}) CloseRefusal) → Closed text.now (λ _. Holds text.now self.new) s → s ≡ result }
        ensures left { OnErr result (self.new ≡ self.old) }
        ensures rows { IsTable self.new }
        ensures dates { OnOk result (KeepsDates text.now self.new) }
        ensures happen { OnOk result (All HappensByTicks self.new) }
        ensures impossible { RefusedExactly text.now result }
        ensures nowhere { RefusedNowhere text.now result }
    {
        // A method knows what holds of a table where it uses a field.
        let _ = &self.len;
        *self = Table::closed(text)?;
        Ok(())
    }

    // Prints the row's line at the front of the buffer, and answers its length. The caller lends the memory, and too little
    // is a refusal of the interface. A refusal leaves the buffer as it was.
    pub fn line(&self, row: usize, buffer: &mut [u8]) -> Result<usize, LineRefusal>
        ensures outcome { LineAnswered self.now row buffer.old buffer.new result }
        ensures only { (s : Result ℕ LineRefusal) → LineAnswered self.now row buffer.old buffer.new s → s ≡ result }
        ensures left { OnErr result (buffer.new ≡ buffer.old) }
        ensures tells { OnOk result (TellsRow self.now row) }
        ensures rows { IsTable self.now }
    {
        let rows = &self.rows[..self.len];
        if !has_room(buffer) {
            return Err(LineRefusal::SmallBuffer);
        }
        let row = rows.get(row).ok_or(LineRefusal::NoRow)?;
        Ok(Line::of(row).copy_to(buffer))
    }
}
