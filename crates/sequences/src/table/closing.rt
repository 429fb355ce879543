// Closes a text into a table.
ghost use Rattle.std.specs.Prelude.{◌≡◌, ◌≤◌, [], ◌∷◌, All, Any, Decides};
ghost use Rattle.algebra.specs.Texts.{never_byte};
ghost use Rattle.sequences.specs.Closing.{Closed};
ghost use Rattle.sequences.specs.Tables.{Holds};
ghost use Rattle.sequences.specs.Walks.{Impossible, Sound};

use super::Table;
use crate::refusals::CloseRefusal;
use crate::row::Row;
use crate::scan::scan_sum;
use texts::scan::is_text;

// Whether the bytes are the text N.
fn is_never(text: &[u8]) -> bool
    ensures { Decides result (text.now ≡ never_byte ∷ []) }
{
    matches!(text, [b'N'])
}

// Whether a table has room for so many rows.
fn has_room(count: usize) -> bool
    ensures { Decides result (count ≤ 64) }
{
    count <= 64
}

// Whether one of the rows is impossible.
fn any_impossible(rows: &[Row]) -> bool
    requires { All Sound rows.now }
    ensures { Decides result (Any Impossible rows.now) }
{
    rows.iter().any(|row| row.impossible())
}

impl Table {
    // The table of the rows of the text's sequences.
    pub(super) fn closed(text: &[u8]) -> Result<Table, CloseRefusal>
        ensures { Closed text.now (Holds text.now) result }
    {
        if is_never(text) {
            return Ok(Table::new());
        }
        if !is_text(text) {
            return Err(CloseRefusal::NoSum);
        }
        let scan = scan_sum(text);
        if !scan.reading.ended() {
            return Err(CloseRefusal::NoSum);
        }
        if !has_room(scan.count) {
            return Err(CloseRefusal::TooMany);
        }
        if any_impossible(&scan.rows[..scan.count]) {
            return Err(CloseRefusal::ImpossibleSequence);
        }
        Ok(Table {
            rows: scan.rows,
            len: scan.count,
        })
    }
}
