// Why a text is not closed, a table not dated and a line not printed.
use algebra::Refusal;
use thiserror::Error;

// Why a text does not close into a table. `NoTree` is for callers whose text comes from a tree that has to be open.
#[derive(Clone, Copy, Debug, PartialEq, Eq, Error)]
pub enum CloseRefusal {
    #[error("no tree is open")]
    NoTree,
    #[error("the text is no sum and not N")]
    NoSum,
    #[error("it has more than 64 sequences")]
    TooMany,
    #[error("a sequence is impossible")]
    ImpossibleSequence,
}

impl Refusal for CloseRefusal {
    ghost use Rattle.sequences.specs.Codes.{close_code, close_codes_differ};

    ghost number = { close_code };

    ghost distinct = { close_codes_differ };

    fn code(self) -> u8 {
        match self {
            CloseRefusal::NoTree => 21,
            CloseRefusal::NoSum => 22,
            CloseRefusal::TooMany => 23,
            CloseRefusal::ImpossibleSequence => 24,
        }
    }
}

// Why a table has no date: there are not exactly 24 dates.
#[derive(Clone, Copy, Debug, PartialEq, Eq, Error)]
pub enum TableRefusal {
    #[error("the dating has not exactly 24 dates")]
    NoDating,
}

impl Refusal for TableRefusal {
    ghost use Rattle.sequences.specs.Codes.{table_code, table_codes_differ};

    ghost number = { table_code };

    ghost distinct = { table_codes_differ };

    fn code(self) -> u8 {
        match self {
            TableRefusal::NoDating => 52,
        }
    }
}

// Why a line is not printed: the buffer has fewer than 512 bytes, or the table has no such row.
#[derive(Clone, Copy, Debug, PartialEq, Eq, Error)]
pub enum LineRefusal {
    #[error("the buffer has under 512 bytes")]
    SmallBuffer,
    #[error("the table has no such row")]
    NoRow,
}

impl Refusal for LineRefusal {
    ghost use Rattle.sequences.specs.Codes.{line_code, line_codes_differ};

    ghost number = { line_code };

    ghost distinct = { line_codes_differ };

    fn code(self) -> u8 {
        match self {
            LineRefusal::SmallBuffer => 54,
            LineRefusal::NoRow => 55,
        }
    }
}
