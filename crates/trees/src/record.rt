// The records of a tree, and their bytes.
ghost use Rattle.std.specs.Prelude.{◌≡◌, ◌<◌, [], ◌∷◌, MatchResult};
ghost use Rattle.trees.specs.Records.{first, fields, Front, kind, kind_byte, NoRecord, record_of, second};
ghost use Rattle.trees.specs.declared.refusal.TreeRefusal.TheVariants.{Form};

use crate::refusal::TreeRefusal;

#[derive(Clone, Copy, Debug, PartialEq, Eq, Hash)]
pub enum Gate {
    Or,
    And,
    Pand,
    Before,
}

// What a record makes of its two inputs: their gate, or an FDEP of a trigger and its dependent.
#[derive(Clone, Copy, Debug, PartialEq, Eq, Hash)]
pub enum Kind {
    Joins(Gate),
    Triggers,
}

impl From<Kind> for u8 {
    ghost from_gives = { λ kind byte. byte ≡ kind_byte kind };

    fn from(kind: Kind) -> u8 {
        match kind {
            Kind::Joins(Gate::Or) => 0,
            Kind::Joins(Gate::And) => 1,
            Kind::Joins(Gate::Pand) => 2,
            Kind::Joins(Gate::Before) => 3,
            Kind::Triggers => 4,
        }
    }
}

impl TryFrom<u8> for Kind {
    type Error = TreeRefusal;

    ghost try_from_gives = { λ byte r. MatchResult r (λ kind. kind_byte kind ≡ byte) (λ e. (e ≡ Form) × (4 < byte)) };

    fn try_from(byte: u8) -> Result<Kind, TreeRefusal> {
        match byte {
            0 => Ok(Kind::Joins(Gate::Or)),
            1 => Ok(Kind::Joins(Gate::And)),
            2 => Ok(Kind::Joins(Gate::Pand)),
            3 => Ok(Kind::Joins(Gate::Before)),
            4 => Ok(Kind::Triggers),
            _ => Err(TreeRefusal::Form),
        }
    }
}

// The map byte of a record without its kind: both inputs stand.
const WITHOUT_KIND: u8 = 0b110;

// The map byte of a record with all its fields: the kind stands too.
const WITH_KIND: u8 = 0b111;

// An input is the byte that is written, whatever it is: below 64 an event, and 64 + k the gate of record k.
#[derive(Clone, Copy, Debug, PartialEq, Eq, Hash)]
pub enum Record {
    Joins { gate: Gate, first: u8, second: u8 },
    Triggers { trigger: u8, dependent: u8 },
}

impl Record {
    // The record of a kind with these inputs.
    pub fn new(kind: Kind, first: u8, second: u8) -> Record
        ensures { result ≡ record_of kind first second }
    {
        match kind {
            Kind::Joins(gate) => Record::Joins {
                gate,
                first,
                second,
            },
            Kind::Triggers => Record::Triggers {
                trigger: first,
                dependent: second,
            },
        }
    }

    // What it makes of its inputs.
    pub fn kind(self) -> Kind
        ensures { result ≡ kind self }
    {
        match self {
            Record::Joins { gate, .. } => Kind::Joins(gate),
            Record::Triggers { .. } => Kind::Triggers,
        }
    }

    // The first input; that of an FDEP is the trigger.
    pub fn first(self) -> u8
        ensures { result ≡ first self }
    {
        match self {
            Record::Joins { first, .. } => first,
            Record::Triggers { trigger, .. } => trigger,
        }
    }

    // The second input; that of an FDEP is the dependent.
    pub fn second(self) -> u8
        ensures { result ≡ second self }
    {
        match self {
            Record::Joins { second, .. } => second,
            Record::Triggers { dependent, .. } => dependent,
        }
    }

    // Its bytes, with all its fields.
    pub fn bytes(self) -> [u8; 4]
        ensures { result ≡ 7 ∷ fields self }
    {
        let kind = u8::from(self.kind());
        [WITH_KIND, kind, self.first(), self.second()]
    }
}

// The record at the front of the bytes, and the bytes after it.
pub fn read_record(bytes: &[u8]) -> Result<(Record, &[u8]), TreeRefusal>
    ensures { MatchResult result (λ p. Front bytes.now p.0 p.1.now) (λ e. (e ≡ Form) × NoRecord bytes.now) }
{
    match bytes {
        [WITHOUT_KIND, first, second, rest @ ..] => {
            let kind = Kind::Joins(Gate::Or);
            Ok((Record::new(kind, *first, *second), rest))
        }
        [WITH_KIND, kind, first, second, rest @ ..] => {
            let kind = Kind::try_from(*kind)?;
            Ok((Record::new(kind, *first, *second), rest))
        }
        _ => Err(TreeRefusal::Form),
    }
}
