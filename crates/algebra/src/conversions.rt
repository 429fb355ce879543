// The bytes of operators, of the letters of rules, of ways and of events, and the tokens of a text.
ghost use Rattle.std.specs.Prelude.{◌≡◌, ◌≢◌, ℕ, ◌<◌, MatchOption};
ghost use Rattle.algebra.specs.Conversions.{OperatorByte, VariableByte, VariableOfByte, WayByte, WayOfByte, TokenOfByte};
ghost use Rattle.algebra.specs.Texts.{event_byte};

use crate::{Operator, Token, Variable, Way};
use thiserror::Error;

impl From<Operator> for u8 {
    ghost from_gives = { OperatorByte };

    fn from(operator: Operator) -> u8 {
        match operator {
            Operator::Or => b'+',
            Operator::And => b'*',
            Operator::Before => b'<',
            Operator::Simultaneous => b'=',
            Operator::Inclusive => b'[',
        }
    }
}

impl From<Variable> for u8 {
    ghost from_gives = { VariableByte };

    fn from(letter: Variable) -> u8 {
        match letter {
            Variable::X => b'X',
            Variable::Y => b'Y',
            Variable::Z => b'Z',
        }
    }
}

// A byte that is no letter of a rule.
#[derive(Clone, Copy, Debug, PartialEq, Eq, Error)]
#[error("byte {0} is no letter of a rule")]
pub struct NoVariable(pub u8);

impl TryFrom<u8> for Variable {
    type Error = NoVariable;

    ghost try_from_gives = { VariableOfByte };

    fn try_from(byte: u8) -> Result<Variable, NoVariable> {
        match byte {
            b'X' => Ok(Variable::X),
            b'Y' => Ok(Variable::Y),
            b'Z' => Ok(Variable::Z),
            _ => Err(NoVariable(byte)),
        }
    }
}

// The byte of a way in a step record.
impl From<Way> for u8 {
    ghost from_gives = { WayByte };

    fn from(way: Way) -> u8 {
        match way {
            Way::Forward => 0,
            Way::Backward => 1,
        }
    }
}

// A byte that is no way.
#[derive(Clone, Copy, Debug, PartialEq, Eq, Error)]
#[error("byte {0} is no way")]
pub struct NoWay(pub u8);

impl TryFrom<u8> for Way {
    type Error = NoWay;

    ghost try_from_gives = { WayOfByte };

    fn try_from(byte: u8) -> Result<Way, NoWay> {
        match byte {
            0 => Ok(Way::Forward),
            1 => Ok(Way::Backward),
            _ => Err(NoWay(byte)),
        }
    }
}

// The event whose letter, from a to x, the byte is.
pub fn event_of(byte: u8) -> Option<u8>
    ensures { MatchOption result ((v : ℕ) → v < 24 → byte ≢ event_byte v) (λ v. (v < 24) × (byte ≡ event_byte v)) }
{
    match byte {
        b'a'..=b'x' => Some(byte - b'a'),
        _ => None,
    }
}

// What a byte is in a text: the events are the bytes from a on.
impl From<u8> for Token<u8> {
    ghost from_gives = { TokenOfByte };

    fn from(byte: u8) -> Token<u8> {
        match byte {
            b'+' => Token::Joins(Operator::Or),
            b'*' => Token::Joins(Operator::And),
            b'<' => Token::Joins(Operator::Before),
            b'=' => Token::Joins(Operator::Simultaneous),
            b'[' => Token::Joins(Operator::Inclusive),
            b'N' => Token::Never,
            b'a'..=255 => Token::Letter(byte - b'a'),
            _ => Token::Unknown,
        }
    }
}
