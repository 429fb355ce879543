// The letters of a rule with the bytes of the terms that they stand for.
ghost use Rattle.std.specs.Prelude.{◌≡◌, true, false, Some, None, ◌≢◌};
ghost use Rattle.std.specs.Bool.{MatchBool};
ghost use Rattle.algebra.specs.declared.Variable.{Variable as Letter};
ghost use Rattle.steps.specs.Sides.{slot, either};

use algebra::Variable;

// The bytes of the terms that X, Y and Z stand for, where that is known.
#[derive(Clone, Copy, Debug, PartialEq, Eq)]
pub struct Binding<'a> {
    pub x: Option<&'a [u8]>,
    pub y: Option<&'a [u8]>,
    pub z: Option<&'a [u8]>,
}

impl<'a> Binding<'a> {
    // No letter is bound.
    pub(crate) fn none() -> Binding<'a>
        ensures { (v : Letter) → slot result v ≡ None }
    {
        Binding {
            x: None,
            y: None,
            z: None,
        }
    }

    pub(crate) fn get(self, letter: Variable) -> Option<&'a [u8]>
        ensures { result ≡ slot self.entry letter }
    {
        match letter {
            Variable::X => self.x,
            Variable::Y => self.y,
            Variable::Z => self.z,
        }
    }

    // What is bound here, or else what is bound in the other.
    pub(crate) fn or(self, other: Binding<'a>) -> Binding<'a>
        ensures { (v : Letter) → slot result v ≡ either (slot self.entry v) (slot other.entry v) }
    {
        Binding {
            x: self.x.or(other.x),
            y: self.y.or(other.y),
            z: self.z.or(other.z),
        }
    }

    // The letter is bound to the bytes, and the others are as they were.
    pub(crate) fn with(self, letter: Variable, bytes: &'a [u8]) -> Binding<'a>
        ensures here { slot result letter ≡ Some bytes.entry }
        ensures other { (u : Letter) → (u ≢ letter) → slot result u ≡ slot self.entry u }
    {
        let bytes = Some(bytes);
        match letter {
            Variable::X => Binding { x: bytes, ..self },
            Variable::Y => Binding { y: bytes, ..self },
            Variable::Z => Binding { z: bytes, ..self },
        }
    }

    // Whether a test holds of each letter with what it is bound to. Three calls are shorter than an array of the pairs
    // and a chain over it.
    pub(crate) fn all<F: Fn(Variable, Option<&'a [u8]>) -> bool>(self, test: F) -> bool
        requires { F.IsAlwaysCallable test }
        ensures { MatchBool result ((v : Letter) → F.post test v (slot self.entry v) true) ((v : Letter) × F.post test v (slot self.entry v) false) }
    {
        test(Variable::X, self.x) && test(Variable::Y, self.y) && test(Variable::Z, self.z)
    }
}
