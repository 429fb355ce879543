// The rule sheet in code: the two sides of each rule, as bytes.
ghost use Rattle.std.specs.Prelude.{◌≡◌, ◌≤◌, not, ◌&&◌};
ghost use Rattle.algebra.specs.Rules.{has, new_side, numbered, old_side};
ghost use Rattle.algebra.specs.Terms.{Term};
ghost use Rattle.algebra.specs.declared.Variable.{Variable as Letter};
ghost use Rattle.steps.specs.Sides.{side_text};

use algebra::{Variable, Way};

// The two sides of a rule, left and right as the sheet has them.
#[derive(Clone, Copy, Debug, PartialEq, Eq)]
pub struct Rule {
    pub left: &'static [u8],
    pub right: &'static [u8],
}

// A table in fixed memory, read by the number of a rule.
const SHEET: [Rule; 42] = [
    Rule {
        left: b"+XY",
        right: b"+YX",
    },
    Rule {
        left: b"++XYZ",
        right: b"+X+YZ",
    },
    Rule {
        left: b"+XX",
        right: b"X",
    },
    Rule {
        left: b"+XN",
        right: b"X",
    },
    Rule {
        left: b"*XY",
        right: b"*YX",
    },
    Rule {
        left: b"**XYZ",
        right: b"*X*YZ",
    },
    Rule {
        left: b"*XX",
        right: b"X",
    },
    Rule {
        left: b"*XN",
        right: b"N",
    },
    Rule {
        left: b"*X+YZ",
        right: b"+*XY*XZ",
    },
    Rule {
        left: b"+X*XY",
        right: b"X",
    },
    Rule {
        left: b"+X*YZ",
        right: b"*+XY+XZ",
    },
    Rule {
        left: b"[XY",
        right: b"+<XY=XY",
    },
    Rule {
        left: b"=XY",
        right: b"=YX",
    },
    Rule {
        left: b"<XX",
        right: b"N",
    },
    Rule {
        left: b"=XX",
        right: b"X",
    },
    Rule {
        left: b"<NX",
        right: b"N",
    },
    Rule {
        left: b"<XN",
        right: b"X",
    },
    Rule {
        left: b"=XN",
        right: b"N",
    },
    Rule {
        left: b"<+XYZ",
        right: b"+<XZ<YZ",
    },
    Rule {
        left: b"<*XYZ",
        right: b"*<XZ<YZ",
    },
    Rule {
        left: b"<X+YZ",
        right: b"*<XY<XZ",
    },
    Rule {
        left: b"<X*YZ",
        right: b"+<XY<XZ",
    },
    Rule {
        left: b"=X+YZ",
        right: b"+*=XY[YZ*=XZ[ZY",
    },
    Rule {
        left: b"=X*YZ",
        right: b"+*=XY[ZY*=XZ[YZ",
    },
    Rule {
        left: b"*XY",
        right: b"++*Y<XY*X<YX=XY",
    },
    Rule {
        left: b"*<XY<YX",
        right: b"N",
    },
    Rule {
        left: b"*<XY=XY",
        right: b"N",
    },
    Rule {
        left: b"*=XY=YZ",
        right: b"*=XY=XZ",
    },
    Rule {
        left: b"*<XY<YZ",
        right: b"**<XY<YZ<XZ",
    },
    Rule {
        left: b"*<XY=XZ",
        right: b"*=XZ<ZY",
    },
    Rule {
        left: b"*<YX=XZ",
        right: b"*<YZ=XZ",
    },
    Rule {
        left: b"<<XYZ",
        right: b"*<XY<XZ",
    },
    Rule {
        left: b"<X<YZ",
        right: b"+<XY*X[ZY",
    },
    Rule {
        left: b"=<XYZ",
        right: b"*<XY=XZ",
    },
    Rule {
        left: b"==XYZ",
        right: b"*=XY=XZ",
    },
    Rule {
        left: b"<=XYZ",
        right: b"*=XY<XZ",
    },
    Rule {
        left: b"<X=YZ",
        right: b"+<XY+*X<YZ*X<ZY",
    },
    Rule {
        left: b"*X<XY",
        right: b"<XY",
    },
    Rule {
        left: b"+X<XY",
        right: b"X",
    },
    Rule {
        left: b"*X=XY",
        right: b"=XY",
    },
    Rule {
        left: b"+X=XY",
        right: b"X",
    },
    Rule {
        left: b"X",
        right: b"++<XY=XY*X<YX",
    },
];

// Whether the letter stands in the side.
fn has_letter(side: &[u8], letter: Variable) -> bool
    ensures { (s : Term Letter) → side.now ≡ side_text s → result ≡ has letter s }
{
    side.contains(&u8::from(letter))
}

// The two sides of a rule as a step uses them: the old one is found, and the new one put there. Old is left, or right
// where the step goes backward.
#[derive(Clone, Copy, Debug, PartialEq, Eq)]
pub struct Sides {
    pub old: &'static [u8],
    pub new: &'static [u8],
}

impl Sides {
    ghost use Rattle.steps.specs.Sides.{WritesSides};

    // The sides of the rule of a number, counted from 1, for a step in a way.
    pub fn of(number: u8, way: Way) -> Sides
        requires { (1 ≤ number) × (number ≤ 42) }
        ensures { WritesSides result (old_side way (numbered number)) (new_side way (numbered number)) }
    {
        let rule = &SHEET[usize::from(number) - 1];
        match way {
            Way::Forward => Sides {
                old: rule.left,
                new: rule.right,
            },
            Way::Backward => Sides {
                old: rule.right,
                new: rule.left,
            },
        }
    }

    // Whether the letter stands in the new side and not in the old one.
    pub fn lacks(self, letter: Variable) -> bool
        ensures { (s t : Term Letter) → WritesSides self s t → result ≡ (has letter t && not (has letter s)) }
    {
        has_letter(self.new, letter) && !has_letter(self.old, letter)
    }
}
