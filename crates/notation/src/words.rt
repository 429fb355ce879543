// A line cut into its words.
ghost use Rattle.std.specs.Prelude.{◌≡◌, ℕ, List, map, IfOk, All};
ghost use Rattle.notation.specs.Plainly.{RecordsPlain, StepsPlain};
ghost use Rattle.notation.specs.Words.{OneList, Plain, Words, joined};

use std::alloc::{AllocError, Global};

// The words of a line, which are parted by spaces. Words with a space between each two are read back as the same.
pub fn split_words<'a>(heap: Global, line: &'a str) -> Result<Vec<&'a str>, AllocError>
    ensures words { IfOk result (λ v. Words line.now (map (λ x. x.now) v.items)) }
    ensures one { OneList line.now }
    ensures back { IfOk result (λ v. (ws : List (List ℕ)) → All Plain ws → line.now ≡ joined ws → map (λ x. x.now) v.items ≡ ws) }
{
    line.split(' ')
        .filter(|word| !word.is_empty())
        .collect(heap)
}

// The words that are written for a record have no spaces, and neither have those for a step, where its terms have none.
// So a written line is read back as the words that it was written from.
pub fn written_words_are_plain()
    ensures records { RecordsPlain }
    ensures steps { StepsPlain }
{}
