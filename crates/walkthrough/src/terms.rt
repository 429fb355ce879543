// The dates of the terms that stand in a text.
ghost use Rattle.std.specs.Prelude.{◌≡◌, ◌<◌, ◌≤◌, true, length, is_some};
ghost use Rattle.algebra.specs.Texts.{IsText};
ghost use Rattle.walkthrough.specs.Told.{Told};

use dates::Date;
use texts::evaluation::evaluate;
use texts::scan::term_end;

// Where the term at the place ends, and its date under the dating. At every place of a text there is one.
pub fn date_at<D: Date>(
    text: &[u8],
    place: usize,
    dating: &[D],
    work: &mut [D],
) -> Option<(usize, D)>
    ensures told { Told D.kind dating.now text.now place result }
    ensures all { IsText text.now → place < length text.now → length dating.now ≡ 24 → 256 ≤ length work.old → is_some result ≡ true }
    ensures size { length work.new ≡ length work.old }
{
    let end = term_end(text, place)?;
    let date = evaluate(&text[place..end], dating, work).ok()?;
    Some((end, date))
}
