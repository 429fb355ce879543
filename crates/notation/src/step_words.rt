// Steps in words: the rule, and then what differs from a forward step at place 0 with no supplied terms.
ghost use Rattle.std.specs.Prelude.{◌≡◌, ℕ, ◌<◌, List, [], ◌∷◌, ◌++◌, map, IfOk, MatchOption, OnOk, ◌≢◌};
ghost use Rattle.steps.specs.Readings.{bytes_of, request_of};
ghost use Rattle.steps.specs.Records.{Request};
ghost use Rattle.notation.specs.Numbers.{Number};
ghost use Rattle.notation.specs.Steps.{OneStep, PlaceWords, StepWords, TermWords, WayWords, place_part, step_words, term_part, term_word, way_part};
ghost use Rattle.notation.specs.Words.{joined, spaced};

use crate::numbers::{read_byte, read_number};
use algebra::{Variable, Way};
use std::alloc::{AllocError, Global};
use steps::binding::Binding;
use steps::record::StepRecord;

// The way of a step, and the words after it.
fn read_way<'a, 'b>(words: &'b [&'a str]) -> (Way, &'b [&'a str])
    ensures { WayWords result.0 (map (λ x. x.now) words.now) (map (λ x. x.now) result.1.now) }
{
    match words {
        ["back", rest @ ..] => (Way::Backward, rest),
        _ => (Way::Forward, words),
    }
}

// The place of a step, and the words after it.
fn read_place<'a, 'b>(words: &'b [&'a str]) -> Option<(usize, &'b [&'a str])>
    ensures { MatchOption result ((p : ℕ) (rest : List (List ℕ)) → PlaceWords p (map (λ x. x.now) words.now) rest → ⊥) (λ x. PlaceWords x.0 (map (λ x. x.now) words.now) (map (λ x. x.now) x.1.now)) }
{
    match words {
        ["at", digits, rest @ ..] => {
            let place = read_number(digits.as_bytes())?;
            Some((usize::from(place), rest))
        }
        ["at"] => None,
        _ => Some((0, words)),
    }
}

// The term that a word supplies for a letter.
fn read_supply<'a>(letter: Variable, word: &'a [u8]) -> Option<&'a [u8]>
    ensures { MatchOption result ((t : List ℕ) → word.now ≢ term_word letter t) (λ t. word.now ≡ term_word letter t.now) }
{
    let [name, b'=', term @ ..] = word else {
        return None;
    };
    (*name == u8::from(letter)).then_some(term)
}

// The term for a letter, and the words after it.
fn read_term<'a, 'b>(letter: Variable, words: &'b [&'a str]) -> (Option<&'a [u8]>, &'b [&'a str])
    ensures { TermWords letter (bytes_of result.0) (map (λ x. x.now) words.now) (map (λ x. x.now) result.1.now) }
{
    let [word, rest @ ..] = words else {
        return (None, words);
    };
    match read_supply(letter, word.as_bytes()) {
        Some(term) => (Some(term), rest),
        None => (None, words),
    }
}

// The step that words say. The words that are written for a step are read back as it.
pub fn read_step<'a>(words: &[&'a str]) -> Option<StepRecord<'a>>
    ensures read { MatchOption result ((q : Request) → StepWords q (map (λ x. x.now) words.now) → ⊥) (λ s. StepWords (request_of s) (map (λ x. x.now) words.now)) }
    ensures one { OneStep (map (λ x. x.now) words.now) }
    ensures back { (q : Request) → q.rule < 256 → q.place < 65536 → map (λ x. x.now) words.now ≡ step_words q → MatchOption result ⊥ (λ s. request_of s ≡ q) }
{
    let (number, after_rule) = words.split_first()?;
    let rule = read_byte(number.as_bytes())?;
    let (way, after_way) = read_way(after_rule);
    let (place, after_place) = read_place(after_way)?;
    // Each term is read from the words that the one before left, and goes to a place of its own: three lines say it plainest.
    let (x, after_x) = read_term(Variable::X, after_place);
    let (y, after_y) = read_term(Variable::Y, after_x);
    let (z, after_z) = read_term(Variable::Z, after_y);
    if !after_z.is_empty() {
        return None;
    }
    Some(StepRecord {
        rule,
        way,
        place,
        supplied: Binding { x, y, z },
    })
}

// Adds the way, where it is backward.
fn add_way(line: &mut Vec<u8>, way: Way) -> Result<(), AllocError>
    ensures { OnOk result (line.new.items ≡ line.old.items ++ spaced (way_part way)) }
{
    if way == Way::Backward {
        line.extend_from_slice(b" back")?;
    }
    Ok(())
}

// Adds the place, where it is not 0.
fn add_place(heap: Global, line: &mut Vec<u8>, place: usize) -> Result<(), AllocError>
    ensures { OnOk result (line.new.items ≡ line.old.items ++ spaced (place_part place)) }
{
    if place > 0 {
        let words = format!(in heap; " at {place}")?;
        line.extend_from_slice(words.as_bytes())?;
    }
    Ok(())
}

// Adds the word of a supplied term.
fn add_supply(line: &mut Vec<u8>, letter: Variable, term: &[u8]) -> Result<(), AllocError>
    ensures { OnOk result (line.new.items ≡ line.old.items ++ spaced (term_word letter term.now ∷ [])) }
{
    line.extend_from_slice(&[b' ', u8::from(letter), b'='])?;
    line.extend_from_slice(term)?;
    Ok(())
}

// Adds the term for a letter, where there is one.
fn add_term(line: &mut Vec<u8>, letter: Variable, term: Option<&[u8]>) -> Result<(), AllocError>
    ensures { OnOk result (line.new.items ≡ line.old.items ++ spaced (term_part letter (bytes_of term.entry))) }
{
    if let Some(bytes) = term {
        add_supply(line, letter, bytes)?;
    }
    Ok(())
}

// The line of a step: the words that are written for it, with a space between each two.
pub fn step_line(heap: Global, said: &StepRecord<'_>) -> Result<Vec<u8>, AllocError>
    ensures { IfOk result (λ l. l.items ≡ joined (step_words (request_of said.now))) }
{
    let rule = said.rule;
    let mut line = format!(in heap; "{rule}")?.into_bytes();
    add_way(&mut line, said.way)?;
    add_place(heap, &mut line, said.place)?;
    let Binding { x, y, z } = said.supplied;
    for (letter, term) in [(Variable::X, x), (Variable::Y, y), (Variable::Z, z)] {
        add_term(&mut line, letter, term)?;
    }
    Ok(line)
}
