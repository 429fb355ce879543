// Reads a tree from the front.
ghost use Rattle.std.specs.Prelude.{◌≡◌, IfOk};
ghost use Rattle.trees.specs.Means.{Means, SameTree, Source};
ghost use Rattle.trees.specs.Reading.{Answer, answer, Ended, Ending, Outcome};

use crate::counts::Counts;
use crate::inputs::Inputs;
use crate::record::read_record;
use crate::refusal::TreeRefusal;
use std::marker::Model;
use texts::text::Text;

// How many events a tree has, and its source text.
#[derive(Clone, Copy, Debug, PartialEq, Eq)]
pub struct Tree {
    pub events: u8,
    pub source: Text,
}

// The model forgets nothing. It is here since a text has one: a `Copy` struct that holds such a text, and has no model of
// its own, is not copied where it is passed by value.
impl Model for Tree {
    ghost use Rattle.trees.specs.Trees.{TreeParts};

    ghost Value = { TreeParts };

    ghost view = { λ t. record { events = t.events; source = t.source } };

    ghost inverse = { λ t. record { events = t.events; source = t.source } };
}

// What comes of the bytes after the last record, and of its text.
fn ended(rest: &[u8], last: Option<Text>) -> Result<Text, TreeRefusal>
    ensures { Ended rest.now last result }
{
    if !rest.is_empty() {
        return Err(TreeRefusal::Form);
    }
    last.ok_or(TreeRefusal::NoSource)
}

// The source text of the records of a tree.
fn read_records(counts: Counts, body: &[u8]) -> Result<Tree, TreeRefusal>
    ensures { Ending counts.events counts.records body.now (answer result) }
{
    let mut inputs = Inputs::new(counts);
    let mut rest = body;
    // A loop, since each record begins where the one before it ends, and both steps may refuse it.
    for k in 0..counts.records {
        let (next, after) = read_record(rest)?;
        inputs.add(usize::from(k), next)?;
        rest = after;
    }
    let source = ended(rest, inputs.text(63 + counts.records).copied())?;
    Ok(Tree {
        events: counts.events,
        source,
    })
}

// The tree of the bytes. Only one answer is possible, and a granted tree's text is the one that its gates define.
pub fn read_tree(bytes: &[u8]) -> Result<Tree, TreeRefusal>
    ensures outcome { Outcome bytes.now (answer result) }
    ensures single { (a : Answer) → Outcome bytes.now a → answer result ≡ a }
    ensures meaning { IfOk result (λ t. Means bytes.now t) }
    ensures sole { IfOk result (λ t. (s : Tree) → Means bytes.now s → SameTree s t) }
    ensures source { IfOk result (λ t. Source t.events t.source) }
{
    let [events, records, body @ ..] = bytes else {
        return Err(TreeRefusal::Form);
    };
    let counts = Counts::new(*events, *records).ok_or(TreeRefusal::Counts)?;
    read_records(counts, body)
}
