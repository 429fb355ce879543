// A bench: a tree is opened, its text rewritten step by step, and closed; and what a bench is asked meanwhile.
ghost use Rattle.std.specs.Prelude.{◌≡◌, ℕ, ◌≤◌, List, [], ◌∷◌, length, OnErr, OnOk};
ghost use Rattle.sequences.specs.Tables.{IsTable};
ghost use Rattle.trees.specs.Means.{Means, Source};
ghost use Rattle.derivation.specs.Dating.{DatedAs, HandedOut, TextDated};
ghost use Rattle.derivation.specs.Law.{Known, Lawful, Run, TreeText, closing, going, opening, stepping};
ghost use Rattle.derivation.specs.Model.{Closed, Opened, Stepped, fresh};
ghost use Rattle.derivation.specs.Views.{open_tree};

use dates::Date;
use sequences::refusals::CloseRefusal;
use sequences::table::Table;
use std::marker::Model;
use steps::refusal::StepRefusal;
use steps::stepping::apply_step;
use texts::evaluation::{EvaluationRefusal, evaluate};
use texts::scan::term_end;
use texts::text::Text;
use trees::reader::{Tree, read_tree};
use trees::refusal::TreeRefusal;

// Both texts of a bench with no tree: the term that is never.
const NEVER: &[u8] = b"N";

// The tree last opened, and the text after all steps granted since.
#[derive(Clone, Copy)]
struct Derivation {
    tree: Tree,
    present: Text,
}

#[derive(Drop)]
pub struct Bench {
    derivation: Option<Derivation>,
}

// No bench can exist whose present text is not reached from its source text by rules of the sheet,
// or that no run of calls on a new bench leads to.
impl Model for Bench {
    ghost use Rattle.derivation.specs.Model.{State};
    ghost use Rattle.derivation.specs.Stands.{Stands, state_of};

    ghost Value = { State };

    ghost view = { λ b. state_of b.derivation };

    ghost invariant = { λ b. Stands (state_of b.derivation) };
}

// The calls.
impl Bench {
    ghost use Rattle.derivation.specs.Stands.{Stands};

    // A bench with no tree.
    pub fn new() -> Bench
        ensures state { result ≡ fresh }
        ensures law { Lawful [] result going }
    {
        Bench { derivation: None }
    }

    // Opens a tree. Its source text is the one that its gates and triggers define.
    pub fn open(&mut self, tree: &[u8]) -> Result<(), TreeRefusal>
        ensures outcome { Opened self.old tree.now result self.new }
        ensures meaning { OnOk result (Means tree.now (open_tree self.new)) }
        ensures stands { Stands self.new }
        ensures law { (h : List Known) → Run h self.old → Lawful (opening tree.now result ∷ h) self.new going }
    {
        // A method knows what holds of a bench where it uses a field.
        let _ = &self.derivation;
        let tree = read_tree(tree)?;
        self.derivation = Some(Derivation {
            tree,
            present: tree.source,
        });
        Ok(())
    }

    // Applies the rule of a step record to the present text.
    pub fn step(&mut self, bytes: &[u8]) -> Result<(), StepRefusal>
        ensures outcome { Stepped self.old bytes.now result self.new }
        ensures stands { Stands self.new }
        ensures law { (h : List Known) → Run h self.old → Lawful (stepping bytes.now result ∷ h) self.new going }
    {
        let derivation = self.derivation.as_mut().ok_or(StepRefusal::NoTree)?;
        let text = apply_step(&derivation.present, derivation.tree.events, bytes)?;
        derivation.present = text;
        Ok(())
    }

    // Closes the present text into the table. The bench is used up, granted or not.
    pub fn close(self, table: &mut Table) -> Result<(), CloseRefusal>
        ensures outcome { Closed self table.old result table.new }
        ensures rows { IsTable table.new }
        ensures left { OnErr result (table.new ≡ table.old) }
        ensures law { (h : List Known) → Run h self → Lawful h self (closing table.old result table.new) }
    {
        // What holds of every table, its `len` tells.
        let _ = table.len();
        let derivation = self.derivation.ok_or(CloseRefusal::NoTree)?;
        table.close(derivation.present.as_bytes())
    }
}

// What is asked without a change. The dates of the two texts are two questions of the interface. Each call tells what
// holds of every bench.
impl Bench {
    ghost use Rattle.derivation.specs.Stands.{Stands};

    // Whether a tree is open.
    pub fn is_open(&self) -> bool
        ensures is { result ≡ self.now.opened }
        ensures stands { Stands self.now }
    {
        self.derivation.is_some()
    }

    // How many events the tree has.
    pub fn events(&self) -> u8
        ensures is { result ≡ self.now.events }
        ensures few { result ≤ 24 }
        ensures stands { Stands self.now }
    {
        self.derivation
            .as_ref()
            .map_or(0, |derivation| derivation.tree.events)
    }

    // The text of the tree last opened.
    pub fn source(&self) -> &[u8]
        ensures is { result.now ≡ self.now.source }
        ensures text { Source self.now.events self.now.source }
        ensures stands { Stands self.now }
    {
        self.derivation
            .as_ref()
            .map_or(NEVER, |derivation| derivation.tree.source.as_bytes())
    }

    // The text after all steps granted since.
    pub fn present(&self) -> &[u8]
        ensures is { result.now ≡ self.now.present }
        ensures text { Source self.now.events self.now.present }
        ensures stands { Stands self.now }
    {
        self.derivation
            .as_ref()
            .map_or(NEVER, |derivation| derivation.present.as_bytes())
    }

    // The term at a place, as a part of the present text.
    pub fn term_at(&self, place: usize) -> Result<&[u8], StepRefusal>
        ensures handed { HandedOut self.now place result }
        ensures stands { Stands self.now }
    {
        let derivation = self.derivation.as_ref().ok_or(StepRefusal::NoTree)?;
        let text = derivation.present.as_bytes();
        let end = term_end(text, place).ok_or(StepRefusal::Place)?;
        Ok(&text[place..end])
    }

    // The date of the present text. It is the same as that of the tree last opened, whatever calls have led here.
    pub fn date<D: Date>(&self, dating: &[D], work: &mut [D]) -> Result<D, EvaluationRefusal>
        ensures value { TextDated D.kind dating.now (length work.old) self.now.present result }
        ensures stands { Stands self.now }
        ensures law { (h : List Known) (text : List ℕ) → Run h self.now → TreeText h text → DatedAs D.kind dating.now text result }
        ensures sized { length work.new ≡ length work.old }
        ensures left { OnErr result (work.new ≡ work.old) }
    {
        evaluate(self.present(), dating, work)
    }

    // The date of the source text, which is that of the tree last opened; no tree is dated never.
    pub fn source_date<D: Date>(&self, dating: &[D], work: &mut [D]) -> Result<D, EvaluationRefusal>
        ensures value { TextDated D.kind dating.now (length work.old) self.now.source result }
        ensures stands { Stands self.now }
        ensures law { (h : List Known) (text : List ℕ) → Run h self.now → TreeText h text → DatedAs D.kind dating.now text result }
        ensures sized { length work.new ≡ length work.old }
        ensures left { OnErr result (work.new ≡ work.old) }
    {
        evaluate(self.source(), dating, work)
    }
}
