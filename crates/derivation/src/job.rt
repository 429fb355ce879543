// A whole job on the bytes of two files: open the tree, make the steps, close into the table.
ghost use Rattle.std.specs.Prelude.{◌≡◌, List, OnErr};
ghost use Rattle.sequences.specs.Tables.{IsTable};
ghost use Rattle.derivation.specs.Jobs.{Job, Made};
ghost use Rattle.derivation.specs.Law.{Known, Run};
ghost use Rattle.derivation.specs.Stands.{Stands};
ghost use Rattle.derivation.specs.declared.job.JobFault.TheVariants as fault;

use crate::bench::Bench;
use algebra::Refusal;
use sequences::refusals::CloseRefusal;
use sequences::table::Table;
use steps::file::{StepFault, at_step};
use steps::records::Records;
use thiserror::Error;
use trees::refusal::TreeRefusal;

// Where a job was refused, and why.
#[derive(Clone, Copy, Debug, PartialEq, Eq, Error)]
pub enum JobFault {
    #[error("tree {}", .0.code())]
    Tree(TreeRefusal),
    #[error("step {} {}", .0.step, .0.refusal.code())]
    Step(StepFault),
    #[error("close {}", .0.code())]
    Close(CloseRefusal),
}

impl From<TreeRefusal> for JobFault {
    ghost from_gives = { λ e f. f ≡ fault.Tree e };

    fn from(refusal: TreeRefusal) -> JobFault {
        JobFault::Tree(refusal)
    }
}

impl From<StepFault> for JobFault {
    ghost from_gives = { λ e f. f ≡ fault.Step e };

    fn from(fault: StepFault) -> JobFault {
        JobFault::Step(fault)
    }
}

impl From<CloseRefusal> for JobFault {
    ghost from_gives = { λ e f. f ≡ fault.Close e };

    fn from(refusal: CloseRefusal) -> JobFault {
        JobFault::Close(refusal)
    }
}

impl Bench {
    // Makes the steps of a file, in which each record has its length before it. The first one refused is named.
    pub fn step_all(&mut self, file: &[u8]) -> Result<(), StepFault>
        ensures made { (h : List Known) → Run h self.old → Made h file.now result self.new }
        ensures stands { Stands self.new }
    {
        // What holds of every bench, each of its calls tells; there may be no step to make.
        let _ = self.is_open();
        for record in Records::of(file) {
            let (step, bytes) = record?;
            at_step(self.step(bytes), step)?;
        }
        Ok(())
    }
}

// Opens the tree, makes the steps of the file, and closes into the table. A refusal leaves the table as it was.
pub fn derive(tree: &[u8], file: &[u8], table: &mut Table) -> Result<(), JobFault>
    ensures job { Job tree.now file.now table.old result table.new }
    ensures rows { IsTable table.new }
    ensures left { OnErr result (table.new ≡ table.old) }
{
    // What holds of every table, its `len` tells.
    let _ = table.len();
    let mut bench = Bench::new();
    bench.open(tree)?;
    bench.step_all(file)?;
    bench.close(table)?;
    Ok(())
}
