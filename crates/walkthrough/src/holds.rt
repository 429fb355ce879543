// A drop that is tried while a hold stands.
ghost use Rattle.std.specs.Prelude.{◌≡◌, true, is_err, IfOk};
ghost use Rattle.failure_log.specs.Views.{state_of};

use dates::Date;
use failure_log::{Log, LogRefusal};

// What came of the drop, and who held the log.
#[derive(Clone, Copy, Debug, PartialEq, Eq)]
pub struct Attempt {
    pub dropped: Result<(), LogRefusal>,
    pub custodian: u8,
}

// Holds the log, tries to drop, and lifts the hold. The drop is always refused, and the log is then as it was.
pub fn drop_under_hold<T: Date>(
    log: &mut Log<T>,
    custodian: u8,
    bytes: &[u8],
) -> Result<Attempt, LogRefusal>
    ensures refused { IfOk result (λ a. is_err a.dropped ≡ true) }
    ensures holder { IfOk result (λ a. a.custodian ≡ custodian) }
    ensures same { state_of log.new ≡ state_of log.old }
{
    let slip = log.hold(custodian)?;
    let dropped = log.drop_before(bytes);
    let custodian = log.lift(slip).unwrap();
    Ok(Attempt { dropped, custodian })
}
