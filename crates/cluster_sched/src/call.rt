ghost use Rattle.std.specs.Prelude.{◌≡◌, ◌≤◌, IfOk, IsErrOf};
ghost use Rattle.cron_io.specs.Faults.{Rose};
ghost use Rattle.cluster_sched.specs.Calls.{IsCall};
ghost use Rattle.cluster_sched.specs.Held.{Answers, FollowsCall, MayGoLate, NoneUnder};

use crate::fault::CallFault;
use crate::row::SchedRow;
use crate::scheduler::Scheduler;

/// Calls a launch by its name: looks the name up, and creates the row only where nothing is held. Answers the first row
/// that is held under the name.
///
/// # Errors
///
/// `Failed` only where the scheduler's count of faults rose, and `OutOfMemory`, where nothing changed.
pub fn call_by_name<C: Scheduler>(sched: &mut C, row: SchedRow) -> Result<SchedRow, CallFault>
    ensures first { IfOk result (λ first. Answers (C.held sched.old) row first (C.held sched.new)) }
    ensures held { FollowsCall (C.held sched.old) row (C.held sched.new) }
    ensures late { MayGoLate (C.held sched.old) (C.held sched.new) (C.late sched.old) (C.late sched.new) row result }
    // Where a row is held under the name, whatever the answer is, nothing changed and nothing was created.
    ensures known { ¬ NoneUnder (C.held sched.old) row.name
        → (C.held sched.new ≡ C.held sched.old) × (C.late sched.new ≡ C.late sched.old)
        × (C.creates sched.new ≡ C.creates sched.old) }
    ensures memory { IsErrOf result CallFault.OutOfMemory
        → (C.held sched.new ≡ C.held sched.old) × (C.late sched.new ≡ C.late sched.old) }
    ensures later { C.faults sched.old ≤ C.faults sched.new }
    ensures failed { IsErrOf result CallFault.Failed → Rose (C.faults sched.old) (C.faults sched.new) }
    ensures calls { IsCall C.look_gives C.create_gives sched.old row result sched.new }
{
    match sched.look(row.name)? {
        Some(first) => Ok(first),
        None => sched.create(row),
    }
}
