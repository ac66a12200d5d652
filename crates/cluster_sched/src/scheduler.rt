ghost use Rattle.std.specs.Prelude.{◌≡◌, ◌≤◌, ℕ, ⊤, List, Option, Result, IfOk, IsErrOf};
ghost use Rattle.cron_io.specs.Faults.{Rose};
ghost use Rattle.cluster_sched.specs.Held.{Answers, FollowsCall, IsLookedUp, MayGoLate};
ghost use Rattle.cluster_sched.specs.declared.fault.CallFault.{CallFault};
ghost use Rattle.cluster_sched.specs.declared.row.Name.{Name};
ghost use Rattle.cluster_sched.specs.declared.row.SchedRow.{SchedRow};

use crate::fault::CallFault;
use crate::row::{Name, SchedRow};

/// The scheduler of the machines that run the commands. It holds under each name the first row that was created there,
/// for good.
pub trait Scheduler {
    /// The rows that it holds, in the order in which they came.
    ghost held: { Self → List SchedRow };

    /// The calls that are still on their way to it, in order.
    ghost late: { Self → List SchedRow };

    /// How often `create` was called, where the scheduler counts that, and else 0. Nothing but `create` changes it, so by
    /// it a contract says that nothing was created.
    ghost creates: { Self → ℕ };

    /// How often a call has failed: a count that doesn't fall, and stands still at the last value of a `u64`.
    ghost faults: { Self → ℕ };

    /// What a look does, for a scheduler that tells more of it than the clauses below.
    ghost look_gives: { Self → Name → Result (Option SchedRow) CallFault → Self → Type 0 } = { λ _ _ _ _. ⊤ };

    /// What a creation does, in the same way.
    ghost create_gives: { Self → SchedRow → Result SchedRow CallFault → Self → Type 0 } = { λ _ _ _ _. ⊤ };

    /// The row that is held under the name.
    ///
    /// # Errors
    ///
    /// `Failed` only where the count of faults rose, and `OutOfMemory`. Nothing changed then.
    fn look(&mut self, name: Name) -> Result<Option<SchedRow>, CallFault>
        ensures found { IfOk result (λ found. IsLookedUp (held self.old) name found) }
        ensures held { held self.new ≡ held self.old }
        ensures late { late self.new ≡ late self.old }
        ensures creates { creates self.new ≡ creates self.old }
        ensures later { faults self.old ≤ faults self.new }
        ensures failed { IsErrOf result CallFault.Failed → Rose (faults self.old) (faults self.new) }
        ensures gives { look_gives self.old name result self.new };

    /// Holds the row, where nothing is held under its name yet, and answers the first row that is held there.
    ///
    /// # Errors
    ///
    /// `Failed` only where the count of faults rose: the row may be held then, or come late, behind what is late already.
    /// `OutOfMemory`, where nothing changed.
    fn create(&mut self, row: SchedRow) -> Result<SchedRow, CallFault>
        ensures first { IfOk result (λ first. Answers (held self.old) row first (held self.new)) }
        ensures held { FollowsCall (held self.old) row (held self.new) }
        ensures late { MayGoLate (held self.old) (held self.new) (late self.old) (late self.new) row result }
        ensures memory { IsErrOf result CallFault.OutOfMemory
            → (held self.new ≡ held self.old) × (late self.new ≡ late self.old) }
        ensures later { faults self.old ≤ faults self.new }
        ensures failed { IsErrOf result CallFault.Failed → Rose (faults self.old) (faults self.new) }
        ensures gives { create_gives self.old row result self.new };
}
