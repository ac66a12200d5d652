ghost use Rattle.std.specs.Prelude.{◌≡◌};
ghost use Rattle.cluster_sched.specs.declared.fault.CallFault.TheVariants.{OutOfMemory as no_memory};

use cron_io::OutOfMemory;

/// Why a call of the scheduler has no answer.
#[derive(Clone, Copy, Debug, PartialEq, Eq)]
pub enum CallFault {
    /// The call failed. It may have taken effect.
    Failed,
    /// Memory ran out. The call took no effect.
    OutOfMemory,
}

impl From<OutOfMemory> for CallFault {
    ghost from_gives = { λ _ e. e ≡ no_memory };

    fn from(_: OutOfMemory) -> Self {
        CallFault::OutOfMemory
    }
}
