use std::alloc::AllocError;

/// One of the three files of a replica: the chooser says which of the two areas holds its records.
#[derive(Clone, Copy, Debug, PartialEq, Eq, Hash)]
pub enum FileNo {
    Chooser,
    AreaA,
    AreaB,
}

/// Why a call of a disk gave no answer.
#[derive(Clone, Copy, Debug, PartialEq, Eq, Hash)]
pub enum DiskFault {
    /// The disk stopped, within this call or before it.
    Stopped,
    /// The disk failed. What a stop may leave is what the call may have begun.
    Failed,
    /// Memory ran out, before anything changed. Of the calls of a disk only a write gives this.
    OutOfMemory,
}

impl From<AllocError> for DiskFault {
    ghost use Rattle.std.specs.Prelude.{◌≡◌};
    ghost use Rattle.disk_model.specs.declared.fault.DiskFault.TheVariants.{OutOfMemory};

    ghost from_gives = { λ _ e. e ≡ OutOfMemory };

    fn from(_: AllocError) -> Self {
        DiskFault::OutOfMemory
    }
}
