use cron_fields::Cause;
use cron_io::OutOfMemory;
use std::alloc::{AllocError, AllocFailed};

/// Why a run file is refused.
#[derive(Clone, Copy, Debug, PartialEq, Eq)]
pub struct Refusal {
    /// The run file's line, from 1, or 0 where no line is to blame.
    pub line: u32,
    /// The number of its `Cause`.
    pub cause: u8,
    /// The byte in the line.
    pub place: u32,
}

impl Refusal {
    ghost use Rattle.std.specs.Prelude.{◌≡◌};
    ghost use Rattle.cron_fields.specs.Cause.{cause_number};

    /// A line is refused as a whole.
    pub fn of_line(line: u32, cause: Cause) -> Refusal
        ensures line { result.line ≡ line }
        ensures cause { result.cause ≡ cause_number cause }
        ensures place { result.place ≡ 0 }
    {
        Refusal {
            line,
            cause: cause.number(),
            place: 0,
        }
    }
}

/// Why no run was read.
#[derive(Clone, Copy, Debug, PartialEq, Eq)]
pub enum RunFault {
    /// The text is no run file.
    Refused(Refusal),
    OutOfMemory,
}

impl From<Refusal> for RunFault {
    ghost use Rattle.std.specs.Prelude.{◌≡◌};
    ghost use Rattle.run_text.specs.declared.refusal.RunFault.TheVariants.{Refused};

    ghost from_gives = { λ refusal fault. fault ≡ Refused refusal };

    fn from(refusal: Refusal) -> RunFault {
        RunFault::Refused(refusal)
    }
}

impl From<OutOfMemory> for RunFault {
    ghost use Rattle.std.specs.Prelude.{◌≡◌};
    ghost use Rattle.run_text.specs.declared.refusal.RunFault.TheVariants.{OutOfMemory};

    ghost from_gives = { λ _ fault. fault ≡ OutOfMemory };

    fn from(_error: OutOfMemory) -> RunFault {
        RunFault::OutOfMemory
    }
}

impl From<AllocError> for RunFault {
    ghost use Rattle.std.specs.Prelude.{◌≡◌};
    ghost use Rattle.run_text.specs.declared.refusal.RunFault.TheVariants.{OutOfMemory};

    ghost from_gives = { λ _ fault. fault ≡ OutOfMemory };

    fn from(_error: AllocError) -> RunFault {
        RunFault::OutOfMemory
    }
}

impl<T: Drop> From<AllocFailed<T>> for RunFault {
    ghost use Rattle.std.specs.Prelude.{◌≡◌};
    ghost use Rattle.run_text.specs.declared.refusal.RunFault.TheVariants.{OutOfMemory};

    ghost from_gives = { λ _ fault. fault ≡ OutOfMemory };

    fn from(_error: AllocFailed<T>) -> RunFault {
        RunFault::OutOfMemory
    }
}
