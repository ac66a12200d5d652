ghost use Rattle.std.specs.Prelude.{◌≡◌};

use cron_fields::Cause;
use cron_io::ReadAllFault;
use run_text::{Refusal, RunFault};

/// Why the program stops and leaves no run.
#[derive(Clone, Copy, Debug, PartialEq, Eq)]
pub enum Stop {
    /// The command line is faulty.
    Usage,
    /// The input was refused.
    Refused(Refusal),
    /// A read failed.
    ReadFault,
    /// Memory ran out.
    OutOfMemory,
}

impl From<ReadAllFault> for Stop {
    ghost use Rattle.cron_serve.specs.Stop.{stop_of_read};

    ghost from_gives = { λ fault stop. stop ≡ stop_of_read fault };

    fn from(fault: ReadAllFault) -> Self {
        match fault {
            ReadAllFault::ReadFault => Stop::ReadFault,
            ReadAllFault::TooLong => {
                // No line is to blame.
                Stop::Refused(Refusal::of_line(0, Cause::TooLarge))
            },
            ReadAllFault::OutOfMemory => Stop::OutOfMemory,
        }
    }
}

impl From<RunFault> for Stop {
    ghost use Rattle.cron_serve.specs.Stop.{stop_of_run};

    ghost from_gives = { λ fault stop. stop ≡ stop_of_run fault };

    fn from(fault: RunFault) -> Self {
        match fault {
            RunFault::Refused(refusal) => Stop::Refused(refusal),
            RunFault::OutOfMemory => Stop::OutOfMemory,
        }
    }
}

impl From<cron_io::OutOfMemory> for Stop {
    ghost use Rattle.cron_serve.specs.declared.stop.Stop.TheVariants.{OutOfMemory};

    ghost from_gives = { λ _ stop. stop ≡ OutOfMemory };

    fn from(_: cron_io::OutOfMemory) -> Self {
        Stop::OutOfMemory
    }
}
