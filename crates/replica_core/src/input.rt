ghost use Rattle.std.specs.Prelude.{◌≡◌};
ghost use Rattle.replica_core.specs.declared.input.StepFault.TheVariants as fault;

use cron_io::OutOfMemory;
use paxos_base::Kind;
use paxos_letter::LetterFault;
use zone_minutes::Minute;

/// What a replica is told.
#[derive(Clone, Copy, Debug)]
pub enum Input<'a> {
    /// It shall stand for leader.
    Campaign,
    /// Its clock reads so.
    Tick { now: Minute },
    /// A letter has come.
    Hear { bytes: &'a [u8] },
    /// The scheduler has answered a call: the job's launch that was due at `at` ended so.
    Answer { job: u32, at: i64, kind: Kind },
}

/// Why a step was refused. The replica is as it was.
#[derive(Clone, Copy, Debug, PartialEq, Eq)]
pub enum StepFault {
    /// The bytes are no letter: the first rule that they break.
    Letter(LetterFault),
    OutOfMemory,
}

impl From<OutOfMemory> for StepFault {
    ghost from_gives = { λ _ e. e ≡ fault.OutOfMemory };

    fn from(_fault: OutOfMemory) -> StepFault {
        StepFault::OutOfMemory
    }
}

impl From<LetterFault> for StepFault {
    ghost from_gives = { λ e result. result ≡ fault.Letter e };

    fn from(fault: LetterFault) -> StepFault {
        StepFault::Letter(fault)
    }
}
