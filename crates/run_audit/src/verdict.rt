use cron_io::OutOfMemory;

/// Why a line can't stand where it stands.
#[derive(Clone, Copy, Debug, PartialEq, Eq)]
pub enum Why {
    /// It has none of the forms of a journal's lines, or no newline.
    BadLine,
    /// It is the line of a turn, and no turn has it that may come next.
    NotLegal,
    /// It has a form, and the script has another line there.
    NotObeyed,
    /// The text ends where it would be.
    Missing,
}

/// Why a journal is not read on: a line at fault, by its number from 1, or want of memory.
#[derive(Clone, Copy, Debug, PartialEq, Eq)]
pub(crate) enum Stop {
    At { line: u32, why: Why },
    OutOfMemory,
}

impl From<OutOfMemory> for Stop {
    ghost use Rattle.std.specs.Prelude.{◌≡◌};
    ghost use Rattle.run_audit.specs.declared.verdict.Stop.TheVariants.{OutOfMemory};

    ghost from_gives = { λ _ e. e ≡ OutOfMemory };

    fn from(_: OutOfMemory) -> Self {
        Stop::OutOfMemory
    }
}
