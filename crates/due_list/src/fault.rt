ghost use Rattle.std.specs.Prelude.{◌≡◌};
ghost use Rattle.due_list.specs.declared.fault.ListFault.TheVariants.{WriteFault, OutOfMemory};

use cron_io::SinkFault;
use std::alloc::AllocError;

/// Why a list wasn't written whole.
#[derive(Clone, Copy, Debug, PartialEq, Eq)]
pub enum ListFault {
    /// The sink failed.
    WriteFault,
    /// Memory ran out.
    OutOfMemory,
}

impl From<SinkFault> for ListFault {
    ghost from_gives = { λ _ e. e ≡ WriteFault };

    fn from(_: SinkFault) -> Self {
        ListFault::WriteFault
    }
}

impl From<AllocError> for ListFault {
    ghost from_gives = { λ _ e. e ≡ OutOfMemory };

    fn from(_: AllocError) -> Self {
        ListFault::OutOfMemory
    }
}

impl From<cron_io::OutOfMemory> for ListFault {
    ghost from_gives = { λ _ e. e ≡ OutOfMemory };

    fn from(_: cron_io::OutOfMemory) -> Self {
        ListFault::OutOfMemory
    }
}

/// A line of a table that breaks a rule.
#[derive(Clone, Copy, Debug, PartialEq, Eq)]
pub struct TableFault {
    /// Its number in the run file, from 1; that of the first of its lines, where it is made of several.
    pub line: u64,
    /// The number of the rule.
    pub cause: u8,
    /// The place of the byte in the line, counted from 0.
    pub place: u32,
}
