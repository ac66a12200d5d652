ghost use Rattle.std.specs.Prelude.{◌≡◌};
ghost use Rattle.report_text.specs.declared.fault.ReportFault.TheVariants.{WriteFault, OutOfMemory};

use cron_io::SinkFault;
use std::alloc::AllocError;

/// Why the report wasn't written whole.
#[derive(Clone, Copy, Debug, PartialEq, Eq)]
pub enum ReportFault {
    /// The sink failed.
    WriteFault,
    /// Memory ran out.
    OutOfMemory,
}

impl From<SinkFault> for ReportFault {
    ghost from_gives = { λ _ e. e ≡ WriteFault };

    fn from(_: SinkFault) -> Self {
        ReportFault::WriteFault
    }
}

impl From<AllocError> for ReportFault {
    ghost from_gives = { λ _ e. e ≡ OutOfMemory };

    fn from(_: AllocError) -> Self {
        ReportFault::OutOfMemory
    }
}

impl From<cron_io::OutOfMemory> for ReportFault {
    ghost from_gives = { λ _ e. e ≡ OutOfMemory };

    fn from(_: cron_io::OutOfMemory) -> Self {
        ReportFault::OutOfMemory
    }
}
