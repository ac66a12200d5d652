ghost use Rattle.std.specs.Prelude.{◌≡◌};
ghost use Rattle.gate_file.specs.declared.fault.GateFault.TheVariants.{OutOfMemory};
ghost use Rattle.gate_file.specs.Faults.{gate_fault_of};

use disk_model::DiskFault;
use std::alloc::{AllocError, AllocFailed};

/// Why a call of a gated file gave no answer.
#[derive(Clone, Copy, Debug, PartialEq, Eq, Hash)]
pub enum GateFault {
    /// The disk stopped.
    Stopped,
    /// The disk failed.
    DiskFault,
    /// Memory ran out.
    OutOfMemory,
}

impl From<DiskFault> for GateFault {
    ghost from_gives = { λ fault e. e ≡ gate_fault_of fault };

    fn from(fault: DiskFault) -> Self {
        match fault {
            DiskFault::Stopped => GateFault::Stopped,
            DiskFault::Failed => GateFault::DiskFault,
            DiskFault::OutOfMemory => GateFault::OutOfMemory,
        }
    }
}

impl From<AllocError> for GateFault {
    ghost from_gives = { λ _ e. e ≡ OutOfMemory };

    fn from(_: AllocError) -> Self {
        GateFault::OutOfMemory
    }
}

impl<T: Drop> From<AllocFailed<T>> for GateFault {
    ghost from_gives = { λ _ e. e ≡ OutOfMemory };

    fn from(_: AllocFailed<T>) -> Self {
        GateFault::OutOfMemory
    }
}
