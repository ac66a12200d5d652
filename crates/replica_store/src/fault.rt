ghost use Rattle.std.specs.Prelude.{◌≡◌};
ghost use Rattle.replica_store.specs.declared.fault.StoreFault.TheVariants.{OutOfMemory as NoMemory};
ghost use Rattle.replica_store.specs.Faults.{of_disk, of_gates, of_records};

use cron_io::OutOfMemory;
use disk_model::DiskFault;
use gate_file::GateFault;
use store_format::ReadFault;

/// Why a call of a store gave no answer.
#[derive(Clone, Copy, Debug, PartialEq, Eq, Hash)]
pub enum StoreFault {
    /// The disk stopped.
    Stopped,
    /// The disk failed.
    DiskFault,
    /// Memory ran out.
    OutOfMemory,
    /// The files stand for no state. This gate of the selected area is the first at fault: the first that no area has
    /// whose records stand for a state and are the same up to it. Where the group of a base breaks off, it is the tail
    /// gate.
    Damaged { gate: u64 },
}

impl From<DiskFault> for StoreFault {
    ghost from_gives = { λ fault e. e ≡ of_disk fault };

    fn from(fault: DiskFault) -> Self {
        match fault {
            DiskFault::Stopped => StoreFault::Stopped,
            DiskFault::Failed => StoreFault::DiskFault,
            DiskFault::OutOfMemory => StoreFault::OutOfMemory,
        }
    }
}

impl From<GateFault> for StoreFault {
    ghost from_gives = { λ fault e. e ≡ of_gates fault };

    fn from(fault: GateFault) -> Self {
        match fault {
            GateFault::Stopped => StoreFault::Stopped,
            GateFault::DiskFault => StoreFault::DiskFault,
            GateFault::OutOfMemory => StoreFault::OutOfMemory,
        }
    }
}

impl From<ReadFault> for StoreFault {
    ghost from_gives = { λ fault e. e ≡ of_records fault };

    fn from(fault: ReadFault) -> Self {
        match fault {
            ReadFault::Damaged { record } => StoreFault::Damaged { gate: record },
            ReadFault::OutOfMemory => StoreFault::OutOfMemory,
        }
    }
}

impl From<OutOfMemory> for StoreFault {
    ghost from_gives = { λ _ e. e ≡ NoMemory };

    fn from(_: OutOfMemory) -> Self {
        StoreFault::OutOfMemory
    }
}
