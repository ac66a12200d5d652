ghost use Rattle.std.specs.Prelude.{◌≡◌};
ghost use Rattle.replica_node.specs.declared.fault.NodeFault.TheVariants.{OutOfMemory as NoMemory};
ghost use Rattle.replica_node.specs.Faults.{of_step, of_store};

use cron_io::OutOfMemory;
use paxos_letter::LetterFault;
use replica_core::StepFault;
use replica_store::StoreFault;

/// Why a call of a node gave no answer.
#[derive(Clone, Copy, Debug, PartialEq, Eq)]
pub enum NodeFault {
    /// The disk stopped.
    Stopped,
    /// The disk failed.
    DiskFault,
    /// Memory ran out.
    OutOfMemory,
    /// The files stand for no state. This gate of the selected area is the first at fault.
    Damaged { gate: u64 },
    /// The bytes are no letter: the first rule that they break.
    Letter(LetterFault),
}

impl From<StoreFault> for NodeFault {
    ghost from_gives = { λ fault e. e ≡ of_store fault };

    fn from(fault: StoreFault) -> Self {
        match fault {
            StoreFault::Stopped => NodeFault::Stopped,
            StoreFault::DiskFault => NodeFault::DiskFault,
            StoreFault::OutOfMemory => NodeFault::OutOfMemory,
            StoreFault::Damaged { gate } => NodeFault::Damaged { gate },
        }
    }
}

impl From<StepFault> for NodeFault {
    ghost from_gives = { λ fault e. e ≡ of_step fault };

    fn from(fault: StepFault) -> Self {
        match fault {
            StepFault::Letter(letter) => NodeFault::Letter(letter),
            StepFault::OutOfMemory => NodeFault::OutOfMemory,
        }
    }
}

impl From<OutOfMemory> for NodeFault {
    ghost from_gives = { λ _ e. e ≡ NoMemory };

    fn from(_: OutOfMemory) -> Self {
        NodeFault::OutOfMemory
    }
}
