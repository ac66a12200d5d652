//! Want of memory is the only fault of a node whose disk can't fail.
ghost use Rattle.std.specs.Prelude.{◌≡◌};
ghost use Rattle.replica_node.specs.declared.fault.NodeFault.TheVariants.{OutOfMemory as NoMemory};

use cron_io::OutOfMemory;
use replica_node::NodeFault;

/// The fault of a node where it tells of no stop, no fault of its disk, no damage and no letter.
pub fn memory_of(fault: NodeFault) -> OutOfMemory
    requires alone { fault ≡ NoMemory }
{
    match fault {
        NodeFault::OutOfMemory => OutOfMemory,
        _ => unreachable!(),
    }
}
