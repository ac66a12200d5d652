use cron_io::OutOfMemory;
use replica_store::StoreFault;
use std::alloc::{AllocError, AllocFailed};
use std::io;

/// Why a measurement was given up.
#[derive(Clone, Copy, Debug, PartialEq, Eq)]
pub enum BenchFault {
    Store(StoreFault),
    /// A clock was not read, or a line was not written.
    Io,
    OutOfMemory,
}

impl From<StoreFault> for BenchFault {
    fn from(fault: StoreFault) -> BenchFault {
        BenchFault::Store(fault)
    }
}

impl From<OutOfMemory> for BenchFault {
    fn from(_fault: OutOfMemory) -> BenchFault {
        BenchFault::OutOfMemory
    }
}

impl From<AllocError> for BenchFault {
    fn from(_fault: AllocError) -> BenchFault {
        BenchFault::OutOfMemory
    }
}

impl<T: Drop> From<AllocFailed<T>> for BenchFault {
    fn from(_fault: AllocFailed<T>) -> BenchFault {
        BenchFault::OutOfMemory
    }
}

impl From<io::Error> for BenchFault {
    fn from(_fault: io::Error) -> BenchFault {
        BenchFault::Io
    }
}
