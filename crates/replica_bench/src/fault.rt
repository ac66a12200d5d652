use cron_io::OutOfMemory;
use std::alloc::{AllocError, AllocFailed};
use std::io;

/// Why a measurement was given up.
#[derive(Clone, Copy, Debug, PartialEq, Eq)]
pub enum BenchFault {
    /// A run has no table of jobs.
    NoTable,
    /// There is no replica of that number.
    NoReplica,
    /// A tick is outside the window, or a replica's numbers are too large for a step.
    NoStep,
    /// A step was refused.
    RefusedStep,
    /// There are more letters than can come of a step, or more steps in a minute than the jobs ask for.
    NoEnd,
    /// A clock was not read, or a line was not written.
    Io,
    OutOfMemory,
}

impl From<OutOfMemory> for BenchFault {
    fn from(_fault: OutOfMemory) -> BenchFault {
        BenchFault::OutOfMemory
    }
}

impl From<AllocError> for BenchFault {
    fn from(_fault: AllocError) -> BenchFault {
        BenchFault::OutOfMemory
    }
}

impl<T: Drop> From<AllocFailed<T>> for BenchFault {
    fn from(_fault: AllocFailed<T>) -> BenchFault {
        BenchFault::OutOfMemory
    }
}

impl From<io::Error> for BenchFault {
    fn from(_fault: io::Error) -> BenchFault {
        BenchFault::Io
    }
}
