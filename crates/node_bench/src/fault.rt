use cron_io::OutOfMemory;
use std::alloc::AllocError;
use std::io;

/// Why a measurement was given up.
#[derive(Clone, Copy, Debug, PartialEq, Eq)]
pub enum BenchFault {
    /// The run has no table of jobs.
    NoTable,
    /// The disk was not attached.
    NoNode,
    /// A tick is outside the window, or the replica's numbers are too large for a step.
    NoStep,
    /// A step was refused.
    RefusedStep,
    /// There are more steps in a minute than the jobs ask for.
    NoEnd,
    /// A clock was not read, or a line was not written.
    Io,
    OutOfMemory,
}

impl From<OutOfMemory> for BenchFault {
    fn from(_fault: OutOfMemory) -> BenchFault {
        BenchFault::OutOfMemory
    }
}

impl From<AllocError> for BenchFault {
    fn from(_fault: AllocError) -> BenchFault {
        BenchFault::OutOfMemory
    }
}

impl From<io::Error> for BenchFault {
    fn from(_fault: io::Error) -> BenchFault {
        BenchFault::Io
    }
}
