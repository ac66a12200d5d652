use cron_io::OutOfMemory;
use std::alloc::{AllocError, AllocFailed};
use std::io;

/// Why a measurement was given up.
#[derive(Clone, Copy, Debug, PartialEq, Eq)]
pub enum BenchFault {
    /// The program's word is no number of turns.
    NoNumber,
    /// The replica's numbers are too large for a step.
    NoStep,
    /// A step was refused.
    RefusedStep,
    /// A word or a clock was not read, or a line was not written.
    Io,
    OutOfMemory,
}

impl From<OutOfMemory> for BenchFault {
    fn from(_fault: OutOfMemory) -> BenchFault {
        BenchFault::OutOfMemory
    }
}

impl From<AllocError> for BenchFault {
    fn from(_fault: AllocError) -> BenchFault {
        BenchFault::OutOfMemory
    }
}

impl<T: Drop> From<AllocFailed<T>> for BenchFault {
    fn from(_fault: AllocFailed<T>) -> BenchFault {
        BenchFault::OutOfMemory
    }
}

impl From<io::Error> for BenchFault {
    fn from(_fault: io::Error) -> BenchFault {
        BenchFault::Io
    }
}
