use cron_io::OutOfMemory;
use std::io;

/// Why a measurement was given up.
#[derive(Clone, Copy, Debug, PartialEq, Eq)]
pub enum BenchFault {
    /// The program's word is no number of turns, or of microseconds.
    NoNumber,
    /// The run has no table of jobs.
    NoTable,
    /// A reader has no thread.
    NoThread,
    /// A word or a clock was not read, or a line was not written.
    Io,
    OutOfMemory,
}

impl From<OutOfMemory> for BenchFault {
    fn from(_fault: OutOfMemory) -> BenchFault {
        BenchFault::OutOfMemory
    }
}

impl From<io::Error> for BenchFault {
    fn from(_fault: io::Error) -> BenchFault {
        BenchFault::Io
    }
}
