use cron_io::{OutOfMemory, ReadAllFault, SinkFault};
use std::alloc::{AllocError, AllocFailed};
use std::fmt;

/// Why commands can't be played on.
#[derive(Clone, Copy, Debug, PartialEq, Eq)]
pub enum PlayFault {
    ReadFault,
    WriteFault,
    TooLong,
    NotText,
    OutOfMemory,
    BadCommand,
    MissingWord,
    BadNumber,
    BadMember,
    BadJobs,
    BadStamp,
    BadKind,
    BadBallot,
    BadEntry,
    BadRow,
    BadHex,
}

impl fmt::Display for PlayFault {
    fn fmt<W: fmt::Write>(&self, f: &mut fmt::Formatter<W>) -> fmt::Result {
        f.write_str(match self {
            PlayFault::ReadFault => "the input can't be read",
            PlayFault::WriteFault => "the output can't be written",
            PlayFault::TooLong => "the input has more than 1,048,576 bytes",
            PlayFault::NotText => "the input is not UTF-8",
            PlayFault::OutOfMemory => "out of memory",
            PlayFault::BadCommand => "there is no such command",
            PlayFault::MissingWord => "a word is missing",
            PlayFault::BadNumber => "a number is expected",
            PlayFault::BadMember => "there are 1 to 7 replicas, and this is none of them",
            PlayFault::BadJobs => "a table has at most 2 jobs",
            PlayFault::BadStamp => "a stamp is expected, as 2024-03-31T00:00Z",
            PlayFault::BadKind => "a launch ends as launch or void",
            PlayFault::BadBallot => "a ballot is expected, as 1.0",
            PlayFault::BadEntry => "there is no such entry",
            PlayFault::BadRow =>
                "a row has cursor, open, last, launched and voided, and a cursor where it is open",
            PlayFault::BadHex => "bytes are pairs of hexadecimal digits",
        })
    }
}

impl From<OutOfMemory> for PlayFault {
    fn from(_: OutOfMemory) -> PlayFault {
        PlayFault::OutOfMemory
    }
}

impl From<AllocError> for PlayFault {
    fn from(_: AllocError) -> PlayFault {
        PlayFault::OutOfMemory
    }
}

impl<T: Drop> From<AllocFailed<T>> for PlayFault {
    fn from(_: AllocFailed<T>) -> PlayFault {
        PlayFault::OutOfMemory
    }
}

impl From<SinkFault> for PlayFault {
    fn from(_: SinkFault) -> PlayFault {
        PlayFault::WriteFault
    }
}

impl From<ReadAllFault> for PlayFault {
    fn from(fault: ReadAllFault) -> PlayFault {
        match fault {
            ReadAllFault::ReadFault => PlayFault::ReadFault,
            ReadAllFault::TooLong => PlayFault::TooLong,
            ReadAllFault::OutOfMemory => PlayFault::OutOfMemory,
        }
    }
}

/// Where commands can't be played on, and why: a line's number from 1 on, or 0 where no line is to blame.
#[derive(Clone, Copy, Debug, PartialEq, Eq)]
pub struct Stop {
    pub line: usize,
    pub fault: PlayFault,
}

impl From<PlayFault> for Stop {
    fn from(fault: PlayFault) -> Stop {
        Stop { line: 0, fault }
    }
}
