use cron_io::{OutOfMemory, ReadAllFault, SinkFault};
use paxos_letter::LetterFault;
use replica_core::StepFault;
use std::alloc::{AllocError, AllocFailed};

/// Why a scenario can't be played.
#[derive(Clone, Copy)]
pub enum PlayFault {
    ReadFault,
    WriteFault,
    TooLong,
    NotText,
    OutOfMemory,
    BadCommand,
    MissingWord,
    BadNumber,
    BadMember,
    BadCount,
    BadStamp,
    BadKind,
    BadBallot,
    BadPacket,
    BadSlots,
    BadRows,
    BadRow,
    NoLetter,
    NotALetter,
    Stopped,
    NoCall,
    OutsideHour,
    BeyondBounds,
    BadStart,
    TooManyLetters,
}

impl PlayFault {
    /// The fault in words.
    pub fn message(self) -> &'static str {
        match self {
            PlayFault::ReadFault => "the input can't be read",
            PlayFault::WriteFault => "the output can't be written",
            PlayFault::TooLong => "the input has more than 1,048,576 bytes",
            PlayFault::NotText => "the input is not UTF-8",
            PlayFault::OutOfMemory => "out of memory",
            PlayFault::BadCommand => "there is no such command",
            PlayFault::MissingWord => "a word is missing",
            PlayFault::BadNumber => "a number is expected",
            PlayFault::BadMember => "there is no such replica",
            PlayFault::BadCount => "there are 1 to 7 replicas",
            PlayFault::BadStamp => "a stamp is expected, as 2024-03-31T00:00Z",
            PlayFault::BadKind => "an answer is launch or void",
            PlayFault::BadBallot => "a ballot is expected, as 1.0",
            PlayFault::BadPacket => "there is no such packet",
            PlayFault::BadSlots => "slots are expected, as 0 to 63, and at most 1,000",
            PlayFault::BadRows => "there are at most 1,000 rows",
            PlayFault::BadRow =>
                "a row has cursor, open, last, launched and voided, each at most once",
            PlayFault::NoLetter => "there is no such letter",
            PlayFault::NotALetter => "these packets are no letter",
            PlayFault::Stopped => "the replica is stopped",
            PlayFault::NoCall => "the replica has called for no launch",
            PlayFault::OutsideHour => "the stamp is outside the hour from 2024-03-31T00:00Z on",
            PlayFault::BeyondBounds => "the replica's numbers are beyond its bounds",
            PlayFault::BadStart => "no replica starts so",
            PlayFault::TooManyLetters => "there are 1,000 letters or more",
        }
    }
}

impl From<OutOfMemory> for PlayFault {
    fn from(_: OutOfMemory) -> PlayFault {
        PlayFault::OutOfMemory
    }
}

impl From<AllocError> for PlayFault {
    fn from(_: AllocError) -> PlayFault {
        PlayFault::OutOfMemory
    }
}

impl<T: Drop> From<AllocFailed<T>> for PlayFault {
    fn from(_: AllocFailed<T>) -> PlayFault {
        PlayFault::OutOfMemory
    }
}

impl From<SinkFault> for PlayFault {
    fn from(_: SinkFault) -> PlayFault {
        PlayFault::WriteFault
    }
}

impl From<ReadAllFault> for PlayFault {
    fn from(fault: ReadAllFault) -> PlayFault {
        match fault {
            ReadAllFault::ReadFault => PlayFault::ReadFault,
            ReadAllFault::TooLong => PlayFault::TooLong,
            ReadAllFault::OutOfMemory => PlayFault::OutOfMemory,
        }
    }
}

impl From<LetterFault> for PlayFault {
    fn from(_: LetterFault) -> PlayFault {
        PlayFault::NotALetter
    }
}

/// Why a step comes to nothing: the replica refuses the letter, or the scenario can't be played.
#[derive(Clone, Copy)]
pub enum Refusal {
    Letter(LetterFault),
    Play(PlayFault),
}

impl From<PlayFault> for Refusal {
    fn from(fault: PlayFault) -> Refusal {
        Refusal::Play(fault)
    }
}

impl From<OutOfMemory> for Refusal {
    fn from(fault: OutOfMemory) -> Refusal {
        Refusal::Play(PlayFault::from(fault))
    }
}

impl From<StepFault> for Refusal {
    fn from(fault: StepFault) -> Refusal {
        match fault {
            StepFault::Letter(fault) => Refusal::Letter(fault),
            StepFault::OutOfMemory => Refusal::Play(PlayFault::OutOfMemory),
        }
    }
}

/// Where a scenario can't be played on, and why: a line's number from 1 on, or 0 where no line is to blame.
#[derive(Clone, Copy)]
pub struct Stop {
    pub line: usize,
    pub fault: PlayFault,
}

impl From<PlayFault> for Stop {
    fn from(fault: PlayFault) -> Stop {
        Stop { line: 0, fault }
    }
}
