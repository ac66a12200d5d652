use paxos_base::Entry;
use paxos_letter::LetterBytes;

/// An entry that a replica has learned, and the slot of the log that it was chosen for.
#[derive(Clone, Copy, Debug, PartialEq, Eq)]
pub struct LearntRow {
    pub slot: u64,
    pub entry: Entry,
}

/// A letter that leaves a replica: the number of the one that it goes to, and its bytes.
#[derive(Debug, Drop)]
pub struct OutLetter {
    pub to: u8,
    pub bytes: LetterBytes,
}
