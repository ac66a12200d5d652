use paxos_letter::LetterBytes;

/// A letter of a book: the replicas that it goes from and to, the number of the turn that posted it, and its bytes.
#[derive(Debug, Drop)]
pub struct LetterRow {
    pub from: u8,
    pub to: u8,
    pub turn: u64,
    pub bytes: LetterBytes,
}
