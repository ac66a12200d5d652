/// The first rule that the bytes of a letter break, and the number, from 0, of the packet that breaks it.
///
/// The length is tested first, and then the packets in their order, each by the rules in the order that they stand in
/// here.
#[derive(Clone, Copy, Debug, PartialEq, Eq, Hash)]
pub enum LetterFault {
    /// The length is 0 or no multiple of a packet's; the number is 0.
    BadLength { packet: u64 },
    /// There is no such kind, or no such tag of an entry or a row, or a row's count is above 32 bits.
    BadKind { packet: u64 },
    /// A field that is not used is not 0.
    NotZero { packet: u64 },
    /// The sender is none of the members or not that of the first packet, or a ballot is none of a member.
    BadMember { packet: u64 },
    /// The packet cannot stand where it does, or the letter ends before a count is filled; then the number is that of
    /// the packets in the letter.
    BadGroup { packet: u64 },
}
