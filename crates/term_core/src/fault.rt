use paxos_base::Ballot;

/// Why a term takes up no proposal.
#[derive(Clone, Copy, Debug, PartialEq, Eq)]
pub enum ProposeFault {
    /// The term is no leader's. It says which ballot ended the latest term of a follower, where one did.
    NotLeader { ended: Option<Ballot> },
    /// A proposal is in flight, at this slot.
    Busy { slot: u64 },
}
