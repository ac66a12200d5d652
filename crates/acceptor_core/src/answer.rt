use paxos_base::Ballot;

/// What an acceptor answers to a replica that prepares a ballot.
#[derive(Clone, Copy, Debug, PartialEq, Eq)]
pub enum PrepareAnswer {
    /// The ballot is not above the promised one.
    Refused { promised: Ballot },
    /// Votes may be asked for that the acceptor has no more: it keeps those from its base on.
    Behind { base: u64 },
    /// The acceptor may promise the ballot.
    Promise,
}

/// What an acceptor answers to a proposal.
#[derive(Clone, Copy, Debug, PartialEq, Eq)]
pub enum AcceptAnswer {
    /// The ballot is below the promised one.
    Refused { promised: Ballot },
    /// The slot is below the base, so its entry is chosen, and the acceptor keeps no vote for it.
    Behind { base: u64 },
    /// The acceptor has voted at the slot in this very ballot.
    Again,
    /// The acceptor may vote for the proposal.
    Vote,
}
