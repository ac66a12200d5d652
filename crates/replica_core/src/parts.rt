use acceptor_core::Acceptor;
use launch_machine::Machine;
use learner_core::Learner;
use paxos_base::RowList;
use std::alloc::Global;
use term_core::Term;

/// What a replica knows, by the parts of the protocol.
#[derive(Debug, Drop)]
pub struct Core {
    pub alloc: Global,
    /// Its number.
    pub me: u8,
    /// How many replicas there are, from 1 to 7.
    pub members: u8,
    /// The highest round of a ballot of its own, or 0.
    pub tried: u64,
    pub acceptor: Acceptor,
    pub learner: Learner,
    /// The launch table after the entries below the base.
    pub rows: RowList,
    /// The launch table after all entries that were learned.
    pub machine: Machine,
    pub term: Term,
    /// The number of the highest ballot that it has seen.
    pub seen: u64,
    /// The highest count of a row of the launch table.
    pub high_count: u32,
}
