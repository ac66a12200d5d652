//! What an acceptor answers. A ballot is refused exactly if it isn't above the promise (`Acceptor::on_prepare`,
//! clause `refused`), a proposal exactly if its ballot is below it (`on_accept`); votes below the base are gone, and
//! are not asked for (clauses `behind`). After a change the acceptor is the part that it is of what its replica
//! keeps (`take`, clause `part`: `IsPart`). Room for a vote is reserved beforehand (`reserve`), so that taking it
//! never fails. That a vote at the last slot or after it takes constant time no contract says.
//!
//! The acceptor of Paxos, for the slots of a log ("Paxos Made Simple", section 2.2): what it answers to a ballot and to
//! a proposal, and how its state follows what the replica keeps on its disk.
//!
//! An [`Acceptor`] is a pure core: it neither sends nor stores. The replica asks it for its answer, has the change stored,
//! and then lets the acceptor [`take`](Acceptor::take) it.
#![tactic(auto)]

mod acceptor;
mod answer;

pub use acceptor::Acceptor;
pub use answer::{AcceptAnswer, PrepareAnswer};
