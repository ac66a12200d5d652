ghost use Rattle.std.specs.Prelude.{◌≡◌, ◌<◌, None, Some, if◌then◌else◌};
ghost use Rattle.term_core.specs.Term.{is_fourth, new_flight, ticked};

use paxos_base::{Entry, Members};

// At each tick of this number a flight's proposal is sent again.
const TICKS: u8 = 4;

/// A leader's proposal that no majority has accepted yet.
#[derive(Clone, Copy, Debug, PartialEq, Eq)]
pub struct Flight {
    pub slot: u64,
    pub entry: Entry,
    /// The replicas that have accepted it.
    pub accepted: Members,
    /// Ticks since it began or was last sent again, below 4.
    pub waited: u8,
}

impl Flight {
    // A flight that begins: the proposer accepts its own proposal.
    pub fn new(slot: u64, entry: Entry, me: u8) -> Flight
        requires { me < 7 }
        ensures { result ≡ new_flight slot entry me }
    {
        Flight {
            slot,
            entry,
            accepted: Members::none().with(me),
            waited: 0,
        }
    }

    // Counts a tick, and answers at each fourth one who has accepted.
    pub fn tick(&mut self) -> Option<Members>
        ensures accepted { result ≡ (if is_fourth self.old then Some self.old.accepted else None) }
        ensures flight { self.new ≡ ticked self.old }
    {
        if self.waited < TICKS - 1 {
            self.waited += 1;
            None
        } else {
            self.waited = 0;
            Some(self.accepted)
        }
    }
}
