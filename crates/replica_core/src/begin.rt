//! A step before anything was done in it.
ghost use Rattle.std.specs.Prelude.{◌≡◌};
ghost use Rattle.term_core.specs.Term.{best_votes};
ghost use Rattle.replica_draft.specs.Draft.{with_best};
ghost use Rattle.replica_core.specs.Replica.{IsUntouched};

use crate::parts::Core;
use paxos_base::VoteList;
use replica_draft::{Draft, SendList};
use std::alloc::Global;
use term_core::Term;

// The term without the votes that bind it.
fn outline(alloc: Global, term: &Term) -> Term
    ensures { with_best (best_votes term.now) result ≡ term.now }
{
    let none = VoteList {
        items: Vec::new(alloc),
    };
    match term {
        Term::Follower { ended } => Term::Follower { ended: *ended },
        Term::Candidate {
            ballot,
            first,
            heard,
            ..
        } => Term::Candidate {
            ballot: *ballot,
            first: *first,
            heard: *heard,
            best: none,
        },
        Term::Leader { ballot, flight, .. } => Term::Leader {
            ballot: *ballot,
            best: none,
            flight: *flight,
        },
    }
}

impl Core {
    /// A step in which nothing was done yet.
    pub fn begin(&self) -> Draft
        ensures { IsUntouched self.now result }
    {
        Draft {
            seen: self.seen,
            term: outline(self.alloc, &self.term),
            best: None,
            change: None,
            learnt: Vec::new(self.alloc),
            sends: SendList::new(self.alloc),
            call: None,
        }
    }
}
