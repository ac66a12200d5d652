ghost use Rattle.std.specs.Prelude.{◌≡◌, ◌↔◌, ◌<◌, ◌≤◌, IsTrue, IsFalse, IsNone, IfOk, OnOk, OnErr, unwrap_or, if◌then◌else◌};
ghost use Rattle.paxos_base.specs.Members.{has_majority, only_member};
ghost use Rattle.term_core.specs.Best.{best_of};
ghost use Rattle.term_core.specs.Term.{answer_to_proposal, answer_to_tick, after_accepted, after_advance, after_ballot, after_promise, after_proposal, after_tick, best_votes, candidacy, chosen_by, gathered, has_asked, is_ended_by, is_leader};

use crate::best::merged;
use crate::fault::ProposeFault;
use crate::flight::Flight;
use cron_io::OutOfMemory;
use paxos_base::{Ballot, Entry, Members, Vote, VoteList, majority};
use std::mem;

/// A replica's term as a proposer.
#[derive(Debug, Drop)]
pub enum Term {
    /// It proposes nothing. It keeps the ballot that ended its latest term, where one did.
    Follower {
        ended: Option<Ballot>,
    },
    /// It asks for promises of a ballot, and for votes from a slot on.
    Candidate {
        ballot: Ballot,
        /// The first slot whose votes it asks for.
        first: u64,
        /// The replicas that have promised.
        heard: Members,
        /// Of the votes that it has heard of, at each slot the one of the highest ballot.
        best: VoteList,
    },
    /// A majority has promised, so that it may propose in its ballot, one entry at a time.
    Leader {
        ballot: Ballot,
        /// The votes that bind it: what it proposes at their slots is their entries.
        best: VoteList,
        flight: Option<Flight>,
    },
}

// Whether the replicas are a majority.
fn is_majority(set: Members, members: u8) -> bool
    requires some { 1 ≤ members }
    requires few { members ≤ 7 }
    ensures { result ≡ has_majority members set }
{
    set.count() >= majority(members)
}

// The term of a ballot that these have promised.
fn candidacy(ballot: Ballot, first: u64, heard: Members, best: VoteList, members: u8) -> Term
    requires some { 1 ≤ members }
    requires few { members ≤ 7 }
    ensures { result ≡ candidacy members ballot first heard best }
{
    if is_majority(heard, members) {
        Term::Leader {
            ballot,
            best,
            flight: None,
        }
    } else {
        Term::Candidate {
            ballot,
            first,
            heard,
            best,
        }
    }
}

impl Term {
    /// Begins a candidate's term of a ballot: it asks for promises, and for the votes from the first slot on. Its own
    /// promise counts, with its own votes from there on. Where it alone is a majority, it leads at once.
    pub fn campaign(&mut self, ballot: Ballot, first: u64, own: VoteList, me: u8, members: u8)
        requires some { 1 ≤ members }
        requires few { members ≤ 7 }
        requires me { me < members }
        ensures { self.new ≡ candidacy members ballot first (only_member me) own }
    {
        *self = candidacy(ballot, first, Members::none().with(me), own, members);
    }

    /// Hears a promise: where this term is a candidate's that asked for it, the promise counts, and of its votes and the
    /// best so far those of the higher ballots stay. Answers whether the term has become a leader's by it. After want of
    /// memory the term is as it was.
    pub fn on_promise(
        &mut self,
        from: u8,
        ballot: Ballot,
        first: u64,
        votes: &[Vote],
        members: u8,
    ) -> Result<bool, OutOfMemory>
        requires some { 1 ≤ members }
        requires few { members ≤ 7 }
        requires from { from < members }
        ensures term { OnOk result (self.new ≡ after_promise members from ballot first votes.now self.old) }
        ensures led { IfOk result (λ led. IsTrue led ↔ (IsFalse (is_leader self.old) × IsTrue (is_leader self.new))) }
        ensures memory { OnErr result (self.new ≡ self.old) }
        ensures wanted { OnErr result (IsTrue (has_asked ballot first self.old)) }
    {
        let best = self.better_votes(ballot, first, votes)?;
        Ok(self.take_promise(from, ballot, first, best, members))
    }

    // The best votes after a promise, where it counts and has votes.
    fn better_votes(
        &self,
        ballot: Ballot,
        first: u64,
        votes: &[Vote],
    ) -> Result<Option<VoteList>, OutOfMemory>
        ensures counts { IfOk result (λ best. IsTrue (has_asked ballot first self.now)
            → unwrap_or best (best_votes self.now) ≡ best_of (best_votes self.now) votes.now) }
        ensures other { IfOk result (λ best. IsFalse (has_asked ballot first self.now) → IsNone best) }
        ensures wanted { OnErr result (IsTrue (has_asked ballot first self.now)) }
    {
        match self {
            Term::Candidate { best, .. } if !votes.is_empty() && self.has_asked(ballot, first) => {
                Ok(Some(merged(best, votes)?))
            }
            _ => Ok(None),
        }
    }

    // Takes in a promise that counts, with the best votes after it where they are not those of before. No memory.
    fn take_promise(
        &mut self,
        from: u8,
        ballot: Ballot,
        first: u64,
        best: Option<VoteList>,
        members: u8,
    ) -> bool
        requires some { 1 ≤ members }
        requires few { members ≤ 7 }
        requires from { from < members }
        ensures term { self.new ≡ (if has_asked ballot first self.old
            then gathered members from (unwrap_or best (best_votes self.old)) self.old
            else self.old) }
        ensures led { IsTrue result ↔ (IsFalse (is_leader self.old) × IsTrue (is_leader self.new)) }
    {
        if !self.has_asked(ballot, first) {
            return false;
        }
        match mem::replace(self, Term::Follower { ended: None }) {
            Term::Candidate {
                heard,
                best: held,
                ..
            } => {
                *self = candidacy(
                    ballot,
                    first,
                    heard.with(from),
                    best.unwrap_or(held),
                    members,
                );
                self.is_leader()
            }
            _ => unreachable!(),
        }
    }

    /// Whether the term is a candidate's that asked for promises of the ballot, and for votes from the first slot on.
    pub fn has_asked(&self, ballot: Ballot, first: u64) -> bool
        ensures { result ≡ has_asked ballot first self.now }
    {
        match self {
            Term::Candidate {
                ballot: own,
                first: asked,
                ..
            } => *own == ballot && *asked == first,
            _ => false,
        }
    }

    // Whether the term is a leader's.
    fn is_leader(&self) -> bool
        ensures { result ≡ is_leader self.now }
    {
        matches!(self, Term::Leader { .. })
    }

    // Whether the ballot is above that of a candidate or a leader.
    fn is_ended_by(&self, seen: Ballot) -> bool
        ensures { result ≡ is_ended_by seen self.now }
    {
        match self {
            Term::Follower { .. } => false,
            Term::Candidate { ballot, .. } | Term::Leader { ballot, .. } => *ballot < seen,
        }
    }

    /// Hears of a ballot: one above that of a candidate or a leader ends the term. Answers whether it did.
    pub fn on_ballot(&mut self, seen: Ballot) -> bool
        ensures term { self.new ≡ after_ballot seen self.old }
        ensures ended { result ≡ is_ended_by seen self.old }
    {
        let ended = self.is_ended_by(seen);
        if ended {
            *self = Term::Follower { ended: Some(seen) };
        }
        ended
    }

    /// Takes up a proposal, where the term is a leader's and none is in flight, and answers its ballot. The leader accepts
    /// its own proposal. A refusal changes nothing.
    pub fn propose(&mut self, slot: u64, entry: Entry, me: u8) -> Result<Ballot, ProposeFault>
        requires { me < 7 }
        ensures answer { result ≡ answer_to_proposal self.old }
        ensures term { self.new ≡ after_proposal slot entry me self.old }
    {
        match self {
            Term::Follower { ended } => Err(ProposeFault::NotLeader { ended: *ended }),
            Term::Candidate { .. } => Err(ProposeFault::NotLeader { ended: None }),
            Term::Leader { ballot, flight, .. } => match flight {
                Some(flight) => Err(ProposeFault::Busy { slot: flight.slot }),
                None => {
                    *flight = Some(Flight::new(slot, entry, me));
                    Ok(*ballot)
                }
            },
        }
    }

    /// Hears that a replica has accepted a proposal: it counts for a leader's flight of that ballot and slot. Answers the
    /// vote that a majority has cast so, exactly where this call made it one; then the flight is over.
    pub fn on_accepted(&mut self, from: u8, ballot: Ballot, slot: u64, members: u8) -> Option<Vote>
        requires some { 1 ≤ members }
        requires few { members ≤ 7 }
        requires from { from < members }
        ensures chosen { result ≡ chosen_by members from ballot slot self.old }
        ensures term { self.new ≡ after_accepted members from ballot slot self.old }
    {
        let Term::Leader {
            ballot: own,
            flight,
            ..
        } = self
        else {
            return None;
        };
        let Some(open) = *flight else {
            return None;
        };
        if *own != ballot || open.slot != slot {
            return None;
        }
        let accepted = open.accepted.with(from);
        if is_majority(accepted, members) {
            *flight = None;
            Some(Vote {
                slot,
                ballot,
                entry: open.entry,
            })
        } else {
            *flight = Some(Flight { accepted, ..open });
            None
        }
    }

    /// Counts a tick of the flight. At each fourth one since it began, it answers the replicas that have accepted it, so
    /// that the proposal can be sent again to the others.
    pub fn wait_tick(&mut self) -> Option<Members>
        ensures accepted { result ≡ answer_to_tick self.old }
        ensures term { self.new ≡ after_tick self.old }
    {
        match self {
            Term::Leader {
                flight: Some(flight),
                ..
            } => flight.tick(),
            _ => None,
        }
    }

    /// Ends a flight below the first slot that is not learned.
    pub fn advance(&mut self, prefix: u64)
        ensures { self.new ≡ after_advance prefix self.old }
    {
        if let Term::Leader { flight, .. } = self {
            if flight.is_some_and(|flight| flight.slot < prefix) {
                *flight = None;
            }
        }
    }

    /// An equal term.
    pub fn copy(&self) -> Result<Term, OutOfMemory>
        ensures { IfOk result (λ term. term ≡ self.now) }
    {
        let term = match self {
            Term::Follower { ended } => Term::Follower { ended: *ended },
            Term::Candidate {
                ballot,
                first,
                heard,
                best,
            } => Term::Candidate {
                ballot: *ballot,
                first: *first,
                heard: *heard,
                best: best.clone()?,
            },
            Term::Leader {
                ballot,
                best,
                flight,
            } => Term::Leader {
                ballot: *ballot,
                best: best.clone()?,
                flight: *flight,
            },
        };
        Ok(term)
    }
}
