ghost use Rattle.std.specs.Prelude.{◌≡◌, ℕ, ◌+◌, ◌<◌, ◌≤◌, ◌↔◌, Some, IfOk, IsOk, OnOk, OnErr};
ghost use Rattle.paxos_base.specs.declared.durable.Durable.{Durable};
ghost use Rattle.paxos_base.specs.Durable.{after_delta};
ghost use Rattle.paxos_base.specs.Vote.{SlotsRise, votes_from};
ghost use Rattle.acceptor_core.specs.Acceptor.{HasVoted, IsPart, IsSameAcceptor, new_votes_in};
ghost use Rattle.paxos_base.specs.Ballot.{IsAbove, IsAtLeast};

use crate::answer::{AcceptAnswer, PrepareAnswer};
use cron_io::OutOfMemory;
use paxos_base::{Ballot, Delta, Vote, VoteList, place_of, put_vote, vote_at};
use std::marker::Model;

/// An acceptor: the ballot that it promised, where it did, and its votes from its base on, the latest one at each slot.
#[derive(Debug, Drop)]
pub struct Acceptor {
    promised: Option<Ballot>,
    votes: Vec<Vote>,
    base: u64,
}

impl Model for Acceptor {
    ghost use Rattle.std.specs.Prelude.{◌-◌, vec_len, vec_capacity};
    ghost use Rattle.paxos_base.specs.Vote.{SlotsRise};
    ghost use Rattle.acceptor_core.specs.Acceptor.{AcceptorState};

    ghost Value = { AcceptorState };

    ghost view = { λ acceptor. record { promised = acceptor.promised; votes = acceptor.votes.items; base = acceptor.base; spare = vec_capacity acceptor.votes - vec_len acceptor.votes } };

    ghost invariant = { λ acceptor. SlotsRise acceptor.votes.items };
}

impl Acceptor {
    /// An acceptor with this promise, these votes and this base, as a replica keeps them on its disk.
    pub fn new(promised: Option<Ballot>, votes: VoteList, base: u64) -> Acceptor
        ensures promised { result.promised ≡ promised }
        ensures votes { result.votes ≡ votes }
        ensures base { result.base ≡ base }
    {
        Acceptor {
            promised,
            votes: votes.items,
            base,
        }
    }

    /// Makes room for one more vote at least. After want of memory all is as before.
    pub fn reserve(&mut self) -> Result<(), OutOfMemory>
        ensures alike { IsSameAcceptor self.new self.old }
        ensures room { OnOk result (1 ≤ self.new.spare) }
        ensures had_room { 1 ≤ self.old.spare → IsOk result }
        ensures err { OnErr result (self.new ≡ self.old) }
    {
        self.votes.reserve(1)?;
        Ok(())
    }

    /// What the acceptor answers to a replica that prepares a ballot and asks for the votes from the slot `first` on.
    pub fn on_prepare(&self, ballot: Ballot, first: u64) -> PrepareAnswer
        ensures refused { (promised : ℕ) → (result ≡ PrepareAnswer.Refused promised) ↔ ((self.now.promised ≡ Some promised) × (ballot ≤ promised)) }
        ensures behind { (base : ℕ) → (result ≡ PrepareAnswer.Behind base) ↔ ((base ≡ self.now.base) × IsAbove ballot self.now.promised × (first < base)) }
        ensures promise { (result ≡ PrepareAnswer.Promise) ↔ (IsAbove ballot self.now.promised × (self.now.base ≤ first)) }
    {
        match self.promised {
            Some(promised) if ballot <= promised => PrepareAnswer::Refused { promised },
            _ if first < self.base => PrepareAnswer::Behind { base: self.base },
            _ => PrepareAnswer::Promise,
        }
    }

    /// What the acceptor answers to a proposal at a slot, in a ballot. Takes constant time at the last slot and behind it,
    /// else time by the logarithm of the number of votes.
    pub fn on_accept(&self, ballot: Ballot, slot: u64) -> AcceptAnswer
        ensures refused { (promised : ℕ) → (result ≡ AcceptAnswer.Refused promised) ↔ ((self.now.promised ≡ Some promised) × (ballot < promised)) }
        ensures behind { (base : ℕ) → (result ≡ AcceptAnswer.Behind base) ↔ ((base ≡ self.now.base) × IsAtLeast ballot self.now.promised × (slot < base)) }
        ensures again { (result ≡ AcceptAnswer.Again) ↔ (IsAtLeast ballot self.now.promised × (self.now.base ≤ slot) × HasVoted self.now slot ballot) }
        ensures vote { (result ≡ AcceptAnswer.Vote) ↔ (IsAtLeast ballot self.now.promised × (self.now.base ≤ slot) × ¬ HasVoted self.now slot ballot) }
    {
        match self.promised {
            Some(promised) if ballot < promised => AcceptAnswer::Refused { promised },
            _ if slot < self.base => AcceptAnswer::Behind { base: self.base },
            _ => match vote_at(&self.votes, slot) {
                Some(vote) if vote.ballot == ballot => AcceptAnswer::Again,
                _ => AcceptAnswer::Vote,
            },
        }
    }

    /// Takes over a change of what the replica keeps on its disk. A vote needs room, which [`reserve`](Acceptor::reserve)
    /// makes; it takes constant time at the last slot and behind it.
    pub fn take(&mut self, delta: &Delta)
        requires room { new_votes_in delta.now ≤ self.old.spare }
        ensures part { (durable : Durable) → IsPart self.old durable → IsPart self.new (after_delta delta.now durable) }
        ensures spare { self.old.spare ≤ self.new.spare + new_votes_in delta.now }
    {
        match delta {
            Delta::Tried(ballot) | Delta::Promised(ballot) => self.promised = Some(*ballot),
            Delta::Voted(vote) => {
                put_vote(&mut self.votes, *vote);
                self.promised = Some(vote.ballot);
            }
            Delta::Base { slot, .. } => {
                let place = place_of(&self.votes, *slot);
                self.votes.drain(..place);
                self.base = *slot;
            }
        }
    }

    /// The votes from a slot on, lent and not copied.
    pub fn votes_from(&self, first: u64) -> &[Vote]
        ensures votes { result.now ≡ votes_from first self.now.votes }
        ensures rise { SlotsRise result.now }
    {
        &self.votes[place_of(&self.votes, first)..]
    }

    /// An equal acceptor, but for the room for votes.
    pub fn copy(&self) -> Result<Acceptor, OutOfMemory>
        ensures { IfOk result (λ copy. IsSameAcceptor copy self.now) }
    {
        Ok(Acceptor {
            promised: self.promised,
            votes: self.votes.clone()?,
            base: self.base,
        })
    }
}
