ghost use Rattle.std.specs.Prelude.{◌≡◌, ◌↔◌, IsTrue, Some};
ghost use Rattle.paxos_base.specs.Vote.{vote_at};
ghost use Rattle.replica_node.specs.Change.{ShowsChange};

use paxos_base::{Ballot, Delta, Durable, Vote, VoteList, vote_at};

/// Whether what is kept shows a change.
pub fn shows_change(kept: &Durable, change: &Delta) -> bool
    ensures { IsTrue result ↔ ShowsChange change.now kept.now }
{
    match change {
        Delta::Tried(ballot) => kept.tried == ballot.round(),
        Delta::Promised(ballot) => is_promised(kept.promised, *ballot),
        Delta::Voted(vote) => has_vote(kept, vote),
        Delta::Base { slot, .. } => kept.base == *slot,
    }
}

// Whether the promise is this ballot.
fn is_promised(promised: Option<Ballot>, ballot: Ballot) -> bool
    ensures { IsTrue result ↔ (promised ≡ Some ballot) }
{
    match promised {
        Some(other) => other.number() == ballot.number(),
        None => false,
    }
}

// Whether the vote stands at its slot, and its ballot is the promise.
fn has_vote(kept: &Durable, vote: &Vote) -> bool
    ensures { IsTrue result ↔ ((kept.now.promised ≡ Some vote.now.ballot) × (vote_at vote.now.slot kept.now.votes ≡ Some vote.now)) }
{
    is_promised(kept.promised, vote.ballot) && stands(&kept.votes, vote)
}

// Whether the vote stands at its slot.
fn stands(votes: &VoteList, vote: &Vote) -> bool
    ensures { IsTrue result ↔ (vote_at vote.now.slot votes.now ≡ Some vote.now) }
{
    match vote_at(&votes.items, vote.slot) {
        Some(held) => is_same(held, vote),
        None => false,
    }
}

// Whether two votes are one.
fn is_same(one: &Vote, other: &Vote) -> bool
    ensures { IsTrue result ↔ (one.now ≡ other.now) }
{
    one == other
}
