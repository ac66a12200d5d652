//! Best votes and a promise's: at each slot the vote of the higher ballot stays.
ghost use Rattle.std.specs.Prelude.{◌≡◌, ◌+◌, ◌<◌, ◌≤◌, ◌++◌, IsTrue, IfOk, OnOk, length, option_copied, nat_lt, if◌then◌else◌};
ghost use Rattle.std.specs.List.{All, take_while};
ghost use Rattle.paxos_base.specs.Vote.{SlotsRise};
ghost use Rattle.term_core.specs.Best.{best_of, is_higher, with_vote};

use cron_io::OutOfMemory;
use paxos_base::{Vote, VoteList, put_vote, vote_at};
use std::alloc::Global;

// How many votes come before the first at the slot or beyond it.
fn count_below(votes: &[Vote], slot: u64) -> usize
    ensures value { result ≡ length (take_while (λ vote. nat_lt vote.slot slot) votes.now) }
    ensures within { result ≤ length votes.now }
{
    votes.iter().take_while(|vote| vote.slot < slot).count()
}

// The votes at slots before this one, and those from there on.
fn split_at_slot(votes: &[Vote], slot: u64) -> (&[Vote], &[Vote])
    requires { SlotsRise votes.now }
    ensures parts { votes.now ≡ result.0.now ++ result.1.now }
    ensures below { All (λ vote. vote.slot < slot) result.0.now }
    ensures from { All (λ vote. slot ≤ vote.slot) result.1.now }
{
    votes.split_at(count_below(votes, slot))
}

// Whether the vote is of a higher ballot than the one held, or none is held.
fn is_higher(vote: &Vote, held: Option<&Vote>) -> bool
    ensures { result ≡ is_higher vote.now (option_copied held.entry) }
{
    match held {
        Some(held) => held.ballot < vote.ballot,
        None => true,
    }
}

// The vote of the higher ballot, and of equal ones the one held.
fn higher(held: &Vote, vote: &Vote) -> Vote
    ensures { result ≡ (if nat_lt held.now.ballot vote.now.ballot then vote.now else held.now) }
{
    if held.ballot < vote.ballot {
        *vote
    } else {
        *held
    }
}

// Whether all votes are before the slot.
fn all_below(votes: &[Vote], slot: u64) -> bool
    requires { SlotsRise votes.now }
    ensures { IsTrue result → All (λ vote. vote.slot < slot) votes.now }
{
    match votes.last() {
        Some(last) => last.slot < slot,
        None => true,
    }
}

// Takes in a vote that is beyond all that have been merged: first what is left before it, then the higher at its slot.
fn take_next<'a>(
    merged: &mut Vec<Vote>,
    left: &'a [Vote],
    vote: &Vote,
) -> Result<&'a [Vote], OutOfMemory>
    requires rise { SlotsRise (merged.old.items ++ left.now) }
    requires beyond { All (λ other. other.slot < vote.now.slot) merged.old.items }
    ensures { IfOk result (λ rest. merged.new.items ++ rest.now ≡ with_vote (merged.old.items ++ left.now) vote.now) }
{
    let (before, from) = split_at_slot(left, vote.slot);
    merged.extend_from_slice(before)?;
    match from.split_first() {
        Some((held, after)) if held.slot == vote.slot => {
            merged.push(higher(held, vote))?;
            Ok(after)
        }
        _ => {
            merged.push(*vote)?;
            Ok(from)
        }
    }
}

// Takes in a vote that may be at any slot.
fn take_any(best: &mut Vec<Vote>, vote: &Vote) -> Result<(), OutOfMemory>
    requires { SlotsRise best.old.items }
    ensures { OnOk result (best.new.items ≡ with_vote best.old.items vote.now) }
{
    if is_higher(vote, vote_at(best, vote.slot)) {
        best.reserve(1)?;
        put_vote(best, *vote);
    }
    Ok(())
}

/// The best votes after a promise's: at each slot the vote of the highest ballot, and of equal ones the first. It is one pass
/// over both lists where the promise's slots rise.
pub fn best_of(alloc: Global, best: &[Vote], votes: &[Vote]) -> Result<Vec<Vote>, OutOfMemory>
    requires { SlotsRise best.now }
    ensures best { IfOk result (λ all. all.items ≡ best_of best.now votes.now) }
    ensures rise { IfOk result (λ all. SlotsRise all.items) }
{
    let mut merged = Vec::with_capacity(alloc, best.len() + votes.len())?;
    let mut left = best;
    for vote in votes {
        if all_below(&merged, vote.slot) {
            left = take_next(&mut merged, left, vote)?;
        } else {
            merged.extend_from_slice(left)?;
            left = &[];
            take_any(&mut merged, vote)?;
        }
    }
    merged.extend_from_slice(left)?;
    Ok(merged)
}

/// The best votes after a promise's.
pub fn merged(best: &VoteList, votes: &[Vote]) -> Result<VoteList, OutOfMemory>
    ensures { IfOk result (λ merged. merged ≡ best_of best.now votes.now) }
{
    let items = best_of(*best.items.allocator(), &best.items, votes)?;
    Ok(VoteList { items })
}
