ghost use Rattle.std.specs.Prelude.{◌≡◌, ◌+◌, ◌<◌, ◌≤◌, length, take, drop, vec_len, vec_capacity, option_copied};
ghost use Rattle.paxos_base.specs.Vote.{SlotsRise, vote_at, votes_below, votes_from, put_vote};

use crate::entry::Vote;

/// The place of a slot among votes whose slots rise: how many of them are below it.
///
/// Takes constant time where the slot is that of the last vote or later, else time by the logarithm of their number.
pub fn place_of(votes: &[Vote], slot: u64) -> usize
    requires { SlotsRise votes.now }
    ensures within { result ≤ length votes.now }
    ensures below { take result votes.now ≡ votes_below slot votes.now }
    ensures from { drop result votes.now ≡ votes_from slot votes.now }
{
    let last = match votes.last() {
        Some(vote) => vote.slot,
        None => return 0,
    };
    if last < slot {
        votes.len()
    } else if last == slot {
        votes.len() - 1
    } else {
        votes.partition_point(|vote| vote.slot < slot)
    }
}

/// The vote at a slot among votes whose slots rise, where there is one. Takes the time of [`place_of`].
pub fn vote_at(votes: &[Vote], slot: u64) -> Option<&Vote>
    requires { SlotsRise votes.now }
    ensures { option_copied result ≡ vote_at slot votes.now }
{
    match votes.get(place_of(votes, slot)) {
        Some(vote) if vote.slot == slot => Some(vote),
        _ => None,
    }
}

/// Puts a vote in its place among votes whose slots rise, where there is room for one more. A vote that was at its slot
/// goes. Takes constant time where no vote is at a later slot, else time by the number of those that are.
pub fn put_vote(votes: &mut Vec<Vote>, vote: Vote)
    requires rises { SlotsRise votes.old.items }
    requires room { vec_len votes.old < vec_capacity votes.old }
    ensures items { votes.new.items ≡ put_vote vote votes.old.items }
    ensures rises { SlotsRise votes.new.items }
    ensures length { vec_len votes.new ≤ vec_len votes.old + 1 }
    ensures capacity { vec_capacity votes.old ≤ vec_capacity votes.new }
{
    let place = place_of(votes, vote.slot);
    if place < votes.len() && votes[place].slot == vote.slot {
        votes[place] = vote;
    } else {
        votes.insert(place, vote).unwrap();
    }
}
