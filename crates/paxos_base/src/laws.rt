ghost use Rattle.std.specs.Prelude.{◌≡◌, ℕ, ◌≤◌, ◌==◌, nat_le, List, Some, None, if◌then◌else◌};
ghost use Rattle.paxos_base.specs.declared.durable.Delta.TheVariants.{Tried, Promised, Voted, Base};
ghost use Rattle.paxos_base.specs.declared.durable.Durable.{Durable};
ghost use Rattle.paxos_base.specs.declared.entry.Vote.{Vote};
ghost use Rattle.paxos_base.specs.declared.rows.JobRow.{JobRow};
ghost use Rattle.paxos_base.specs.Ballot.{round_of};
ghost use Rattle.paxos_base.specs.Durable.{after_delta};
ghost use Rattle.paxos_base.specs.Members.{member_count, majority_of, AllBelow, Meet};
ghost use Rattle.paxos_base.specs.Vote.{SlotsRise, HasOneVoteASlot, vote_at, votes_from, put_vote};

use crate::members::Members;

/// A law, with nothing to run: of the same replicas, two sets of at least a majority share one. This is why no two
/// quorums can choose different values ("Paxos Made Simple", section 2.2).
pub fn majorities_meet(members: u8, one: Members, other: Members)
    requires one_of_these { AllBelow members one }
    requires other_of_these { AllBelow members other }
    requires one_has_a_majority { majority_of members ≤ member_count one }
    requires other_has_a_majority { majority_of members ≤ member_count other }
    ensures { Meet one other }
{}

/// A law, with nothing to run: a list of votes, whose slots rise, has at most one vote at a slot.
pub fn slots_have_one_vote()
    ensures { (votes : List Vote) → SlotsRise votes → HasOneVoteASlot votes }
{}

/// A law, with nothing to run: a vote that is put into a list is the one at its slot, each other slot keeps its vote, and
/// slots that rise still do.
pub fn a_vote_takes_its_slot()
    ensures at { (slot : ℕ) (vote : Vote) (votes : List Vote)
        → vote_at slot (put_vote vote votes) ≡ (if vote.slot == slot then Some vote else vote_at slot votes) }
    ensures rise { (vote : Vote) (votes : List Vote) → SlotsRise votes → SlotsRise (put_vote vote votes) }
{}

/// A law, with nothing to run: from a slot on, each slot keeps its vote, below it there is none, and slots that rise
/// still do.
pub fn votes_stay_from_a_slot_on()
    ensures at { (first slot : ℕ) (votes : List Vote) → vote_at slot (votes_from first votes) ≡ (if nat_le first slot then vote_at slot votes else None) }
    ensures rise { (first : ℕ) (votes : List Vote) → SlotsRise votes → SlotsRise (votes_from first votes) }
{}

/// A law, with nothing to run: what each change brings to what a replica keeps. All else stays.
#[tactic(auto, unfolding(crate::specs::Durable::after_delta))]
pub fn a_change_brings_what_it_names()
    ensures round { (ballot : ℕ) (kept : Durable) → (after_delta (Tried ballot) kept).tried ≡ round_of ballot }
    ensures promise_of_a_round { (ballot : ℕ) (kept : Durable) → (after_delta (Tried ballot) kept).promised ≡ Some ballot }
    ensures promise { (ballot : ℕ) (kept : Durable) → (after_delta (Promised ballot) kept).promised ≡ Some ballot }
    ensures promise_of_a_vote { (vote : Vote) (kept : Durable) → (after_delta (Voted vote) kept).promised ≡ Some vote.ballot }
    ensures vote { (vote : Vote) (kept : Durable) → (after_delta (Voted vote) kept).votes ≡ put_vote vote kept.votes }
    ensures base { (slot : ℕ) (rows : List JobRow) (kept : Durable) → (after_delta (Base slot rows) kept).base ≡ slot }
    ensures rows { (slot : ℕ) (rows : List JobRow) (kept : Durable) → (after_delta (Base slot rows) kept).rows ≡ rows }
    ensures votes_from_the_base { (slot : ℕ) (rows : List JobRow) (kept : Durable) → (after_delta (Base slot rows) kept).votes ≡ votes_from slot kept.votes }
    ensures all_else_after_a_round { (ballot : ℕ) (kept : Durable)
        → record (after_delta (Tried ballot) kept) { tried = kept.tried; promised = kept.promised } ≡ kept }
    ensures all_else_after_a_promise { (ballot : ℕ) (kept : Durable) → record (after_delta (Promised ballot) kept) { promised = kept.promised } ≡ kept }
    ensures all_else_after_a_vote { (vote : Vote) (kept : Durable)
        → record (after_delta (Voted vote) kept) { promised = kept.promised; votes = kept.votes } ≡ kept }
    ensures all_else_after_a_base { (slot : ℕ) (rows : List JobRow) (kept : Durable)
        → record (after_delta (Base slot rows) kept) { votes = kept.votes; base = kept.base; rows = kept.rows } ≡ kept }
{}
