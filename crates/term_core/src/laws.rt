//! Laws of a term. Each is the contract of a function that does nothing.
ghost use Rattle.std.specs.Prelude.{◌≡◌, ◌⊎◌, ◌≤◌, ◌==◌, ℕ, List, Some, IsSomeAnd};
ghost use Rattle.std.specs.List.{All, Contains, filter, fold};
ghost use Rattle.paxos_base.specs.declared.entry.Vote.{Vote};
ghost use Rattle.paxos_base.specs.Vote.{vote_at};
ghost use Rattle.term_core.specs.Best.{best_of, higher_of};

/// The best vote at a slot is made of the votes at that slot alone, one after another.
pub fn slots_are_merged_apart()
    ensures { (best votes : List Vote) (slot : ℕ) → vote_at slot (best_of best votes)
        ≡ fold higher_of (vote_at slot best) (filter (λ vote. vote.slot == slot) votes) }
{}

/// Of the votes that a candidate has heard of, the best one at a slot is one of the highest ballot, and of those the
/// first ("Paxos Made Simple", section 2.2).
pub fn the_best_vote_is_the_highest()
    ensures heard { (best votes : List Vote) (vote : Vote) → Contains votes vote
        → IsSomeAnd (vote_at vote.slot (best_of best votes)) (λ found. vote.ballot ≤ found.ballot) }
    ensures held { (best votes : List Vote) (slot : ℕ) (held : Vote) → vote_at slot best ≡ Some held
        → IsSomeAnd (vote_at slot (best_of best votes)) (λ found. held.ballot ≤ found.ballot) }
    ensures one_of_them { (best votes : List Vote) (slot : ℕ) (found : Vote) → vote_at slot (best_of best votes) ≡ Some found
        → (vote_at slot best ≡ Some found) ⊎ Contains votes found }
    ensures first { (best votes : List Vote) (slot : ℕ) (held : Vote) → vote_at slot best ≡ Some held
        → All (λ vote. vote.slot ≡ slot → vote.ballot ≤ held.ballot) votes → vote_at slot (best_of best votes) ≡ Some held }
{}
