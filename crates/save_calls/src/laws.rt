//! Laws of saves. Each is the contract of a function that does nothing.
ghost use Rattle.std.specs.Prelude.{◌≡◌, ◌↔◌, ◌⊎◌, ◌≤◌, ◌+◌, ◌/◌, ◌%◌, ℕ, IsTrue, List};
ghost use Rattle.paxos_base.specs.declared.durable.Delta.TheVariants.{Tried, Promised, Voted, Base};
ghost use Rattle.paxos_base.specs.declared.entry.Vote.{Vote};
ghost use Rattle.paxos_base.specs.declared.rows.JobRow.{JobRow};
ghost use Rattle.save_calls.specs.Save.{bases_after, calls_of_delta, is_kept};

/// A change takes four calls of the disk, and a base five.
pub fn a_change_is_saved_in_four_calls()
    ensures tried { (ballot : ℕ) → calls_of_delta (Tried ballot) ≡ 4 }
    ensures promised { (ballot : ℕ) → calls_of_delta (Promised ballot) ≡ 4 }
    ensures voted { (vote : Vote) → calls_of_delta (Voted vote) ≡ 4 }
    ensures base { (slot : ℕ) (rows : List JobRow) → calls_of_delta (Base slot rows) ≡ 5 }
{}

/// A disk that stops within the save of a change, after so many calls since it was armed, keeps the change exactly where the stop
/// comes within the last two calls of the save, and its image shows that call done, or the byte of the state after the change: 1 at
/// the gate of a record; of a base the low bit that is 1 where an even number of bases was kept before, and else 0.
pub fn a_stopped_change_is_kept_by_two_numbers()
    ensures tried { (bases ballot left image : ℕ) → IsTrue (is_kept bases (Tried ballot) left image)
        ↔ ((2 ≤ left) × ((image % 3 ≡ 1) ⊎ ((image % 3 ≡ 2) × (image / 3 % 256 ≡ 1)))) }
    ensures promised { (bases ballot left image : ℕ) → IsTrue (is_kept bases (Promised ballot) left image)
        ↔ ((2 ≤ left) × ((image % 3 ≡ 1) ⊎ ((image % 3 ≡ 2) × (image / 3 % 256 ≡ 1)))) }
    ensures voted { (bases : ℕ) (vote : Vote) (left image : ℕ) → IsTrue (is_kept bases (Voted vote) left image)
        ↔ ((2 ≤ left) × ((image % 3 ≡ 1) ⊎ ((image % 3 ≡ 2) × (image / 3 % 256 ≡ 1)))) }
    ensures even { (bases slot : ℕ) (rows : List JobRow) (left image : ℕ) → bases % 2 ≡ 0 → IsTrue (is_kept bases (Base slot rows) left image)
        ↔ ((3 ≤ left) × ((image % 3 ≡ 1) ⊎ ((image % 3 ≡ 2) × (image / 3 % 256 % 2 ≡ 1)))) }
    ensures odd { (bases slot : ℕ) (rows : List JobRow) (left image : ℕ) → bases % 2 ≡ 1 → IsTrue (is_kept bases (Base slot rows) left image)
        ↔ ((3 ≤ left) × ((image % 3 ≡ 1) ⊎ ((image % 3 ≡ 2) × (image / 3 % 256 % 2 ≡ 0)))) }
{}

/// A base that is kept is one more, and no other change counts.
pub fn a_kept_base_counts()
    ensures tried { (bases ballot : ℕ) → bases_after (Tried ballot) bases ≡ bases }
    ensures promised { (bases ballot : ℕ) → bases_after (Promised ballot) bases ≡ bases }
    ensures voted { (bases : ℕ) (vote : Vote) → bases_after (Voted vote) bases ≡ bases }
    ensures base { (bases slot : ℕ) (rows : List JobRow) → bases_after (Base slot rows) bases ≡ bases + 1 }
{}
