ghost use Rattle.std.specs.Prelude.{◌≡◌, ◌⊎◌, ◌++◌, ℕ, ℤ, List, Option};
ghost use Rattle.due_set.specs.Table.{Table, IsAfter, IsDueFront, IsJobDue, IsJobDueList, IsNextDue, IsSound};

/// A law: after an instant a job has one next due instant at most.
pub fn a_job_has_one_next_instant()
    ensures { (table : Table) (version job : ℕ) (after : Option ℤ) (a b : ℤ)
        → IsNextDue table version job after a → IsNextDue table version job after b → a ≡ b }
{}

/// A law: a job has one list of due instants at most.
pub fn a_job_has_one_due_list()
    ensures { (table : Table) (version job : ℕ) (a b : List ℤ)
        → IsJobDueList table version job a → IsJobDueList table version job b → a ≡ b }
{}

/// A law: at each instant a job is due or it isn't.
pub fn a_job_is_due_or_not()
    ensures { (table : Table) → IsSound table → (version job : ℕ) (at : ℤ)
        → IsJobDue table version job at ⊎ (IsJobDue table version job at → ⊥) }
{}

/// A law: after an instant a job has a next due instant, or it is due no more.
pub fn a_job_has_a_next_instant_or_none()
    ensures { (table : Table) → IsSound table → (version job : ℕ) (after : Option ℤ)
        → ((at : ℤ) × IsNextDue table version job after at)
        ⊎ ((at : ℤ) → IsJobDue table version job at → IsAfter after at → ⊥) }
{}

/// A law: each job has a list of its due instants.
pub fn each_job_has_a_due_list()
    ensures { (table : Table) → IsSound table → (version job : ℕ)
        → (instants : List ℤ) × IsJobDueList table version job instants }
{}

/// A law: the first due instants, none left out, are a prefix of the list of all.
pub fn a_due_front_is_a_prefix()
    ensures { (table : Table) (version job : ℕ) (instants dues : List ℤ)
        → IsDueFront table version job instants → IsJobDueList table version job dues
        → (rest : List ℤ) × (dues ≡ instants ++ rest) }
{}
