//! Laws of the launch table. Each is the contract of a function that does nothing.
ghost use Rattle.std.specs.Prelude.{false, ◌≡◌, ◌↔◌, ◌+◌, ◌<◌, ℕ, ℤ, length, List, [], ◌∷◌, ◌++◌, Some, slice_get};
ghost use Rattle.paxos_base.specs.declared.entry.Entry.{Entry};
ghost use Rattle.paxos_base.specs.declared.entry.Kind.{Kind};
ghost use Rattle.paxos_base.specs.declared.rows.JobRow.{JobRow};
ghost use Rattle.due_set.specs.Due.{IsRising};
ghost use Rattle.due_set.specs.Table.{Table, IsAfter, IsSound, is_by_period};
ghost use Rattle.launch_machine.specs.Clerk.{Applies, IsClerkOf, TakesStart, in_force, rows_after};
ghost use Rattle.launch_machine.specs.Starts.{AdoptionsOf, StartsOf, EndsOf};
ghost use Rattle.launch_machine.specs.Versions.{IsFrontUnder, IsListUnder, RunsByInstants};

/// One more entry is one more step.
pub fn one_entry_is_one_step()
    ensures { (table : Table) (entries : List Entry) (entry : Entry) (rows : List JobRow)
        → IsClerkOf table (entries ++ entry ∷ []) rows
        ↔ ((before : List JobRow) × IsClerkOf table entries before × Applies table before entry rows) }
{}

/// Entries leave one launch table.
pub fn entries_leave_one_table()
    ensures some { (table : Table) → IsSound table → (entries : List Entry)
        → (rows : List JobRow) × IsClerkOf table entries rows }
    ensures one { (table : Table) (old : List JobRow) (entry : Entry) (a b : List JobRow)
        → Applies table old entry a → Applies table old entry b → a ≡ b }
    ensures all { (table : Table) (entries : List Entry) (a b : List JobRow)
        → IsClerkOf table entries a → IsClerkOf table entries b → a ≡ b }
{}

/// A start that takes effect moves the row's cursor to a later instant or date.
pub fn cursors_rise()
    ensures { (table : Table) (rows : List JobRow) (job : ℕ) (at now : ℤ) (old new : JobRow)
        → TakesStart table rows job at now → slice_get rows job ≡ Some old
        → slice_get (rows_after table rows (Entry.Start job at now)) job ≡ Some new
        → (new.cursor ≡ Some at) × IsAfter old.cursor at }
{}

/// Each end that takes effect is counted, a launch as a launch and a void as a void, and nothing else is.
pub fn ends_are_counted()
    ensures launched { (table : Table) (entries : List Entry) (rows : List JobRow) (job count : ℕ) (row : JobRow)
        → job < length table.jobs → IsClerkOf table entries rows → EndsOf table entries job Kind.Launch count
        → slice_get rows job ≡ Some row → row.launched ≡ count }
    ensures voided { (table : Table) (entries : List Entry) (rows : List JobRow) (job count : ℕ) (row : JobRow)
        → job < length table.jobs → IsClerkOf table entries rows → EndsOf table entries job Kind.Void count
        → slice_get rows job ≡ Some row → row.voided ≡ count }
{}

/// A job has one list of starts that take effect.
pub fn a_job_has_one_list_of_starts()
    ensures some { (table : Table) → IsSound table → (entries : List Entry) (job : ℕ)
        → (instants : List ℤ) × StartsOf table entries job instants }
    ensures one { (table : Table) (entries : List Entry) (job : ℕ) (a b : List ℤ)
        → StartsOf table entries job a → StartsOf table entries job b → a ≡ b }
{}

/// A job has one count of ends of a kind that take effect.
pub fn a_job_has_one_count_of_ends()
    ensures some { (table : Table) → IsSound table → (entries : List Entry) (job : ℕ) (kind : Kind)
        → (count : ℕ) × EndsOf table entries job kind count }
    ensures one { (table : Table) (entries : List Entry) (job : ℕ) (kind : Kind) (a b : ℕ)
        → EndsOf table entries job kind a → EndsOf table entries job kind b → a ≡ b }
{}

/// Entries adopt one list of versions, at the instants that they say; each is the one after that which was in force.
pub fn entries_adopt_one_list_of_versions()
    ensures some { (table : Table) → IsSound table → (entries : List Entry)
        → (instants : List ℤ) × AdoptionsOf table entries instants }
    ensures one { (table : Table) (entries : List Entry) (a b : List ℤ)
        → AdoptionsOf table entries a → AdoptionsOf table entries b → a ≡ b }
    ensures version { (table : Table) (entries : List Entry) (rows : List JobRow) (instants : List ℤ)
        → IsClerkOf table entries rows → AdoptionsOf table entries instants → (in_force table rows).version ≡ length instants }
{}

/// There are a table and a list of entries that adopt a version.
pub fn a_version_may_be_adopted()
    ensures { (table : Table) × (entries : List Entry) × (now : ℤ)
        × IsSound table × AdoptionsOf table entries (now ∷ []) }
{}

/// Each job has a list of its due instants, whenever the versions of its table are adopted.
pub fn each_job_has_due_instants_under()
    ensures { (table : Table) → IsSound table → (adoptions : List ℤ) (job : ℕ)
        → (dues : List ℤ) × IsListUnder table adoptions job dues }
{}

/// The instants of a job's starts that take effect, or their dates, rise; where it runs by its due instants they are
/// the first of its due instants by the versions in force then, none left out.
pub fn starts_come_in_order()
    ensures rise { (table : Table) (entries : List Entry) (job : ℕ) (instants : List ℤ)
        → StartsOf table entries job instants → IsRising instants }
    ensures front { (table : Table) (entries : List Entry) (job : ℕ) (instants : List ℤ)
        (adoptions : List ℤ) → RunsByInstants table job → StartsOf table entries job instants
        → AdoptionsOf table entries adoptions → IsFrontUnder table adoptions job instants }
    ensures prefix { (table : Table) (entries : List Entry) (job : ℕ) (instants adoptions dues : List ℤ)
        → RunsByInstants table job → StartsOf table entries job instants → AdoptionsOf table entries adoptions
        → IsListUnder table adoptions job dues
        → (rest : List ℤ) × (dues ≡ instants ++ rest) }
{}

/// In a sound table a job runs by its due instants if its name has no `/`.
pub fn a_name_without_a_slash_runs_by_instants()
    ensures { (table : Table) (job : ℕ) → IsSound table → is_by_period table job ≡ false → RunsByInstants table job }
{}

/// At an instant one launch of a job may be started at most.
pub fn one_launch_may_be_started()
    ensures { (table : Table) (rows : List JobRow) (job : ℕ) (a b now : ℤ)
        → TakesStart table rows job a now → TakesStart table rows job b now → a ≡ b }
{}
