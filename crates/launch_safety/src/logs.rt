//! Laws of a log, and of what is held beside it. Each is the contract of a function that does nothing.
ghost use Rattle.std.specs.Prelude.{false, ◌≡◌, ◌↔◌, ◌<◌, [], ◌∷◌, ◌++◌, ℕ, List, length, Option, None, Some, ℤ, ◌≤ℤ◌, ◌<ℤ◌, All, Contains};
ghost use Rattle.jiff.specs.Types.{TimeZone};
ghost use Rattle.paxos_base.specs.declared.entry.Entry.{Entry};
ghost use Rattle.paxos_base.specs.declared.entry.Kind.{Kind};
ghost use Rattle.paxos_base.specs.declared.rows.JobRow.{JobRow};
ghost use Rattle.due_set.specs.Calls.{HasCome, IsOnTime};
ghost use Rattle.due_set.specs.Anacron.{IsJobOpen, IsPeriodOver};
ghost use Rattle.due_set.specs.Due.{IsRising};
ghost use Rattle.due_set.specs.Table.{Job, Table, IsJobDue, IsJobIn, IsNextDue, IsRunByPeriod, IsSound, is_by_period, job_of_version};
ghost use Rattle.due_set.specs.declared.job.JobKind.{JobKind};
ghost use Rattle.due_set.specs.declared.job.Period.{Period};
ghost use Rattle.cluster_sched.specs.Held.{AreNamedOnce};
ghost use Rattle.cluster_sched.specs.declared.row.SchedRow.{SchedRow};
ghost use Rattle.launch_machine.specs.Answers.{IsCallKind};
ghost use Rattle.launch_machine.specs.Clerk.{IsClerkOf, TakesStart, in_force};
ghost use Rattle.launch_machine.specs.Starts.{AdoptionsOf, StartsOf};
ghost use Rattle.launch_machine.specs.Versions.{IsDueUnder, IsFrontUnder, RunsByInstants};
ghost use Rattle.launch_safety.specs.Fits.{AreAdoptions, AreAllEffective, ArePeriodsApart, Fits, HasStart, HasEnd, IsBacked, IsEffective, IsHeld, IsPeriodApart, IsStartedUnder};
ghost use Rattle.launch_safety.specs.Launched.{IsCalledAt, IsLatest, IsWanted, LaunchesEachDue, OpensBy};
ghost use Rattle.launch_safety.specs.Settled.{IsSettled};

/// An entry that takes effect does so in each longer log.
pub fn what_is_effective_stays()
    ensures { (table : Table) (log more : List Entry) (entry : Entry)
        → IsEffective table log entry → IsEffective table (log ++ more) entry }
{}

/// Where each entry of a log takes effect, each that is in it is one that does.
pub fn what_is_in_the_log_is_effective()
    ensures { (table : Table) (log : List Entry) (entry : Entry)
        → AreAllEffective table log → Contains log entry → IsEffective table log entry }
{}

/// An end that takes effect stands behind a start of its launch that does.
pub fn a_start_stands_before_its_end()
    ensures { (table : Table) (log : List Entry) (job : ℕ) (at : ℤ) (kind : Kind)
        → HasEnd table log job at kind
        → (before : List Entry) × (after : List Entry)
        × (log ≡ before ++ Entry.End job at kind ∷ after) × HasStart table before job at }
{}

/// Each due instant, by the version in force then, up to the one at which a log is settled was started and ended: in a sound
/// table, and where versions are adopted in any other, of each job whose name has no `/`.
pub fn a_settled_log_has_each_due_instant()
    ensures first { (table : Table) (log : List Entry) (now : ℤ) (job : ℕ) (at : ℤ)
        → AdoptionsOf table log [] → IsSettled table log now → IsJobDue table 0 job at → at ≤ℤ now
        → HasStart table log job at × (kind : Kind) × HasEnd table log job at kind }
    ensures adopted { (table : Table) (log : List Entry) (adoptions : List ℤ) (now : ℤ) (job : ℕ) (at : ℤ)
        → AdoptionsOf table log adoptions → IsSettled table log now → job < length table.jobs → is_by_period table job ≡ false
        → IsDueUnder table adoptions job at → at ≤ℤ now
        → HasStart table log job at × (kind : Kind) × HasEnd table log job at kind }
    ensures sound { (table : Table) (log : List Entry) (adoptions : List ℤ) (now : ℤ) (job : ℕ) (at : ℤ)
        → IsSound table → AdoptionsOf table log adoptions → IsSettled table log now → IsDueUnder table adoptions job at → at ≤ℤ now
        → HasStart table log job at × (kind : Kind) × HasEnd table log job at kind }
{}

/// A log adopts versions one after another, each no sooner than it may be in force.
pub fn a_log_adopts_versions_in_turn()
    ensures { (table : Table) (log : List Entry) (adoptions : List ℤ) → AdoptionsOf table log adoptions → AreAdoptions table adoptions }
{}

/// Where the log and what is held fit, a launch is held once.
pub fn a_launch_is_held_once()
    ensures { (table : Table) (log : List Entry) (held : List SchedRow) (a b : SchedRow)
        → Fits table log held → Contains held a → Contains held b
        → a.name.job ≡ b.name.job → a.name.at ≡ b.name.at → a ≡ b }
{}

/// Where they fit, a launch that is held was started.
pub fn a_held_launch_was_started()
    ensures { (table : Table) (log : List Entry) (held : List SchedRow) (row : SchedRow)
        → Fits table log held → Contains held row → HasStart table log row.name.job row.name.at }
{}

/// Where they fit, a launch that is held was called when its instant had come, and its kind goes by the clock of the call, both by
/// the version under which it was started.
pub fn a_held_launch_had_come()
    ensures { (table : Table) (log : List Entry) (held : List SchedRow) (row : SchedRow)
        → Fits table log held → Contains held row
        → (version : ℕ) × (job : Job) × (zone : TimeZone)
        × IsStartedUnder table log version row.name.job row.name.at
        × IsJobIn table version row.name.job job zone
        × HasCome job.kind zone row.name.at row.now.0
        × ((row.kind ≡ Kind.Launch) ↔ IsOnTime job.kind zone table.grace row.name.at row.now.0) }
{}

/// Where they fit, an end that takes effect says what is held: a row of its launch, and each such row, is of its kind.
pub fn an_end_says_what_is_held()
    ensures held { (table : Table) (log : List Entry) (held : List SchedRow) (job : ℕ) (at : ℤ) (kind : Kind)
        → Fits table log held → HasEnd table log job at kind
        → (row : SchedRow) × Contains held row
        × (row.name.job ≡ job) × (row.name.at ≡ at) × (row.kind ≡ kind) }
    ensures kind { (table : Table) (log : List Entry) (held : List SchedRow) (row : SchedRow) (kind : Kind)
        → Fits table log held → Contains held row
        → HasEnd table log row.name.job row.name.at kind → row.kind ≡ kind }
{}

/// Where they fit, a job's starts come in rising order; where it runs by its due instants they are the first of these by the
/// versions in force then, none left out.
pub fn no_due_instant_is_passed_over()
    ensures rise { (table : Table) (log : List Entry) (held : List SchedRow) (job : ℕ)
        → Fits table log held → (instants : List ℤ) × StartsOf table log job instants × IsRising instants }
    ensures front { (table : Table) (log : List Entry) (held : List SchedRow) (job : ℕ)
        → Fits table log held → RunsByInstants table job
        → (instants : List ℤ) × (adoptions : List ℤ) × StartsOf table log job instants × AdoptionsOf table log adoptions
        × IsFrontUnder table adoptions job instants }
{}

/// Where they fit, of two launches of a job the later is a period after the earlier, where the version under which it was started
/// has the job run by a period.
pub fn launches_are_a_period_apart()
    ensures { (table : Table) (log : List Entry) (held : List SchedRow) (a b : SchedRow) (version : ℕ) (job : Job)
        (period : Period) (first last : ℕ)
        → Fits table log held → Contains held a → Contains held b → a.name.job ≡ b.name.job
        → a.kind ≡ Kind.Launch → b.kind ≡ Kind.Launch → a.name.at <ℤ b.name.at
        → IsStartedUnder table log version b.name.job b.name.at
        → job_of_version table version b.name.job ≡ Some job → job.kind ≡ JobKind.Anacron period first last
        → IsPeriodOver period a.name.at b.name.at }
{}

/// A start that takes effect behind a launch of its job comes a period after it, by the version in force.
pub fn a_start_comes_a_period_after_a_launch()
    ensures { (table : Table) (before : List Entry) (rows : List JobRow) (job : ℕ) (at date now : ℤ)
        → IsClerkOf table before rows → TakesStart table rows job date now → HasEnd table before job at Kind.Launch
        → IsPeriodApart table (in_force table rows).version job at date }
{}

/// Where each row's launch was started, ends say what is held and no launch is held twice, launches are a period apart.
pub fn what_was_started_is_a_period_apart()
    ensures { (table : Table) (log : List Entry) (held : List SchedRow) → AreNamedOnce held
        → All (IsBacked table log) held
        → ((job : ℕ) (at : ℤ) (kind : Kind) → HasEnd table log job at kind → IsHeld held job at kind)
        → ArePeriodsApart table log held }
{}

/// What is held once, was started and had come, beside ends that say what is held, fits whatever log it is: then a job's starts
/// come in order, none left out, and its launches are a period apart.
pub fn what_is_named_once_and_backed_fits()
    ensures { (table : Table) (log : List Entry) (held : List SchedRow) → IsSound table → AreNamedOnce held
        → All (IsBacked table log) held
        → ((job : ℕ) (at : ℤ) (kind : Kind) → HasEnd table log job at kind → IsHeld held job at kind)
        → Fits table log held }
{}

/// Before an instant a job has one latest launch at most.
pub fn a_job_has_one_latest_launch()
    ensures { (held : List SchedRow) (job : ℕ) (now : ℤ) (a b : Option ℤ)
        → IsLatest held job now a → IsLatest held job now b → a ≡ b }
{}

/// A date on which a job may open is a period after each of its launches that was called before.
pub fn a_job_opens_a_period_after_each_launch()
    ensures { (table : Table) (held : List SchedRow) (job : ℕ) (now date at sooner : ℤ)
        → OpensBy table held job now date → IsCalledAt held job at Kind.Launch sooner → sooner <ℤ now
        → IsPeriodApart table 0 job at date }
{}

/// Where each due instant is launched, and each date on which a job may open, a launch is held for each, and what is held is
/// a launch of one of these; of a job that doesn't run by its period, a due instant's.
pub fn each_due_instant_is_launched()
    ensures each { (table : Table) (held : List SchedRow) (job : ℕ) (at : ℤ)
        → LaunchesEachDue table held → IsJobDue table 0 job at
        → (row : SchedRow) × Contains held row
        × (row.name.job ≡ job) × (row.name.at ≡ at) × (row.kind ≡ Kind.Launch) }
    ensures each_date { (table : Table) (held : List SchedRow) (job : ℕ) (now date : ℤ)
        → LaunchesEachDue table held → OpensBy table held job now date
        → (row : SchedRow) × Contains held row
        × (row.name.job ≡ job) × (row.name.at ≡ date) × (row.kind ≡ Kind.Launch) × (row.now.0 ≡ now) }
    ensures no_other { (table : Table) (held : List SchedRow) (row : SchedRow)
        → LaunchesEachDue table held → Contains held row
        → IsWanted table held row × (row.kind ≡ Kind.Launch) }
    ensures due { (table : Table) (held : List SchedRow) (row : SchedRow)
        → LaunchesEachDue table held → Contains held row → (IsRunByPeriod table row.name.job → ⊥)
        → IsJobDue table 0 row.name.job row.name.at }
{}

/// A launch that is called so late that it is a void is held as one and ends as one: its log and its row fit.
pub fn a_void_fits_its_log()
    ensures { (table : Table) (job : ℕ) (at started called : ℤ) (by : ℕ) (spec : Job) (zone : TimeZone) → IsSound table
        → IsNextDue table 0 job None at → at ≤ℤ started → IsJobIn table 0 job spec zone
        → HasCome spec.kind zone at called → IsCallKind table 0 job at called Kind.Void
        → Fits table (Entry.Start job at started ∷ Entry.End job at Kind.Void ∷ [])
        (record { name = record { job = job; at = at }; kind = Kind.Void; now = record { 0 = called }; by = by } ∷ []) }
{}

/// A launch of a date that is called on a later date is held as a void and ends as one: its log and its row fit.
pub fn a_void_of_a_date_fits_its_log()
    ensures { (table : Table) (job : ℕ) (date started called : ℤ) (by : ℕ) (spec : Job) (zone : TimeZone) → IsSound table
        → IsJobOpen table 0 job None None started date → IsJobIn table 0 job spec zone
        → HasCome spec.kind zone date called → IsCallKind table 0 job date called Kind.Void
        → Fits table (Entry.Start job date started ∷ Entry.End job date Kind.Void ∷ [])
        (record { name = record { job = job; at = date }; kind = Kind.Void; now = record { 0 = called }; by = by } ∷ []) }
{}
