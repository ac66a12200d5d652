//! What follows for each table from what holds of it.
ghost use Rattle.std.specs.Prelude.{◌≡◌, ◌⊎◌, ◌<◌, ◌↔◌, ◌≤ℤ◌, ◌+ℤ◌, ℕ, ℤ, pos, length, slice_get, Option, Some, true, false};
ghost use Rattle.jiff.specs.Types.{TimeZone};
ghost use Rattle.due_set.specs.Calls.{HasCome, IsOnTime};
ghost use Rattle.due_set.specs.Anacron.{IsJobOpen, IsPeriodOver};
ghost use Rattle.due_set.specs.Table.{Job, Table, IsAnacron, IsJobDue, IsJobIn, IsJobRead, IsSound, is_by_period, version_count, version_from};
ghost use Rattle.due_set.specs.declared.job.Period.{Period};

/// A law: a name says one job of a table at most.
pub fn a_name_says_one_job()
    ensures { (table : Table) (a b : ℕ) (first second : Job) → IsSound table
        → slice_get table.jobs a ≡ Some first → slice_get table.jobs b ≡ Some second
        → first.name ≡ second.name → a ≡ b }
{}

/// A law: `jiff` reads the zone of each job of a table, in each version.
pub fn each_job_has_a_zone()
    ensures { (table : Table) (version number : ℕ) → IsSound table → version < version_count table → number < length table.jobs
        → IsJobRead table version number }
{}

/// A law: a version comes no sooner than those before it.
pub fn versions_come_in_order()
    ensures { (table : Table) (earlier later : ℕ) → IsSound table → earlier < later → later < version_count table
        → version_from table earlier ≤ℤ version_from table later }
{}

/// A law: in each version a job that may open runs by its period, and one that is due doesn't.
pub fn a_name_says_how_a_job_runs()
    ensures by_period { (table : Table) (version number : ℕ) (last cursor : Option ℤ) (now date : ℤ) → IsSound table
        → IsJobOpen table version number last cursor now date → is_by_period table number ≡ true }
    ensures by_instants { (table : Table) (version number : ℕ) (at : ℤ) → IsSound table
        → IsJobDue table version number at → is_by_period table number ≡ false }
{}

/// A law: a launch of a job that doesn't run by its period comes at its instant, and is on time up to the minutes of grace
/// after it.
pub fn launches_come_at_their_instants()
    ensures come { (table : Table) (version number : ℕ) (job : Job) (zone : TimeZone) (at now : ℤ)
        → IsJobIn table version number job zone → (IsAnacron job.kind → ⊥) → (HasCome job.kind zone at now ↔ (at ≤ℤ now)) }
    ensures on_time { (table : Table) (version number : ℕ) (job : Job) (zone : TimeZone) (at now : ℤ)
        → IsJobIn table version number job zone → (IsAnacron job.kind → ⊥)
        → (IsOnTime job.kind zone table.grace at now ↔ (now ≤ℤ (at +ℤ pos table.grace))) }
{}

/// A law: an instant at which a job may open is one of its date, and is on time.
pub fn a_job_opens_on_its_date()
    ensures come { (table : Table) (version number : ℕ) (job : Job) (zone : TimeZone) (last cursor : Option ℤ) (now date : ℤ)
        → IsJobIn table version number job zone → IsJobOpen table version number last cursor now date → HasCome job.kind zone date now }
    ensures on_time { (table : Table) (version number : ℕ) (job : Job) (zone : TimeZone) (last cursor : Option ℤ) (now date : ℤ)
        → IsJobIn table version number job zone → IsJobOpen table version number last cursor now date
        → IsOnTime job.kind zone table.grace date now }
    ensures one { (table : Table) (version number : ℕ) (last cursor : Option ℤ) (now a b : ℤ)
        → IsJobOpen table version number last cursor now a → IsJobOpen table version number last cursor now b → a ≡ b }
{}

/// A law: at each instant a job may open on some date or on none.
pub fn a_job_may_open_or_not()
    ensures { (table : Table) (version number : ℕ) (last cursor : Option ℤ) (now : ℤ) → IsSound table
        → ((date : ℤ) × IsJobOpen table version number last cursor now date)
        ⊎ ((date : ℤ) → IsJobOpen table version number last cursor now date → ⊥) }
{}

/// A law: a job that was launched on a date opens later only once its period is over since each launch before.
pub fn periods_are_over_since_each_launch()
    ensures { (period : Period) (earlier last date : ℤ) → earlier ≤ℤ last → IsPeriodOver period last date
        → IsPeriodOver period earlier date }
{}
