//! Laws of the dates on which jobs are launched. Each is the contract of a function that does nothing.
ghost use Rattle.std.specs.Prelude.{[], ◌≡◌, ◌⊎◌, ◌≤◌, ℕ, ℤ, Contains, List};
ghost use Rattle.due_set.specs.Table.{IsJobDue, IsRunByPeriod, IsSound, Table};
ghost use Rattle.paxos_base.specs.declared.entry.Kind.TheVariants.{Launch};
ghost use Rattle.cluster_sched.specs.declared.row.SchedRow.{SchedRow};
ghost use Rattle.script_text.specs.declared.command.Command.{Command};
ghost use Rattle.launch_safety.specs.Launched.{IsCalledAt, IsWanted, LaunchesEachDue, OpensBy};
ghost use Rattle.history.specs.Book.{Row};
ghost use Rattle.history.specs.Legal.{IsLegal};
ghost use Rattle.launch_safety.specs.Fitting.{held_in};
ghost use Rattle.script_semantics.specs.Script.{Obeys};
ghost use Rattle.run_outcome.specs.Readings.{script_turns};
ghost use Rattle.launch_safety.specs.Readings.{AreTurnsBy};
ghost use Rattle.run_outcome.specs.Barred.{IsBarred, ShowedLater};
ghost use Rattle.run_outcome.specs.Whole.{AdoptsNone};

/// Where a legal book of one to seven replicas obeys a script and adopts no version, and a job may open on a date at an instant, by the
/// launches that were called before, the job is launched on that date and called at that very instant, if no clock reading of the
/// script's turns is later: but where at an earlier instant the job was started on a later date, or its launch on the date or a later
/// one was called too late, and so was void.
pub fn a_date_is_launched_where_a_job_may_open()
    ensures { (members : ℕ) (table : Table) (script : List Command) (rows : List Row) (obeyed : Obeys members table script rows) (job : ℕ) (now date : ℤ)
        → members ≤ 7 → IsLegal members table rows → AdoptsNone members table rows → OpensBy table (held_in members table rows) job now date
        → AreTurnsBy now (script_turns obeyed)
        → IsCalledAt (held_in members table rows) job date Launch now ⊎ IsBarred members table rows job now date }
{}

/// Where a legal book that adopts no version bars a job that runs by its period from a date, the job's zone showed a later date at an
/// earlier instant. So where a zone's dates never go back, nothing is barred.
pub fn a_barred_date_was_passed()
    ensures { (members : ℕ) (table : Table) (rows : List Row) (job : ℕ) (now date : ℤ)
        → members ≤ 7 → IsLegal members table rows → AdoptsNone members table rows → IsRunByPeriod table job → IsBarred members table rows job now date
        → ShowedLater table job now date }
{}

/// Where a legal book of one to seven replicas obeys a script without commands, and adopts no version, each due instant of a crontab
/// job is held as launched, and was called at that very instant. Where a job may open on a date at an instant, by the launches that
/// were called before, it is launched on that date and called at that instant. And nothing else is held.
pub fn a_walk_without_a_script_launches_each_due_instant()
    ensures each { (members : ℕ) (table : Table) (rows : List Row) (job : ℕ) (at : ℤ)
        → members ≤ 7 → IsLegal members table rows → Obeys members table [] rows → AdoptsNone members table rows → IsJobDue table 0 job at
        → IsCalledAt (held_in members table rows) job at Launch at }
    ensures each_date { (members : ℕ) (table : Table) (rows : List Row) (job : ℕ) (now date : ℤ)
        → members ≤ 7 → IsLegal members table rows → Obeys members table [] rows → AdoptsNone members table rows
        → OpensBy table (held_in members table rows) job now date → IsCalledAt (held_in members table rows) job date Launch now }
    ensures no_other { (members : ℕ) (table : Table) (rows : List Row) (row : SchedRow)
        → members ≤ 7 → IsLegal members table rows → Obeys members table [] rows → AdoptsNone members table rows → Contains (held_in members table rows) row
        → IsWanted table (held_in members table rows) row × (row.kind ≡ Launch) }
    ensures all { (members : ℕ) (table : Table) (rows : List Row)
        → members ≤ 7 → IsLegal members table rows → Obeys members table [] rows → AdoptsNone members table rows
        → LaunchesEachDue table (held_in members table rows) }
{}

/// A legal book adopts no version where the table has one alone.
pub fn a_table_of_one_version_adopts_none()
    ensures { (members : ℕ) (table : Table) (rows : List Row) → members ≤ 7 → IsLegal members table rows → table.later ≡ []
        → AdoptsNone members table rows }
{}

/// There is a legal book of one replica that obeys a script without commands and adopts no version, in which a job may open on a date
/// at an instant.
pub fn a_date_may_be_launched()
    ensures { (table : Table) × (rows : List Row) × (job : ℕ) × (now : ℤ) × (date : ℤ)
        × IsSound table × IsLegal 1 table rows × Obeys 1 table [] rows × AdoptsNone 1 table rows
        × OpensBy table (held_in 1 table rows) job now date }
{}
