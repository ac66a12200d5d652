//! Laws of what a book holds that obeys a script. Each is the contract of a function that does nothing.
ghost use Rattle.std.specs.Prelude.{◌↔◌, ◌<◌, ◌≤◌, ◌≤ℤ◌, ◌<ℤ◌, ℕ, ℤ, List, length};
ghost use Rattle.due_set.specs.Table.{IsJobDue, IsSound, Table};
ghost use Rattle.paxos_base.specs.declared.entry.Entry.{Entry};
ghost use Rattle.paxos_base.specs.declared.entry.Kind.{Kind};
ghost use Rattle.paxos_base.specs.declared.entry.Kind.TheVariants.{Launch};
ghost use Rattle.script_text.specs.declared.command.Command.{Command};
ghost use Rattle.launch_safety.specs.Fits.{HasEnd, HasStart, IsHeld};
ghost use Rattle.launch_safety.specs.Launched.{IsCalledAt};
ghost use Rattle.agreement.specs.Log.{IsLog};
ghost use Rattle.history.specs.Book.{Row, votes_in};
ghost use Rattle.history.specs.Legal.{IsLegal};
ghost use Rattle.launch_safety.specs.Fitting.{held_in};
ghost use Rattle.script_semantics.specs.Script.{Obeys};
ghost use Rattle.script_semantics.specs.Situation.{Situation, after_turns};
ghost use Rattle.run_outcome.specs.Readings.{IsGraceLong, script_end, script_turns};
ghost use Rattle.launch_safety.specs.Readings.{AreTurnsBy};
ghost use Rattle.launch_machine.specs.Starts.{AdoptionsOf};
ghost use Rattle.launch_machine.specs.Versions.{IsDueUnder};
ghost use Rattle.settling.specs.Rounds.{IsWithinBounds};
ghost use Rattle.run_outcome.specs.Whole.{AdoptsNone};

/// Where a legal book of one to seven replicas obeys a script, over a sound table and within the limits in which letters are heard, each
/// due instant of a crontab job, by the versions in force then, has been started and has ended. One that no clock reading of the script's
/// turns has passed is held as launched, and was called at that very instant; so it is without limits where no version is adopted. Where
/// grace lasts as long as the window, each due instant is held as launched.
pub fn a_walk_launches_each_due_instant()
    ensures ended { (members : ℕ) (table : Table) (script : List Command) (rows : List Row) (obeyed : Obeys members table script rows)
        (log : List Entry) (adoptions : List ℤ) (job : ℕ) (at : ℤ)
        → 1 ≤ members → members ≤ 7 → IsSound table → IsLegal members table rows → IsWithinBounds rows obeyed.after.standing.posted
        → IsLog members (votes_in rows) log → AdoptionsOf table log adoptions → IsDueUnder table adoptions job at
        → HasStart table log job at × (kind : Kind) × HasEnd table log job at kind }
    ensures at_once { (members : ℕ) (table : Table) (script : List Command) (rows : List Row) (obeyed : Obeys members table script rows)
        (log : List Entry) (adoptions : List ℤ) (job : ℕ) (at : ℤ)
        → 1 ≤ members → members ≤ 7 → IsSound table → IsLegal members table rows → IsWithinBounds rows obeyed.after.standing.posted
        → IsLog members (votes_in rows) log → AdoptionsOf table log adoptions → IsDueUnder table adoptions job at
        → AreTurnsBy at (script_turns obeyed) → IsCalledAt (held_in members table rows) job at Launch at }
    ensures first { (members : ℕ) (table : Table) (script : List Command) (rows : List Row) (obeyed : Obeys members table script rows) (job : ℕ) (at : ℤ)
        → members ≤ 7 → IsLegal members table rows → AdoptsNone members table rows → IsJobDue table 0 job at → AreTurnsBy at (script_turns obeyed)
        → IsCalledAt (held_in members table rows) job at Launch at }
    ensures all { (members : ℕ) (table : Table) (script : List Command) (rows : List Row) (obeyed : Obeys members table script rows)
        (log : List Entry) (adoptions : List ℤ) (job : ℕ) (at : ℤ)
        → 1 ≤ members → members ≤ 7 → IsSound table → IsLegal members table rows → IsWithinBounds rows obeyed.after.standing.posted
        → IsLog members (votes_in rows) log → AdoptionsOf table log adoptions → IsGraceLong table → IsDueUnder table adoptions job at
        → IsHeld (held_in members table rows) job at Launch }
{}

/// The latest reading after some turns is no later than an instant where it was none before them, and no clock reading of the turns
/// is. So the latest reading as the walk begins tells which instants the clocks of the script's turns have not passed: of the window
/// those from that reading on, and no others.
pub fn the_latest_reading_bounds_the_script()
    ensures turns { (members : ℕ) (situation : Situation) (rows : List Row) (at : ℤ)
        → ((after_turns members situation rows).latest ≤ℤ at) ↔ ((situation.latest ≤ℤ at) × AreTurnsBy at rows) }
    ensures each { (members : ℕ) (table : Table) (script : List Command) (rows : List Row) (obeyed : Obeys members table script rows) (at : ℤ)
        → (script_end obeyed).latest ≤ℤ at → AreTurnsBy at (script_turns obeyed) }
    ensures least { (members : ℕ) (table : Table) (script : List Command) (rows : List Row) (obeyed : Obeys members table script rows) (at : ℤ)
        → table.window.from.0 ≤ℤ at → AreTurnsBy at (script_turns obeyed) → (script_end obeyed).latest ≤ℤ at }
{}

/// There is a legal book that obeys a script, and has launches: one replica's, whose clock ticks in the script, of a job with two due
/// instants that this reading has not passed; grace lasts as long as the window.
pub fn a_walk_may_launch()
    ensures { (table : Table) × (script : List Command) × (rows : List Row) × (obeyed : Obeys 1 table script rows) × (job : ℕ) × (at : ℤ) × (later : ℤ)
        × IsSound table × IsLegal 1 table rows × IsGraceLong table × IsJobDue table 0 job at × IsJobDue table 0 job later × (at <ℤ later)
        × AreTurnsBy at (script_turns obeyed) × (0 < length (script_turns obeyed)) }
{}
