//! Laws of whole runs. Each is the contract of a function that does nothing.
ghost use Rattle.std.specs.Prelude.{◌≡◌, ◌≢◌, ◌<◌, ◌≤◌, ◌<ℤ◌, ℕ, ℤ, pos, ◌-ℤ◌, true, List, ◌∷◌, ◌++◌, length, take, Contains};
ghost use Rattle.paxos_base.specs.declared.entry.Entry.{Entry};
ghost use Rattle.paxos_base.specs.declared.entry.Entry.TheVariants.{Noop};
ghost use Rattle.paxos_base.specs.declared.entry.Kind.{Kind};
ghost use Rattle.paxos_base.specs.declared.entry.Kind.TheVariants.{Launch};
ghost use Rattle.paxos_base.specs.declared.rows.JobRow.{JobRow};
ghost use Rattle.due_set.specs.Table.{IsSound, Table};
ghost use Rattle.cluster_sched.specs.declared.row.SchedRow.{SchedRow};
ghost use Rattle.launch_machine.specs.Clerk.{IsClerkOf, first_rows, NoStart, NoTable};
ghost use Rattle.launch_machine.specs.Intent.{NoCall};
ghost use Rattle.launch_machine.specs.Starts.{AdoptionsOf};
ghost use Rattle.launch_machine.specs.Versions.{IsDueUnder};
ghost use Rattle.launch_safety.specs.Fits.{AreAdoptions, HasEnd, HasStart, IsBacked, IsHeld, StartsInOrder, TakesEffectAfter};
ghost use Rattle.launch_safety.specs.Launched.{IsCalledAt};
ghost use Rattle.script_text.specs.declared.command.Command.{Command};
ghost use Rattle.step_spec.specs.State.{prefix_of};
ghost use Rattle.agreement.specs.Agree.{IsChosen};
ghost use Rattle.agreement.specs.Log.{FollowsLog, IsLog};
ghost use Rattle.agreement.specs.World.{Learning};
ghost use Rattle.history.specs.Book.{Row, learned_in, standing_after, votes_in};
ghost use Rattle.history.specs.Legal.{IsLegal};
ghost use Rattle.launch_safety.specs.Fitting.{held_in};
ghost use Rattle.script_semantics.specs.Script.{Obeys};
ghost use Rattle.settling.specs.Rounds.{IsWithinBounds};
ghost use Rattle.run_outcome.specs.Readings.{IsGraceLong, script_turns};
ghost use Rattle.launch_safety.specs.Readings.{AreTurnsBy};
ghost use Rattle.run_outcome.specs.Whole.{IsWholeRun};

/// Where a legal book of one to seven replicas obeys a script within the limits, it is a whole run of the script, by the same parts.
pub fn an_obeyed_script_is_whole()
    ensures { (members : ℕ) (table : Table) (script : List Command) (rows : List Row) (obeyed : Obeys members table script rows)
        → 1 ≤ members → members ≤ 7 → IsSound table → IsLegal members table rows → IsWithinBounds rows obeyed.after.standing.posted
        → (whole : IsWholeRun members table script rows) × (whole.obeyed ≡ obeyed) }
{}

/// What a whole run of at most seven replicas says. After each turn: what was learned was chosen, and two entries that were learned
/// for a slot are one; there is a log, and each replica that runs has the launch table of a front of it; two rows that are held of
/// one launch are one, each is of a launch whose start takes effect in the log, and an end in it says what is held; the starts of a
/// job come in order, of a crontab's none left out. At the end: each replica has learned the log; each entry but the no-ops takes
/// effect, and versions of the table are adopted one after another; at the window's last minute no launch may be called, none is to
/// start, and no version is to be adopted; each due instant, by the versions in force then, was started and has ended. It is held as
/// launched, called at that very instant, where no clock of the script's turns has passed it; and where grace lasts as long as the
/// window, it is held as launched.
pub fn what_a_whole_run_says()
    ensures chosen { (members : ℕ) (table : Table) (script : List Command) (rows : List Row) (turns : ℕ) (learned : Learning)
        → IsWholeRun members table script rows → Contains (learned_in (take turns rows)) learned
        → IsChosen members (votes_in (take turns rows)) learned.slot learned.entry }
    ensures one { (members : ℕ) (table : Table) (script : List Command) (rows : List Row) (turns : ℕ) (a b : Learning)
        → IsWholeRun members table script rows → Contains (learned_in (take turns rows)) a → Contains (learned_in (take turns rows)) b
        → a.slot ≡ b.slot → a.entry ≡ b.entry }
    ensures follow { (members : ℕ) (table : Table) (script : List Command) (rows : List Row) (turns : ℕ)
        → IsWholeRun members table script rows
        → (log : List Entry) × IsLog members (votes_in (take turns rows)) log
        × ((who : ℕ) → (standing_after members (first_rows table) (take turns rows)).runs who ≡ true
        → FollowsLog table log ((standing_after members (first_rows table) (take turns rows)).replicas who)) }
    ensures once { (members : ℕ) (table : Table) (script : List Command) (rows : List Row) (turns : ℕ) (a b : SchedRow)
        → IsWholeRun members table script rows → Contains (held_in members table (take turns rows)) a
        → Contains (held_in members table (take turns rows)) b → a.name.job ≡ b.name.job → a.name.at ≡ b.name.at → a ≡ b }
    ensures backed { (members : ℕ) (table : Table) (script : List Command) (rows : List Row) (turns : ℕ) (row : SchedRow)
        → IsWholeRun members table script rows → Contains (held_in members table (take turns rows)) row
        → (log : List Entry) × IsLog members (votes_in (take turns rows)) log × IsBacked table log row }
    ensures says { (members : ℕ) (table : Table) (script : List Command) (rows : List Row) (turns : ℕ) (log : List Entry) (job : ℕ) (at : ℤ)
        (kind : Kind)
        → IsWholeRun members table script rows → IsLog members (votes_in (take turns rows)) log → HasEnd table log job at kind
        → IsHeld (held_in members table (take turns rows)) job at kind }
    ensures order { (members : ℕ) (table : Table) (script : List Command) (rows : List Row) (turns : ℕ) (log : List Entry) (job : ℕ)
        → IsWholeRun members table script rows → IsLog members (votes_in (take turns rows)) log → StartsInOrder table log job }
    ensures adopted { (members : ℕ) (table : Table) (script : List Command) (rows : List Row) (log : List Entry) → members ≤ 7
        → (whole : IsWholeRun members table script rows) → IsLog members (votes_in rows) log
        → AdoptionsOf table log whole.adoptions × AreAdoptions table whole.adoptions }
    ensures learned { (members : ℕ) (table : Table) (script : List Command) (rows : List Row) (log : List Entry) (who : ℕ) → members ≤ 7
        → IsWholeRun members table script rows → IsLog members (votes_in rows) log → who < members
        → prefix_of ((standing_after members (first_rows table) rows).replicas who) ≡ length log }
    ensures effective { (members : ℕ) (table : Table) (script : List Command) (rows : List Row) (log before after : List Entry) (entry : Entry)
        → members ≤ 7
        → IsWholeRun members table script rows → IsLog members (votes_in rows) log → log ≡ before ++ entry ∷ after → entry ≢ Noop
        → TakesEffectAfter table before entry }
    ensures settled { (members : ℕ) (table : Table) (script : List Command) (rows : List Row) (log : List Entry) (launch : List JobRow) → members ≤ 7
        → IsWholeRun members table script rows → IsLog members (votes_in rows) log → IsClerkOf table log launch
        → NoCall table launch (table.window.until.0 -ℤ pos 1) × NoStart table launch (table.window.until.0 -ℤ pos 1)
        × NoTable table launch (table.window.until.0 -ℤ pos 1) }
    ensures ended { (members : ℕ) (table : Table) (script : List Command) (rows : List Row) (log : List Entry) (job : ℕ) (at : ℤ) → members ≤ 7
        → (whole : IsWholeRun members table script rows) → IsLog members (votes_in rows) log → IsDueUnder table whole.adoptions job at
        → HasStart table log job at × (kind : Kind) × HasEnd table log job at kind }
    ensures later { (members : ℕ) (table : Table) (script : List Command) (rows : List Row) (whole : IsWholeRun members table script rows) (job : ℕ)
        (at : ℤ)
        → IsDueUnder table whole.adoptions job at → AreTurnsBy at (script_turns whole.obeyed) → IsHeld (held_in members table rows) job at Launch }
    ensures at_once { (members : ℕ) (table : Table) (script : List Command) (rows : List Row) (whole : IsWholeRun members table script rows)
        (job : ℕ) (at : ℤ)
        → IsDueUnder table whole.adoptions job at → AreTurnsBy at (script_turns whole.obeyed) → IsCalledAt (held_in members table rows) job at Launch at }
    ensures all { (members : ℕ) (table : Table) (script : List Command) (rows : List Row) (job : ℕ) (at : ℤ)
        → (whole : IsWholeRun members table script rows) → IsGraceLong table → IsDueUnder table whole.adoptions job at
        → IsHeld (held_in members table rows) job at Launch }
{}

/// There is a whole run: one replica's, of a script with a turn, of a job with two due instants that no clock of the script's turns has
/// passed; grace lasts as long as the window.
pub fn a_whole_run_may_be()
    ensures { (table : Table) × (script : List Command) × (rows : List Row) × (whole : IsWholeRun 1 table script rows) × (job : ℕ)
        × (at : ℤ) × (later : ℤ)
        × IsSound table × IsGraceLong table × IsDueUnder table whole.adoptions job at × IsDueUnder table whole.adoptions job later × (at <ℤ later)
        × AreTurnsBy at (script_turns whole.obeyed) × (0 < length (script_turns whole.obeyed)) }
{}
