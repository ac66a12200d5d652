//! Laws of how settling, walks and scripts end. Each is the contract of a function that does nothing.
ghost use Rattle.std.specs.Prelude.{◌≡◌, ℕ, ◌<◌, ◌≤◌, ℤ, pos, ◌-ℤ◌, ◌≤ℤ◌, List, ◌++◌, length};
ghost use Rattle.std.specs.Int.{int_min};
ghost use Rattle.zone_minutes.specs.Window.{IsInWindow};
ghost use Rattle.paxos_base.specs.declared.entry.Entry.{Entry};
ghost use Rattle.paxos_base.specs.declared.rows.JobRow.{JobRow};
ghost use Rattle.due_set.specs.Table.{IsSound, Table};
ghost use Rattle.launch_machine.specs.Clerk.{IsClerkOf, NoStart, NoTable};
ghost use Rattle.launch_machine.specs.Intent.{NoCall};
ghost use Rattle.script_text.specs.declared.command.Command.{Command};
ghost use Rattle.step_spec.specs.State.{prefix_of};
ghost use Rattle.agreement.specs.Log.{IsLog};
ghost use Rattle.history.specs.Book.{Row, votes_in};
ghost use Rattle.history.specs.Legal.{IsLegal};
ghost use Rattle.script_semantics.specs.Script.{Obeys};
ghost use Rattle.script_semantics.specs.Settling.{AsksNothingUntil, IsQuiet, Settles, Walks, coordinator};
ghost use Rattle.script_semantics.specs.Situation.{Situation};
ghost use Rattle.settling.specs.Quiet.{EndsQuietly};
ghost use Rattle.settling.specs.Rounds.{IsFaultless, IsWithinBounds};
ghost use Rattle.settling.specs.Settles.{LeadsNow};
ghost use Rattle.run_outcome.specs.Readings.{script_end, script_turns};
ghost use Rattle.run_outcome.specs.Continues.{ContinuesBy};

/// Where a legal book settles at an instant of the window, whatever faults came before, the coordinator leads after it, no fault is
/// left, and it is quiet at the instant. So the book ends quietly, with its log.
pub fn settling_ends_quietly()
    ensures leads { (members : ℕ) (table : Table) (at : ℤ) (book rows : List Row) (situation after : Situation) → IsInWindow table.window at
        → ContinuesBy (Settles members table at) members table book rows situation after
        → LeadsNow members table (coordinator members situation) after }
    ensures faultless { (members : ℕ) (table : Table) (at : ℤ) (book rows : List Row) (situation after : Situation) → IsInWindow table.window at
        → ContinuesBy (Settles members table at) members table book rows situation after → IsFaultless members after }
    ensures quiet { (members : ℕ) (table : Table) (at : ℤ) (book rows : List Row) (situation after : Situation) → IsInWindow table.window at
        → ContinuesBy (Settles members table at) members table book rows situation after
        → IsQuiet members table (coordinator members situation) at after }
    ensures ends { (members : ℕ) (table : Table) (at : ℤ) (book rows : List Row) (situation after : Situation) (log : List Entry) → IsInWindow table.window at
        → ContinuesBy (Settles members table at) members table book rows situation after → IsLog members (votes_in (book ++ rows)) log
        → EndsQuietly members table (book ++ rows) (coordinator members situation) at after log }
{}

/// Where a legal book walks to an instant of the window, from a situation whose latest clock reading isn't before the window, the
/// coordinator leads after it, and no fault is left. The book ends quietly at the last minute that was drained, after which nothing is
/// asked for up to the instant, and so at the instant too.
pub fn a_walk_ends_quietly()
    ensures leads { (members : ℕ) (table : Table) (to : ℤ) (book rows : List Row) (situation after : Situation) → IsInWindow table.window to
        → table.window.from.0 ≤ℤ situation.latest → ContinuesBy (Walks members table to) members table book rows situation after
        → LeadsNow members table (coordinator members situation) after }
    ensures faultless { (members : ℕ) (table : Table) (to : ℤ) (book rows : List Row) (situation after : Situation) → IsInWindow table.window to
        → table.window.from.0 ≤ℤ situation.latest → ContinuesBy (Walks members table to) members table book rows situation after
        → IsFaultless members after }
    ensures drained { (members : ℕ) (table : Table) (to : ℤ) (book rows : List Row) (situation after : Situation) (log : List Entry)
        → IsInWindow table.window to
        → table.window.from.0 ≤ℤ situation.latest → ContinuesBy (Walks members table to) members table book rows situation after
        → IsLog members (votes_in (book ++ rows)) log
        → (minute : ℤ) × (int_min situation.latest to ≤ℤ minute) × (minute ≤ℤ to)
        × AsksNothingUntil table minute to (after.standing.replicas (coordinator members situation))
        × EndsQuietly members table (book ++ rows) (coordinator members situation) minute after log }
    ensures ends { (members : ℕ) (table : Table) (to : ℤ) (book rows : List Row) (situation after : Situation) (log : List Entry) → IsInWindow table.window to
        → table.window.from.0 ≤ℤ situation.latest → ContinuesBy (Walks members table to) members table book rows situation after
        → IsLog members (votes_in (book ++ rows)) log
        → EndsQuietly members table (book ++ rows) (coordinator members situation) to after log }
{}

/// Where a legal book of one to seven replicas obeys a script within the limits, it ends quietly at the window's last minute. So each
/// replica has learned the whole log; and of the launch table of the log no launch may be called then, none is to start, and no version is
/// to be adopted.
pub fn an_obeyed_script_ends_quietly()
    ensures ends { (members : ℕ) (table : Table) (script : List Command) (rows : List Row) (obeyed : Obeys members table script rows) (log : List Entry)
        → 1 ≤ members → members ≤ 7 → IsSound table → IsLegal members table rows → IsWithinBounds rows obeyed.after.standing.posted
        → IsLog members (votes_in rows) log
        → EndsQuietly members table rows (coordinator members (script_end obeyed)) (table.window.until.0 -ℤ pos 1) obeyed.after log }
    ensures learned { (members : ℕ) (table : Table) (script : List Command) (rows : List Row) (obeyed : Obeys members table script rows)
        (log : List Entry) (who : ℕ)
        → 1 ≤ members → members ≤ 7 → IsSound table → IsLegal members table rows → IsWithinBounds rows obeyed.after.standing.posted
        → IsLog members (votes_in rows) log → who < members → prefix_of (obeyed.after.standing.replicas who) ≡ length log }
    ensures calls { (members : ℕ) (table : Table) (script : List Command) (rows : List Row) (obeyed : Obeys members table script rows)
        (log : List Entry) (launch : List JobRow)
        → 1 ≤ members → members ≤ 7 → IsSound table → IsLegal members table rows → IsWithinBounds rows obeyed.after.standing.posted
        → IsLog members (votes_in rows) log → IsClerkOf table log launch → NoCall table launch (table.window.until.0 -ℤ pos 1) }
    ensures starts { (members : ℕ) (table : Table) (script : List Command) (rows : List Row) (obeyed : Obeys members table script rows)
        (log : List Entry) (launch : List JobRow)
        → 1 ≤ members → members ≤ 7 → IsSound table → IsLegal members table rows → IsWithinBounds rows obeyed.after.standing.posted
        → IsLog members (votes_in rows) log → IsClerkOf table log launch → NoStart table launch (table.window.until.0 -ℤ pos 1) }
    ensures versions { (members : ℕ) (table : Table) (script : List Command) (rows : List Row) (obeyed : Obeys members table script rows)
        (log : List Entry) (launch : List JobRow)
        → 1 ≤ members → members ≤ 7 → IsSound table → IsLegal members table rows → IsWithinBounds rows obeyed.after.standing.posted
        → IsLog members (votes_in rows) log → IsClerkOf table log launch → NoTable table launch (table.window.until.0 -ℤ pos 1) }
{}

/// There is a legal book of one replica that obeys a script with a turn, within the limits; and so there is one that goes on with a
/// walk to an instant of the window, and one that goes on with settling.
pub fn a_book_may_obey_a_script()
    ensures settles { (table : Table) × (at : ℤ) × (book : List Row) × (rows : List Row) × (situation : Situation) × (after : Situation)
        × IsInWindow table.window at × ContinuesBy (Settles 1 table at) 1 table book rows situation after }
    ensures walks { (table : Table) × (to : ℤ) × (book : List Row) × (rows : List Row) × (situation : Situation) × (after : Situation)
        × IsInWindow table.window to × (table.window.from.0 ≤ℤ situation.latest) × ContinuesBy (Walks 1 table to) 1 table book rows situation after }
    ensures obeys { (table : Table) × (script : List Command) × (rows : List Row) × (obeyed : Obeys 1 table script rows)
        × IsSound table × IsLegal 1 table rows × IsWithinBounds rows obeyed.after.standing.posted × (0 < length (script_turns obeyed)) }
{}
