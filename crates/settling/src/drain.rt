//! Laws of drain rounds in which one replica leads alone. Each is the contract of a function that does nothing.
ghost use Rattle.std.specs.Prelude.{◌≡◌, ◌⊎◌, ℕ, suc, ℤ, List, ◌++◌};
ghost use Rattle.paxos_base.specs.declared.entry.Entry.{Entry};
ghost use Rattle.paxos_base.specs.declared.rows.JobRow.{JobRow};
ghost use Rattle.due_set.specs.Table.{Table};
ghost use Rattle.launch_machine.specs.Clerk.{first_rows};
ghost use Rattle.step_spec.specs.Step.{IsLaunchTable};
ghost use Rattle.agreement.specs.Log.{IsLog};
ghost use Rattle.history.specs.Book.{Row, standing_after, votes_in};
ghost use Rattle.history.specs.Legal.{IsLegal};
ghost use Rattle.script_semantics.specs.Settling.{IsQuiet};
ghost use Rattle.script_semantics.specs.Situation.{Situation};
ghost use Rattle.settling.specs.Quiet.{EndsQuietly};
ghost use Rattle.settling.specs.Leads.{GoesDrainRound, LeadsAlone};
ghost use Rattle.settling.specs.Rounds.{GoesRound, IsFaultless};
ghost use Rattle.settling.specs.Drain.{HasFewerLeft, IsIdleFor};
ghost use Rattle.settling.specs.Idle.{HaveCaughtUpWith, IsIdleAt};

/// Where one replica leads alone, a round of a drain is a round and no more: nobody stands for leader. It leaves no fault, and what
/// stands after it is what stands after the whole book.
pub fn a_drain_round_is_a_round()
    ensures round { (members : ℕ) (table : Table) (who : ℕ) (at : ℤ) (book rows : List Row) (situation after : Situation)
        → LeadsAlone members table who situation → GoesDrainRound members table who at book rows situation after
        → GoesRound members table at book rows situation after }
    ensures faultless { (members : ℕ) (table : Table) (who : ℕ) (at : ℤ) (book rows : List Row) (situation after : Situation)
        → LeadsAlone members table who situation → GoesDrainRound members table who at book rows situation after
        → IsFaultless members after }
    ensures standing { (members : ℕ) (table : Table) (who : ℕ) (at : ℤ) (book rows : List Row) (situation after : Situation)
        → LeadsAlone members table who situation → GoesDrainRound members table who at book rows situation after
        → after.standing ≡ standing_after members (first_rows table) (book ++ rows) }
{}

/// One that leads alone does so after each round of a drain, and it was idle before the round, or fewer rounds are left to it, by
/// its launch table, which it has.
pub fn a_leader_becomes_idle()
    ensures alone { (members : ℕ) (table : Table) (who : ℕ) (at : ℤ) (book rows : List Row) (situation after : Situation)
        → LeadsAlone members table who situation → GoesDrainRound members table who at book rows situation after
        → LeadsAlone members table who after }
    ensures nearer { (members : ℕ) (table : Table) (who : ℕ) (at : ℤ) (book rows : List Row) (situation after : Situation)
        → LeadsAlone members table who situation → GoesDrainRound members table who at book rows situation after
        → IsIdleAt table who at situation ⊎ HasFewerLeft table who situation after }
    ensures launch { (members : ℕ) (table : Table) (who : ℕ) (situation : Situation)
        → LeadsAlone members table who situation → (rows : List JobRow) × IsLaunchTable table (situation.standing.replicas who) rows }
{}

/// One that leads alone and is idle stays so through rounds of a drain at that instant; and after five of them all have learned as
/// much, so that it is quiet.
pub fn one_idle_stays_so()
    ensures now { (members : ℕ) (table : Table) (who : ℕ) (at : ℤ) (situation : Situation)
        → LeadsAlone members table who situation → IsIdleAt table who at situation → IsIdleFor 0 members table who at situation }
    ensures on { (rounds members : ℕ) (table : Table) (who : ℕ) (at : ℤ) (book rows : List Row) (situation after : Situation)
        → IsIdleFor rounds members table who at situation → GoesDrainRound members table who at book rows situation after
        → IsIdleFor (suc rounds) members table who at after }
    ensures alone { (rounds members : ℕ) (table : Table) (who : ℕ) (at : ℤ) (situation : Situation)
        → IsIdleFor rounds members table who at situation → LeadsAlone members table who situation }
    ensures rests { (rounds members : ℕ) (table : Table) (who : ℕ) (at : ℤ) (situation : Situation)
        → IsIdleFor rounds members table who at situation → IsIdleAt table who at situation }
    ensures quiet { (members : ℕ) (table : Table) (who : ℕ) (at : ℤ) (situation : Situation)
        → IsIdleFor 5 members table who at situation → IsQuiet members table who at situation }
{}

/// It is quiet exactly where the replica is idle and all have learned as much as it.
pub fn quiet_is_idle_and_caught_up()
    ensures quiet { (members : ℕ) (table : Table) (who : ℕ) (at : ℤ) (situation : Situation)
        → IsIdleAt table who at situation → HaveCaughtUpWith members who situation → IsQuiet members table who at situation }
    ensures rest { (members : ℕ) (table : Table) (who : ℕ) (at : ℤ) (situation : Situation)
        → IsQuiet members table who at situation → IsIdleAt table who at situation }
    ensures caught_up { (members : ℕ) (table : Table) (who : ℕ) (at : ℤ) (situation : Situation)
        → IsQuiet members table who at situation → HaveCaughtUpWith members who situation }
{}

/// Where a legal book comes to a quiet situation in which the replica leads alone, it ends quietly, with its log.
pub fn the_end_is_quiet()
    ensures { (members : ℕ) (table : Table) (who : ℕ) (at : ℤ) (book : List Row) (situation : Situation) (log : List Entry)
        → IsLegal members table book → situation.standing ≡ standing_after members (first_rows table) book
        → LeadsAlone members table who situation → IsQuiet members table who at situation → IsLog members (votes_in book) log
        → EndsQuietly members table book who at situation log }
{}

/// There is a legal book in which a replica leads alone and is idle, and five rounds of a drain come after it. After each of them
/// the book is legal, and a round may come again.
pub fn a_leader_may_become_idle()
    ensures { (members : ℕ) × (table : Table) × (who : ℕ) × (at : ℤ) × (book : List Row) × (rows : List Row) × (situation : Situation) × (after : Situation)
        × IsIdleFor 5 members table who at situation × GoesDrainRound members table who at book rows situation after }
{}
