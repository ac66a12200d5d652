//! Laws of settling, for each number of replicas. Each is the contract of a function that does nothing.
ghost use Rattle.std.specs.Prelude.{◌≡◌, ◌⊎◌, ℕ, suc, ◌<◌, ◌≤◌, ℤ, List, []};
ghost use Rattle.paxos_base.specs.declared.entry.Entry.{Entry};
ghost use Rattle.paxos_base.specs.declared.rows.JobRow.{JobRow};
ghost use Rattle.due_set.specs.Table.{Table};
ghost use Rattle.launch_machine.specs.Clerk.{first_rows};
ghost use Rattle.step_spec.specs.Step.{IsLaunchTable};
ghost use Rattle.agreement.specs.Log.{IsLog};
ghost use Rattle.history.specs.Book.{Row, standing_after, votes_in};
ghost use Rattle.history.specs.Legal.{IsLegal};
ghost use Rattle.script_semantics.specs.Settling.{IsQuiet, coordinator};
ghost use Rattle.script_semantics.specs.Situation.{Situation};
ghost use Rattle.settling.specs.Quiet.{EndsQuietly};
ghost use Rattle.settling.specs.Leads.{GoesDrainRound};
ghost use Rattle.settling.specs.Rounds.{IsFaultless};
ghost use Rattle.settling.specs.Campaigns.{GoesCampaign};
ghost use Rattle.settling.specs.Drain.{HasFewerLeft};
ghost use Rattle.settling.specs.Idle.{IsIdleAt};
ghost use Rattle.settling.specs.Settles.{HasBeenIdleFor, LeadsNow, LeadsSoon};

/// Where no letter waits and the coordinator of a legal book campaigns, it leads after four rounds of a drain at most: each round
/// brings it nearer, and once it leads it does so after each. Where it is quiet, it leads already.
pub fn one_comes_to_lead()
    ensures first { (members : ℕ) (table : Table) (at : ℤ) (book rows : List Row) (situation after : Situation) → 1 ≤ members
        → GoesCampaign members table (coordinator members situation) at book rows situation after
        → ((who : ℕ) → who < members → situation.mails who ≡ [])
        → LeadsSoon 4 members table (coordinator members situation) after }
    ensures nearer { (rounds members : ℕ) (table : Table) (who : ℕ) (at : ℤ) (book rows : List Row) (situation after : Situation)
        → LeadsSoon (suc rounds) members table who situation → GoesDrainRound members table who at book rows situation after
        → LeadsSoon rounds members table who after }
    ensures on { (members : ℕ) (table : Table) (who : ℕ) (at : ℤ) (book rows : List Row) (situation after : Situation)
        → LeadsNow members table who situation → GoesDrainRound members table who at book rows situation after
        → LeadsNow members table who after }
    ensures last { (members : ℕ) (table : Table) (who : ℕ) (situation : Situation)
        → LeadsSoon 0 members table who situation → LeadsNow members table who situation }
    ensures now { (rounds members : ℕ) (table : Table) (who : ℕ) (situation : Situation)
        → LeadsNow members table who situation → LeadsSoon rounds members table who situation }
    ensures quiet { (rounds members : ℕ) (table : Table) (who : ℕ) (at : ℤ) (situation : Situation)
        → LeadsSoon rounds members table who situation → IsQuiet members table who at situation → LeadsNow members table who situation }
{}

/// No fault comes of the campaign, nor of a round of a drain of one that leads or is about to.
pub fn settling_leaves_no_fault()
    ensures campaign { (members : ℕ) (table : Table) (at : ℤ) (book rows : List Row) (situation after : Situation) → 1 ≤ members
        → GoesCampaign members table (coordinator members situation) at book rows situation after → IsFaultless members after }
    ensures round { (rounds members : ℕ) (table : Table) (who : ℕ) (at : ℤ) (book rows : List Row) (situation after : Situation)
        → LeadsSoon rounds members table who situation → GoesDrainRound members table who at book rows situation after
        → IsFaultless members after }
{}

/// One that leads was idle before a round of a drain, or fewer rounds are left to it after it, by its launch table, which it has.
pub fn one_becomes_idle()
    ensures nearer { (members : ℕ) (table : Table) (who : ℕ) (at : ℤ) (book rows : List Row) (situation after : Situation)
        → LeadsNow members table who situation → GoesDrainRound members table who at book rows situation after
        → IsIdleAt table who at situation ⊎ HasFewerLeft table who situation after }
    ensures launch { (members : ℕ) (table : Table) (who : ℕ) (situation : Situation)
        → LeadsNow members table who situation → (rows : List JobRow) × IsLaunchTable table (situation.standing.replicas who) rows }
{}

/// One that leads and is idle stays so through rounds of a drain at that instant, and after five of them it is quiet.
pub fn one_idle_is_quiet_soon()
    ensures now { (members : ℕ) (table : Table) (who : ℕ) (at : ℤ) (situation : Situation)
        → LeadsNow members table who situation → IsIdleAt table who at situation → HasBeenIdleFor 0 members table who at situation }
    ensures on { (rounds members : ℕ) (table : Table) (who : ℕ) (at : ℤ) (book rows : List Row) (situation after : Situation)
        → HasBeenIdleFor rounds members table who at situation → GoesDrainRound members table who at book rows situation after
        → HasBeenIdleFor (suc rounds) members table who at after }
    ensures leads { (rounds members : ℕ) (table : Table) (who : ℕ) (at : ℤ) (situation : Situation)
        → HasBeenIdleFor rounds members table who at situation → LeadsNow members table who situation }
    ensures rests { (rounds members : ℕ) (table : Table) (who : ℕ) (at : ℤ) (situation : Situation)
        → HasBeenIdleFor rounds members table who at situation → IsIdleAt table who at situation }
    ensures quiet { (members : ℕ) (table : Table) (who : ℕ) (at : ℤ) (situation : Situation)
        → HasBeenIdleFor 5 members table who at situation → IsQuiet members table who at situation }
{}

/// Where a legal book comes to a quiet situation in which the replica leads, it ends quietly, with its log.
pub fn the_whole_log_is_settled()
    ensures { (members : ℕ) (table : Table) (who : ℕ) (at : ℤ) (book : List Row) (situation : Situation) (log : List Entry)
        → IsLegal members table book → situation.standing ≡ standing_after members (first_rows table) book
        → LeadsNow members table who situation → IsQuiet members table who at situation → IsLog members (votes_in book) log
        → EndsQuietly members table book who at situation log }
{}

/// There is a legal book of one replica, and one of more, in which no letter waits and the coordinator campaigns; one in which a replica
/// is on its way to lead or leads, and a round of a drain follows; and one in which it leads and was idle five rounds ago, and one
/// more follows.
pub fn a_cluster_may_settle()
    ensures one { (table : Table) × (at : ℤ) × (book : List Row) × (rows : List Row) × (situation : Situation) × (after : Situation)
        × GoesCampaign 1 table (coordinator 1 situation) at book rows situation after × ((who : ℕ) → who < 1 → situation.mails who ≡ []) }
    ensures more { (members : ℕ) × (table : Table) × (at : ℤ) × (book : List Row) × (rows : List Row) × (situation : Situation) × (after : Situation)
        × (2 ≤ members) × GoesCampaign members table (coordinator members situation) at book rows situation after
        × ((who : ℕ) → who < members → situation.mails who ≡ []) }
    ensures soon { (rounds : ℕ) × (members : ℕ) × (table : Table) × (who : ℕ) × (at : ℤ) × (book : List Row) × (rows : List Row)
        × (situation : Situation) × (after : Situation) × LeadsSoon (suc rounds) members table who situation
        × GoesDrainRound members table who at book rows situation after }
    ensures rests { (members : ℕ) × (table : Table) × (who : ℕ) × (at : ℤ) × (book : List Row) × (rows : List Row)
        × (situation : Situation) × (after : Situation) × HasBeenIdleFor 5 members table who at situation
        × GoesDrainRound members table who at book rows situation after }
{}
