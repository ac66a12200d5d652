//! Laws of a cluster of one. Each is the contract of a function that does nothing.
ghost use Rattle.std.specs.Prelude.{◌≡◌, ◌⊎◌, ℕ, ℤ, List, [], ◌++◌, None, Some};
ghost use Rattle.paxos_base.specs.Vote.{votes_from};
ghost use Rattle.paxos_base.specs.declared.entry.Entry.{Entry};
ghost use Rattle.paxos_base.specs.declared.rows.JobRow.{JobRow};
ghost use Rattle.cluster_sched.specs.declared.row.SchedRow.{SchedRow};
ghost use Rattle.due_set.specs.Table.{Table};
ghost use Rattle.launch_machine.specs.Clerk.{first_rows};
ghost use Rattle.term_core.specs.Term.{best_votes};
ghost use Rattle.step_spec.specs.State.{prefix_of};
ghost use Rattle.step_spec.specs.Step.{IsLaunchTable};
ghost use Rattle.agreement.specs.Log.{IsLog};
ghost use Rattle.history.specs.Book.{Row, standing_after, votes_in};
ghost use Rattle.history.specs.Legal.{IsLegal};
ghost use Rattle.script_semantics.specs.Settling.{IsQuiet};
ghost use Rattle.script_semantics.specs.Situation.{Situation};
ghost use Rattle.settling.specs.Quiet.{EndsQuietly};
ghost use Rattle.settling.specs.Leads.{GoesDrainRound};
ghost use Rattle.settling.specs.Rounds.{GoesRound, IsFaultless};
ghost use Rattle.settling.specs.Campaigns.{GoesCampaign};
ghost use Rattle.settling.specs.Drain.{HasFewerLeft};
ghost use Rattle.settling.specs.Idle.{IsIdleAt};
ghost use Rattle.settling.specs.Alone.{LeadsItself};

/// The one replica of a cluster leads itself once it has stood for leader, where no letter waits for it. It is bound by the votes that it
/// keeps from its prefix on, and an answer that waited for it is dropped. No fault comes of its campaign, and what stands after it is what
/// stands after the whole book.
pub fn one_leads_at_its_campaign()
    ensures leads { (table : Table) (at : ℤ) (book rows : List Row) (situation after : Situation)
        → GoesCampaign 1 table 0 at book rows situation after → situation.mails 0 ≡ [] → LeadsItself table after }
    ensures bound { (table : Table) (at : ℤ) (book rows : List Row) (situation after : Situation)
        → GoesCampaign 1 table 0 at book rows situation after
        → best_votes (after.standing.replicas 0).term
        ≡ votes_from (prefix_of (situation.standing.replicas 0)) (situation.standing.replicas 0).kept.votes }
    ensures dropped { (table : Table) (at : ℤ) (book rows : List Row) (situation after : Situation)
        → GoesCampaign 1 table 0 at book rows situation after → after.standing.waits 0 ≡ None }
    ensures faultless { (table : Table) (at : ℤ) (book rows : List Row) (situation after : Situation)
        → GoesCampaign 1 table 0 at book rows situation after → IsFaultless 1 after }
    ensures standing { (table : Table) (at : ℤ) (book rows : List Row) (situation after : Situation)
        → GoesCampaign 1 table 0 at book rows situation after
        → after.standing ≡ standing_after 1 (first_rows table) (book ++ rows) }
{}

/// Where one leads itself, a round of a drain is a round and no more. No fault comes of it, and what stands after it is what stands after
/// the whole book.
pub fn its_drain_round_is_a_round()
    ensures round { (table : Table) (at : ℤ) (book rows : List Row) (situation after : Situation)
        → LeadsItself table situation → GoesDrainRound 1 table 0 at book rows situation after
        → GoesRound 1 table at book rows situation after }
    ensures faultless { (table : Table) (at : ℤ) (book rows : List Row) (situation after : Situation)
        → LeadsItself table situation → GoesDrainRound 1 table 0 at book rows situation after → IsFaultless 1 after }
    ensures standing { (table : Table) (at : ℤ) (book rows : List Row) (situation after : Situation)
        → LeadsItself table situation → GoesDrainRound 1 table 0 at book rows situation after
        → after.standing ≡ standing_after 1 (first_rows table) (book ++ rows) }
{}

/// One that leads itself does so after each round of a drain. Fewer rounds are left to it then, by its launch table, which it has, or it
/// was idle before; and one that was idle is so still.
pub fn each_drain_round_brings_one_nearer()
    ensures leads { (table : Table) (at : ℤ) (book rows : List Row) (situation after : Situation)
        → LeadsItself table situation → GoesDrainRound 1 table 0 at book rows situation after → LeadsItself table after }
    ensures nearer { (table : Table) (at : ℤ) (book rows : List Row) (situation after : Situation)
        → LeadsItself table situation → GoesDrainRound 1 table 0 at book rows situation after
        → IsIdleAt table 0 at situation ⊎ HasFewerLeft table 0 situation after }
    ensures launch { (table : Table) (situation : Situation)
        → LeadsItself table situation → (rows : List JobRow) × IsLaunchTable table (situation.standing.replicas 0) rows }
    ensures rests { (table : Table) (at : ℤ) (book rows : List Row) (situation after : Situation)
        → LeadsItself table situation → GoesDrainRound 1 table 0 at book rows situation after
        → IsIdleAt table 0 at situation → IsIdleAt table 0 at after }
{}

/// Where the one replica is idle, the situation is quiet. A legal book that comes to a quiet situation of one replica ends quietly,
/// with its log.
pub fn one_idle_is_quiet()
    ensures quiet { (table : Table) (at : ℤ) (situation : Situation) → IsIdleAt table 0 at situation → IsQuiet 1 table 0 at situation }
    ensures ends { (table : Table) (at : ℤ) (book : List Row) (situation : Situation) (log : List Entry)
        → IsQuiet 1 table 0 at situation → IsLegal 1 table book → situation.standing ≡ standing_after 1 (first_rows table) book
        → IsLog 1 (votes_in book) log → EndsQuietly 1 table book 0 at situation log }
{}

/// There is a legal book of one replica that goes on with its campaign, while no letter waits for it. There are legal books that go on
/// with a round of a drain, in which the replica leads itself: one in which it is idle, and one in which an answer waits for it.
pub fn one_may_lead_itself()
    ensures campaign { (table : Table) × (at : ℤ) × (book : List Row) × (rows : List Row) × (situation : Situation) × (after : Situation)
        × GoesCampaign 1 table 0 at book rows situation after × (situation.mails 0 ≡ []) }
    ensures rest { (table : Table) × (at : ℤ) × (book : List Row) × (rows : List Row) × (situation : Situation) × (after : Situation)
        × LeadsItself table situation × GoesDrainRound 1 table 0 at book rows situation after × IsIdleAt table 0 at situation }
    ensures answer { (table : Table) × (at : ℤ) × (book : List Row) × (rows : List Row) × (situation : Situation) × (after : Situation) × (row : SchedRow)
        × LeadsItself table situation × GoesDrainRound 1 table 0 at book rows situation after × (situation.standing.waits 0 ≡ Some row) }
{}
