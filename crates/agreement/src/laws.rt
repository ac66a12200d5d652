//! Laws of agreement. Each is the contract of a function that does nothing.
ghost use Rattle.std.specs.Prelude.{◌≡◌, ◌≤◌, ℕ, List, None, Some, Contains};
ghost use Rattle.paxos_base.specs.declared.entry.Entry.{Entry};
ghost use Rattle.paxos_base.specs.declared.rows.JobRow.{JobRow};
ghost use Rattle.due_set.specs.Table.{Table};
ghost use Rattle.launch_machine.specs.Clerk.{first_rows};
ghost use Rattle.agreement.specs.Agree.{IsChosen, LearnsChosen, LearnsOne};
ghost use Rattle.agreement.specs.Log.{AllFollow, IsLog};
ghost use Rattle.agreement.specs.Transition.{AreTransitions, Transition, after_transitions};
ghost use Rattle.agreement.specs.World.{AllMayDo, Doing, MayDo, World, after_all, first_world};
ghost use Rattle.cluster_sched.specs.declared.row.SchedRow.{SchedRow};
ghost use Rattle.step_spec.specs.Act.{Call, Restart, Stand};
ghost use Rattle.step_spec.specs.May.{Ending};
ghost use Rattle.step_spec.specs.Step.{Campaign};

/// No two entries are chosen for one slot: whatever one to seven replicas do that they may do, in whatever order.
pub fn a_slot_has_one_value()
    ensures acts { (members : ℕ) (table : Table) (rows : List JobRow) (doings : List Doing) (slot : ℕ) (one other : Entry) → members ≤ 7
        → AllMayDo members table (first_world rows) doings → IsChosen members (after_all doings (first_world rows)).cast slot one
        → IsChosen members (after_all doings (first_world rows)).cast slot other → one ≡ other }
    ensures transitions { (members : ℕ) (table : Table) (rows : List JobRow) (transitions : List Transition) (slot : ℕ) (one other : Entry) → members ≤ 7
        → AreTransitions members table (first_world rows) transitions
        → IsChosen members (after_transitions members transitions (first_world rows)).cast slot one
        → IsChosen members (after_transitions members transitions (first_world rows)).cast slot other → one ≡ other }
{}

/// Each entry that a replica has learned was chosen: whatever transitions they have taken, and wherever they were stopped and
/// started again.
pub fn learned_entries_are_chosen()
    ensures { (members : ℕ) (table : Table) (rows : List JobRow) (transitions : List Transition) → members ≤ 7
        → AreTransitions members table (first_world rows) transitions → LearnsChosen members (after_transitions members transitions (first_world rows)) }
{}

/// No two entries are ever learned for one slot, by whatever replicas.
pub fn replicas_agree_on_each_slot()
    ensures { (members : ℕ) (table : Table) (rows : List JobRow) (transitions : List Transition) → members ≤ 7
        → AreTransitions members table (first_world rows) transitions → LearnsOne (after_transitions members transitions (first_world rows)) }
{}

/// There is one log, after whatever transitions.
pub fn transitions_have_one_log()
    ensures some { (members : ℕ) (table : Table) (rows : List JobRow) (transitions : List Transition) → members ≤ 7
        → AreTransitions members table (first_world rows) transitions
        → (log : List Entry) × IsLog members (after_transitions members transitions (first_world rows)).cast log }
    ensures one { (members : ℕ) (table : Table) (rows : List JobRow) (transitions : List Transition) (one other : List Entry) → members ≤ 7
        → AreTransitions members table (first_world rows) transitions → IsLog members (after_transitions members transitions (first_world rows)).cast one
        → IsLog members (after_transitions members transitions (first_world rows)).cast other → one ≡ other }
{}

/// Each replica has learned a front of the log, and its launch table is the one that the clerk of these entries has.
pub fn a_replicas_table_is_the_clerks()
    ensures { (members : ℕ) (table : Table) (transitions : List Transition) → members ≤ 7
        → AreTransitions members table (first_world (first_rows table)) transitions
        → AllFollow members table (after_transitions members transitions (first_world (first_rows table))) }
{}

/// A replica stands for leader only where it was told to campaign, and starts only where it was told nothing.
pub fn a_replica_stands_at_a_campaign_alone()
    ensures stands { (members : ℕ) (table : Table) (world : World) (doing : Doing) (me ballot : ℕ) → MayDo members table world doing
        → doing.act ≡ Stand me ballot → doing.event ≡ Some Campaign }
    ensures starts { (members : ℕ) (table : Table) (world : World) (doing : Doing) (me : ℕ) → MayDo members table world doing
        → doing.act ≡ Restart me → doing.event ≡ None }
{}

/// The scheduler answers a replica only where it has called, for the launch that it called for.
pub fn each_answer_is_to_a_call()
    ensures { (rows : List JobRow) (doings : List Doing) (ending : Ending) → Contains (after_all doings (first_world rows)).answered ending
        → (doing : Doing) × Contains doings doing × (doing.by ≡ ending.to) × (doing.answer ≡ Some ending.kind)
        × (row : SchedRow) × (doing.act ≡ Call row) × (row.name.job ≡ ending.job) × (row.name.at ≡ ending.at) }
{}
