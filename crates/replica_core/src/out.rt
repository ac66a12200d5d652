use cluster_sched::SchedRow;
use paxos_base::Delta;
use replica_draft::LetterList;
use std::marker::Model;
use step_spec::LearntRow;

/// Entries that were learned, in the order of their slots. Contracts see the list.
#[derive(Debug, Drop)]
pub struct LearntList {
    pub items: Vec<LearntRow>,
}

impl Model for LearntList {
    ghost use Rattle.std.specs.Prelude.{List};
    ghost use Rattle.step_spec.specs.declared.out.LearntRow.{LearntRow};

    ghost Value = { List LearntRow };

    ghost view = { λ list. list.items.items };
}

/// What a step changes on the disk, and what it sends.
#[derive(Debug, Drop)]
pub struct Effects {
    pub delta: Option<Delta>,
    pub letters: LetterList,
}

/// What comes of a step, to be carried out in this order: what changes on the disk is stored, then letters leave and the
/// scheduler is called.
#[derive(Debug, Drop)]
pub struct StepOut {
    /// What changes on the disk.
    pub delta: Option<Delta>,
    /// At most one to each other replica.
    pub letters: LetterList,
    /// The entries that the replica has learned in this step.
    pub learnt: LearntList,
    /// A call of the scheduler.
    pub call: Option<SchedRow>,
}
