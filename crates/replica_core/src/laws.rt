//! Laws of a replica's step. Each is the contract of a function that does nothing.
ghost use Rattle.due_set.specs.Table.{Table};
ghost use Rattle.replica_core.specs.Outcome.{IsSameOutcome};
ghost use Rattle.replica_core.specs.Replica.{ReplicaState};
ghost use Rattle.replica_core.specs.Step.{IsSameReplica, IsOfTable, Steps};
ghost use Rattle.replica_core.specs.declared.input.Input.{Input};
ghost use Rattle.replica_core.specs.declared.out.StepOut.{StepOut};

/// The replica and what it is told settle what comes of a step, whatever room the replica has: of two replicas that are
/// alike but for their room, and are told the same, all but the room that they have afterwards.
pub fn a_step_has_one_outcome()
    ensures { (table : Table) (input : Input) (old other one two : ReplicaState) (first second : StepOut) → IsSameReplica old other
        → Steps table input old one first → Steps table input other two second → IsSameOutcome one two first second }
{}

/// After a step a replica is one of the same table of jobs.
pub fn a_step_keeps_the_table()
    ensures { (table : Table) (input : Input) (old new : ReplicaState) (out : StepOut) → Steps table input old new out → IsOfTable table new }
{}
