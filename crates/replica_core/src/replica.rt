ghost use Rattle.std.specs.Prelude.{◌≡◌, ◌↔◌, ◌<◌, ◌≤◌, ◌^◌, IsTrue, List, IfOk, OnErr, OnOk, length};
ghost use Rattle.std.specs.Option.{option_copied, option_to_list};
ghost use Rattle.launch_machine.specs.Clerk.{table_size};
ghost use Rattle.paxos_base.specs.Rows.{RowsStand};
ghost use Rattle.step_spec.specs.Act.{Act};
ghost use Rattle.step_spec.specs.Folds.{deltas_of};
ghost use Rattle.step_spec.specs.State.{prefix_of, started};
ghost use Rattle.replica_core.specs.Replica.{IsSmall, ReplicaState};
ghost use Rattle.replica_core.specs.Step.{CanTake, IsSameReplica, IsInputInside, IsOfTable, IsUnplanned, Plans, PlansStep, Steps, Takes, fault_in, fault_told};

use crate::input::{Input, StepFault};
use crate::out::{Effects, StepOut};
use crate::parts::Core;
use cron_io::OutOfMemory;
use due_set::JobTable;
use launch_machine::Machine;
use paxos_base::{Delta, Durable};
use replica_draft::{Draft, LetterList};
use std::marker::Model;
use term_core::Term;

/// One replica of the log. What is said of it is said for one table of jobs.
#[derive(Debug, Drop)]
pub struct Replica {
    core: Core,
}

impl Model for Replica {
    ghost use Rattle.replica_core.specs.Replica.{IsWhole, ReplicaState, replica_of_core};

    ghost Value = { ReplicaState };

    ghost view = { λ replica. replica_of_core replica.core };

    ghost invariant = { λ replica. IsWhole replica.core };
}

/// A step that is planned, and not taken yet.
#[derive(Debug, Drop)]
pub struct Planned {
    draft: Draft,
    effects: Effects,
}

impl Planned {
    /// What the step changes on the disk.
    pub fn delta(&self) -> Option<&Delta>
        ensures { (replica : ReplicaState) (acts : List Act) → Plans replica acts self.now → deltas_of acts ≡ option_to_list (option_copied result) }
    {
        self.effects.delta.as_ref()
    }
}

impl Replica {
    /// A replica that starts, for the first time or again, with what is on its disk.
    pub fn start(
        me: u8,
        members: u8,
        table: &JobTable,
        durable: Durable,
    ) -> Result<Replica, OutOfMemory>
        requires me { me < members }
        requires few { members ≤ 7 }
        requires rows { RowsStand durable.rows (table_size table.now) }
        requires tried { durable.tried < 2 ^ 61 }
        ensures identity { IfOk result (λ replica. replica.identity ≡ record { me = me; members = members }) }
        ensures state { IfOk result (λ replica. replica.state ≡ started me durable) }
        ensures machine { IfOk result (λ replica. replica.machine.rows ≡ durable.rows) }
        ensures of_table { IfOk result (λ replica. IsOfTable table.now replica) }
    {
        Ok(Replica {
            core: Core::start(me, members, table, durable)?,
        })
    }

    /// An equal replica, but for the room that it has.
    pub fn copy(&self) -> Result<Replica, OutOfMemory>
        ensures { IfOk result (λ copy. IsSameReplica copy self.now) }
    {
        Ok(Replica {
            core: self.core.copy()?,
        })
    }

    /// The first slot whose entry has not been learned.
    pub fn prefix(&self) -> u64
        ensures { result ≡ prefix_of self.now.state }
    {
        self.core.learner.prefix()
    }

    /// Its term as a proposer.
    pub fn term(&self) -> &Term
        ensures { result.now ≡ self.now.state.term }
    {
        &self.core.term
    }

    /// Its launch table.
    pub fn machine(&self) -> &Machine
        ensures { result.now ≡ self.now.machine }
    {
        &self.core.machine
    }

    /// Whether the replica is small enough for a step: the rounds of the ballots that it has tried and seen are below 2^59, the
    /// first slot that it has not learned is below 2^62, and the counts of its rows are below 2^31.
    pub fn is_small(&self) -> bool
        ensures { IsTrue result ↔ IsSmall self.now.state self.now.machine.rows }
    {
        self.core.is_small()
    }

    /// A step in which nothing is planned yet.
    #[inline(always)]
    pub fn begin(&self) -> Planned
        ensures { IsUnplanned self.now result }
    {
        Planned {
            draft: self.core.begin(),
            effects: Effects {
                delta: None,
                letters: LetterList {
                    items: Vec::new(self.core.alloc),
                },
            },
        }
    }

    /// Plans a step in one in which nothing is planned yet, and makes the room that it needs. The replica stays as it is.
    ///
    /// # Errors
    ///
    /// Bytes that are no letter, or want of memory, where they are one. The replica stays as it is also then.
    #[inline(always)]
    pub fn plan(
        &mut self,
        table: &JobTable,
        input: Input<'_>,
        planned: &mut Planned,
    ) -> Result<(), StepFault>
        requires idle { IsUnplanned self.old planned.old }
        requires of_table { IsOfTable table.now self.old }
        requires small { IsSmall self.old.state self.old.machine.rows }
        requires inside { IsInputInside table.now input }
        ensures alike { IsSameReplica self.new self.old }
        ensures planned { OnOk result (PlansStep table.now input.entry self.old planned.new) }
        ensures can { OnOk result (CanTake table.now self.new planned.new) }
        // The bytes of a letter are refused exactly where they break a rule, for the first that they break.
        ensures fault { fault_told result ≡ fault_in self.old.identity.members input.entry }
    {
        planned.effects = self.core.prepare(table, &mut planned.draft, input)?;
        Ok(())
    }

    /// Takes a step that it has planned. This needs no memory, and can't refuse.
    #[inline(always)]
    pub fn complete(&mut self, table: &JobTable, planned: Planned) -> StepOut
        requires of_table { IsOfTable table.now self.old }
        requires small { IsSmall self.old.state self.old.machine.rows }
        requires can { CanTake table.now self.old planned }
        ensures { (acts : List Act) → Plans self.old acts planned → Takes table.now self.old self.new acts result }
    {
        self.core.commit(table, planned.draft, planned.effects)
    }

    /// What the replica does at an input: a step planned, and taken at once.
    ///
    /// # Errors
    ///
    /// Bytes that are no letter, or want of memory, where they are one. The replica is as it was.
    pub fn step(&mut self, table: &JobTable, input: Input<'_>) -> Result<StepOut, StepFault>
        requires of_table { IsOfTable table.now self.old }
        requires small { IsSmall self.old.state self.old.machine.rows }
        requires inside { IsInputInside table.now input }
        ensures steps { IfOk result (λ out. Steps table.now input.entry self.old self.new out) }
        ensures err { OnErr result (IsSameReplica self.new self.old) }
        // The bytes of a letter are refused exactly where they break a rule, for the first that they break.
        ensures fault { fault_told result ≡ fault_in self.old.identity.members input.entry }
    {
        let mut draft = self.core.begin();
        let effects = self.core.prepare(table, &mut draft, input)?;
        Ok(self.core.commit(table, draft, effects))
    }
}
