//! Whether a replica has nothing left to do, and whether it is quiet.
ghost use Rattle.std.specs.Prelude.{◌≡◌, ◌↔◌, ◌<◌, ℕ, ℤ, IsTrue, Some, length, slice_get};
ghost use Rattle.zone_minutes.specs.Window.{IsInWindow};
ghost use Rattle.step_spec.specs.State.{prefix_of};
ghost use Rattle.replica_core.specs.Replica.{ReplicaState};
ghost use Rattle.replica_core.specs.Step.{IsOfTable};
ghost use Rattle.replica_node.specs.Node.{replica_of};
ghost use Rattle.script_semantics.specs.Settling.{AsksNothing, IsFreeTerm, IsQuiet};
ghost use Rattle.settling.specs.Idle.{IsIdleAt};
ghost use Rattle.world_rounds.specs.Quiet.{AllRun, AnswersFor};
ghost use Rattle.step_spec.specs.May.{IsFollower};
ghost use Rattle.world_rounds.specs.World.{IsWorld, book_of};
ghost use Rattle.world_rounds.specs.declared.member.Member.{Member as Seat};

use crate::member::Member;
use crate::world::World;
use disk_model::Disk;
use due_set::JobTable;
use launch_machine::Intent;
use paxos_base::place_of;
use replica_core::Replica;
use term_core::Term;
use zone_minutes::Minute;

// Whether a term leads without a flight, and no vote binds it at this slot or behind it.
fn is_free(term: &Term, prefix: u64) -> bool
    ensures { IsTrue result ↔ IsFreeTerm prefix term.now }
{
    match term {
        Term::Leader { best, flight, .. } => match flight {
            Some(_) => false,
            None => place_of(&best.items, prefix) == best.items.len(),
        },
        _ => false,
    }
}

// Whether a term is a follower's.
fn is_follower(term: &Term) -> bool
    ensures { IsTrue result ↔ IsFollower term.now }
{
    match term {
        Term::Follower { .. } => true,
        _ => false,
    }
}

// Whether a replica's launch table asks for nothing at an instant.
fn asks_nothing(replica: &Replica, table: &JobTable, at: Minute) -> bool
    requires of_table { IsOfTable table.now replica.now }
    requires inside { IsInWindow table.now.window at.0 }
    ensures { IsTrue result ↔ AsksNothing table.now at.0 replica.now.state }
{
    match replica.machine().choose(table, at) {
        Intent::Rest => true,
        _ => false,
    }
}

// Whether all replicas have learned just the entries below this slot.
fn are_caught_up<D: Disk>(members: &[Member<D>], prefix: u64) -> bool
    ensures { IsTrue result ↔ ((who : ℕ) (member : Seat D) → slice_get members.now who ≡ Some member → prefix_of (replica_of member.node).state ≡ prefix) }
{
    'members: for member in members {
        if member.prefix() != prefix {
            return false;
        }
    }
    true
}

impl<D: Disk> World<D> {
    // Whether the launch table of a replica asks for nothing at an instant.
    pub(crate) fn asks_nothing(&self, table: &JobTable, who: u8, at: Minute) -> bool
        requires world { IsWorld D.view table.now self.now }
        requires run { AllRun self.now }
        requires member { who < length self.now.members.items }
        requires inside { IsInWindow table.now.window at.0 }
        ensures { AnswersFor D.view table.now (λ situation. AsksNothing table.now at.0 (situation.standing.replicas who)) self.now result }
    {
        asks_nothing(self.members[who as usize].node.replica(), table, at)
    }

    // Whether a replica follows.
    pub(crate) fn follows(&self, table: &JobTable, who: u8) -> bool
        requires world { IsWorld D.view table.now self.now }
        requires run { AllRun self.now }
        requires member { who < length self.now.members.items }
        ensures { AnswersFor D.view table.now (λ situation. IsFollower (situation.standing.replicas who).term) self.now result }
    {
        is_follower(self.members[who as usize].node.replica().term())
    }

    // Whether a replica leads and has nothing left to do at an instant.
    pub(crate) fn is_idle(&self, table: &JobTable, who: u8, at: Minute) -> bool
        requires world { IsWorld D.view table.now self.now }
        requires run { AllRun self.now }
        requires member { who < length self.now.members.items }
        requires inside { IsInWindow table.now.window at.0 }
        ensures { AnswersFor D.view table.now (IsIdleAt table.now who at.0) self.now result }
    {
        let member = &self.members[who as usize];
        if member.mail.waits.is_some() {
            return false;
        }
        let replica = member.node.replica();
        if !is_free(replica.term(), replica.prefix()) {
            return false;
        }
        asks_nothing(replica, table, at)
    }

    // Whether it is quiet: the replica leads and has nothing left to do, and all have learned as much.
    pub(crate) fn is_quiet(&self, table: &JobTable, who: u8, at: Minute) -> bool
        requires world { IsWorld D.view table.now self.now }
        requires run { AllRun self.now }
        requires member { who < length self.now.members.items }
        requires inside { IsInWindow table.now.window at.0 }
        ensures { AnswersFor D.view table.now (IsQuiet (book_of self.now).members table.now who at.0) self.now result }
    {
        let prefix = self.members[who as usize].prefix();
        self.is_idle(table, who, at) && are_caught_up(&self.members, prefix)
    }
}
