//! What settling begins with: all that are stopped start again, faults end, and the replica that has learned the most is found.
ghost use Rattle.std.specs.Prelude.{◌≡◌, ◌⊎◌, ◌-◌, ◌<◌, ◌≤◌, ℕ, Some, OnOk, OnErr, length, nat_lt, if◌then◌else◌, slice_get};
ghost use Rattle.step_spec.specs.State.{State, prefix_of};
ghost use Rattle.replica_node.specs.Node.{replica_of};
ghost use Rattle.script_semantics.specs.Commands.{Plain};
ghost use Rattle.script_semantics.specs.Settling.{cleared, coordinator, furthest, restart_tasks};
ghost use Rattle.script_semantics.specs.Situation.{Situation};
ghost use Rattle.world_law.specs.Book.{IsLegalBook};
ghost use Rattle.world_rounds.specs.Cleared.{AreCleared, HaveLearned, RestartsAll};
ghost use Rattle.world_rounds.specs.Mails.{Changes};
ghost use Rattle.world_rounds.specs.Quiet.{AllRun, IsIn};
ghost use Rattle.world_rounds.specs.World.{GoesOnBy, IsWorld, book_of};
ghost use Rattle.world_rounds.specs.declared.member.Member.{Member as Seat};

use crate::member::Member;
use crate::world::World;
use cluster_sched::Fate;
use cron_io::OutOfMemory;
use disk_model::Disk;
use due_set::JobTable;

// No letter waits for a replica, its clock is right, its next call is answered, and its disk isn't armed.
fn clear_all<D>(members: &mut [Member<D>])
    ensures { AreCleared members.old members.new }
{
    'members: for member in members {
        member.mail.letters.clear();
        member.mail.skew = 0;
        member.mail.fate = Fate::Done;
        member.mail.arm = None;
    }
}

// The one of two replicas that has learned more, or the first where both have learned as much.
fn further<D: Disk>(members: &[Member<D>], one: u8, other: u8) -> u8
    requires one { one < length members.now }
    requires other { other < length members.now }
    ensures one_of { (result ≡ one) ⊎ (result ≡ other) }
    ensures more { (replicas : ℕ → State) → HaveLearned replicas members.now
        → result ≡ (if nat_lt (prefix_of (replicas one)) (prefix_of (replicas other)) then other else one) }
{
    if members[one as usize].prefix() < members[other as usize].prefix() {
        other
    } else {
        one
    }
}

// The replica that has learned the most; of those that have learned as much, the one of the lowest number.
fn furthest<D: Disk>(members: &[Member<D>]) -> u8
    requires some { 0 < length members.now }
    requires few { length members.now ≤ 7 }
    ensures is { (replicas : ℕ → State) → HaveLearned replicas members.now → result ≡ furthest replicas (length members.now - 1) }
    ensures member { result < length members.now }
{
    let mut best = 0u8;
    'others: for other in 1..members.len() as u8 {
        best = further(members, best, other);
    }
    best
}

impl<D: Disk> World<D> {
    // All that are stopped start again.
    fn restart_all(&mut self, table: &JobTable) -> Result<(), OutOfMemory>
        requires world { IsWorld D.view table.now self.old }
        ensures goes { OnOk result (GoesOnBy D.view table.now (RestartsAll (book_of self.old).members) self.old self.new) }
        ensures members { OnOk result ((book_of self.new).members ≡ (book_of self.old).members) }
        ensures legal { OnErr result (IsLegalBook table.now (book_of self.new)) }
    {
        let members = self.members.len() as u8;
        'whos: for who in 0..members {
            self.restart(table, who)?;
        }
        Ok(())
    }

    // No letter waits or is lost, each clock is right, each call is answered, and no disk is armed.
    fn end_faults(&mut self)
        ensures sets { Changes D.view cleared self.old self.new }
        ensures book { book_of self.new ≡ book_of self.old }
    {
        self.cuts.clear();
        clear_all(&mut self.members);
    }

    // All start that are stopped, and faults end.
    pub(crate) fn start_over(&mut self, table: &JobTable) -> Result<(), OutOfMemory>
        requires world { IsWorld D.view table.now self.old }
        ensures goes { OnOk result (GoesOnBy D.view table.now
            (Plain (book_of self.old).members (restart_tasks (book_of self.old).members) cleared) self.old self.new) }
        ensures run { OnOk result (AllRun self.new) }
        ensures members { OnOk result ((book_of self.new).members ≡ (book_of self.old).members) }
        ensures legal { OnErr result (IsLegalBook table.now (book_of self.new)) }
    {
        self.restart_all(table)?;
        self.end_faults();
        Ok(())
    }

    // The replica that is to lead.
    pub(crate) fn coordinator(&self, table: &JobTable) -> u8
        requires world { IsWorld D.view table.now self.now }
        requires run { AllRun self.now }
        requires some { 0 < (book_of self.now).members }
        ensures is { (situation : Situation) → IsIn D.view table.now self.now situation → result ≡ coordinator (book_of self.now).members situation }
        ensures member { result < length self.now.members.items }
    {
        furthest(&self.members)
    }
}
