//! Rounds: each replica takes its steps on its own, and then their turns join the book in the order of the replicas' numbers.
ghost use Rattle.std.specs.Prelude.{◌≡◌, ◌<◌, ℕ, Some, OnOk, OnErr, slice_get};
ghost use Rattle.zone_minutes.specs.Window.{IsInWindow};
ghost use Rattle.script_semantics.specs.Arms.{AreRoundsByArms, PlaysByArms};
ghost use Rattle.script_semantics.specs.Round.{IsRound, round_tasks};
ghost use Rattle.world_law.specs.Book.{IsLegalBook};
ghost use Rattle.world_rounds.specs.Rounds.{AllTakeRounds, CommitsAll, MayTakeRound};
ghost use Rattle.world_rounds.specs.Taking.{MayCommitOwn};
ghost use Rattle.world_rounds.specs.World.{GoesOnBy, IsWorld, book_of};
ghost use Rattle.world_rounds.specs.declared.member.Member.{Member as Seat};

use crate::lanes::share_rounds;
use crate::member::Member;
use crate::world::World;
use cron_io::OutOfMemory;
use disk_model::{ArmedDisk, Disk};
use due_set::JobTable;
use std::thread::Threads;
use world_law::Book;
use zone_minutes::Minute;

// Each replica takes its steps of a round.
fn take_rounds<D: Disk>(
    members: &mut [Member<D>],
    table: &JobTable,
    book: &Book,
    at: Minute,
) -> Result<(), OutOfMemory>
    requires inside { IsInWindow table.now.window at.0 }
    requires may { (who : ℕ) (member : Seat D) → slice_get members.old who ≡ Some member → MayTakeRound D.view table.now book.now member }
    ensures takes { OnOk result (AllTakeRounds D.view table.now book.now at.0 members.old members.new) }
{
    'members: for member in members {
        member.take_round(table, book, at)?;
    }
    Ok(())
}

impl<D: Disk> World<D> {
    // The turns of the steps that the replicas have taken join the book, in the order of their numbers.
    fn commit_all(&mut self, table: &JobTable) -> Result<(), OutOfMemory>
        requires may { MayCommitOwn D.view table.now self.old }
        ensures commits { OnOk result (CommitsAll D.view table.now self.old self.new) }
        ensures legal { OnErr result (IsLegalBook table.now (book_of self.new)) }
    {
        let members = self.members.len() as u8;
        'whos: for who in 0..members {
            self.commit_steps(table, who)?;
        }
        Ok(())
    }

    // A round at an instant.
    pub(crate) fn round_once(&mut self, table: &JobTable, at: Minute) -> Result<(), OutOfMemory>
        requires world { IsWorld D.view table.now self.old }
        requires inside { IsInWindow table.now.window at.0 }
        ensures goes { OnOk result (GoesOnBy D.view table.now (IsRound (book_of self.old).members table.now.window at.0) self.old self.new) }
        ensures members { OnOk result ((book_of self.new).members ≡ (book_of self.old).members) }
        ensures legal { OnErr result (IsLegalBook table.now (book_of self.new)) }
    {
        let first = self.book.letters().len() as u64;
        take_rounds(&mut self.members, table, &self.book, at)?;
        self.commit_all(table)?;
        self.deliver(first)?;
        Ok(())
    }
}

impl<D: ArmedDisk + Send> World<D> {
    // A round at an instant, in so many lanes.
    fn round_in_lanes<R: Threads + Sync>(
        &mut self,
        rt: &R,
        table: &JobTable,
        at: Minute,
        lanes: u8,
    ) -> Result<(), OutOfMemory>
        requires lanes { 0 < lanes }
        requires world { IsWorld D.view table.now self.old }
        requires inside { IsInWindow table.now.window at.0 }
        ensures goes { OnOk result (GoesOnBy D.view table.now (IsRound (book_of self.old).members table.now.window at.0) self.old self.new) }
        ensures members { OnOk result ((book_of self.new).members ≡ (book_of self.old).members) }
        ensures legal { OnErr result (IsLegalBook table.now (book_of self.new)) }
    {
        let posted = self.book.letters().len() as u64;
        share_rounds(rt, &mut self.members, table, &self.book, at, lanes)?;
        self.commit_all(table)?;
        self.deliver(posted)?;
        Ok(())
    }

    // A round at an instant: where a disk is armed each step becomes a turn before the next one is taken, and else they are taken in lanes.
    fn round_by_arms<R: Threads + Sync>(
        &mut self,
        rt: &R,
        table: &JobTable,
        at: Minute,
        lanes: u8,
    ) -> Result<(), OutOfMemory>
        requires lanes { 0 < lanes }
        requires world { IsWorld D.view table.now self.old }
        requires inside { IsInWindow table.now.window at.0 }
        ensures goes { OnOk result (GoesOnBy D.view table.now
            (PlaysByArms (book_of self.old).members (round_tasks (book_of self.old).members table.now.window at.0)) self.old self.new) }
        ensures members { OnOk result ((book_of self.new).members ≡ (book_of self.old).members) }
        ensures legal { OnErr result (IsLegalBook table.now (book_of self.new)) }
    {
        if self.is_armed() {
            self.round_one_by_one(table, at)
        } else {
            self.round_in_lanes(rt, table, at, lanes)
        }
    }

    /// So many rounds at an instant, in so many lanes. One lane makes no thread, and more than there are replicas are as good as
    /// one for each. The turns are the same for every number of lanes; a round in which a disk is armed, or for which fewer than
    /// 512 letters wait, goes in one.
    pub fn round<R: Threads + Sync>(
        &mut self,
        rt: &R,
        table: &JobTable,
        at: Minute,
        rounds: u32,
        lanes: u8,
    ) -> Result<(), OutOfMemory>
        requires lanes { 0 < lanes }
        requires world { IsWorld D.view table.now self.old }
        requires inside { IsInWindow table.now.window at.0 }
        ensures goes { OnOk result (GoesOnBy D.view table.now (AreRoundsByArms (book_of self.old).members table.now.window at.0 rounds) self.old self.new) }
        ensures members { OnOk result ((book_of self.new).members ≡ (book_of self.old).members) }
        ensures legal { OnErr result (IsLegalBook table.now (book_of self.new)) }
    {
        'rounds: for _round in 0..rounds {
            self.round_by_arms(rt, table, at, lanes)?;
        }
        Ok(())
    }
}
