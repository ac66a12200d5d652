//! Turns that are taken one by one, also where disks are armed: each step of a replica becomes a turn before the next one is taken. Where
//! a disk stops within a step it is revived and attached at once, and its replica is stopped.
ghost use Rattle.std.specs.Prelude.{◌≡◌, ◌<◌, ◌≤◌, ◌∷◌, ℕ, true, false, [], List, None, Some, IsSome, IfOk, OnOk, OnErr, length, slice_get};
ghost use Rattle.zone_minutes.specs.Window.{IsInWindow};
ghost use Rattle.history.specs.Book.{Row};
ghost use Rattle.history.specs.declared.turn.Cause.TheVariants as because;
ghost use Rattle.script_semantics.specs.Arms.{PlaysByArms};
ghost use Rattle.disk_model.specs.declared.armed.Arm.{Arm};
ghost use Rattle.script_semantics.specs.Round.{answer_tasks, clock_reading, hear_tasks, round_tasks, tasks_of};
ghost use Rattle.script_semantics.specs.Script.{IsPartOf};
ghost use Rattle.script_semantics.specs.Situation.{Do, Situation};
ghost use Rattle.script_text.specs.declared.command.Command.TheVariants as command;
ghost use Rattle.world_law.specs.Book.{IsLegalBook};
ghost use Rattle.world_steps.specs.Steps.{IsToldOf};
ghost use Rattle.world_rounds.specs.OneByOne.{CanTell, EndsStep, HasPassed, HasStepped, IsLed, IsLedOn, KeepsRest, MayCommitStopped, MayStepFor, MayTakeBeside, letters_behind};
ghost use Rattle.world_rounds.specs.Rounds.{IsMemberIdle};
ghost use Rattle.world_rounds.specs.World.{GoesOnBy, IsWorld, IsWorldAt, book_of};
ghost use Rattle.world_rounds.specs.declared.member.Member.{Member as Seat};

use crate::alone::commit_alone;
use crate::member::Member;
use crate::world::World;
use cluster_sched::SchedRow;
use cron_io::OutOfMemory;
use disk_model::ArmedDisk;
use due_set::JobTable;
use history::{Cause, Turn};
use paxos_base::Delta;
use replica_core::Input;
use std::alloc::Global;
use world_law::Book;
use world_steps::{
    MemberMail, Outcome, letter_at, note_stop, reading_of, reading_with, take_by_arm,
};
use zone_minutes::Minute;

// By which input a replica is told of a cause.
fn input_for<'a>(book: &'a Book, waits: Option<SchedRow>, cause: Cause) -> Input<'a>
    requires can { (who : ℕ) × CanTell book.now.letters waits who cause }
    ensures told { (who : ℕ) → CanTell book.now.letters waits who cause → IsToldOf book.now.letters waits who cause result }
{
    match cause {
        Cause::Campaign => Input::Campaign,
        Cause::Tick { now } => Input::Tick { now },
        Cause::Hear { letter } => Input::Hear {
            bytes: letter_at(book, letter).bytes.bytes(),
        },
        Cause::Answer => match waits {
            Some(row) => Input::Answer {
                job: row.name.job,
                at: row.name.at,
                kind: row.kind,
            },
            None => unreachable!(),
        },
    }
}

// A letter that is heard leaves the mail.
fn hear(mail: &mut MemberMail, cause: Cause)
    ensures letters { mail.new.letters.items ≡ letters_behind cause mail.old.letters.items }
    ensures set { mail.new ≡ record mail.old { letters = mail.new.letters } }
{
    if let Cause::Hear { .. } = cause {
        mail.letters.pop_front();
    }
}

impl<D: ArmedDisk> Member<D> {
    // Takes its step for a cause. A letter that it hears leaves its mail.
    fn take_next(
        &mut self,
        alloc: Global,
        table: &JobTable,
        book: &Book,
        who: u8,
        members: u8,
        cause: Cause,
    ) -> Result<Outcome, OutOfMemory>
        requires members { members ≡ book.now.members }
        requires member { who < members }
        requires may { MayTakeBeside D.view table.now book.now who cause self.old }
        ensures ends { IfOk result (λ ended. (rows : List Row) (situation : Situation)
            → IsMemberIdle D.view table.now rows book.now situation who self.old → MayStepFor table.now.window situation who cause
            → EndsStep D.view table.now rows book.now situation who cause ended self.new) }
        ensures rest { IfOk result (λ ended. KeepsRest ended self.old self.new) }
    {
        let input = input_for(book, self.mail.waits, cause);
        let ended = take_by_arm(
            &mut self.node,
            alloc,
            table,
            who,
            members,
            self.mail.arm,
            book.turns().len(),
            cause,
            input,
        )?;
        match ended {
            Outcome::Taken(taken) => {
                hear(&mut self.mail, cause);
                Ok(Outcome::Taken(taken))
            }
            Outcome::Stopped(change) => Ok(Outcome::Stopped(change)),
        }
    }
}

impl<D: ArmedDisk> World<D> {
    // The turn of a replica whose disk has stopped within a step for a cause joins the book, with the change that was kept.
    fn commit_stopped(
        &mut self,
        table: &JobTable,
        who: u8,
        cause: Cause,
        change: Option<Delta>,
    ) -> Result<(), OutOfMemory>
        requires may { (rows : List Row) × (situation : Situation) × (arm : Arm)
            × MayCommitStopped D.view table.now rows self.old situation who cause arm change }
        requires member { who < length self.old.members.items }
        ensures stops { OnOk result ((rows : List Row) (situation : Situation) (arm : Arm)
            → MayCommitStopped D.view table.now rows self.old situation who cause arm change
            → HasStepped D.view table.now (book_of self.old).members rows situation who cause false self.new) }
        ensures members { OnOk result ((book_of self.new).members ≡ (book_of self.old).members) }
        ensures legal { OnErr result (IsLegalBook table.now (book_of self.new)) }
    {
        let turn = Turn::Stopped {
            who,
            cause: Some(cause),
            kept: change.is_some(),
        };
        commit_alone(self.alloc, &mut self.book, table, turn, change)?;
        note_stop(&mut self.members[who as usize].mail);
        self.latest = reading_with(cause, self.latest);
        Ok(())
    }

    // A replica takes its step for a cause, and its turn joins the book. Whether the replica goes on.
    fn step_next(&mut self, table: &JobTable, who: u8, cause: Cause) -> Result<bool, OutOfMemory>
        requires may { (rows : List Row) × (situation : Situation) × IsWorldAt D.view table.now rows self.old situation
            × MayStepFor table.now.window situation who cause }
        requires member { who < length self.old.members.items }
        ensures steps { IfOk result (λ goes. (rows : List Row) (situation : Situation) → IsWorldAt D.view table.now rows self.old situation
            → MayStepFor table.now.window situation who cause
            → HasStepped D.view table.now (book_of self.old).members rows situation who cause goes self.new) }
        ensures members { OnOk result ((book_of self.new).members ≡ (book_of self.old).members) }
        ensures legal { OnErr result (IsLegalBook table.now (book_of self.new)) }
    {
        let members = self.members.len() as u8;
        let member = &mut self.members[who as usize];
        match member.take_next(self.alloc, table, &self.book, who, members, cause)? {
            Outcome::Taken(taken) => {
                self.commit_taken(table, who, taken)?;
                Ok(true)
            }
            Outcome::Stopped(change) => {
                self.commit_stopped(table, who, cause, change)?;
                Ok(false)
            }
        }
    }

    // A replica that runs takes the answer that waits for it, where one does. Whether it goes on.
    fn answer_next(&mut self, table: &JobTable, who: u8) -> Result<bool, OutOfMemory>
        requires world { IsWorld D.view table.now self.old }
        requires member { who < length self.old.members.items }
        requires runs { (member : Seat D) → slice_get self.old.members.items who ≡ Some member → member.mail.runs ≡ true }
        ensures led { IfOk result (λ goes. (rows : List Row) (situation : Situation) → IsWorldAt D.view table.now rows self.old situation
            → IsLedOn D.view table.now (book_of self.old).members rows situation who (answer_tasks who (situation.standing.waits who)) goes self.new) }
        ensures members { OnOk result ((book_of self.new).members ≡ (book_of self.old).members) }
        ensures legal { OnErr result (IsLegalBook table.now (book_of self.new)) }
    {
        if self.members[who as usize].mail.waits.is_none() {
            return Ok(true);
        }
        self.step_next(table, who, Cause::Answer)
    }

    // A replica that runs hears the letters of its mail, one after another. Whether it goes on.
    fn hear_next(&mut self, table: &JobTable, who: u8) -> Result<bool, OutOfMemory>
        requires world { IsWorld D.view table.now self.old }
        requires member { who < length self.old.members.items }
        requires runs { (member : Seat D) → slice_get self.old.members.items who ≡ Some member → member.mail.runs ≡ true }
        ensures led { IfOk result (λ goes. (rows : List Row) (situation : Situation) → IsWorldAt D.view table.now rows self.old situation
            → IsLed D.view table.now (book_of self.old).members rows situation who (hear_tasks who (situation.mails who)) goes self.new) }
        ensures members { OnOk result ((book_of self.new).members ≡ (book_of self.old).members) }
        ensures legal { OnErr result (IsLegalBook table.now (book_of self.new)) }
    {
        let count = self.members[who as usize].mail.letters.len();
        'letters: for _heard in 0..count {
            let letter = self.members[who as usize].mail.letters[0];
            if !self.step_next(table, who, Cause::Hear { letter })? {
                return Ok(false);
            }
        }
        Ok(true)
    }

    // The clock of a replica that runs ticks.
    fn tick_next(&mut self, table: &JobTable, who: u8, at: Minute) -> Result<bool, OutOfMemory>
        requires world { IsWorld D.view table.now self.old }
        requires inside { IsInWindow table.now.window at.0 }
        requires member { who < length self.old.members.items }
        requires runs { (member : Seat D) → slice_get self.old.members.items who ≡ Some member → member.mail.runs ≡ true }
        ensures led { IfOk result (λ goes. (rows : List Row) (situation : Situation) → IsWorldAt D.view table.now rows self.old situation
            → IsLed D.view table.now (book_of self.old).members rows situation who
            (Do who (because.Tick (clock_reading table.now.window at.0 (situation.skews who))) ∷ []) goes self.new) }
        ensures members { OnOk result ((book_of self.new).members ≡ (book_of self.old).members) }
        ensures legal { OnErr result (IsLegalBook table.now (book_of self.new)) }
    {
        let now = reading_of(&self.members[who as usize].mail, table.window(), at);
        self.step_next(table, who, Cause::Tick { now })
    }

    // A replica takes what a round has for it, as far as it goes on.
    fn round_of(&mut self, table: &JobTable, who: u8, at: Minute) -> Result<(), OutOfMemory>
        requires world { IsWorld D.view table.now self.old }
        requires inside { IsInWindow table.now.window at.0 }
        requires member { who < length self.old.members.items }
        ensures passes { OnOk result ((rows : List Row) (situation : Situation) → IsWorldAt D.view table.now rows self.old situation
            → HasPassed D.view table.now (book_of self.old).members rows situation (tasks_of table.now.window at.0 situation who) self.new) }
        ensures members { OnOk result ((book_of self.new).members ≡ (book_of self.old).members) }
        ensures legal { OnErr result (IsLegalBook table.now (book_of self.new)) }
    {
        if !self.members[who as usize].mail.runs {
            return Ok(());
        }
        if !self.answer_next(table, who)? {
            return Ok(());
        }
        if !self.hear_next(table, who)? {
            return Ok(());
        }
        self.tick_next(table, who, at)?;
        Ok(())
    }

    // A round at an instant, in which each step becomes a turn before the next one is taken.
    pub(crate) fn round_one_by_one(
        &mut self,
        table: &JobTable,
        at: Minute,
    ) -> Result<(), OutOfMemory>
        requires world { IsWorld D.view table.now self.old }
        requires inside { IsInWindow table.now.window at.0 }
        ensures goes { OnOk result (GoesOnBy D.view table.now
            (PlaysByArms (book_of self.old).members (round_tasks (book_of self.old).members table.now.window at.0)) self.old self.new) }
        ensures members { OnOk result ((book_of self.new).members ≡ (book_of self.old).members) }
        ensures legal { OnErr result (IsLegalBook table.now (book_of self.new)) }
    {
        let posted = self.book.letters().len() as u64;
        let members = self.members.len() as u8;
        'whos: for who in 0..members {
            self.round_of(table, who, at)?;
        }
        self.deliver(posted)?;
        Ok(())
    }

    // A replica stands for leader, if it runs.
    pub(crate) fn campaign(&mut self, table: &JobTable, who: u8) -> Result<(), OutOfMemory>
        requires world { IsWorld D.view table.now self.old }
        requires member { who < length self.old.members.items }
        ensures goes { OnOk result (GoesOnBy D.view table.now (IsPartOf (book_of self.old).members table.now (command.Campaign who)) self.old self.new) }
        ensures members { OnOk result ((book_of self.new).members ≡ (book_of self.old).members) }
        ensures legal { OnErr result (IsLegalBook table.now (book_of self.new)) }
    {
        if !self.members[who as usize].mail.runs {
            return Ok(());
        }
        let posted = self.book.letters().len() as u64;
        self.step_next(table, who, Cause::Campaign)?;
        self.deliver(posted)?;
        Ok(())
    }

    // Whether the disk of a replica is armed.
    pub(crate) fn is_armed(&self) -> bool
        ensures { result ≡ false → (who : ℕ) (member : Seat D) → slice_get self.now.members.items who ≡ Some member → member.mail.arm ≡ None }
    {
        'members: for member in &self.members {
            if member.mail.arm.is_some() {
                return true;
            }
        }
        false
    }
}
