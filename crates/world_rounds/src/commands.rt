//! The commands of a script.
ghost use Rattle.std.specs.Prelude.{◌≡◌, ◌<◌, OnOk, OnErr, length};
ghost use Rattle.cluster_sched.specs.declared.fate.Fate.{Fate as Becomes};
ghost use Rattle.script_semantics.specs.Arms.{armed_by};
ghost use Rattle.script_semantics.specs.Commands.{Plain, fate_of, set_by, tasks_for};
ghost use Rattle.script_semantics.specs.Script.{IsPartOf};
ghost use Rattle.script_text.specs.declared.command.Command.TheVariants as command;
ghost use Rattle.world_law.specs.Book.{IsLegalBook};
ghost use Rattle.world_rounds.specs.Commands.{IsTaken};
ghost use Rattle.world_rounds.specs.Mails.{Changes};
ghost use Rattle.script_text.specs.Command.{IsSkew};
ghost use Rattle.world_rounds.specs.World.{GoesOnBy, IsWorld, book_of};

use crate::world::World;
use cluster_sched::Fate;
use cron_io::OutOfMemory;
use disk_model::{Arm, ArmedDisk, Disk};
use due_set::JobTable;
use script_text::{Command, FateWord};
use std::thread::Threads;

// The fate that a word stands for.
fn fate_of(word: FateWord) -> Fate
    ensures { result ≡ fate_of word }
{
    match word {
        FateWord::Done => Fate::Done,
        FateWord::LostBefore => Fate::LostBefore,
        FateWord::LostAfter => Fate::LostAfter,
        FateWord::Late => Fate::Late,
    }
}

impl<D: Disk> World<D> {
    // Letters from the one replica to the other are lost from now on.
    fn cut(&mut self, from: u8, to: u8) -> Result<(), OutOfMemory>
        ensures sets { OnOk result (Changes D.view (set_by (command.Cut from to)) self.old self.new) }
        ensures book { book_of self.new ≡ book_of self.old }
    {
        self.cuts.push((from, to))?;
        Ok(())
    }

    // No letter is lost from now on.
    fn heal(&mut self)
        ensures sets { Changes D.view (set_by command.Heal) self.old self.new }
        ensures book { book_of self.new ≡ book_of self.old }
    {
        self.cuts.clear();
    }

    // A replica's clock is so many minutes ahead.
    fn skew(&mut self, who: u8, minutes: i64)
        requires member { who < length self.old.members.items }
        requires small { IsSkew minutes }
        ensures sets { Changes D.view (set_by (command.Skew who minutes)) self.old self.new }
        ensures book { book_of self.new ≡ book_of self.old }
    {
        self.members[who as usize].mail.skew = minutes;
    }

    // What becomes of a replica's next call.
    fn set_fate(&mut self, who: u8, word: FateWord)
        requires member { who < length self.old.members.items }
        ensures sets { Changes D.view (set_by (command.Fate who word)) self.old self.new }
        ensures book { book_of self.new ≡ book_of self.old }
    {
        self.members[who as usize].mail.fate = fate_of(word);
    }

    // The disk of a replica is armed anew, if the replica runs.
    fn arm(&mut self, who: u8, pass: u32, image: u32)
        requires member { who < length self.old.members.items }
        ensures sets { Changes D.view (armed_by who pass image) self.old self.new }
        ensures book { book_of self.new ≡ book_of self.old }
    {
        let mail = &mut self.members[who as usize].mail;
        if mail.runs {
            mail.arm = Some(Arm { left: pass, image });
        }
    }

    // A replica stands for leader, if it runs, on a disk that isn't armed.
    pub(crate) fn stand(&mut self, table: &JobTable, who: u8) -> Result<(), OutOfMemory>
        requires world { IsWorld D.view table.now self.old }
        requires member { who < length self.old.members.items }
        ensures goes { OnOk result (GoesOnBy D.view table.now
            (Plain (book_of self.old).members (tasks_for (command.Campaign who)) (set_by (command.Campaign who))) self.old self.new) }
        ensures members { OnOk result ((book_of self.new).members ≡ (book_of self.old).members) }
        ensures legal { OnErr result (IsLegalBook table.now (book_of self.new)) }
    {
        if !self.members[who as usize].mail.runs {
            return Ok(());
        }
        let first = self.book.letters().len() as u64;
        self.members[who as usize].take_campaign(table, &self.book)?;
        self.commit_steps(table, who)?;
        self.deliver(first)?;
        Ok(())
    }
}

impl<D: ArmedDisk + Send> World<D> {
    /// Does what a command says, rounds in so many lanes: the turns that it adds are those of its part.
    ///
    /// # Errors
    ///
    /// Want of memory. The world takes no more calls then, and its book is legal.
    pub fn command<R: Threads + Sync>(
        &mut self,
        rt: &R,
        table: &JobTable,
        command: &Command,
        lanes: u8,
    ) -> Result<(), OutOfMemory>
        requires lanes { 0 < lanes }
        requires world { IsWorld D.view table.now self.old }
        requires taken { IsTaken table.now.window (book_of self.old).members command.now }
        ensures goes { OnOk result (GoesOnBy D.view table.now (IsPartOf (book_of self.old).members table.now command.now) self.old self.new) }
        ensures members { OnOk result ((book_of self.new).members ≡ (book_of self.old).members) }
        ensures legal { OnErr result (IsLegalBook table.now (book_of self.new)) }
    {
        match *command {
            Command::Round { at, rounds } => self.round(rt, table, at, rounds, lanes),
            Command::Campaign { member } => self.campaign(table, member),
            Command::Stop { member } => self.stop(table, member),
            Command::Cut { from, to } => self.cut(from, to),
            Command::Heal => Ok(self.heal()),
            Command::Drop { from, to } => Ok(self.drop_letters(from, to)),
            Command::Repeat { from, to } => self.repeat_letters(from, to),
            Command::Reverse { member } => Ok(self.reverse_letters(member)),
            Command::Again { letter } => self.send_again(letter),
            Command::Skew { member, minutes } => Ok(self.skew(member, minutes)),
            Command::Fate { member, fate } => Ok(self.set_fate(member, fate)),
            Command::Restart { member } => self.restart(table, member),
            Command::Arrive { late } => self.arrive(table, late),
            Command::Settle { at } => self.settle(table, at),
            Command::Walk { to } => self.walk(table, to),
            Command::Break {
                member,
                pass,
                image,
            } => Ok(self.arm(member, pass, image)),
            Command::Free { .. } => unreachable!(),
        }
    }
}
