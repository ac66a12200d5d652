//! Letters join the mails.
ghost use Rattle.std.specs.Prelude.{◌≡◌, ◌<◌, OnOk, length};
ghost use Rattle.due_set.specs.Table.{Table};
ghost use Rattle.script_semantics.specs.Situation.{delivered};
ghost use Rattle.world_rounds.specs.Mails.{Changes, arrived};
ghost use Rattle.world_rounds.specs.World.{IsWorld, book_of};

use crate::world::World;
use cron_io::OutOfMemory;
use disk_model::Disk;
use world_steps::{is_cut, letter_at};

impl<D: Disk> World<D> {
    // The letter of a number joins the mail of its addressee, where that runs and the letter isn't lost.
    fn deliver_one(&mut self, number: u64) -> Result<(), OutOfMemory>
        requires world { (table : Table) × IsWorld D.view table self.old }
        requires there { number < length (book_of self.old).letters }
        ensures arrives { OnOk result (Changes D.view (arrived number) self.old self.new) }
        ensures book { book_of self.new ≡ book_of self.old }
    {
        let letter = letter_at(&self.book, number);
        let (from, to) = (letter.from, letter.to);
        if is_cut(&self.cuts, from, to) {
            return Ok(());
        }
        if !self.members[to as usize].mail.runs {
            return Ok(());
        }
        self.members[to as usize].mail.letters.push_back(number)?;
        Ok(())
    }

    // The letters from a number on join the mails.
    pub(crate) fn deliver(&mut self, first: u64) -> Result<(), OutOfMemory>
        requires world { (table : Table) × IsWorld D.view table self.old }
        ensures delivers { OnOk result (Changes D.view (delivered first) self.old self.new) }
        ensures book { book_of self.new ≡ book_of self.old }
    {
        'numbers: for number in first..self.book.letters().len() as u64 {
            self.deliver_one(number)?;
        }
        Ok(())
    }
}
