//! Letters join the mails of a replay.
ghost use Rattle.std.specs.Prelude.{◌≡◌, ◌<◌, OnOk, Some, length, slice_get};
ghost use Rattle.due_set.specs.Table.{Table};
ghost use Rattle.script_semantics.specs.Situation.{delivered, is_cut};
ghost use Rattle.run_replay.specs.Delivered.{letter_arrived};
ghost use Rattle.run_replay.specs.Replay.{IsInSituation};
ghost use Rattle.run_replay.specs.Settings.{ChangesReplay};

use crate::replay::Replay;
use cron_io::OutOfMemory;
use world_law::{Book, LetterRow};

// The letter of a number.
fn letter_at(book: &Book, number: u64) -> &LetterRow
    requires there { number < length book.now.letters }
    ensures { slice_get book.now.letters number ≡ Some result.now }
{
    match book.letters().get(number as usize) {
        Some(letter) => letter,
        None => unreachable!(),
    }
}

// Whether letters from the one to the other are lost.
fn is_lost(cuts: &[(u8, u8)], from: u8, to: u8) -> bool
    ensures { result ≡ is_cut from to cuts.now }
{
    'pairs: for pair in cuts {
        if pair.0 == from && pair.1 == to {
            return true;
        }
    }
    false
}

impl Replay {
    // The letter of a number joins the mail of its addressee, where that runs and the letter isn't lost.
    fn deliver_one(&mut self, number: u64) -> Result<(), OutOfMemory>
        requires ready { (table : Table) × IsInSituation table self.old }
        requires there { number < length self.old.book.letters }
        ensures arrives { OnOk result (ChangesReplay (letter_arrived number) self.old self.new) }
        ensures book { self.new.book ≡ self.old.book }
    {
        let letter = letter_at(&self.book, number);
        let (from, to) = (letter.from, letter.to);
        if is_lost(&self.cuts, from, to) {
            return Ok(());
        }
        if !self.seats[to as usize].runs() {
            return Ok(());
        }
        self.settings[to as usize].mail.push_back(number)?;
        Ok(())
    }

    /// The letters from a number on join the mails.
    ///
    /// # Errors
    ///
    /// Want of memory.
    pub fn deliver(&mut self, first: u64) -> Result<(), OutOfMemory>
        requires ready { (table : Table) × IsInSituation table self.old }
        ensures delivers { OnOk result (ChangesReplay (delivered first) self.old self.new) }
        ensures book { self.new.book ≡ self.old.book }
    {
        'numbers: for number in first..self.book.letters().len() as u64 {
            self.deliver_one(number)?;
        }
        Ok(())
    }
}
