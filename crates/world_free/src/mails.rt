//! A replica that has the turn looks at the book: its mail loses the letter that it has heard, and gains those that have come since.
ghost use Rattle.std.specs.Prelude.{◌≡◌, ◌+◌, ◌-◌, ◌<◌, ◌≤◌, ◌^◌, ◌++◌, ℕ, List, OnOk, Some, length, if◌then◌else◌, ◌∷◌, [], map};
ghost use Rattle.history.specs.Book.{PostedLetter, post};
ghost use Rattle.script_semantics.specs.Others.{mail_behind};
ghost use Rattle.world_free.specs.Mails.{HasFirstBytes, HasLooked, KeepsSet, comes_to, coming, posted_with};
ghost use Rattle.world_law.specs.Book.{posted_as};

use crate::job::FreeMail;
use cron_io::OutOfMemory;
use history::Cause;
use replica_core::OutLetter;
use world_law::LetterRow;
use world_steps::{Taken, is_cut};

impl FreeMail {
    // A letter that is heard leaves the mail.
    fn hear(&mut self, cause: Cause)
        ensures letters { self.new.mail.letters.items ≡ mail_behind cause self.old.mail.letters.items }
        ensures set { KeepsSet self.old self.new }
        ensures looked { self.new.looked ≡ self.old.looked }
    {
        if let Cause::Hear { .. } = cause {
            self.mail.letters.pop_front();
        }
    }

    // A letter joins the mail where it goes to the replica and isn't lost.
    fn take_letter(
        &mut self,
        cuts: &[(u8, u8)],
        who: u8,
        from: u8,
        to: u8,
        number: u64,
    ) -> Result<(), OutOfMemory>
        ensures letters { OnOk result (self.new.mail.letters.items ≡ self.old.mail.letters.items
            ++ (if comes_to cuts.now who (Some (record { from = from; to = to; bytes = [] })) then number ∷ [] else [])) }
        ensures set { KeepsSet self.old self.new }
        ensures looked { self.new.looked ≡ self.old.looked }
    {
        if to == who && !is_cut(cuts, from, to) {
            self.mail.letters.push_back(number)?;
        }
        Ok(())
    }

    // The letters of a book join it from the last look on.
    pub(crate) fn look_at_book(
        &mut self,
        letters: &[LetterRow],
        cuts: &[(u8, u8)],
        who: u8,
    ) -> Result<(), OutOfMemory>
        requires looked { self.old.looked ≤ length letters.now }
        ensures letters { OnOk result (self.new.mail.letters.items ≡ self.old.mail.letters.items
            ++ coming cuts.now who (map posted_as letters.now) self.old.looked (length letters.now - self.old.looked)) }
        ensures set { OnOk result (KeepsSet self.old self.new) }
    {
        'letters: for number in self.looked as usize..letters.len() {
            let letter = &letters[number];
            self.take_letter(cuts, who, letter.from, letter.to, number as u64)?;
        }
        Ok(())
    }

    // So do the letters of its own step, which come behind so many.
    fn look_at_step(
        &mut self,
        first: u64,
        posted: &[OutLetter],
        cuts: &[(u8, u8)],
        who: u8,
    ) -> Result<(), OutOfMemory>
        requires small { first + length posted.now < 2 ^ 64 }
        ensures letters { OnOk result ((before : List PostedLetter) → length before ≡ first → self.new.mail.letters.items ≡ self.old.mail.letters.items
            ++ coming cuts.now who (before ++ post who posted.now) first (length posted.now)) }
        ensures set { OnOk result (KeepsSet self.old self.new) }
    {
        'letters: for place in 0..posted.len() {
            let letter = &posted[place];
            self.take_letter(cuts, who, who, letter.to, first + place as u64)?;
        }
        Ok(())
    }

    // Keeps the bytes of the mail's first letter.
    pub(crate) fn keep_bytes(
        &mut self,
        letters: &[LetterRow],
        posted: &[OutLetter],
    ) -> Result<(), OutOfMemory>
        ensures bytes { OnOk result ((who : ℕ) → HasFirstBytes (map posted_as letters.now ++ post who posted.now) self.new) }
        ensures mail { self.new.mail ≡ self.old.mail }
        ensures looked { self.new.looked ≡ self.old.looked }
    {
        let Some(number) = self.mail.letters.front() else {
            return Ok(());
        };
        let number = *number as usize;
        let bytes = match letters.get(number) {
            Some(letter) => letter.bytes.bytes(),
            None => match posted.get(number - letters.len()) {
                Some(letter) => letter.bytes.bytes(),
                None => return Ok(()),
            },
        };
        self.bytes.clear();
        self.bytes.extend_from_slice(bytes)?;
        Ok(())
    }

    // Looks at the letters of a book, into which a step of the replica is to come.
    pub(crate) fn look(
        &mut self,
        letters: &[LetterRow],
        cuts: &[(u8, u8)],
        who: u8,
        taken: &Taken,
    ) -> Result<(), OutOfMemory>
        requires looked { self.old.looked ≤ length letters.now }
        ensures looks { OnOk result (HasLooked cuts.now letters.now who taken.now self.old self.new) }
    {
        self.hear(taken.cause);
        let first = letters.len() as u64;
        self.look_at_book(letters, cuts, who)?;
        self.look_at_step(first, &taken.out.letters.items, cuts, who)?;
        self.looked = first + taken.out.letters.items.len() as u64;
        self.keep_bytes(letters, &taken.out.letters.items)?;
        Ok(())
    }
}
