//! What commands do to the letters that wait: they are lost, turned round, or join their mail once more.
ghost use Rattle.std.specs.Prelude.{◌≡◌, ◌<◌, ◌++◌, IfOk, OnOk, length, map, slice_get};
ghost use Rattle.due_set.specs.Table.{Table};
ghost use Rattle.script_semantics.specs.Commands.{each_once, from_one, from_others, is_from, set_by};
ghost use Rattle.script_text.specs.declared.command.Command.TheVariants as command;
ghost use Rattle.world_law.specs.Book.{posted_as};
ghost use Rattle.world_rounds.specs.Mails.{Changes};
ghost use Rattle.world_rounds.specs.World.{IsWorld, book_of};

use crate::world::World;
use cron_io::OutOfMemory;
use disk_model::Disk;
use indexmap::IndexSet;
use std::alloc::Global;
use std::collections::VecDeque;
use world_law::Book;
use world_steps::letter_at;

// Whether the letter of a number is from a replica.
fn is_from(book: &Book, who: u8, number: u64) -> bool
    ensures { result ≡ is_from who (slice_get (map posted_as book.now.letters) number) }
{
    match book.letters().get(number as usize) {
        Some(letter) => letter.from == who,
        None => false,
    }
}

// The letters from a replica leave a mail.
fn drop_from(book: &Book, who: u8, mail: &mut VecDeque<u64>)
    ensures { mail.new.items ≡ from_others (map posted_as book.now.letters) who mail.old.items }
{
    mail.retain(|number| !is_from(book, who, *number));
}

// The letters of a mail that are from a replica, each once.
fn once_from(
    alloc: Global,
    book: &Book,
    who: u8,
    mail: &VecDeque<u64>,
) -> Result<IndexSet<u64>, OutOfMemory>
    ensures { IfOk result (λ found. found.keys ≡ each_once (from_one (map posted_as book.now.letters) who mail.now.items)) }
{
    let mut found = IndexSet::new(alloc);
    'numbers: for place in 0..mail.len() {
        let number = mail[place];
        if is_from(book, who, number) {
            found.insert(number)?;
        }
    }
    Ok(found)
}

// These letters join a mail.
fn add_all(mail: &mut VecDeque<u64>, numbers: &[u64]) -> Result<(), OutOfMemory>
    ensures { OnOk result (mail.new.items ≡ mail.old.items ++ numbers.now) }
{
    'numbers: for number in numbers {
        mail.push_back(*number)?;
    }
    Ok(())
}

impl<D: Disk> World<D> {
    // The letters from the one replica leave the other's mail.
    pub(crate) fn drop_letters(&mut self, from: u8, to: u8)
        requires member { to < length self.old.members.items }
        ensures sets { Changes D.view (set_by (command.Drop from to)) self.old self.new }
        ensures book { book_of self.new ≡ book_of self.old }
    {
        drop_from(
            &self.book,
            from,
            &mut self.members[to as usize].mail.letters,
        );
    }

    // Each letter from the one replica in the other's mail joins that mail once more.
    pub(crate) fn repeat_letters(&mut self, from: u8, to: u8) -> Result<(), OutOfMemory>
        requires member { to < length self.old.members.items }
        ensures sets { OnOk result (Changes D.view (set_by (command.Repeat from to)) self.old self.new) }
        ensures book { book_of self.new ≡ book_of self.old }
    {
        let mail = &mut self.members[to as usize].mail.letters;
        let once = once_from(self.alloc, &self.book, from, mail)?;
        add_all(mail, once.as_slice())?;
        Ok(())
    }

    // A replica's mail is in the opposite order.
    pub(crate) fn reverse_letters(&mut self, who: u8)
        requires member { who < length self.old.members.items }
        ensures sets { Changes D.view (set_by (command.Reverse who)) self.old self.new }
        ensures book { book_of self.new ≡ book_of self.old }
    {
        self.members[who as usize]
            .mail
            .letters
            .make_contiguous()
            .reverse();
    }

    // A letter joins its addressee's mail once more, where there is such a letter and its addressee runs.
    pub(crate) fn send_again(&mut self, number: u32) -> Result<(), OutOfMemory>
        requires world { (table : Table) × IsWorld D.view table self.old }
        ensures sets { OnOk result (Changes D.view (set_by (command.Again number)) self.old self.new) }
        ensures book { book_of self.new ≡ book_of self.old }
    {
        if number as usize >= self.book.letters().len() {
            return Ok(());
        }
        let to = letter_at(&self.book, number as u64).to;
        if !self.members[to as usize].mail.runs {
            return Ok(());
        }
        self.members[to as usize]
            .mail
            .letters
            .push_back(number as u64)?;
        Ok(())
    }
}
