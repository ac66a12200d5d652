//! What a script sets in a replay: from whom to whom letters are lost, the letters that wait and their order, a clock, what becomes
//! of a call, a disk that is armed. Nobody has a turn then.
ghost use Rattle.std.specs.Prelude.{◌≡◌, ◌<◌, ◌++◌, IfNone, IfOk, IfSome, None, OnOk, Some, length, map, slice_get};
ghost use Rattle.due_set.specs.Table.{Table};
ghost use Rattle.script_text.specs.declared.command.Command.TheVariants as command;
ghost use Rattle.world_law.specs.Book.{posted_as};
ghost use Rattle.world_law.specs.declared.letter.LetterRow.{LetterRow};
ghost use Rattle.script_semantics.specs.Arms.{armed_by};
ghost use Rattle.script_semantics.specs.Commands.{each_once, fate_of, from_one, from_others, is_from, set_by};
ghost use Rattle.script_semantics.specs.Settling.{cleared};
ghost use Rattle.run_replay.specs.Quiet.{runs_by_seat};
ghost use Rattle.run_replay.specs.Replay.{IsInSituation};
ghost use Rattle.run_replay.specs.Settings.{AreReset, ChangesReplay, NamesMember};

use crate::replay::{Arm, Replay, Seat, Setting};
use cluster_sched::Fate;
use cron_io::OutOfMemory;
use indexmap::IndexSet;
use script_text::{Command, FateWord};
use std::alloc::Global;
use std::collections::VecDeque;
use world_law::Book;

// The fate that a word stands for.
fn fate_of(word: FateWord) -> Fate
    ensures { result ≡ fate_of word }
{
    match word {
        FateWord::Done => Fate::Done,
        FateWord::LostBefore => Fate::LostBefore,
        FateWord::LostAfter => Fate::LostAfter,
        FateWord::Late => Fate::Late,
    }
}

// Whether the letter of a number is from a replica.
fn is_from(book: &Book, who: u8, number: u64) -> bool
    ensures { result ≡ is_from who (slice_get (map posted_as book.now.letters) number) }
{
    match book.letters().get(number as usize) {
        Some(letter) => letter.from == who,
        None => false,
    }
}

// The replica that the letter of a number goes to.
fn addressee_of(book: &Book, number: u32) -> Option<u8>
    ensures some { IfSome result (λ to. (letter : LetterRow) × (slice_get book.now.letters number ≡ Some letter) × (letter.to ≡ to)) }
    ensures none { IfNone result (slice_get book.now.letters number ≡ None) }
{
    match book.letters().get(number as usize) {
        Some(letter) => Some(letter.to),
        None => None,
    }
}

// The letters from a replica leave a mail.
fn drop_from(book: &Book, who: u8, mail: &mut VecDeque<u64>)
    ensures { mail.new.items ≡ from_others (map posted_as book.now.letters) who mail.old.items }
{
    mail.retain(|number| !is_from(book, who, *number));
}

// The letters of a mail that are from a replica, each once.
fn once_from(
    alloc: Global,
    book: &Book,
    who: u8,
    mail: &VecDeque<u64>,
) -> Result<IndexSet<u64>, OutOfMemory>
    ensures { IfOk result (λ found. found.keys ≡ each_once (from_one (map posted_as book.now.letters) who mail.now.items)) }
{
    let mut found = IndexSet::new(alloc);
    'numbers: for place in 0..mail.len() {
        let number = mail[place];
        if is_from(book, who, number) {
            found.insert(number)?;
        }
    }
    Ok(found)
}

// These letters join a mail.
fn add_all(mail: &mut VecDeque<u64>, numbers: &[u64]) -> Result<(), OutOfMemory>
    ensures { OnOk result (mail.new.items ≡ mail.old.items ++ numbers.now) }
{
    'numbers: for number in numbers {
        mail.push_back(*number)?;
    }
    Ok(())
}

// No letter waits for a replica, its clock is right, its next call is answered, and its disk isn't armed.
fn clear_all(settings: &mut [Setting])
    ensures { AreReset settings.old settings.new }
{
    'settings: for setting in settings {
        setting.mail.clear();
        setting.skew = 0;
        setting.fate = Fate::Done;
        setting.arm = None;
    }
}

impl Seat {
    /// Whether the replica runs.
    pub fn runs(&self) -> bool
        ensures { result ≡ runs_by_seat self.now }
    {
        self.replica.is_some()
    }
}

impl Replay {
    // Letters from the one replica to the other are lost from now on.
    fn cut(&mut self, from: u8, to: u8) -> Result<(), OutOfMemory>
        ensures sets { OnOk result (ChangesReplay (set_by (command.Cut from to)) self.old self.new) }
        ensures book { self.new.book ≡ self.old.book }
    {
        self.cuts.push((from, to))?;
        Ok(())
    }

    // No letter is lost from now on.
    fn heal(&mut self)
        ensures sets { ChangesReplay (set_by command.Heal) self.old self.new }
        ensures book { self.new.book ≡ self.old.book }
    {
        self.cuts.clear();
    }

    // A replica's clock is so many minutes ahead.
    fn skew(&mut self, who: u8, minutes: i64)
        requires member { who < length self.old.settings.items }
        ensures sets { ChangesReplay (set_by (command.Skew who minutes)) self.old self.new }
        ensures book { self.new.book ≡ self.old.book }
    {
        self.settings[who as usize].skew = minutes;
    }

    // What becomes of a replica's next call.
    fn set_fate(&mut self, who: u8, word: FateWord)
        requires member { who < length self.old.settings.items }
        ensures sets { ChangesReplay (set_by (command.Fate who word)) self.old self.new }
        ensures book { self.new.book ≡ self.old.book }
    {
        self.settings[who as usize].fate = fate_of(word);
    }

    // The letters from the one replica leave the other's mail.
    fn drop_letters(&mut self, from: u8, to: u8)
        requires member { to < length self.old.settings.items }
        ensures sets { ChangesReplay (set_by (command.Drop from to)) self.old self.new }
        ensures book { self.new.book ≡ self.old.book }
    {
        drop_from(&self.book, from, &mut self.settings[to as usize].mail);
    }

    // Each letter from the one replica in the other's mail joins that mail once more.
    fn repeat_letters(&mut self, from: u8, to: u8) -> Result<(), OutOfMemory>
        requires member { to < length self.old.settings.items }
        ensures sets { OnOk result (ChangesReplay (set_by (command.Repeat from to)) self.old self.new) }
        ensures book { self.new.book ≡ self.old.book }
    {
        let mail = &mut self.settings[to as usize].mail;
        let once = once_from(self.alloc, &self.book, from, mail)?;
        add_all(mail, once.as_slice())?;
        Ok(())
    }

    // A replica's mail is in the opposite order.
    fn reverse_letters(&mut self, who: u8)
        requires member { who < length self.old.settings.items }
        ensures sets { ChangesReplay (set_by (command.Reverse who)) self.old self.new }
        ensures book { self.new.book ≡ self.old.book }
    {
        self.settings[who as usize].mail.make_contiguous().reverse();
    }

    // A letter joins its addressee's mail once more, where there is such a letter and its addressee runs.
    fn send_again(&mut self, number: u32) -> Result<(), OutOfMemory>
        requires ready { (table : Table) × IsInSituation table self.old }
        ensures sets { OnOk result (ChangesReplay (set_by (command.Again number)) self.old self.new) }
        ensures book { self.new.book ≡ self.old.book }
    {
        let to = match addressee_of(&self.book, number) {
            Some(to) => to,
            None => return Ok(()),
        };
        if !self.seats[to as usize].runs() {
            return Ok(());
        }
        self.settings[to as usize]
            .mail
            .push_back(u64::from(number))?;
        Ok(())
    }

    /// The disk of a replica is armed anew, if the replica runs.
    pub fn arm(&mut self, who: u8, pass: u32, image: u32)
        requires ready { (table : Table) × IsInSituation table self.old }
        requires member { who < self.old.book.members }
        ensures sets { ChangesReplay (armed_by who pass image) self.old self.new }
        ensures book { self.new.book ≡ self.old.book }
    {
        if self.seats[who as usize].runs() {
            self.settings[who as usize].arm = Some(Arm { left: pass, image });
        }
    }

    /// No letter waits or is lost, each clock is right, each call is answered, and no disk is armed.
    pub fn clear(&mut self)
        ensures sets { ChangesReplay cleared self.old self.new }
        ensures book { self.new.book ≡ self.old.book }
    {
        self.cuts.clear();
        clear_all(&mut self.settings);
    }

    /// Sets what a command sets.
    pub fn set_by(&mut self, command: &Command) -> Result<(), OutOfMemory>
        requires ready { (table : Table) × IsInSituation table self.old }
        requires named { NamesMember self.old.book.members command.now }
        ensures sets { OnOk result (ChangesReplay (set_by command.now) self.old self.new) }
        ensures book { self.new.book ≡ self.old.book }
    {
        match *command {
            Command::Cut { from, to } => self.cut(from, to),
            Command::Heal => Ok(self.heal()),
            Command::Drop { from, to } => Ok(self.drop_letters(from, to)),
            Command::Repeat { from, to } => self.repeat_letters(from, to),
            Command::Reverse { member } => Ok(self.reverse_letters(member)),
            Command::Again { letter } => self.send_again(letter),
            Command::Skew { member, minutes } => Ok(self.skew(member, minutes)),
            Command::Fate { member, fate } => Ok(self.set_fate(member, fate)),
            _ => Ok(()),
        }
    }
}
