ghost use Rattle.std.specs.Prelude.{◌≡◌, ℕ, ◌+◌, ◌<◌, ◌≤◌, ◌^◌, ◌↔◌, ◌≢◌, ◌-◌, [], max, drop, Ok, IfOk, IsOk, IsSome, OnOk, OnErr};
ghost use Rattle.learner_core.specs.Learner.{learned_prefix, entry_at, HasLearnedOne, IsRebased, IsSameLearner};

use cron_io::OutOfMemory;
use paxos_base::Entry;
use std::alloc::Global;
use std::marker::Model;

/// What came of an entry that a learner was told.
#[derive(Clone, Copy, Debug, PartialEq, Eq)]
pub enum Learnt {
    /// It was the next one, and has been learned.
    New,
    /// Its slot had been learned before.
    Old,
    /// An entry before it is missing, so it has not been learned.
    Gap,
}

/// A learner: the entries of the log from its base on, up to the first slot that it has not learned.
#[derive(Debug, Drop)]
pub struct Learner {
    base: u64,
    entries: Vec<Entry>,
}

impl Model for Learner {
    ghost use Rattle.std.specs.Prelude.{◌+◌, ◌-◌, ◌<◌, ◌^◌, vec_len, vec_capacity};
    ghost use Rattle.learner_core.specs.Learner.{LearnerState};

    ghost Value = { LearnerState };

    ghost view = { λ learner. record { base = learner.base; entries = learner.entries.items; spare = vec_capacity learner.entries - vec_len learner.entries } };

    ghost invariant = { λ learner. learner.base + vec_len learner.entries < 2 ^ 64 };
}

impl Learner {
    /// A learner that has learned nothing, and begins at this slot.
    pub fn new(alloc: Global, base: u64) -> Learner
        ensures base { result.base ≡ base }
        ensures entries { result.entries ≡ [] }
    {
        Learner {
            base,
            entries: Vec::new(alloc),
        }
    }

    /// Makes room for that many more entries at least. After want of memory all is as before.
    pub fn reserve(&mut self, more: usize) -> Result<(), OutOfMemory>
        ensures alike { IsSameLearner self.new self.old }
        ensures room { OnOk result (more ≤ self.new.spare) }
        ensures had_room { more ≤ self.old.spare → IsOk result }
        ensures err { OnErr result (self.new ≡ self.old) }
    {
        self.entries.reserve(more)?;
        Ok(())
    }

    /// The first slot whose entry has not been learned.
    pub fn prefix(&self) -> u64
        ensures { result ≡ learned_prefix self.now }
    {
        self.base + self.entries.len() as u64
    }

    /// The slot at which the learner begins.
    pub fn base(&self) -> u64
        ensures { result ≡ self.now.base }
    {
        self.base
    }

    /// The entry at a slot, which the learner has exactly from its base on and before its prefix.
    pub fn entry_at(&self, slot: u64) -> Option<Entry>
        ensures entry { result ≡ entry_at slot self.now }
        ensures known { IsSome result ↔ ((self.now.base ≤ slot) × (slot < learned_prefix self.now)) }
    {
        if slot < self.prefix() && self.base <= slot {
            Some(self.entries[(slot - self.base) as usize])
        } else {
            None
        }
    }

    /// The entries from a slot on, lent and not copied.
    pub fn entries_from(&self, first: u64) -> &[Entry]
        requires { self.now.base ≤ first }
        ensures { result.now ≡ drop (first - self.now.base) self.now.entries }
    {
        let place = (first - self.base).min(self.entries.len() as u64);
        &self.entries[place as usize..]
    }

    /// Learns the entry at a slot, where it is the next one. Takes constant time, but where the list of entries grows.
    ///
    /// # Errors
    ///
    /// Want of memory, where the entry is the next one and there is no room for it. What was learned stays.
    pub fn learn(&mut self, slot: u64, entry: Entry) -> Result<Learnt, OutOfMemory>
        requires { learned_prefix self.old < 2 ^ 63 }
        ensures old { (result ≡ Ok Learnt.Old) ↔ (slot < learned_prefix self.old) }
        ensures gap { (result ≡ Ok Learnt.Gap) ↔ (learned_prefix self.old < slot) }
        ensures new { IfOk result (λ learnt. (learnt ≡ Learnt.New) ↔ (slot ≡ learned_prefix self.old)) }
        ensures learned { result ≡ Ok Learnt.New → HasLearnedOne self.old self.new entry }
        ensures room { 1 ≤ self.old.spare → IsOk result }
        ensures spare { self.old.spare ≤ self.new.spare + 1 }
        ensures kept { result ≢ Ok Learnt.New → IsSameLearner self.new self.old }
    {
        let prefix = self.prefix();
        if slot < prefix {
            return Ok(Learnt::Old);
        }
        if slot > prefix {
            return Ok(Learnt::Gap);
        }
        self.entries.push(entry)?;
        Ok(Learnt::New)
    }

    /// Begins at a later slot: the entries below it go, and it is the prefix where nothing was learned so far.
    pub fn rebase(&mut self, base: u64)
        requires { self.old.base < base }
        ensures rebased { IsRebased self.old self.new base }
        ensures prefix { learned_prefix self.new ≡ max (learned_prefix self.old) base }
        ensures entries { (slot : ℕ) → base ≤ slot → entry_at slot self.new ≡ entry_at slot self.old }
        ensures spare { self.old.spare ≤ self.new.spare }
    {
        let gone = (base - self.base).min(self.entries.len() as u64);
        self.entries.drain(..gone as usize);
        self.base = base;
    }

    /// An equal learner, but for the room for entries.
    pub fn copy(&self) -> Result<Learner, OutOfMemory>
        ensures { IfOk result (λ copy. IsSameLearner copy self.now) }
    {
        Ok(Learner {
            base: self.base,
            entries: self.entries.clone()?,
        })
    }
}
