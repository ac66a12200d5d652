//! The states of a board as its writer keeps them: the latest one, those before it, and what readers are shown.
ghost use Rattle.std.specs.Prelude.{◌≡◌, ◌+◌, ◌<◌, ◌^◌, ◌∷◌, ◌++◌, ℕ, [], OnOk, OnErr, length, true, false};
ghost use mathlib.Core.List.{IsPrefix};
ghost use Rattle.paxos_base.specs.Rows.{AreNumbered};
ghost use Rattle.due_set.specs.Table.{Table};
ghost use Rattle.launch_machine.specs.Clerk.{Applies};
ghost use Rattle.launch_machine.specs.Machine.{CanCount, StandsFor};
ghost use Rattle.status_board.specs.Change.{with_new};
ghost use Rattle.status_board.specs.History.{AreOfBoard, word_of};
ghost use Rattle.status_board.specs.Shown.{IsHistory, shown_state_of};
ghost use Rattle.status_board.specs.Sight.{HasLastPrefix};
ghost use Rattle.status_board.specs.Upkeep.{IsKeptUp, changes_unshown, shown_by};

use crate::change::{Change, NewRows};
use crate::latest::Latest;
use crate::mark::Mark;
use crate::name::Name;
use crate::naming::{Naming, Show};
use crate::past::{Head, Past, add};
use crate::sheet::Sheet;
use cron_io::OutOfMemory;
use due_set::JobTable;
use left_right::writer::Writer;
use paxos_base::Entry;
use std::sync::Wait;

/// The latest state, the states up to it with their word, and what shows them to readers.
pub struct Keeper {
    pub shower: Writer<Sheet, Change, Option<Name>, Naming>,
    pub head: Head,
    pub past: Past,
    pub latest: Latest,
}

impl Keeper {
    // Appends the latest state, by what is new in its rows, after the state with the prefix `before`.
    fn append(&mut self, before: u64, rows: NewRows) -> Result<(), OutOfMemory>
        requires word { self.old.head ≡ word_of self.old.past.book }
        requires history { AreOfBoard self.old.past.log }
        requires last { HasLastPrefix self.old.past.log before }
        requires rises { before < self.old.latest.prefix }
        requires rows { (total : ℕ) → IsHistory total self.old.past.log → AreNumbered self.old.latest.machine.rows total }
        ensures desk { self.new.shower.desk ≡ self.old.shower.desk }
        ensures head { self.new.head ≡ self.old.head }
        ensures latest { self.new.latest ≡ self.old.latest }
        ensures book { self.new.past.book ≡ self.old.past.book }
        ensures longer { IsPrefix self.old.past.log self.new.past.log }
        ensures history { (total : ℕ) → IsHistory total self.old.past.log → IsHistory total self.new.past.log }
        ensures added { OnOk result (self.new.past.log ≡ self.old.past.log ++ shown_state_of self.old.latest.prefix self.old.latest.machine.rows ∷ []) }
        ensures changes { OnOk result (changes_unshown self.new
            ≡ changes_unshown self.old ++ record { past = self.new.past; prefix = self.old.latest.prefix; rows = rows } ∷ []) }
    {
        if !add(&self.head, &mut self.past, before, &self.latest) {
            return Err(OutOfMemory);
        }
        let change = Change {
            past: self.past.again(),
            prefix: self.latest.prefix,
            rows,
        };
        match self.shower.append(change) {
            Ok(()) => Ok(()),
            Err(_) => Err(OutOfMemory),
        }
    }

    /// Applies the entry at the prefix.
    pub fn learn(&mut self, table: &JobTable, entry: Entry) -> Result<(), OutOfMemory>
        requires kept { IsKeptUp table.now true self.old }
        requires prefix { self.old.latest.prefix < 2 ^ 62 }
        requires counts { CanCount self.old.latest.machine.rows entry }
        ensures kept { OnOk result (IsKeptUp table.now true self.new) }
        ensures failed { OnErr result (IsKeptUp table.now false self.new) }
        ensures shown { shown_by self.new ≡ shown_by self.old }
        ensures board { self.new.past.book ≡ self.old.past.book }
        ensures prefix { self.new.latest.prefix ≡ self.old.latest.prefix + 1 }
        ensures applies { Applies table.now self.old.latest.machine.rows entry self.new.latest.machine.rows }
        ensures states { OnOk result (self.new.past.log ≡ self.old.past.log ++ shown_state_of self.new.latest.prefix self.new.latest.machine.rows ∷ []) }
    {
        let before = self.latest.prefix;
        let rows = self.latest.learn(table, entry);
        self.append(before, rows)
    }

    /// Takes a later state, all of whose rows are new.
    pub fn install(&mut self, latest: Latest, rows: NewRows) -> Result<(), OutOfMemory>
        requires kept { (table : Table) × IsKeptUp table true self.old × StandsFor table latest.machine }
        requires rises { self.old.latest.prefix < latest.prefix }
        requires rows { with_new rows self.old.latest.machine.rows ≡ latest.machine.rows }
        ensures kept { (table : Table) → IsKeptUp table true self.old → StandsFor table latest.machine → OnOk result (IsKeptUp table true self.new) }
        ensures failed { (table : Table) → IsKeptUp table true self.old → StandsFor table latest.machine → OnErr result (IsKeptUp table false self.new) }
        ensures shown { shown_by self.new ≡ shown_by self.old }
        ensures board { self.new.past.book ≡ self.old.past.book }
        ensures latest { self.new.latest ≡ latest }
        ensures states { OnOk result (self.new.past.log ≡ self.old.past.log ++ shown_state_of latest.prefix latest.machine.rows ∷ []) }
    {
        let before = self.latest.prefix;
        self.latest = latest;
        self.append(before, rows)
    }

    /// Shows readers the latest state. It waits for those that see the state before the one that is shown.
    pub fn publish<R: Wait>(self, rt: &R) -> Keeper
        requires { (table : Table) × IsKeptUp table true self }
        ensures kept { (table : Table) → IsKeptUp table true self → IsKeptUp table true result }
        ensures shown { (shown_by result).states ≡ self.past.log }
        ensures past { result.past ≡ self.past }
        ensures latest { result.latest ≡ self.latest }
    {
        let Keeper {
            shower,
            head,
            past,
            latest,
        } = self;
        let (shower, shown) = shower.publish_as::<Show, R>(rt);
        let Ok(()) = shown else { unreachable!() };
        Keeper {
            shower,
            head,
            past,
            latest,
        }
    }

    /// The place of the latest state.
    pub fn mark(&self) -> Mark
        requires { HasLastPrefix self.now.past.log self.now.latest.prefix }
        ensures board { result.board ≡ self.now.past.book }
        ensures states { result.states ≡ self.now.past.log }
    {
        Mark {
            past: self.past.again(),
            prefix: self.latest.prefix,
        }
    }

    /// Ends what shows the states. It waits for readers that see one.
    pub fn end<R: Wait>(self, rt: &R) {
        let Keeper {
            shower,
            head: _head,
            past: _past,
            latest: _latest,
        } = self;
        drop(shower.take(rt));
    }
}
