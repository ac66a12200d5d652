//! The writer of a board.
ghost use Rattle.std.specs.Prelude.{◌≡◌, ◌≢◌, ◌<◌, ◌≤◌, ◌^◌, ◌↔◌, IsTrue, Ok, IfOk, OnOk, Some, length, slice_get, true, false};
ghost use Rattle.launch_machine.specs.Machine.{StandsFor, CountsBelow};
ghost use Rattle.launch_machine.specs.Clerk.{table_size};
ghost use Rattle.paxos_base.specs.Rows.{RowsStand};
ghost use Rattle.status_board.specs.Writing.{HasNext, ArePublishedInOrder, Learns, mark_of};

use crate::change::NewRows;
use crate::keeper::Keeper;
use crate::latest::Latest;
use crate::mark::Mark;
use cron_io::OutOfMemory;
use due_set::JobTable;
use learner_core::Learnt;
use paxos_base::{Entry, JobRow, RowList};
use std::alloc::Global;
use std::marker::Model;
use std::sync::Wait;

/// The writer of a board. It isn't dropped: `end` ends it.
pub struct BoardWriter {
    pub(crate) keeper: Keeper,
    pub(crate) alloc: Global,
    // False after want of memory, which may leave the latest state out of what is published.
    pub(crate) ready: bool,
}

impl Model for BoardWriter {
    ghost use Rattle.due_set.specs.Table.{Table};
    ghost use Rattle.status_board.specs.Upkeep.{IsKeptUp, shown_by};
    ghost use Rattle.status_board.specs.Writing.{Writing};

    ghost Value = { Writing };

    ghost view = { λ w. record {
      board = w.keeper.past.book;
      states = w.keeper.past.log;
      published = (shown_by w.keeper).states;
      prefix = w.keeper.latest.prefix;
      machine = w.keeper.latest.machine;
      ready = w.ready;
    } };

    ghost invariant = { λ w. (table : Table) × IsKeptUp table w.ready w.keeper };
}

impl BoardWriter {
    /// How many entries of the log are in the writer's rows.
    pub fn prefix(&self) -> u64
        ensures prefix { result ≡ self.now.prefix }
        ensures order { ArePublishedInOrder self.now }
    {
        self.keeper.latest.prefix
    }

    /// The writer's row of a job, by its number in the board's table.
    pub fn row(&self, job: u32) -> JobRow
        requires { job < length self.now.machine.rows }
        ensures { slice_get self.now.machine.rows job ≡ Some result }
    {
        self.keeper.latest.machine.row(job)
    }

    /// Applies the entry of a slot of the log, where it is the next one. Readers see it once it is published.
    ///
    /// # Errors
    ///
    /// There is no memory for the change. Then the writer can only be ended; until then readers see what was published.
    pub fn learn(
        &mut self,
        table: &JobTable,
        slot: u64,
        entry: Entry,
    ) -> Result<Learnt, OutOfMemory>
        requires table { StandsFor table.now self.old.machine }
        requires ready { self.old.ready ≡ true }
        requires prefix { self.old.prefix < 2 ^ 62 }
        requires counts { CountsBelow (2 ^ 31) self.old.machine.rows }
        ensures old { (result ≡ Ok Learnt.Old) ↔ (slot < self.old.prefix) }
        ensures gap { (result ≡ Ok Learnt.Gap) ↔ (self.old.prefix < slot) }
        ensures new { IfOk result (λ learnt. (learnt ≡ Learnt.New) ↔ (slot ≡ self.old.prefix)) }
        ensures learned { result ≡ Ok Learnt.New → Learns table.now entry self.old self.new }
        ensures kept { IfOk result (λ learnt. learnt ≢ Learnt.New → self.new ≡ self.old) }
        ensures ready { OnOk result (self.new.ready ≡ true) }
        ensures board { self.new.board ≡ self.old.board }
        ensures stands { StandsFor table.now self.new.machine }
        ensures published { self.new.published ≡ self.old.published }
    {
        if slot < self.keeper.latest.prefix {
            return Ok(Learnt::Old);
        }
        if slot > self.keeper.latest.prefix {
            return Ok(Learnt::Gap);
        }
        self.ready = false;
        self.keeper.learn(table, entry)?;
        self.ready = true;
        Ok(Learnt::New)
    }

    /// Takes the rows of a snapshot, with the entries below its base, where that is above the prefix; says whether it did.
    /// Readers see them once they are published.
    ///
    /// # Errors
    ///
    /// There is no memory for the rows. Then the writer can only be ended; until then readers see what was published.
    pub fn install(
        &mut self,
        table: &JobTable,
        base: u64,
        rows: &RowList,
    ) -> Result<bool, OutOfMemory>
        requires table { StandsFor table.now self.old.machine }
        requires ready { self.old.ready ≡ true }
        requires stand { RowsStand rows.now (table_size table.now) }
        ensures newer { IfOk result (λ installed. IsTrue installed ↔ (self.old.prefix < base)) }
        ensures installed { result ≡ Ok true → HasNext self.old self.new base rows.now }
        ensures kept { base ≤ self.old.prefix → (result ≡ Ok false) × (self.new ≡ self.old) }
        ensures ready { OnOk result (self.new.ready ≡ true) }
        ensures board { self.new.board ≡ self.old.board }
        ensures stands { StandsFor table.now self.new.machine }
        ensures published { self.new.published ≡ self.old.published }
    {
        if base <= self.keeper.latest.prefix {
            return Ok(false);
        }
        let latest = Latest::of(self.alloc, table, base, rows)?;
        let all = NewRows::all(self.alloc, rows)?;
        self.ready = false;
        self.keeper.install(latest, all)?;
        self.ready = true;
        Ok(true)
    }

    /// Publishes the writer's state, and gives the place of it. It waits for readers that see the state before the one that
    /// was published last.
    pub fn publish<R: Wait>(self, rt: &R) -> (BoardWriter, Mark)
        requires { self.ready ≡ true }
        ensures published { result.0 ≡ record self { published = self.states } }
        ensures mark { result.1 ≡ mark_of self }
    {
        let BoardWriter {
            keeper,
            alloc,
            ready,
        } = self;
        let keeper = keeper.publish(rt);
        let mark = keeper.mark();
        let writer = BoardWriter {
            keeper,
            alloc,
            ready,
        };
        (writer, mark)
    }

    /// Ends the writer. It waits for readers that see a state. What isn't published is lost, and no view comes from then on.
    pub fn end<R: Wait>(self, rt: &R) {
        let BoardWriter {
            keeper,
            alloc: _,
            ready: _,
        } = self;
        keeper.end(rt);
    }
}
