//! How a board begins.
ghost use Rattle.std.specs.Prelude.{◌≡◌, ◌<◌, ◌≤◌, ◌∷◌, [], IfOk, length, true};
ghost use Rattle.status_board.specs.Shown.{shown_state_of};
ghost use Rattle.status_board.specs.Upkeep.{IsKeptUp, shown_by};
ghost use Rattle.status_board.specs.Writing.{AreReadersOf, Starts, sight_of};
ghost use Rattle.launch_machine.specs.Clerk.{first_rows};

use crate::keeper::Keeper;
use crate::latest::Latest;
use crate::naming::{Show, Tell};
use crate::past::begin;
use crate::reader::BoardReader;
use crate::sheet::Sheet;
use crate::writer::BoardWriter;
use cron_io::OutOfMemory;
use due_set::JobTable;
use launch_machine::table_size;
use left_right::writer::Writer;
use std::alloc::{AllocError, Global};
use std::sync::Wait;

/// A board: readers see on it, one state after another, the launch table that a writer has.
pub struct Board;

impl Keeper {
    // The states before the log, which readers are shown.
    fn begin<R: Wait>(
        rt: &R,
        alloc: Global,
        table: &JobTable,
        readers: u8,
    ) -> Result<Keeper, OutOfMemory>
        requires { 0 < readers }
        ensures kept { IfOk result (λ keeper. IsKeptUp table.now true keeper) }
        ensures prefix { IfOk result (λ keeper. keeper.latest.prefix ≡ 0) }
        ensures rows { IfOk result (λ keeper. keeper.latest.machine.rows ≡ first_rows table.now) }
        ensures states { IfOk result (λ keeper. keeper.past.log ≡ shown_state_of 0 (first_rows table.now) ∷ []) }
        ensures shown { IfOk result (λ keeper. (shown_by keeper).states ≡ keeper.past.log) }
    {
        let latest = Latest::first(alloc, table)?;
        let (past, head) = begin(&latest, table);
        let first = Sheet::first(alloc, &past, table_size(table))?;
        let second = Sheet::first(alloc, &past, table_size(table))?;
        let shower = Writer::new(alloc, first, second, readers as usize)?;
        let (shower, shown) = shower.publish_as::<Show, R>(rt);
        let Ok(()) = shown else { unreachable!() };
        Ok(Keeper {
            shower,
            head,
            past,
            latest,
        })
    }
}

impl BoardWriter {
    // A reader that has seen what is published.
    fn reader(&mut self, total: u64) -> Result<BoardReader, AllocError>
        requires total { total ≡ length self.old.machine.rows }
        requires ready { self.old.ready ≡ true }
        requires published { self.old.published ≡ self.old.states }
        ensures same { self.new ≡ self.old }
        ensures reader { IfOk result (λ reader. reader ≡ sight_of self.old) }
    {
        let mut reader = self.keeper.shower.factory().reader()?;
        reader.learn::<Tell>(self.keeper.shower.tell::<Tell>());
        Ok(BoardReader {
            reader,
            past: self.keeper.past.again(),
            prefix: self.keeper.latest.prefix,
            total,
        })
    }

    // So many readers that have seen what is published.
    fn readers(
        &mut self,
        alloc: Global,
        total: u64,
        count: u8,
    ) -> Result<Vec<BoardReader>, OutOfMemory>
        requires total { total ≡ length self.old.machine.rows }
        requires ready { self.old.ready ≡ true }
        requires published { self.old.published ≡ self.old.states }
        ensures same { self.new ≡ self.old }
        ensures readers { IfOk result (λ readers. AreReadersOf self.old readers.items) }
        ensures count { IfOk result (λ readers. length readers.items ≡ count) }
    {
        let mut readers = Vec::new(alloc);
        'readers: for _ in 0..count {
            readers.push(self.reader(total)?)?;
        }
        Ok(readers)
    }
}

impl Board {
    /// A board for the table, with its writer and so many readers. Before the first publish readers see fresh rows, before the
    /// log. It may wait: the first state is published here, and where memory is short the writer is ended.
    ///
    /// # Errors
    ///
    /// There is no memory for the board.
    pub fn start<R: Wait>(
        rt: &R,
        alloc: Global,
        table: &JobTable,
        readers: u8,
    ) -> Result<(BoardWriter, Vec<BoardReader>), OutOfMemory>
        requires { (0 < readers) × (readers ≤ 8) }
        ensures writer { IfOk result (λ board. Starts table.now board.0) }
        ensures readers { IfOk result (λ board. AreReadersOf board.0 board.1.items) }
        ensures count { IfOk result (λ board. length board.1.items ≡ readers) }
    {
        let mut writer = BoardWriter {
            keeper: Keeper::begin(rt, alloc, table, readers)?,
            alloc,
            ready: true,
        };
        match writer.readers(alloc, table_size(table).row_count(), readers) {
            Ok(readers) => Ok((writer, readers)),
            Err(fault) => {
                writer.end(rt);
                Err(fault)
            }
        }
    }
}
