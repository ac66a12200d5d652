//! What readers are shown. There are two of it, and the writer changes the one that readers don't have.
ghost use Rattle.std.specs.Prelude.{◌≡◌, ◌==◌, ◌<◌, Some, if◌then◌else◌, length, slice_get, slice_set, IfOk};
ghost use Rattle.paxos_base.specs.Rows.{fresh_rows, row_count};

use crate::change::{Change, NewRows};
use crate::past::Past;
use cron_io::OutOfMemory;
use left_right::Absorb;
use paxos_base::{JobRow, RowList, TableSize};
use std::alloc::{AllocError, Global};
use std::marker::Model;

/// A state of a board, and the states up to it.
#[derive(Drop)]
pub struct Sheet {
    past: Past,
    prefix: u64,
    rows: Vec<JobRow>,
}

impl Model for Sheet {
    ghost use Rattle.status_board.specs.Posted.{Posted};

    ghost Value = { Posted };

    ghost view = { λ sheet. record {
      board = sheet.past.book;
      states = sheet.past.log;
      prefix = sheet.prefix;
      rows = sheet.rows.items;
    } };
}

impl Absorb<Change> for Sheet {
    type State = Sheet;

    ghost use Rattle.status_board.specs.Change.{changed};

    ghost state = { λ sheet. sheet };

    ghost applied = { changed };

    ghost never_fails = { Unit {0} };

    fn absorb_first(&mut self, change: &Change, _other: &Sheet) -> Result<(), AllocError> {
        self.past = change.past.again();
        self.prefix = change.prefix;
        match &change.rows {
            NewRows::Same => {}
            NewRows::One(row) => put_row(&mut self.rows, row),
            NewRows::All(rows) => put_rows(&mut self.rows, rows),
        }
        Ok(())
    }
}

// Puts a row in the place of its job, where there is one.
fn put_row(rows: &mut [JobRow], row: &JobRow)
    ensures { rows.new ≡ slice_set rows.old row.now.job row.now }
{
    let place = row.job as usize;
    if place < rows.len() {
        rows[place] = *row;
    }
}

// Puts other rows in the place of as many.
fn put_rows(rows: &mut [JobRow], others: &[JobRow])
    ensures { rows.new ≡ (if length others.now == length rows.old then others.now else rows.old) }
{
    if others.len() == rows.len() {
        rows.copy_from_slice(others);
    }
}

impl Sheet {
    /// The fresh rows of a table, each job's and its own, before the log.
    pub fn first(alloc: Global, past: &Past, size: TableSize) -> Result<Sheet, OutOfMemory>
        ensures board { IfOk result (λ sheet. sheet.board ≡ past.now.book) }
        ensures states { IfOk result (λ sheet. sheet.states ≡ past.now.log) }
        ensures prefix { IfOk result (λ sheet. sheet.prefix ≡ 0) }
        ensures rows { IfOk result (λ sheet. sheet.rows ≡ fresh_rows (row_count size)) }
    {
        Ok(Sheet {
            past: past.again(),
            prefix: 0,
            rows: RowList::fresh(alloc, size)?.items,
        })
    }

    /// The states up to this one.
    pub fn past(&self) -> Past
        ensures board { result.book ≡ self.now.board }
        ensures states { result.log ≡ self.now.states }
    {
        self.past.again()
    }

    pub fn prefix(&self) -> u64
        ensures { result ≡ self.now.prefix }
    {
        self.prefix
    }

    pub fn row(&self, job: u32) -> JobRow
        requires { job < length self.now.rows }
        ensures { slice_get self.now.rows job ≡ Some result }
    {
        self.rows[job as usize]
    }
}
