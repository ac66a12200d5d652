ghost use Rattle.std.specs.Prelude.{◌≡◌, ◌<◌, length, IfOk, IfSome, IfNone, Some, slice_get, slice_set};
ghost use Rattle.zone_minutes.specs.Window.{IsInWindow};
ghost use Rattle.paxos_base.specs.Rows.{RowsStand, OpenHasCursor};
ghost use Rattle.due_set.specs.Table.{Table, IsSound};
ghost use Rattle.launch_machine.specs.Answers.{IsEffect, IsIntent};
ghost use Rattle.launch_machine.specs.Clerk.{Applies, TakesTable, adopted_row, first_rows, table_size, with_row};
ghost use Rattle.launch_machine.specs.Machine.{CanCount, CanRise, StandsFor};
ghost use Rattle.launch_machine.specs.Next.{IsNextStart, StartsNoMore, next_version_from};

use crate::adoption::{takes_table, version_to_adopt};
use crate::choice::{call_kind, first_call, first_start};
use crate::force::{InForce, in_force, next_version};
use crate::next::{call_beside, calls_of, set_starts, start_beside, starts_of, takes_start};
use crate::row;
use crate::row::table_size;
use cron_io::OutOfMemory;
use due_set::JobTable;
use min_tree::LeastTree;
use paxos_base::{Entry, JobRow, Kind, RowList, rows_stand};
use std::alloc::Global;
use std::marker::Model;
use zone_minutes::Minute;

/// What an entry of the log did.
#[derive(Clone, Copy, Debug, PartialEq, Eq)]
pub enum Effect {
    /// A launch is open.
    Opened,
    /// A launch has ended.
    Closed,
    /// A version of the table is in force.
    Adopted,
    /// Nothing.
    Ignored,
}

/// What a leader does next.
#[derive(Clone, Copy, Debug, PartialEq, Eq)]
pub enum Intent {
    /// Call the job's launch of `at`, its instant or its date, and end it so.
    Call { job: u32, at: i64, kind: Kind },
    /// Start the job's launch of `at`.
    Start { job: u32, at: i64 },
    /// Adopt this version of the table.
    Adopt { version: u32 },
    /// Nothing for now.
    Rest,
}

/// The launch table of a run, and when its jobs may be started and their launches called. What is said of a machine is said
/// for one table.
#[derive(Debug, Drop)]
pub struct Machine {
    rows: Vec<JobRow>,
    // Beside each row, the first instant at which its job may be started; nothing while its launch is open.
    starts: LeastTree,
    // Beside each row, an instant before which its open launch isn't called; nothing while none is open.
    calls: LeastTree,
}

impl Model for Machine {
    ghost use Rattle.paxos_base.specs.Rows.{OpenHaveCursors};
    ghost use Rattle.launch_machine.specs.Machine.{Launches};

    ghost Value = { Launches };

    ghost view = { λ machine. record { rows = machine.rows.items; starts = machine.starts; calls = machine.calls } };

    ghost invariant = { λ machine. OpenHaveCursors machine.rows.items };
}

impl Machine {
    /// A machine that has heard of no launch.
    pub fn new(alloc: Global, table: &JobTable) -> Result<Machine, OutOfMemory>
        ensures rows { IfOk result (λ machine. machine.rows ≡ first_rows table.now) }
        ensures stands { IfOk result (λ machine. StandsFor table.now machine) }
        ensures sound { IsSound table.now }
    {
        let rows = row::first_rows(alloc, table_size(table))?;
        let starts = starts_of(alloc, table, &rows)?;
        let calls = calls_of(alloc, table, &rows)?;
        Ok(Machine {
            rows,
            starts,
            calls,
        })
    }

    /// The machine of a launch table, or `None` where the rows are not one for each job, in the
    /// order of the jobs, with the table's own behind them.
    pub fn from_rows(
        alloc: Global,
        table: &JobTable,
        rows: RowList,
    ) -> Result<Option<Machine>, OutOfMemory>
        ensures rows { IfOk result (λ found. IfSome found (λ machine. machine.rows ≡ rows)) }
        ensures stands { IfOk result (λ found. IfSome found (λ machine. StandsFor table.now machine)) }
        ensures none { IfOk result (λ found. IfNone found (RowsStand rows (table_size table.now) → ⊥)) }
    {
        if !rows_stand(&rows, table.jobs(), table.versions()) {
            return Ok(None);
        }
        let rows = rows.items;
        let starts = starts_of(alloc, table, &rows)?;
        let calls = calls_of(alloc, table, &rows)?;
        Ok(Some(Machine {
            rows,
            starts,
            calls,
        }))
    }

    /// The launch table.
    pub fn copy_rows(&self, alloc: Global) -> Result<RowList, OutOfMemory>
        ensures { IfOk result (λ rows. rows ≡ self.now.rows) }
    {
        let mut items = Vec::new(alloc);
        items.extend_from_slice(&self.rows)?;
        Ok(RowList { items })
    }

    /// An equal machine.
    pub fn copy(&self) -> Result<Machine, OutOfMemory>
        ensures { IfOk result (λ copy. copy ≡ self.now) }
    {
        Ok(Machine {
            rows: self.rows.clone()?,
            starts: self.starts.copy()?,
            calls: self.calls.copy()?,
        })
    }

    /// The row of a job.
    pub fn row(&self, job: u32) -> JobRow
        requires { job < length self.now.rows }
        ensures { slice_get self.now.rows job ≡ Some result }
    {
        self.rows[job as usize]
    }

    /// The first instant at which a start takes effect, or `None` where none does any more.
    pub fn next_start(&self) -> Option<Minute>
        ensures found { (table : Table) → StandsFor table self.now → IfSome result (λ first. IsNextStart table self.now.rows first.0) }
        ensures none { (table : Table) → StandsFor table self.now → IfNone result (StartsNoMore table self.now.rows) }
    {
        match self.starts.least() {
            Some(first) => Some(Minute(first)),
            None => None,
        }
    }

    /// The instant from which the next version of the table may be adopted, or `None` where there is none left.
    pub fn next_version_from(&self, table: &JobTable) -> Option<Minute>
        requires { StandsFor table.now self.now }
        ensures { result ≡ next_version_from table.now self.now.rows }
    {
        let version = next_version(&self.rows, table)?;
        Some(table.version_from(version))
    }

    /// Applies an entry of the log.
    pub fn apply(&mut self, table: &JobTable, entry: Entry) -> Effect
        requires stands { StandsFor table.now self.old }
        requires room { CanCount self.old.rows entry }
        ensures applies { Applies table.now self.old.rows entry self.new.rows }
        ensures stands { StandsFor table.now self.new }
        ensures effect { IsEffect table.now self.old.rows entry result }
    {
        match entry {
            Entry::Noop => Effect::Ignored,
            Entry::Start { job, at, now } => self.start(table, job, at, now),
            Entry::End { job, at, kind } => self.end(table, job, at, kind),
            Entry::Table { version, now } => self.adopt(table, version, now),
        }
    }

    // Applies a start.
    fn start(&mut self, table: &JobTable, job: u32, at: i64, now: i64) -> Effect
        requires stands { StandsFor table.now self.old }
        ensures applies { Applies table.now self.old.rows (Entry.Start job at now) self.new.rows }
        ensures stands { StandsFor table.now self.new }
        ensures effect { IsEffect table.now self.old.rows (Entry.Start job at now) result }
    {
        if takes_start(&self.rows, &self.starts, table, job, at, now) {
            let row = row::opened(self.rows[job as usize], at, now);
            self.put(table, job, row);
            Effect::Opened
        } else {
            Effect::Ignored
        }
    }

    // Applies an end.
    fn end(&mut self, table: &JobTable, job: u32, at: i64, kind: Kind) -> Effect
        requires stands { StandsFor table.now self.old }
        requires room { CanRise self.old.rows job }
        ensures applies { Applies table.now self.old.rows (Entry.End job at kind) self.new.rows }
        ensures stands { StandsFor table.now self.new }
        ensures effect { IsEffect table.now self.old.rows (Entry.End job at kind) result }
    {
        if row::takes_end(&self.rows, job, at) {
            let row = row::closed(self.rows[job as usize], at, kind);
            self.put(table, job, row);
            Effect::Closed
        } else {
            Effect::Ignored
        }
    }

    // Applies the adoption of a version.
    fn adopt(&mut self, table: &JobTable, version: u32, now: i64) -> Effect
        requires stands { StandsFor table.now self.old }
        ensures applies { Applies table.now self.old.rows (Entry.Table version now) self.new.rows }
        ensures stands { StandsFor table.now self.new }
        ensures effect { IsEffect table.now self.old.rows (Entry.Table version now) result }
    {
        if takes_table(&self.rows, &self.starts, table, version, now) {
            self.put_version(table, version, now);
            Effect::Adopted
        } else {
            Effect::Ignored
        }
    }

    // Puts a version into the table's own row, and beside the rows when their jobs may be started by it.
    fn put_version(&mut self, table: &JobTable, version: u32, now: i64)
        requires stands { StandsFor table.now self.old }
        requires takes { TakesTable table.now self.old.rows version now }
        ensures rows { self.new.rows ≡ with_row (adopted_row version now) self.old.rows (length table.now.jobs) }
        ensures stands { StandsFor table.now self.new }
    {
        let own = table.jobs() as usize;
        self.rows[own] = row::adopted(self.rows[own], version, now);
        let force = InForce {
            version,
            since: Some(now),
        };
        set_starts(&mut self.starts, table, force, &self.rows);
    }

    // Puts the job's row in the place of the one that stands there.
    fn put(&mut self, table: &JobTable, job: u32, row: JobRow)
        requires stands { StandsFor table.now self.old }
        requires job { job < length table.now.jobs }
        requires number { row.job ≡ job }
        requires cursor { OpenHasCursor row }
        ensures rows { self.new.rows ≡ slice_set self.old.rows job row }
        ensures stands { StandsFor table.now self.new }
    {
        let place = job as usize;
        let force = in_force(&self.rows, table);
        self.rows[place] = row;
        self.starts.set(place, start_beside(table, force, job, row));
        self.calls.set(place, call_beside(table, job, row));
    }

    /// What a leader does next at an instant of the window.
    pub fn choose(&self, table: &JobTable, now: Minute) -> Intent
        requires stands { StandsFor table.now self.now }
        requires inside { IsInWindow table.now.window now.0 }
        ensures { IsIntent table.now self.now.rows now.0 result }
    {
        if let Some((job, at)) = first_call(&self.rows, &self.calls, table, now) {
            let version = in_force(&self.rows, table).version;
            let kind = call_kind(table, version, job, at, now);
            return Intent::Call { job, at, kind };
        }
        if let Some((job, at)) = first_start(&self.rows, &self.starts, table, now) {
            return Intent::Start { job, at };
        }
        match version_to_adopt(&self.rows, table, now) {
            Some(version) => Intent::Adopt { version },
            None => Intent::Rest,
        }
    }
}
