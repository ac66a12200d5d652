//! Two readers and a writer, each in a thread.
ghost use Rattle.std.specs.Prelude.{◌≡◌, ◌<◌, All, IfOk, IfSome, length, true};
ghost use Rattle.due_set.specs.Table.{Table};
ghost use Rattle.launch_machine.specs.Machine.{StandsFor};
ghost use Rattle.status_board.specs.Writing.{sight_of};
ghost use Rattle.board_tests.specs.Jobs.{IsFor};

use crate::hour::{SIZE, hour_table};
use crate::job::{Job, Looks};
use crate::shows::look;
use due_set::JobTable;
use paxos_base::{RowList, rows_stand};
use status_board::{Board, BoardReader, BoardWriter};
use std::alloc::Global;
use std::sync::Wait;
use std::test::*;
use std::thread;
use std::thread::Threads;

// The prefix of the mark that the readers are told of.
const MARK: u64 = 5;

// The last snapshot's prefix.
const LAST: u64 = 300;

// How often a reader looks.
const TIMES: u64 = 300;

// Publishes later and later snapshots.
fn write_on<R: Wait>(
    rt: &R,
    table: &JobTable,
    rows: &RowList,
    mut writer: BoardWriter,
) -> BoardWriter
    requires table { StandsFor table.now writer.machine }
    requires ready { writer.ready ≡ true }
{
    if !rows_stand(rows, table.jobs(), table.versions()) {
        return writer;
    }
    'bases: for base in 1..=LAST {
        if writer.install(table, base, rows).is_err() {
            return writer;
        }
        writer = writer.publish(rt).0;
    }
    writer
}

// Looks again and again.
fn look_on<R: Wait>(rt: &R, reader: BoardReader) -> (Looks, BoardReader)
    requires { 0 < reader.total }
{
    let (seen, mut reader) = look(rt, reader);
    let first = seen.prefix;
    let mut last = first;
    let mut fell = false;
    'looks: for _ in 0..TIMES {
        let (seen, back) = look(rt, reader);
        reader = back;
        fell = fell || seen.prefix < last;
        last = seen.prefix;
    }
    (Looks { fell, first, last }, reader)
}

fn run_job<R: Wait>(rt: &R, table: &JobTable, rows: &RowList, job: &mut Job)
    requires { IsFor table.now job.old }
{
    if let Some(writer) = job.writer.take() {
        let none = job.writer.replace(write_on(rt, table, rows, writer));
        let None = none else { unreachable!() };
    }
    if let Some(reader) = job.reader.take() {
        let (looks, reader) = look_on(rt, reader);
        job.reader = Some(reader);
        job.looks = looks;
    }
}

fn run_all<R: Threads + Wait + Sync>(rt: &R, table: &JobTable, rows: &RowList, jobs: &mut [Job])
    requires each { All (IsFor table.now) jobs.old }
{
    thread::for_each_mut(rt, jobs, 3, &|_, job| { run_job(rt, table, rows, job) });
}

// Ends the job's writer, where it has one; gives what its reader saw.
fn end_job<R: Wait>(rt: &R, job: Job) -> Looks {
    let Job {
        writer,
        reader: _reader,
        looks,
    } = job;
    if let Some(writer) = writer {
        writer.end(rt);
    }
    looks
}

// Ends the jobs of a reader, of the writer and of another reader; gives what the readers saw.
fn end_all<R: Wait>(rt: &R, jobs: [Job; 3]) -> [Looks; 2] {
    let [one, writer, other] = jobs;
    let one = end_job(rt, one);
    end_job(rt, writer);
    [one, end_job(rt, other)]
}

fn reading(reader: BoardReader) -> Job
    requires { 0 < reader.total }
    ensures { (table : Table) → IsFor table result }
{
    Job {
        writer: None,
        reader: Some(reader),
        looks: Looks::default(),
    }
}

fn writing(table: &JobTable, writer: BoardWriter) -> Job
    requires stands { StandsFor table.now writer.machine }
    requires ready { writer.ready ≡ true }
    ensures { IsFor table.now result }
{
    let _ = table;
    Job {
        writer: Some(writer),
        reader: None,
        looks: Looks::default(),
    }
}

// A writer and two readers.
fn begin<R: Wait>(
    rt: &R,
    alloc: Global,
    table: &JobTable,
) -> Result<(BoardWriter, BoardReader, BoardReader), Fail>
    ensures writer { IfOk result (λ board. StandsFor table.now board.0.machine × (board.0.ready ≡ true)) }
    ensures first { IfOk result (λ board. board.1 ≡ sight_of board.0) }
    ensures second { IfOk result (λ board. board.2 ≡ sight_of board.0) }
{
    let (writer, mut readers) = Board::start(rt, alloc, table, 2)?;
    match (readers.pop(), readers.pop()) {
        (Some(first), Some(second)) => Ok((writer, first, second)),
        (_, _) => {
            writer.end(rt);
            Err("no readers".into())
        }
    }
}

// A board whose two readers were told of a mark.
fn start<R: Wait>(rt: &R, alloc: Global, table: &JobTable, rows: &RowList) -> Result<[Job; 3], Fail>
    requires { 0 < length table.now.jobs }
    ensures { IfOk result (λ jobs. All (IsFor table.now) jobs) }
{
    let (mut writer, first, second) = begin(rt, alloc, table)?;
    if !rows_stand(rows, table.jobs(), table.versions()) {
        writer.end(rt);
        return Err("other rows".into());
    }
    if let Err(fault) = writer.install(table, MARK, rows) {
        writer.end(rt);
        return Err(fault.into());
    }
    let (writer, mark) = writer.publish(rt);
    Ok([
        reading(first.told(&mark)),
        writing(table, writer),
        reading(second.told(&mark)),
    ])
}

#[test]
fn prefixes_never_fall_beside_a_writer(rt: HostRuntime) -> Result<(), Fail> {
    let table = hour_table(rt.alloc())?;
    assert_eq!(rt; table.jobs(), 1);
    let rows = RowList::fresh(rt.alloc(), SIZE)?;
    let mut jobs = start(&rt, rt.alloc(), &table, &rows)?;
    run_all(&rt, &table, &rows, &mut jobs);
    for looks in end_all(&rt, jobs) {
        assert!(rt; !looks.fell);
        assert!(rt; MARK <= looks.first && looks.last <= LAST);
    }
    Ok(())
}
