//! One reader, by turns with the writer.
ghost use Rattle.std.specs.Prelude.{◌≡◌, ◌<◌, IfOk, true};
ghost use Rattle.launch_machine.specs.Machine.{StandsFor};
ghost use Rattle.status_board.specs.Writing.{sight_of};

use crate::hour::{FROM, SIZE, hour_table};
use crate::writes::{Told, learn_all};
use due_set::JobTable;
use learner_core::Learnt;
use paxos_base::{Entry, JobRow, Kind, RowList, rows_stand};
use status_board::{Board, BoardReader, BoardWriter};
use std::alloc::Global;
use std::sync::Wait;
use std::test::*;

/// What a reader sees: a prefix, and the row of the first job.
#[derive(Clone, Copy, Debug, PartialEq, Eq)]
pub struct Seen {
    pub prefix: u64,
    pub row: JobRow,
}

/// What the reader sees now.
pub fn look<R: Wait>(rt: &R, reader: BoardReader) -> (Seen, BoardReader)
    requires { 0 < reader.total }
    ensures board { result.1.board ≡ reader.board }
    ensures total { result.1.total ≡ reader.total }
{
    let view = reader.view(rt);
    let seen = Seen {
        prefix: view.prefix(),
        row: view.row(0),
    };
    (seen, view.leave())
}

// The first launch starts, and ends. The entries before and behind are refused.
const LAUNCH: &[Told] = &[
    Told {
        slot: 1,
        entry: Entry::Noop,
        learnt: Learnt::Gap,
    },
    Told {
        slot: 0,
        entry: Entry::Start {
            job: 0,
            at: FROM,
            now: FROM + 1,
        },
        learnt: Learnt::New,
    },
    Told {
        slot: 0,
        entry: Entry::Noop,
        learnt: Learnt::Old,
    },
    Told {
        slot: 1,
        entry: Entry::End {
            job: 0,
            at: FROM,
            kind: Kind::Launch,
        },
        learnt: Learnt::New,
    },
];

const FRESH: JobRow = JobRow {
    job: 0,
    cursor: None,
    open_now: None,
    last: None,
    launched: 0,
    voided: 0,
};

const LAUNCHED: JobRow = JobRow {
    job: 0,
    cursor: Some(FROM),
    open_now: None,
    last: Some(FROM),
    launched: 1,
    voided: 0,
};

// What a reader sees before the launch is learned, before it is published, and once it is told of it.
fn launch<R: Wait>(
    rt: &R,
    table: &JobTable,
    mut writer: BoardWriter,
    reader: BoardReader,
) -> (BoardWriter, Option<(Seen, Seen, Seen)>)
    requires total { 0 < reader.total }
    requires table { StandsFor table.now writer.machine }
    requires ready { writer.ready ≡ true }
    requires board { reader.board ≡ writer.board }
{
    let (first, reader) = look(rt, reader);
    if !learn_all(&mut writer, table, LAUNCH) {
        return (writer, None);
    }
    let (second, reader) = look(rt, reader);
    let (writer, mark) = writer.publish(rt);
    let (third, _reader) = look(rt, reader.told(&mark));
    (writer, Some((first, second, third)))
}

// What a reader sees that was told of a snapshot, where the one before it was refused.
fn snapshot<R: Wait>(
    rt: &R,
    table: &JobTable,
    rows: &RowList,
    mut writer: BoardWriter,
    reader: BoardReader,
) -> (BoardWriter, Option<Seen>)
    requires total { 0 < reader.total }
    requires table { StandsFor table.now writer.machine }
    requires ready { writer.ready ≡ true }
    requires board { reader.board ≡ writer.board }
{
    if !rows_stand(rows, table.jobs(), table.versions()) {
        return (writer, None);
    }
    let Ok(false) = writer.install(table, 0, rows) else {
        return (writer, None);
    };
    let Ok(true) = writer.install(table, 7, rows) else {
        return (writer, None);
    };
    let (writer, mark) = writer.publish(rt);
    let (seen, _reader) = look(rt, reader.told(&mark));
    (writer, Some(seen))
}

// A writer and a reader.
fn start<R: Wait>(
    rt: &R,
    alloc: Global,
    table: &JobTable,
) -> Result<(BoardWriter, BoardReader), Fail>
    ensures { IfOk result (λ board. StandsFor table.now board.0.machine × (board.0.ready ≡ true) × (board.1 ≡ sight_of board.0)) }
{
    let (writer, mut readers) = Board::start(rt, alloc, table, 1)?;
    match readers.pop() {
        Some(reader) => Ok((writer, reader)),
        None => {
            writer.end(rt);
            Err("no reader".into())
        }
    }
}

#[test]
fn a_launch_is_seen_once_it_is_published(rt: HostRuntime) -> Result<(), Fail> {
    let table = hour_table(rt.alloc())?;
    assert_eq!(rt; table.jobs(), 1);
    let (writer, reader) = start(&rt, rt.alloc(), &table)?;
    let (writer, seen) = launch(&rt, &table, writer, reader);
    let own = Seen {
        prefix: writer.prefix(),
        row: FRESH,
    };
    writer.end(&rt);
    let before = Seen {
        prefix: 0,
        row: FRESH,
    };
    let after = Seen {
        prefix: 2,
        row: LAUNCHED,
    };
    assert_eq!(rt; seen, Some((before, before, after)));
    assert_eq!(rt; own.prefix, 2);
    Ok(())
}

#[test]
fn a_snapshot_is_seen_once_it_is_published(rt: HostRuntime) -> Result<(), Fail> {
    let table = hour_table(rt.alloc())?;
    assert_eq!(rt; table.jobs(), 1);
    let mut rows = RowList::fresh(rt.alloc(), SIZE)?;
    rows.items[0] = LAUNCHED;
    let (writer, reader) = start(&rt, rt.alloc(), &table)?;
    let (writer, seen) = snapshot(&rt, &table, &rows, writer, reader);
    writer.end(&rt);
    let after = Seen {
        prefix: 7,
        row: LAUNCHED,
    };
    assert_eq!(rt; seen, Some(after));
    Ok(())
}
