//! A board of what the first replica learns in free turns, and a reader who looks at it after each command `free`.
ghost use Rattle.std.specs.Prelude.{◌≡◌, ◌+◌, ◌<◌, ◌^◌, ◌∷◌, ◌++◌, ℕ, [], IfOk, IfSome, length, true};
ghost use Rattle.launch_machine.specs.Clerk.{table_size};
ghost use Rattle.paxos_base.specs.Rows.{row_count};
ghost use Rattle.script_play.specs.Watch.{MayWatch, Watches, open_jobs};
ghost use Rattle.world_free.specs.Board.{MayShow};

use crate::seen::Seen;
use cron_io::OutOfMemory;
use due_set::JobTable;
use status_board::{Board, BoardReader, BoardView, BoardWriter};
use std::alloc::Global;
use std::sync::Wait;

/// A board, one of its readers, and what that has seen after commands `free`. It isn't dropped: `end` ends it.
pub struct Watch {
    /// Its writer, which has published the state that it has.
    pub writer: BoardWriter,
    /// Its reader.
    pub reader: BoardReader,
    /// What the reader has seen, in the order of the commands.
    pub seen: Vec<Seen>,
}

// How many jobs are open in a view, where it is the writer's state.
fn open_of(view: &BoardView, writer: &BoardWriter, total: u32) -> Option<u32>
    requires view { total ≡ view.now.total }
    requires rows { total ≡ length writer.now.machine.rows }
    ensures { IfSome result (λ count. count ≡ open_jobs writer.now.machine.rows) }
{
    if view.prefix() != writer.prefix() {
        return None;
    }
    let mut count = 0;
    'jobs: for job in 0..total {
        let row = writer.row(job);
        if view.row(job) != row {
            return None;
        }
        if row.open_now.is_some() {
            count += 1;
        }
    }
    Some(count)
}

// What a reader sees that was told of the writer's last state. A view of another state is left, and asked for again.
fn look<R: Wait>(
    rt: &R,
    writer: BoardWriter,
    reader: BoardReader,
    total: u32,
) -> (BoardWriter, BoardReader, u32)
    requires ready { writer.ready ≡ true }
    requires published { writer.published ≡ writer.states }
    requires board { reader.board ≡ writer.board }
    requires total { total ≡ reader.total }
    requires rows { total ≡ length writer.machine.rows }
    ensures writer { result.0 ≡ writer }
    ensures board { result.1.board ≡ writer.board }
    ensures total { result.1.total ≡ reader.total }
    ensures count { result.2 ≡ open_jobs writer.machine.rows }
{
    let (writer, mark) = writer.publish(rt);
    let mut reader = reader.told(&mark);
    'looks: for _ in rt.forever() {
        let view = reader.view(rt);
        let count = open_of(&view, &writer, total);
        reader = view.leave();
        if let Some(count) = count {
            return (writer, reader, count);
        }
    }
    unreachable!()
}

impl Watch {
    /// A watch before any command.
    ///
    /// # Errors
    ///
    /// Want of memory.
    pub fn start<R: Wait>(rt: &R, alloc: Global, table: &JobTable) -> Result<Watch, OutOfMemory>
        ensures ready { IfOk result (MayWatch table.now) }
        ensures watches { IfOk result (λ watch. (members : ℕ) → Watches members table.now [] [] [] watch) }
    {
        let (writer, mut readers) = Board::start(rt, alloc, table, 1)?;
        match readers.pop() {
            Some(reader) => Ok(Watch {
                writer,
                reader,
                seen: Vec::new(alloc),
            }),
            None => {
                writer.end(rt);
                Err(OutOfMemory)
            }
        }
    }

    /// Ends the board. It may wait for the reader.
    pub fn end<R: Wait>(self, rt: &R) -> Vec<Seen>
        ensures { result.items ≡ self.seen.items }
    {
        let Watch {
            writer,
            reader: _,
            seen,
        } = self;
        writer.end(rt);
        seen
    }
}

// What was seen, where there is a watch; it is ended.
pub(crate) fn end_on<R: Wait>(rt: &R, alloc: Global, watch: Option<Watch>) -> Vec<Seen>
    ensures { IfSome watch (λ watch. result.items ≡ watch.seen.items) }
{
    match watch {
        Some(watch) => watch.end(rt),
        None => Vec::new(alloc),
    }
}

// Notes what is seen after the command of a place, from 0, whose free turns the writer has shown.
pub(crate) fn see<R: Wait>(
    rt: &R,
    table: &JobTable,
    place: usize,
    watch: Watch,
) -> Result<Watch, OutOfMemory>
    requires may { MayShow table.now watch.writer }
    requires board { watch.reader.board ≡ watch.writer.board }
    requires total { watch.reader.total ≡ row_count (table_size table.now) }
    requires place { place < 2 ^ 63 }
    ensures writer { IfOk result (λ new. new.writer ≡ watch.writer) }
    ensures board { IfOk result (λ new. new.reader.board ≡ watch.writer.board) }
    ensures total { IfOk result (λ new. new.reader.total ≡ row_count (table_size table.now)) }
    ensures seen { IfOk result (λ new. new.seen.items
        ≡ watch.seen.items ++ record { number = place + 1; prefix = watch.writer.prefix; jobs_open = open_jobs watch.writer.machine.rows } ∷ []) }
{
    let Watch {
        writer,
        reader,
        mut seen,
    } = watch;
    let prefix = writer.prefix();
    let (writer, reader, jobs_open) = look(rt, writer, reader, table.jobs() + 1);
    match seen.push(Seen {
        number: place + 1,
        prefix,
        jobs_open,
    }) {
        Ok(()) => Ok(Watch {
            writer,
            reader,
            seen,
        }),
        Err(_) => {
            writer.end(rt);
            Err(OutOfMemory)
        }
    }
}
