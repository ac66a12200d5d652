//! A part of free turns that is shown on a board, and readers of the board beside it.
ghost use Rattle.std.specs.Prelude.{◌<◌, IfOk, IsSomeAnd};
ghost use Rattle.disk_model.specs.MemDisk.{view_of};
ghost use Rattle.world_free.specs.Board.{MayShow};
ghost use Rattle.world_rounds.specs.World.{IsWorld, book_of};

use crate::fault::BenchFault;
use crate::looks::Looks;
use cron_io::OutOfMemory;
use disk_model::MemDisk;
use due_set::JobTable;
use script_play::empty_world;
use status_board::{Board, BoardWriter};
use std::alloc::Global;
use std::sync::Wait;
use std::thread;
use std::thread::Threads;
use std::time::Clock;
use world_free::{OpenGate, run_free_shown};
use world_rounds::{Parts, World};
use zone_minutes::Minute;

// How many replicas there are.
const MEMBERS: u8 = 3;

// How many readers each board has, of which as many look as are asked for.
const READERS: u8 = 8;

/// What came of a part: the parts of its world, and the prefix that was shown last.
#[derive(Drop)]
pub struct Shown {
    pub parts: Parts<MemDisk>,
    pub prefix: u64,
}

/// A world before any turn.
pub fn first_world(alloc: Global, table: &JobTable) -> Result<World<MemDisk>, BenchFault>
    ensures world { IfOk result (IsWorld view_of table.now) }
    ensures some { IfOk result (λ world. 0 < (book_of world).members) }
{
    let world = empty_world(alloc, table, MEMBERS)?;
    Ok(world)
}

// Each replica takes so many turns, at the window's last minute.
fn run_part<R: Threads + Wait + Sync>(
    rt: &R,
    alloc: Global,
    table: &JobTable,
    world: World<MemDisk>,
    turns: u32,
    board: &mut Option<BoardWriter>,
) -> Result<Parts<MemDisk>, OutOfMemory>
    requires world { IsWorld view_of table.now world }
    requires some { 0 < (book_of world).members }
    requires may_show { IsSomeAnd board.old (MayShow table.now) }
{
    let window = table.window();
    let last = Minute(window.until.0 - 1);
    let Some(writer) = board.take() else {
        unreachable!()
    };
    let parts = world.take_parts();
    let (parts, writer) = run_free_shown(rt, alloc, table, parts, last, turns, &OpenGate, writer)?;
    let none = board.replace(writer);
    let None = none else { unreachable!() };
    Ok(parts)
}

// Ends a board, once its readers have stopped: no view comes any more then. Gives the prefix that it showed last.
fn end_of<R: Wait>(rt: &R, board: Option<BoardWriter>) -> u64 {
    match board {
        Some(writer) => {
            let prefix = writer.prefix();
            writer.end(rt);
            prefix
        }
        None => 0,
    }
}

/// A part of so many turns of each replica, while so many readers look, each in a thread of its own.
///
/// # Errors
///
/// Want of memory, or of a thread for a reader. Where the part wants memory the board is ended, and a reader may wait for ever.
pub fn run_shown<R: Threads + Wait + Clock + Sync>(
    rt: &R,
    alloc: Global,
    table: &JobTable,
    world: World<MemDisk>,
    turns: u32,
    count: usize,
    looks: &Looks,
) -> Result<Shown, BenchFault>
    requires world { IsWorld view_of table.now world }
    requires some { 0 < (book_of world).members }
{
    let (writer, mut readers) = Board::start(rt, alloc, table, READERS)?;
    readers.truncate(count);
    let mut board = Some(writer);
    let (part, all) = thread::scope(
        thread::scope_env(),
        rt,
        |scope| -> (Result<Parts<MemDisk>, OutOfMemory>, bool)
            requires { IsWorld view_of table.now world × (0 < (book_of world).members) × IsSomeAnd board (MayShow table.now) }
        {
            let mut all = true;
            'readers: for reader in readers {
                all &= scope.spawn(move || looks.look_on(rt, reader)).is_ok();
            }
            let part = run_part(rt, alloc, table, world, turns, &mut board);
            looks.stop();
            (part, all)
        },
    );
    let prefix = end_of(rt, board);
    if !all {
        return Err(BenchFault::NoThread);
    }
    let parts = part?;
    Ok(Shown { parts, prefix })
}
