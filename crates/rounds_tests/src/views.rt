//! A part of a world whose replicas' threads look at a board before each turn, while the first replica's shows on it what that has
//! learned.
ghost use Rattle.std.specs.Prelude.{◌<◌};
ghost use Rattle.disk_model.specs.MemDisk.{view_of};
ghost use Rattle.world_free.specs.Board.{MayShow};
ghost use Rattle.world_rounds.specs.World.{IsWorld, book_of};
ghost use Rattle.rounds_tests.specs.Plays.{AreFourHours};

use crate::free::steps_of;
use crate::hour::{TENS, table_of_tens};
use crate::worlds::first_world;
use disk_model::MemDisk;
use due_set::JobTable;
use status_board::{Board, BoardReader, BoardWriter};
use std::alloc::Global;
use std::process::Abort;
use std::sync::{Mutex, Wait};
use std::test::*;
use std::thread::Threads;
use world_free::{TurnGate, run_free_shown};
use world_rounds::World;

// How many replicas there are, each with a reader.
const MEMBERS: u8 = 5;

// How many turns each has.
const TURNS: u32 = 2000;

// A reader, and what it has seen.
#[derive(Drop)]
struct Looker {
    reader: Option<BoardReader>,
    // How many views have come.
    views: u32,
    last: u64,
    // A prefix was below the one before.
    fell: bool,
}

impl Looker {
    fn new(reader: BoardReader) -> Looker {
        Looker {
            reader: Some(reader),
            views: 0,
            last: 0,
            fell: false,
        }
    }

    // Asks for a view.
    fn look<R: Wait>(&mut self, rt: &R) {
        let Some(reader) = self.reader.take() else {
            return;
        };
        let view = reader.view(rt);
        let prefix = view.prefix();
        self.reader = Some(view.leave());
        self.fell = self.fell || prefix < self.last;
        self.last = prefix;
        self.views = self.views.saturating_add(1);
    }
}

// A gate at which each replica's thread asks for a view, by a reader of its own.
#[derive(Drop)]
struct ViewGate<'r, R> {
    rt: &'r R,
    lookers: Vec<Mutex<Looker>>,
}

impl<R: Wait> TurnGate for ViewGate<'_, R> {
    fn pass(&self, member: u8, _turn: u32) {
        let Some(looker) = self.lookers.get(usize::from(member)) else {
            return;
        };
        if let Some(mut looker) = looker.try_lock() {
            looker.look(self.rt);
        }
    }
}

// What came of a part that was shown.
#[derive(Drop)]
struct Shown {
    world: World<MemDisk>,
    // The prefix that was shown last.
    prefix: u64,
}

fn lookers(alloc: Global, readers: Vec<BoardReader>) -> Result<Vec<Mutex<Looker>>, Fail> {
    let mut lookers = Vec::new(alloc);
    for reader in readers {
        lookers.push(Mutex::new(Looker::new(reader)))?;
    }
    Ok(lookers)
}

// The part, whose threads pass the gate.
fn run_shown<R: Threads + Wait + Sync>(
    rt: &R,
    alloc: Global,
    table: &JobTable,
    world: World<MemDisk>,
    gate: &ViewGate<'_, R>,
    writer: BoardWriter,
) -> Result<Shown, Fail>
    requires inside { AreFourHours table.now.window }
    requires world { IsWorld view_of table.now world }
    requires some { 0 < (book_of world).members }
    requires may_show { MayShow table.now writer }
{
    let parts = world.take_parts();
    match run_free_shown(rt, alloc, table, parts, TENS, TURNS, gate, writer) {
        Ok((parts, writer)) => {
            let prefix = writer.prefix();
            writer.end(rt);
            Ok(Shown {
                world: World::from_parts(parts),
                prefix,
            })
        }
        Err(_) => Err(Fail::from("out of memory")),
    }
}

// Each replica's thread has looked before each of its turns, each view has come, and none was older than the one before.
#[test]
fn each_view_comes(rt: HostRuntime) -> Result<(), Fail> {
    let table = table_of_tens(rt.alloc())?;
    let world = first_world(rt.alloc(), &table, MEMBERS)?;
    let (writer, readers) = Board::start(&rt, rt.alloc(), &table, MEMBERS)?;
    let lookers = match lookers(rt.alloc(), readers) {
        Ok(lookers) => lookers,
        Err(fault) => {
            writer.end(&rt);
            return Err(fault);
        }
    };
    let gate = ViewGate { rt: &rt, lookers };
    let shown = run_shown(&rt, rt.alloc(), &table, world, &gate, writer)?;
    let turns = shown.world.book().turns();
    for (member, looker) in (0..MEMBERS).zip(gate.lookers) {
        let looker = looker.into_inner();
        assert!(rt; looker.views == TURNS && !looker.fell);
        assert!(rt; looker.last <= shown.prefix);
        assert!(rt; steps_of(turns, member) == TURNS as usize);
    }
    Ok(())
}
