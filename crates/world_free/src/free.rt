//! A part in which each replica takes its turns in a thread of its own.
ghost use Rattle.std.specs.Prelude.{◌≡◌, ◌+◌, ◌<◌, ◌≤◌, ◌++◌, ℕ, false, List, IfOk, OnOk, Option, Some, is_some, length, slice_get, slice_index_or};
ghost use Rattle.std.specs.Thread.{IsSend, IsSync};
ghost use Rattle.history.specs.Book.{Row};
ghost use Rattle.script_semantics.specs.Free.{IsFreePart};
ghost use Rattle.script_semantics.specs.Situation.{Situation as Here};
ghost use Rattle.status_board.specs.Writing.{Writing};
ghost use Rattle.turn_book.specs.Turns.{opening_of, seats_of};
ghost use Rattle.world_free.specs.Board.{HasShown, HaveSeen, MayShow, MayShowOn, OnBoard, ShowsPart};
ghost use Rattle.world_free.specs.Ends.{BeginsAt};
ghost use Rattle.world_free.specs.Jobs.{AreJobsAt, HaveRun, IsJobAt};
ghost use Rattle.world_free.specs.Plan.{plan_of};
ghost use Rattle.world_free.specs.declared.job.FreeJob.{FreeJob as Work};
ghost use Rattle.world_steps.specs.Parts.{AreParts, ArePartsAt, HasListRoom};
ghost use Rattle.zone_minutes.specs.Window.{IsInWindow};

use crate::ends::{latest_reading, mails_ended};
use crate::gate::TurnGate;
use crate::job::{FreeJob, Setting};
use crate::jobs::{MOST_MEMBERS, had_memory, jobs_of, mails_kept, parts_of};
use crate::ready::MOST_TURNS;
use cron_io::OutOfMemory;
use disk_model::{ArmedDisk, Disk};
use due_set::JobTable;
use replica_node::Node;
use status_board::BoardWriter;
use std::alloc::Global;
use std::sync::Wait;
use std::thread;
use std::thread::Threads;
use turn_book::TurnBook;
use world_law::Book;
use world_steps::{Bundle, MailState};
use zone_minutes::Minute;

// Each of the replicas but the first takes its turns in a thread of its own.
fn run_others<D: ArmedDisk + Send, R: Threads + Wait + Sync, G: TurnGate + Sync>(
    rt: &R,
    book: &TurnBook<Book>,
    gate: &G,
    table: &JobTable,
    setting: &Setting,
    jobs: &mut [FreeJob<D>],
)
    requires inside { IsInWindow table.now.window setting.now.at.0 }
    requires few { length jobs.old ≤ 6 }
    requires begun { (who : ℕ) (none : Work D) → who < length jobs.old → (situation : Here)
        × IsJobAt D.view (plan_of table.now book.now situation setting.now) book.now (who + 1) 0 (slice_index_or jobs.old who none) }
    requires memory { (who : ℕ) (none : Work D) → who < length jobs.old → (slice_index_or jobs.old who none).short ≡ false }
    ensures count { length jobs.new ≡ length jobs.old }
    ensures runs { (who : ℕ) (none : Work D) → who < length jobs.old → (slice_index_or jobs.new who none).short ≡ false → (situation : Here)
        → IsJobAt D.view (plan_of table.now book.now situation setting.now) book.now (who + 1) 0 (slice_index_or jobs.old who none)
        → IsJobAt D.view (plan_of table.now book.now situation setting.now) book.now (who + 1) setting.now.turns (slice_index_or jobs.new who none) }
{
    thread::for_each_mut(
        rt,
        jobs,
        MOST_MEMBERS,
        &|place, job| job.run_behind(rt, book, gate, table, setting, place),
    );
}

// The first replica takes its turns in a thread of its own, which shows them on the board, and so do the others in theirs.
fn run_all<D: ArmedDisk + Send, R: Threads + Wait + Sync, G: TurnGate + Sync>(
    rt: &R,
    book: &TurnBook<Book>,
    gate: &G,
    table: &JobTable,
    setting: &Setting,
    first: &mut FreeJob<D>,
    others: &mut [FreeJob<D>],
    board: &mut Option<BoardWriter>,
)
    requires inside { IsInWindow table.now.window setting.now.at.0 }
    requires few { length others.old ≤ 6 }
    requires begun { (situation : Here) × IsJobAt D.view (plan_of table.now book.now situation setting.now) book.now 0 0 first.old }
    requires others_begun { (who : ℕ) (none : Work D) → who < length others.old → (situation : Here)
        × IsJobAt D.view (plan_of table.now book.now situation setting.now) book.now (who + 1) 0 (slice_index_or others.old who none) }
    requires memory { first.old.short ≡ false }
    requires others_memory { (who : ℕ) (none : Work D) → who < length others.old → (slice_index_or others.old who none).short ≡ false }
    requires may_show { MayShowOn table.now board.old }
    ensures count { length others.new ≡ length others.old }
    ensures runs { first.new.short ≡ false → (situation : Here)
        → IsJobAt D.view (plan_of table.now book.now situation setting.now) book.now 0 0 first.old
        → IsJobAt D.view (plan_of table.now book.now situation setting.now) book.now 0 setting.now.turns first.new }
    ensures others_run { (who : ℕ) (none : Work D) → who < length others.old → (slice_index_or others.new who none).short ≡ false → (situation : Here)
        → IsJobAt D.view (plan_of table.now book.now situation setting.now) book.now (who + 1) 0 (slice_index_or others.old who none)
        → IsJobAt D.view (plan_of table.now book.now situation setting.now) book.now (who + 1) setting.now.turns (slice_index_or others.new who none) }
    ensures may_show { first.new.short ≡ false → MayShowOn table.now board.new }
    ensures shows { first.new.short ≡ false → (situation : Here) (before : Option Writing)
        → IsJobAt D.view (plan_of table.now book.now situation setting.now) book.now 0 0 first.old
        → OnBoard (HasShown (plan_of table.now book.now situation setting.now) book.now 0 first.old.seat) before board.old
        → OnBoard (HasShown (plan_of table.now book.now situation setting.now) book.now 0 first.new.seat) before board.new }
    ensures stays { is_some board.new ≡ is_some board.old }
{
    thread::join_mut(
        rt,
        &mut ||
            requires { IsSync R.row × IsSync G.row × IsInWindow table.now.window setting.now.at.0
                × ((situation : Here) × IsJobAt D.view (plan_of table.now book.now situation setting.now) book.now 0 0 first.now)
                × (first.now.short ≡ false) × MayShowOn table.now board.now }
        { first.run(rt, book, gate, table, setting, 0, board) },
        &mut ||
            requires { IsSync R.row × IsSync G.row × IsSend D.row × IsInWindow table.now.window setting.now.at.0 × (length others.now ≤ 6)
                × ((who : ℕ) (none : Work D) → who < length others.now → (situation : Here)
                × IsJobAt D.view (plan_of table.now book.now situation setting.now) book.now (who + 1) 0 (slice_index_or others.now who none))
                × ((who : ℕ) (none : Work D) → who < length others.now → (slice_index_or others.now who none).short ≡ false) }
        { run_others(rt, book, gate, table, setting, others) },
    );
}

// So they do, or memory is wanting.
fn run_jobs<D: ArmedDisk + Send, R: Threads + Wait + Sync, G: TurnGate + Sync>(
    rt: &R,
    book: &TurnBook<Book>,
    gate: &G,
    table: &JobTable,
    setting: &Setting,
    jobs: &mut [FreeJob<D>],
    board: &mut Option<BoardWriter>,
) -> Result<(), OutOfMemory>
    requires inside { IsInWindow table.now.window setting.now.at.0 }
    requires some { 0 < length jobs.old }
    requires few { length jobs.old ≤ 7 }
    requires begun { (situation : Here) × AreJobsAt D.view (plan_of table.now book.now situation setting.now) book.now 0 jobs.old }
    requires memory { (who : ℕ) (none : Work D) → who < length jobs.old → (slice_index_or jobs.old who none).short ≡ false }
    requires may_show { MayShowOn table.now board.old }
    ensures count { length jobs.new ≡ length jobs.old }
    ensures taken { OnOk result ((situation : Here)
        → AreJobsAt D.view (plan_of table.now book.now situation setting.now) book.now 0 jobs.old
        → AreJobsAt D.view (plan_of table.now book.now situation setting.now) book.now setting.now.turns jobs.new) }
    ensures may_show { OnOk result (MayShowOn table.now board.new) }
    ensures shows { OnOk result ((situation : Here) (old new : Work D)
        → AreJobsAt D.view (plan_of table.now book.now situation setting.now) book.now 0 jobs.old
        → slice_get jobs.old 0 ≡ Some old → slice_get jobs.new 0 ≡ Some new → (before : Option Writing)
        → OnBoard (HasShown (plan_of table.now book.now situation setting.now) book.now 0 old.seat) before board.old
        → OnBoard (HasShown (plan_of table.now book.now situation setting.now) book.now 0 new.seat) before board.new) }
    ensures stays { is_some board.new ≡ is_some board.old }
{
    let Some((first, others)) = jobs.split_first_mut() else {
        unreachable!()
    };
    run_all(rt, book, gate, table, setting, first, others, board);
    had_memory(jobs)
}

// The parts that the threads leave, when all have ended.
fn finish<D: Disk, M: Drop>(
    alloc: Global,
    book: TurnBook<Book>,
    setting: Setting,
    jobs: Vec<FreeJob<D>>,
    latest: Minute,
    first: usize,
    room: M,
) -> Result<Bundle<Node<D>, M>, OutOfMemory>
    requires count { length jobs.items ≡ seats_of book }
    requires few { length jobs.items ≤ 7 }
    requires members { seats_of book ≡ (opening_of book).state.value.members }
    requires first { first ≡ length (opening_of book).state.value.turns }
    requires taken { (situation : Here) × HaveRun D.view book setting situation jobs.items }
    ensures ends { IfOk result (λ new. (rows : List Row) (situation : Here)
        → HaveRun D.view book setting situation jobs.items
        → BeginsAt book setting latest.0 rows situation
        → (more : List Row) × (after : Here)
        × IsFreePart (opening_of book).state.value.members (opening_of book).key.value.window setting.at.0 setting.turns situation more after
        × ArePartsAt D.view (opening_of book).key.value (rows ++ more) new after
        × HaveSeen (plan_of (opening_of book).key.value book situation setting) book rows more jobs.items) }
    ensures lists { IfOk result (λ new. HasListRoom new) }
    ensures room { IfOk result (λ new. new.room ≡ room) }
    ensures members { IfOk result (λ new. new.book.members ≡ (opening_of book).state.value.members) }
{
    let (nodes, mails, seats) = parts_of(alloc, jobs)?;
    let book = book.close(seats);
    let members = mails_ended(alloc, book.letters(), &setting.cuts, mails)?;
    let latest = latest_reading(book.turns(), first, latest);
    Ok(Bundle {
        nodes,
        book,
        mail: MailState {
            members,
            cuts: setting.cuts,
            latest,
        },
        room,
    })
}

// So many turns of each replica of a world that runs, each in a thread of its own. That of the first shows on the board what its replica
// has learned, where there is a board.
fn run_part<D: ArmedDisk + Send, M: Drop, R: Threads + Wait + Sync, G: TurnGate + Sync>(
    rt: &R,
    alloc: Global,
    table: &JobTable,
    parts: Bundle<Node<D>, M>,
    at: Minute,
    turns: u32,
    gate: &G,
    board: &mut Option<BoardWriter>,
) -> Result<Bundle<Node<D>, M>, OutOfMemory>
    requires inside { IsInWindow table.now.window at.0 }
    requires parts { AreParts D.view table.now parts }
    requires some { 0 < parts.book.members }
    requires may_show { MayShowOn table.now board.old }
    ensures goes { IfOk result (λ new. (rows : List Row) (situation : Here) → ArePartsAt D.view table.now rows parts situation
        → (more : List Row) × (after : Here) × IsFreePart parts.book.members table.now.window at.0 turns situation more after
        × ArePartsAt D.view table.now (rows ++ more) new after
        × OnBoard (ShowsPart parts.book.members 0 table.now situation rows more) board.old board.new) }
    ensures lists { IfOk result (λ new. HasListRoom new) }
    ensures room { IfOk result (λ new. new.room ≡ parts.room) }
    ensures members { IfOk result (λ new. new.book.members ≡ parts.book.members) }
    ensures may_show { OnOk result (MayShowOn table.now board.new) }
    ensures stays { is_some board.new ≡ is_some board.old }
{
    let Bundle {
        nodes,
        book,
        mail,
        room,
    } = parts;
    let MailState {
        members,
        cuts,
        latest,
    } = mail;
    let first = book.turns().len();
    if first > MOST_TURNS {
        return Err(OutOfMemory);
    }
    let mails = mails_kept(alloc, book.letters(), members)?;
    let seats = nodes.len() as u8;
    let (shared, places) = TurnBook::new(alloc, table, book, seats)?;
    let mut jobs = jobs_of(alloc, nodes, mails, places)?;
    let setting = Setting {
        alloc,
        members: seats,
        at,
        turns,
        cuts,
    };
    run_jobs(
        rt,
        &shared,
        gate,
        table,
        &setting,
        jobs.as_mut_slice(),
        board,
    )?;
    finish(alloc, shared, setting, jobs, latest, first, room)
}

/// Each replica of a world that runs takes so many turns at an instant, in a thread of its own: the parts that come back are those of
/// the world behind such turns, whatever order the threads took. It may wait. Before each turn its thread passes the gate.
///
/// # Errors
///
/// Want of memory, and a book of more than 2^31 - 2 turns.
pub fn run_free<D: ArmedDisk + Send, M: Drop, R: Threads + Wait + Sync, G: TurnGate + Sync>(
    rt: &R,
    alloc: Global,
    table: &JobTable,
    parts: Bundle<Node<D>, M>,
    at: Minute,
    turns: u32,
    gate: &G,
) -> Result<Bundle<Node<D>, M>, OutOfMemory>
    requires inside { IsInWindow table.now.window at.0 }
    requires parts { AreParts D.view table.now parts }
    requires some { 0 < parts.book.members }
    ensures goes { IfOk result (λ new. (rows : List Row) (situation : Here) → ArePartsAt D.view table.now rows parts situation
        → (more : List Row) × (after : Here) × IsFreePart parts.book.members table.now.window at.0 turns situation more after
        × ArePartsAt D.view table.now (rows ++ more) new after) }
    ensures lists { IfOk result (λ new. HasListRoom new) }
    ensures room { IfOk result (λ new. new.room ≡ parts.room) }
    ensures members { IfOk result (λ new. new.book.members ≡ parts.book.members) }
{
    let mut none = None;
    let new = run_part(rt, alloc, table, parts, at, turns, gate, &mut none);
    let None = none else { unreachable!() };
    new
}

/// The same, and what the first replica has learned is shown on a board: its thread publishes the replica's launch table after each of
/// its turns after which the replica's prefix is above the board's. So readers see the part while it runs, and hold nobody's turn. It
/// may wait for a reader too.
///
/// # Errors
///
/// Want of memory, and a book of more than 2^31 - 2 turns. Then the writer is ended.
pub fn run_free_shown<D: ArmedDisk + Send, M: Drop, R: Threads + Wait + Sync, G: TurnGate + Sync>(
    rt: &R,
    alloc: Global,
    table: &JobTable,
    parts: Bundle<Node<D>, M>,
    at: Minute,
    turns: u32,
    gate: &G,
    writer: BoardWriter,
) -> Result<(Bundle<Node<D>, M>, BoardWriter), OutOfMemory>
    requires inside { IsInWindow table.now.window at.0 }
    requires parts { AreParts D.view table.now parts }
    requires some { 0 < parts.book.members }
    requires may_show { MayShow table.now writer }
    ensures goes { IfOk result (λ new. (rows : List Row) (situation : Here) → ArePartsAt D.view table.now rows parts situation
        → (more : List Row) × (after : Here) × IsFreePart parts.book.members table.now.window at.0 turns situation more after
        × ArePartsAt D.view table.now (rows ++ more) new.0 after
        × ShowsPart parts.book.members 0 table.now situation rows more writer new.1) }
    ensures lists { IfOk result (λ new. HasListRoom new.0) }
    ensures room { IfOk result (λ new. new.0.room ≡ parts.room) }
    ensures members { IfOk result (λ new. new.0.book.members ≡ parts.book.members) }
    ensures may_show { IfOk result (λ new. MayShow table.now new.1) }
{
    let mut board = Some(writer);
    let ended = run_part(rt, alloc, table, parts, at, turns, gate, &mut board);
    match (ended, board) {
        (Ok(new), Some(writer)) => Ok((new, writer)),
        (Ok(_), None) => unreachable!(),
        (Err(full), Some(writer)) => {
            writer.end(rt);
            Err(full)
        }
        (Err(full), None) => Err(full),
    }
}
