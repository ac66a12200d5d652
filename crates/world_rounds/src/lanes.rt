//! Lanes: workers that share out the replicas of a round. They are joined before any turn joins the book.
ghost use Rattle.std.specs.Prelude.{◌≡◌, ◌<◌, ℕ, All, false, Some, OnOk, length, slice_get, slice_index_or};
ghost use Rattle.zone_minutes.specs.Window.{IsInWindow};
ghost use Rattle.world_rounds.specs.Rounds.{AllTakeRounds, MayTakeRound, RunsRound};
ghost use Rattle.world_rounds.specs.declared.member.Member.{Member as Seat};

use crate::member::Member;
use cron_io::OutOfMemory;
use disk_model::Disk;
use due_set::JobTable;
use std::thread;
use std::thread::Threads;
use world_law::Book;
use zone_minutes::Minute;

// For a round with fewer letters the threads cost more than they save.
const ENOUGH_LETTERS: usize = 512;

// How many letters wait for the replicas.
fn count_letters<D>(members: &[Member<D>]) -> usize {
    let mut count = 0usize;
    'members: for member in members {
        count = count.saturating_add(member.mail.letters.len());
    }
    count
}

// In how many lanes a round goes: in one, where few letters wait.
fn lanes_worth<D>(members: &[Member<D>], lanes: u8) -> u8
    requires lanes { 0 < lanes }
    ensures { 0 < result }
{
    if count_letters(members) < ENOUGH_LETTERS {
        return 1;
    }
    lanes
}

// Each replica takes its steps of a round, in so many lanes, and notes whether want of memory ends them.
fn run_rounds<D: Disk + Send, R: Threads + Sync>(
    rt: &R,
    members: &mut [Member<D>],
    table: &JobTable,
    book: &Book,
    at: Minute,
    lanes: u8,
)
    requires lanes { 0 < lanes }
    requires inside { IsInWindow table.now.window at.0 }
    requires may { All (MayTakeRound D.view table.now book.now) members.old }
    ensures count { length members.new ≡ length members.old }
    ensures runs { (who : ℕ) (none : Seat D) → who < length members.old
        → RunsRound D.view table.now book.now at.0 (slice_index_or members.old who none) (slice_index_or members.new who none) }
{
    thread::for_each_mut(
        rt,
        members,
        lanes as usize,
        &|_, member| member.run_round(table, book, at),
    );
}

// Whether no replica was short of memory.
fn had_memory<D: Disk>(members: &[Member<D>]) -> Result<(), OutOfMemory>
    ensures { OnOk result ((who : ℕ) (member : Seat D) → slice_get members.now who ≡ Some member → member.short ≡ false) }
{
    'members: for member in members {
        if member.short {
            return Err(OutOfMemory);
        }
    }
    Ok(())
}

// Each replica takes its steps of a round, in so many lanes, or in one, where few letters wait.
pub(crate) fn share_rounds<D: Disk + Send, R: Threads + Sync>(
    rt: &R,
    members: &mut [Member<D>],
    table: &JobTable,
    book: &Book,
    at: Minute,
    lanes: u8,
) -> Result<(), OutOfMemory>
    requires lanes { 0 < lanes }
    requires inside { IsInWindow table.now.window at.0 }
    requires may { (who : ℕ) (member : Seat D) → slice_get members.old who ≡ Some member → MayTakeRound D.view table.now book.now member }
    ensures takes { OnOk result (AllTakeRounds D.view table.now book.now at.0 members.old members.new) }
{
    let lanes = lanes_worth(members, lanes);
    run_rounds(rt, members, table, book, at, lanes);
    had_memory(members)
}
