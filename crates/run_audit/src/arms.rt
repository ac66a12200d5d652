//! Turns of tasks on disks that may be armed: which turn is that of a task, and how they are taken by the lines of a text.
ghost use Rattle.std.specs.Prelude.{◌≡◌, ◌<◌, ◌≤◌, ◌^◌, ◌↔◌, ◌==◌, ◌+◌, ◌%◌, ◌&&◌, ◌||◌, ℕ, IfErr, IfOk, IfSome, IsTrue, OnOk, Some, length, not};
ghost use Rattle.std.specs.List.{filter};
ghost use Rattle.std.specs.Option.{option_to_list};
ghost use Rattle.history.specs.Book.{Row, turn_of};
ghost use Rattle.history.specs.declared.turn.Turn.TheVariants.{Stopped};
ghost use Rattle.save_calls.specs.Save.{calls_before, is_byte_after, is_kept};
ghost use Rattle.journal_text.specs.Line.{HasUnblankNames};
ghost use Rattle.script_semantics.specs.Arms.{IsEnough, IsTurnByArm, PlaysByArms, is_task_of};
ghost use Rattle.script_semantics.specs.Situation.{IsTurnFor, Situation, changes_in};
ghost use Rattle.run_replay.specs.Replay.{IsInSituation, armed_of};
ghost use Rattle.run_replay.specs.Tasks.{task_of, tasks_in};
ghost use Rattle.run_audit.specs.Begins.{BeginsToPlayByArms};
ghost use Rattle.run_audit.specs.ByArms.{AreSet, HasStoppedWithin, StopsBy, StopsByArm, TakesByArm, tasks_backwards, tasks_without};
ghost use Rattle.run_audit.specs.Played.{ComesOf};

use crate::lines::Rest;
use crate::play::{Coming, is_stop_within, is_turn_for, judge_next};
use crate::verdict::{Stop, Why};
use cron_io::OutOfMemory;
use due_set::JobTable;
use history::{Cause, Turn};
use paxos_base::Delta;
use run_replay::{Arm, Replay, Setting, Task, calls_to_save};
use std::alloc::Global;

// The calls of a save before those that make its change hold.
fn calls_first(change: &Delta) -> u32
    ensures { result ≡ calls_before change.now }
{
    match change {
        Delta::Base { .. } => 3,
        Delta::Tried { .. } => 2,
        Delta::Promised { .. } => 2,
        Delta::Voted { .. } => 2,
    }
}

// Whether a byte shows the state after a base, by which area was in use before.
fn is_other_area(second_area: bool, byte: u32) -> bool
    ensures { (bases : ℕ) → second_area ≡ (bases % 2 == 1) → result ≡ (byte % 2 == (bases + 1) % 2) }
{
    if second_area {
        byte % 2 == 0
    } else {
        byte % 2 == 1
    }
}

// Whether a byte shows the state after a change.
fn is_byte_after(second_area: bool, change: &Delta, byte: u32) -> bool
    ensures { (bases : ℕ) → second_area ≡ (bases % 2 == 1) → result ≡ is_byte_after bases change.now byte }
{
    match change {
        Delta::Base { .. } => is_other_area(second_area, byte),
        Delta::Tried { .. } => byte == 1,
        Delta::Promised { .. } => byte == 1,
        Delta::Voted { .. } => byte == 1,
    }
}

// Whether an image shows a byte that was written and not synced, which passes a test or not.
fn is_shown(image: u32, passes: bool) -> bool
    ensures { result ≡ ((image % 3 == 1) || ((image % 3 == 2) && passes)) }
{
    image % 3 == 1 || (image % 3 == 2 && passes)
}

// Whether a disk that stops within the save of a change keeps it.
fn is_kept(second_area: bool, change: &Delta, arm: Arm) -> bool
    ensures { (bases : ℕ) → second_area ≡ (bases % 2 == 1) → result ≡ is_kept bases change.now arm.left arm.image }
{
    let passes = is_byte_after(second_area, change, arm.image / 3 % 256);
    calls_first(change) <= arm.left && is_shown(arm.image, passes)
}

// Whether a disk saves the change of a step, where it has one.
fn is_enough(arm: Option<Arm>, change: &Option<Delta>) -> bool
    ensures { IsTrue result ↔ IsEnough (armed_of arm) (option_to_list change.now) }
{
    match arm {
        None => true,
        Some(arm) => calls_to_save(change) <= arm.left,
    }
}

fn is_same(one: bool, other: bool) -> bool
    ensures { IsTrue result ↔ (one ≡ other) }
{
    one == other
}

// Whether a replica stops within the save of a change, which is kept or lost.
fn stops_by(setting: &Setting, change: &Option<Delta>, kept: bool) -> bool
    ensures { (bases : ℕ) → setting.now.second_area ≡ (bases % 2 == 1) → IsTrue result ↔ StopsBy (armed_of setting.now.arm) bases change.now kept }
{
    let arm = match setting.arm {
        Some(arm) => arm,
        None => return false,
    };
    match change {
        None => false,
        Some(delta) => {
            if calls_to_save(change) <= arm.left {
                return false;
            }
            is_same(kept, is_kept(setting.second_area, delta, arm))
        }
    }
}

// Which replica stopped within its step in a turn, where one did.
fn stopped_in(turn: Turn) -> Option<u8>
    ensures { HasStoppedWithin result turn }
{
    match turn {
        Turn::Stopped { who, cause, .. } => match cause {
            Some(_) => Some(who),
            None => None,
        },
        Turn::Did { .. } => None,
        Turn::Restarted { .. } => None,
        Turn::Arrived { .. } => None,
    }
}

// Whether a task is that of a replica.
fn is_task_of(who: u8, task: Task) -> bool
    ensures { result ≡ is_task_of who (task_of task) }
{
    match task {
        Task::Do { who: other, .. } => other == who,
        Task::Stop { who: other } => other == who,
        Task::Restart { who: other } => other == who,
        Task::Arrive { .. } => false,
    }
}

// The tasks of a replica are left out.
fn leave_out(tasks: &mut Vec<Task>, who: u8)
    ensures { tasks.new.items ≡ filter (λ task. not (is_task_of who (task_of task))) tasks.old.items }
{
    tasks.retain(|task| !is_task_of(who, *task));
}

// The tasks of a replica that has stopped are left out, where one has.
fn leave_out_stopped(tasks: &mut Vec<Task>, stopped: Option<u8>)
    ensures left { tasks_backwards tasks.new.items ≡ tasks_without stopped (tasks_backwards tasks.old.items) }
    ensures fewer { length tasks.new.items ≤ length tasks.old.items }
{
    match stopped {
        None => return,
        Some(who) => leave_out(tasks, who),
    }
}

// The tasks in the opposite order.
fn backwards(alloc: Global, tasks: &[Task]) -> Result<Vec<Task>, OutOfMemory>
    ensures { IfOk result (λ left. tasks_backwards left.items ≡ tasks_in tasks.now) }
{
    let mut left: Vec<Task> = Vec::new(alloc);
    left.extend_from_slice(tasks)?;
    left.reverse();
    Ok(left)
}

// Whether a turn is a replica's step for a cause, whose change its disk saves.
fn is_saved_step(replay: &Replay, task: Task, turn: Turn, change: &Option<Delta>, who: u8) -> bool
    requires member { IfSome (turn_of turn) (λ who. who < length replay.now.settings.items) }
    requires mine { turn_of turn ≡ Some who }
    ensures { (situation : Situation) → AreSet situation replay.now.settings.items
        → IsTrue result ↔ (IsTurnFor situation.fates (task_of task) turn × IsEnough (situation.arms who) (option_to_list change.now)) }
{
    if !is_turn_for(replay, task, turn) {
        return false;
    }
    is_enough(replay.settings[who as usize].arm, change)
}

// Whether a turn is a replica's stop within its step for a cause, as the numbers of its disk's arm have it.
fn is_stop_by_arm(
    replay: &Replay,
    turn: Turn,
    change: &Option<Delta>,
    who: u8,
    cause: Cause,
    kept: bool,
) -> bool
    requires member { IfSome (turn_of turn) (λ who. who < length replay.now.settings.items) }
    ensures { (situation : Situation) → AreSet situation replay.now.settings.items
        → IsTrue result ↔ ((turn ≡ Stopped who (Some cause) kept) × StopsBy (situation.arms who) (situation.bases who) change.now kept) }
{
    if !is_stop_within(turn, who, cause, kept) {
        return false;
    }
    stops_by(&replay.settings[who as usize], change, kept)
}

/// Whether a turn, whose step has this change, is that of a task on the disk of its replica.
pub(crate) fn is_turn_by_arm(
    replay: &Replay,
    task: Task,
    turn: Turn,
    change: &Option<Delta>,
) -> bool
    requires member { IfSome (turn_of turn) (λ who. who < length replay.now.settings.items) }
    ensures { (members : ℕ) (situation : Situation) (row : Row) → AreSet situation replay.now.settings.items → row.turn ≡ turn
        → changes_in members situation.standing row.turn row.event ≡ option_to_list change.now
        → IsTrue result ↔ IsTurnByArm members situation (task_of task) row }
{
    match task {
        Task::Do { who, cause } => match turn {
            Turn::Did { who: other, .. } => is_saved_step(replay, task, turn, change, other),
            Turn::Stopped { kept, .. } => is_stop_by_arm(replay, turn, change, who, cause, kept),
            Turn::Restarted { .. } => false,
            Turn::Arrived { .. } => false,
        },
        Task::Stop { .. } => is_turn_for(replay, task, turn),
        Task::Restart { .. } => is_turn_for(replay, task, turn),
        Task::Arrive { .. } => is_turn_for(replay, task, turn),
    }
}

// Takes the turn of a task by the next line of a text, and says which replica has stopped within it, where one has.
fn play_task_by_arm(
    replay: &mut Replay,
    table: &JobTable,
    rest: &mut Rest<'_>,
    task: Task,
) -> Result<Option<u8>, Stop>
    requires ready { IsInSituation table.now replay.old }
    requires names { HasUnblankNames table.now }
    requires few { rest.old.number + length rest.old.text.now < 2 ^ 32 }
    ensures takes { IfOk result (TakesByArm table.now (task_of task) replay.old replay.new rest.old rest.new) }
    ensures stops { IfErr result (StopsByArm table.now (task_of task) replay.old rest.old) }
    ensures few { rest.new.number + length rest.new.text.now < 2 ^ 32 }
    ensures members { OnOk result (replay.new.book.members ≡ replay.old.book.members) }
{
    let line = rest.number;
    let next = rest.read();
    match judge_next(replay, table, next)? {
        Coming::Refused(why) => Err(Stop::At { line, why }),
        Coming::Turn(judged) => {
            if !is_turn_by_arm(replay, task, judged.turn, judged.change()) {
                return Err(Stop::At {
                    line,
                    why: Why::NotObeyed,
                });
            }
            let stopped = stopped_in(judged.turn);
            replay.take(table, judged);
            Ok(stopped)
        }
    }
}

/// Takes the turns of tasks by the lines of a text, one after another, but for those of a replica that has stopped within one. Their
/// letters join the mails behind them.
///
/// # Errors
///
/// The first line that isn't that of the next task's turn, and want of memory.
pub(crate) fn play_by_arms(
    replay: &mut Replay,
    table: &JobTable,
    rest: &mut Rest<'_>,
    tasks: &[Task],
) -> Result<(), Stop>
    requires ready { IsInSituation table.now replay.old }
    requires names { HasUnblankNames table.now }
    requires few { rest.old.number + length rest.old.text.now < 2 ^ 32 }
    ensures { ComesOf table.now (BeginsToPlayByArms replay.old.book.members (λ situation. tasks_in tasks.now))
        (PlaysByArms replay.old.book.members (λ situation. tasks_in tasks.now)) replay.old rest.old replay.new rest.new result }
{
    let first = replay.book.letters().len() as u64;
    let mut left = backwards(replay.alloc, tasks)?;
    'tasks: while let Some(task) = left.pop() {
        let stopped = play_task_by_arm(replay, table, rest, task)?;
        leave_out_stopped(&mut left, stopped);
    }
    replay.deliver(first)?;
    Ok(())
}
