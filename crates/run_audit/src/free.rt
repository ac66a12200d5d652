//! Turns in no order by the lines of a text: each replica that runs has so many, and what it does in one is settled by what it saw
//! directly after the one before.
ghost use Rattle.std.specs.Prelude.{◌≡◌, ◌+◌, ◌<◌, ◌^◌, ◌↔◌, ℕ, IfErr, IfNone, IfOk, IfSome, IsTrue, List, OnOk, Some, [], length, slice_get};
ghost use Rattle.zone_minutes.specs.Window.{IsInWindow, IsWithinLimits};
ghost use Rattle.due_set.specs.Table.{Table};
ghost use Rattle.term_core.specs.Term.{is_leader};
ghost use Rattle.history.specs.Book.{Row, turn_of};
ghost use Rattle.journal_text.specs.Line.{HasUnblankNames};
ghost use Rattle.script_semantics.specs.Free.{IsFreePart, idle_cause, is_time_to_stand, next_cause};
ghost use Rattle.script_semantics.specs.Situation.{Situation};
ghost use Rattle.run_replay.specs.Replay.{IsInSituation, IsReplayAt};
ghost use Rattle.run_replay.specs.Taken.{WasJudged};
ghost use Rattle.run_audit.specs.Begins.{BeginsFree};
ghost use Rattle.run_audit.specs.Freely.{AreProgress, GoesNext, GoesNone, SawLast, HasTakenFreely, IsProgressIn, IsWaiting, StopsFree, TakesFree, course_now, leads_in};
ghost use Rattle.run_audit.specs.Played.{ComesOf};
ghost use Rattle.run_audit.specs.declared.free.Progress.{Progress as Counted};

use crate::arms::is_turn_by_arm;
use crate::lines::Rest;
use crate::play::{Coming, judge_next};
use crate::verdict::{Stop, Why};
use cron_io::OutOfMemory;
use due_set::JobTable;
use history::{Cause, Turn};
use run_replay::{Judged, Replay, Seat, Setting, Task, reading_of};
use term_core::Term;
use zone_minutes::{Minute, Window};

/// How far a replica has come in a part in no order: how many turns it has had, and whether a letter waited for it and it led directly
/// after the last of them.
#[derive(Clone, Copy, Debug, PartialEq, Eq)]
pub(crate) struct Progress {
    pub taken: u32,
    pub has_letter: bool,
    pub leads: bool,
}

// Whether a term is a leader's.
fn is_lead(term: &Term) -> bool
    ensures { result ≡ is_leader term.now }
{
    match term {
        Term::Leader { .. } => true,
        Term::Follower { .. } => false,
        Term::Candidate { .. } => false,
    }
}

// Which replica has a turn, where it is one's.
fn member_in(turn: Turn) -> Option<u8>
    ensures { result ≡ turn_of turn }
{
    match turn {
        Turn::Did { who, .. } => Some(who),
        Turn::Stopped { who, .. } => Some(who),
        Turn::Restarted { who } => Some(who),
        Turn::Arrived { .. } => None,
    }
}

// Whether it is time for a replica to stand for leader that has had so many turns.
fn is_time_to_stand(taken: u32, who: u8) -> bool
    ensures { result ≡ is_time_to_stand who taken }
{
    taken % 64 == 8 * u32::from(who)
}

// What a replica does with no answer and no letter.
fn idle_of(progress: Progress, skew: i64, window: Window, at: Minute, who: u8) -> Cause
    requires limits { IsWithinLimits window }
    requires inside { IsInWindow window at.0 }
    ensures { (seen : Situation) → skew ≡ seen.skews who → progress.leads ≡ is_leader (seen.standing.replicas who).term
        → result ≡ idle_cause window at.0 who progress.taken seen }
{
    let now = reading_of(skew, window, at);
    if !is_time_to_stand(progress.taken, who) {
        return Cause::Tick { now };
    }
    if progress.leads {
        return Cause::Tick { now };
    }
    Cause::Campaign
}

// How far a replica of a list has come.
fn progress_of(list: &[Progress], who: u8) -> Progress
    requires there { who < length list.now }
    ensures { slice_get list.now who ≡ Some result }
{
    match list.get(who as usize) {
        Some(progress) => *progress,
        None => unreachable!(),
    }
}

// What a replica does next.
fn cause_of_next(
    setting: &Setting,
    progress: Progress,
    window: Window,
    at: Minute,
    who: u8,
) -> Cause
    requires limits { IsWithinLimits window }
    requires inside { IsInWindow window at.0 }
    ensures { (seen : Situation) → SawLast who seen setting.now progress → result ≡ next_cause window at.0 who progress.taken seen }
{
    if setting.waits.is_some() {
        return Cause::Answer;
    }
    let idle = idle_of(progress, setting.skew, window, at, who);
    if !progress.has_letter {
        return idle;
    }
    match setting.mail.front() {
        Some(letter) => Cause::Hear { letter: *letter },
        None => idle,
    }
}

// Whether the replica leads. One that is stopped doesn't.
fn leads(seat: &Seat) -> bool
    ensures { result ≡ leads_in seat.now }
{
    match &seat.replica {
        None => false,
        Some(replica) => is_lead(replica.term()),
    }
}

// What a replica sees now that has had so many turns.
fn progress_now(replay: &Replay, who: u8, taken: u32) -> Progress
    requires seat { who < length replay.now.seats.items }
    requires setting { who < length replay.now.settings.items }
    ensures { (table : Table) (rows : List Row) (situation : Situation) → IsReplayAt table rows replay.now situation
        → IsProgressIn (course_now taken situation) who result }
{
    let waits = replay.settings[who as usize].mail.is_empty();
    let leads = leads(&replay.seats[who as usize]);
    Progress {
        taken,
        has_letter: !waits,
        leads,
    }
}

// What all see before any turn of a part.
fn first_progress(replay: &Replay) -> Result<Vec<Progress>, OutOfMemory>
    requires ready { (table : Table) × IsInSituation table replay.now }
    ensures { IfOk result (λ list. (table : Table) (turns : ℕ) (rows : List Row) (situation : Situation) → IsReplayAt table rows replay.now situation
        → AreProgress replay.now.book.members turns situation [] list.items) }
{
    let mut list: Vec<Progress> = Vec::new(replay.alloc);
    'members: for who in 0..replay.seats.len() as u8 {
        list.push(progress_now(replay, who, 0))?;
    }
    Ok(list)
}

// Whether a replica of the replay runs and has a turn left.
fn is_waiting(replay: &Replay, list: &[Progress], turns: u32, who: u8) -> bool
    requires seat { who < length replay.now.seats.items }
    requires listed { who < length list.now }
    ensures { IsTrue result ↔ IsWaiting turns replay.now list.now who }
{
    if !replay.seats[who as usize].runs() {
        return false;
    }
    let progress = progress_of(list, who);
    if progress.taken >= turns {
        return false;
    }
    true
}

// A replica that runs and has a turn left.
fn next_waiting(replay: &Replay, list: &[Progress], turns: u32) -> Option<u8>
    requires ready { (table : Table) × IsInSituation table replay.now }
    requires count { length list.now ≡ replay.now.book.members }
    ensures some { IfSome result (λ who. (who < replay.now.book.members) × IsWaiting turns replay.now list.now who) }
    ensures none { IfNone result ((who : ℕ) → IsWaiting turns replay.now list.now who → ⊥) }
{
    'members: for who in 0..replay.seats.len() as u8 {
        if is_waiting(replay, list, turns, who) {
            return Some(who);
        }
    }
    None
}

// Whose next turn a turn is that was judged, where it is some replica's that has one left.
fn free_member(
    replay: &Replay,
    window: Window,
    at: Minute,
    turns: u32,
    list: &[Progress],
    judged: &Judged,
) -> Option<u8>
    requires limits { IsWithinLimits window }
    requires inside { IsInWindow window at.0 }
    requires member { IfSome (turn_of judged.now.turn) (λ who. who < length replay.now.settings.items) }
    requires count { length list.now ≡ length replay.now.settings.items }
    ensures some { IfSome result (GoesNext window at.0 turns replay.now list.now judged.now) }
    ensures none { IfNone result (GoesNone window at.0 turns replay.now list.now judged.now) }
{
    let who = match member_in(judged.turn) {
        Some(who) => who,
        None => return None,
    };
    let progress = progress_of(list, who);
    if progress.taken >= turns {
        return None;
    }
    let cause = cause_of_next(&replay.settings[who as usize], progress, window, at, who);
    if !is_turn_by_arm(
        replay,
        Task::Do { who, cause },
        judged.turn,
        judged.change(),
    ) {
        return None;
    }
    Some(who)
}

// Takes a turn of a replica that was judged, and its letters join the mails at once.
fn take_freely(
    replay: &mut Replay,
    table: &JobTable,
    judged: Judged,
    list: &mut Vec<Progress>,
    who: u8,
) -> Result<(), OutOfMemory>
    requires judged { WasJudged table.now replay.old judged }
    requires listed { who < length list.old.items }
    requires seat { who < replay.old.book.members }
    requires few { (progress : Counted) → slice_get list.old.items who ≡ Some progress → progress.taken + 1 < 2 ^ 32 }
    ensures takes { OnOk result (HasTakenFreely table.now judged who replay.old list.old.items replay.new list.new.items) }
    ensures members { OnOk result (replay.new.book.members ≡ replay.old.book.members) }
{
    let first = replay.book.letters().len() as u64;
    let taken = list[who as usize].taken + 1;
    replay.take(table, judged);
    replay.deliver(first)?;
    list[who as usize] = progress_now(replay, who, taken);
    Ok(())
}

// Takes the next turn of some replica that has one left by the next line of a text.
fn play_free_turn(
    replay: &mut Replay,
    table: &JobTable,
    rest: &mut Rest<'_>,
    at: Minute,
    turns: u32,
    list: &mut Vec<Progress>,
) -> Result<(), Stop>
    requires ready { IsInSituation table.now replay.old }
    requires names { HasUnblankNames table.now }
    requires few { rest.old.number + length rest.old.text.now < 2 ^ 32 }
    requires inside { IsInWindow table.now.window at.0 }
    requires count { length list.old.items ≡ replay.old.book.members }
    ensures takes { OnOk result (TakesFree table.now at.0 turns replay.old list.old.items replay.new list.new.items rest.old rest.new) }
    ensures stops { IfErr result (StopsFree table.now at.0 turns replay.old list.old.items rest.old) }
    ensures few { rest.new.number + length rest.new.text.now < 2 ^ 32 }
    ensures members { OnOk result (replay.new.book.members ≡ replay.old.book.members) }
    ensures count { OnOk result (length list.new.items ≡ replay.old.book.members) }
{
    let line = rest.number;
    let next = rest.read();
    match judge_next(replay, table, next)? {
        Coming::Refused(why) => Err(Stop::At { line, why }),
        Coming::Turn(judged) => match free_member(
            replay,
            table.window(),
            at,
            turns,
            list,
            &judged,
        ) {
            None => Err(Stop::At {
                line,
                why: Why::NotObeyed,
            }),
            Some(who) => {
                take_freely(replay, table, judged, list, who)?;
                Ok(())
            }
        },
    }
}

/// Takes the turns of all replicas that run, so many of each, in the order of the lines of a text.
///
/// # Errors
///
/// The first line that isn't that of the next turn of a replica that has one left, and want of memory.
pub(crate) fn play_free(
    replay: &mut Replay,
    table: &JobTable,
    rest: &mut Rest<'_>,
    at: Minute,
    turns: u32,
) -> Result<(), Stop>
    requires ready { IsInSituation table.now replay.old }
    requires names { HasUnblankNames table.now }
    requires few { rest.old.number + length rest.old.text.now < 2 ^ 32 }
    requires inside { IsInWindow table.now.window at.0 }
    ensures { ComesOf table.now (BeginsFree replay.old.book.members table.now.window at.0 turns)
        (IsFreePart replay.old.book.members table.now.window at.0 turns) replay.old rest.old replay.new rest.new result }
{
    let mut list = first_progress(replay)?;
    'turns: for _turn in 0..u64::MAX {
        match next_waiting(replay, &list, turns) {
            Some(_) => play_free_turn(replay, table, rest, at, turns, &mut list)?,
            None => return Ok(()),
        }
    }
    // No text has the lines of so many turns.
    Err(Stop::OutOfMemory)
}
