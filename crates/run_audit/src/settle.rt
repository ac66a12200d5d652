//! Settling and walking by the lines of a text.
ghost use Rattle.std.specs.Prelude.{◌≡◌, ◌+◌, ◌<◌, ◌^◌, ◌∷◌, [], List, IfOk, OnOk, length};
ghost use Rattle.std.specs.Int.{int_min};
ghost use Rattle.zone_minutes.specs.Window.{IsInWindow};
ghost use Rattle.history.specs.Book.{Row};
ghost use Rattle.history.specs.declared.turn.Cause.TheVariants.{Campaign};
ghost use Rattle.journal_text.specs.Line.{HasUnblankNames};
ghost use Rattle.script_semantics.specs.Commands.{Plain};
ghost use Rattle.script_semantics.specs.Parts.{Plays, Then};
ghost use Rattle.script_semantics.specs.Round.{round_tasks};
ghost use Rattle.script_semantics.specs.Settling.{Drains, IsDrainRound, Settles, Walks, WalksOn, cleared, coordinator, restart_tasks};
ghost use Rattle.script_semantics.specs.Situation.{Do, Situation};
ghost use Rattle.run_replay.specs.Tasks.{standing_tasks};
ghost use Rattle.run_replay.specs.Replay.{IsInSituation, IsReplayAt};
ghost use Rattle.run_audit.specs.Begins.{BeginsDrain, BeginsDrainRound, BeginsSettling, BeginsThen, BeginsToPlay, BeginsWalk, BeginsWalkOn};
ghost use Rattle.run_audit.specs.Played.{ComesOf, RunsInReplay};

use crate::lines::Rest;
use crate::play::play_tasks;
use crate::verdict::Stop;
use due_set::JobTable;
use run_replay::Replay;
use zone_minutes::Minute;

// The earlier of two minutes.
fn earlier_minute(one: Minute, other: Minute) -> Minute
    ensures { result.0 ≡ int_min one.0 other.0 }
{
    one.min(other)
}

// A round, in which no disk stops.
fn play_round(
    replay: &mut Replay,
    table: &JobTable,
    rest: &mut Rest<'_>,
    at: Minute,
) -> Result<(), Stop>
    requires ready { IsInSituation table.now replay.old }
    requires names { HasUnblankNames table.now }
    requires few { rest.old.number + length rest.old.text.now < 2 ^ 32 }
    requires inside { IsInWindow table.now.window at.0 }
    ensures { ComesOf table.now (BeginsToPlay replay.old.book.members (round_tasks replay.old.book.members table.now.window at.0))
        (Plays replay.old.book.members (round_tasks replay.old.book.members table.now.window at.0)) replay.old rest.old replay.new rest.new result }
{
    let tasks = replay.round_tasks(table, at)?;
    play_tasks(replay, table, rest, &tasks)
}

// A replica stands for leader where it follows.
fn play_standing(
    replay: &mut Replay,
    table: &JobTable,
    rest: &mut Rest<'_>,
    who: u8,
) -> Result<(), Stop>
    requires ready { IsInSituation table.now replay.old }
    requires names { HasUnblankNames table.now }
    requires few { rest.old.number + length rest.old.text.now < 2 ^ 32 }
    requires member { who < replay.old.book.members }
    ensures { ComesOf table.now (BeginsToPlay replay.old.book.members (standing_tasks who)) (Plays replay.old.book.members (standing_tasks who))
        replay.old rest.old replay.new rest.new result }
{
    let tasks = replay.standing_tasks(who)?;
    play_tasks(replay, table, rest, &tasks)
}

// A replica stands for leader.
fn play_campaign(
    replay: &mut Replay,
    table: &JobTable,
    rest: &mut Rest<'_>,
    who: u8,
) -> Result<(), Stop>
    requires ready { IsInSituation table.now replay.old }
    requires names { HasUnblankNames table.now }
    requires few { rest.old.number + length rest.old.text.now < 2 ^ 32 }
    ensures { ComesOf table.now (BeginsToPlay replay.old.book.members (λ here. Do who Campaign ∷ []))
        (Plays replay.old.book.members (λ here. Do who Campaign ∷ [])) replay.old rest.old replay.new rest.new result }
{
    let tasks = replay.campaign_task(who)?;
    play_tasks(replay, table, rest, &tasks)
}

// All that are stopped start again.
fn play_restarts(replay: &mut Replay, table: &JobTable, rest: &mut Rest<'_>) -> Result<(), Stop>
    requires ready { IsInSituation table.now replay.old }
    requires names { HasUnblankNames table.now }
    requires few { rest.old.number + length rest.old.text.now < 2 ^ 32 }
    ensures { ComesOf table.now (BeginsToPlay replay.old.book.members (restart_tasks replay.old.book.members))
        (Plays replay.old.book.members (restart_tasks replay.old.book.members)) replay.old rest.old replay.new rest.new result }
{
    let tasks = replay.restart_tasks()?;
    play_tasks(replay, table, rest, &tasks)
}

// A replica stands for leader where it follows, and a round comes after that.
fn play_drain_round(
    replay: &mut Replay,
    table: &JobTable,
    rest: &mut Rest<'_>,
    who: u8,
    at: Minute,
) -> Result<(), Stop>
    requires ready { IsInSituation table.now replay.old }
    requires names { HasUnblankNames table.now }
    requires few { rest.old.number + length rest.old.text.now < 2 ^ 32 }
    requires member { who < replay.old.book.members }
    requires inside { IsInWindow table.now.window at.0 }
    ensures { ComesOf table.now (BeginsDrainRound replay.old.book.members table.now who at.0)
        (IsDrainRound replay.old.book.members table.now who at.0) replay.old rest.old replay.new rest.new result }
{
    play_standing(replay, table, rest, who)?;
    play_round(replay, table, rest, at)
}

// Rounds until it is quiet; the replica that leads runs then.
fn play_drain(
    replay: &mut Replay,
    table: &JobTable,
    rest: &mut Rest<'_>,
    who: u8,
    at: Minute,
) -> Result<(), Stop>
    requires ready { IsInSituation table.now replay.old }
    requires names { HasUnblankNames table.now }
    requires few { rest.old.number + length rest.old.text.now < 2 ^ 32 }
    requires member { who < replay.old.book.members }
    requires inside { IsInWindow table.now.window at.0 }
    ensures comes { ComesOf table.now (BeginsDrain replay.old.book.members table.now who at.0) (Drains replay.old.book.members table.now who at.0)
        replay.old rest.old replay.new rest.new result }
    ensures runs { OnOk result (RunsInReplay who replay.new) }
{
    'rounds: for _round in 0..u64::MAX {
        if replay.is_quiet(table, who, at) {
            return Ok(());
        }
        play_drain_round(replay, table, rest, who, at)?;
    }
    // No text has the lines of so many rounds.
    Err(Stop::OutOfMemory)
}

// A replica stands for leader, and rounds come until it is quiet.
fn play_lead(
    replay: &mut Replay,
    table: &JobTable,
    rest: &mut Rest<'_>,
    who: u8,
    at: Minute,
) -> Result<(), Stop>
    requires ready { IsInSituation table.now replay.old }
    requires names { HasUnblankNames table.now }
    requires few { rest.old.number + length rest.old.text.now < 2 ^ 32 }
    requires member { who < replay.old.book.members }
    requires inside { IsInWindow table.now.window at.0 }
    ensures comes { ComesOf table.now
        (BeginsThen (BeginsToPlay replay.old.book.members (λ here. Do who Campaign ∷ []))
        (Plays replay.old.book.members (λ here. Do who Campaign ∷ [])) (BeginsDrain replay.old.book.members table.now who at.0))
        (Then (Plays replay.old.book.members (λ here. Do who Campaign ∷ [])) (Drains replay.old.book.members table.now who at.0))
        replay.old rest.old replay.new rest.new result }
    ensures runs { OnOk result (RunsInReplay who replay.new) }
{
    play_campaign(replay, table, rest, who)?;
    play_drain(replay, table, rest, who, at)
}

// All that are stopped start again, and no fault is set any more.
fn play_start(replay: &mut Replay, table: &JobTable, rest: &mut Rest<'_>) -> Result<(), Stop>
    requires ready { IsInSituation table.now replay.old }
    requires names { HasUnblankNames table.now }
    requires few { rest.old.number + length rest.old.text.now < 2 ^ 32 }
    ensures { ComesOf table.now (BeginsToPlay replay.old.book.members (restart_tasks replay.old.book.members))
        (Plain replay.old.book.members (restart_tasks replay.old.book.members) cleared) replay.old rest.old replay.new rest.new result }
{
    play_restarts(replay, table, rest)?;
    replay.clear();
    Ok(())
}

/// Settles at an instant. The answer is the replica that leads then: that which had learned the most before.
///
/// # Errors
///
/// The first line that isn't that of the next turn, and want of memory.
pub(crate) fn play_settling(
    replay: &mut Replay,
    table: &JobTable,
    rest: &mut Rest<'_>,
    at: Minute,
) -> Result<u8, Stop>
    requires ready { IsInSituation table.now replay.old }
    requires names { HasUnblankNames table.now }
    requires few { rest.old.number + length rest.old.text.now < 2 ^ 32 }
    requires inside { IsInWindow table.now.window at.0 }
    ensures comes { ComesOf table.now (BeginsSettling replay.old.book.members table.now at.0) (Settles replay.old.book.members table.now at.0)
        replay.old rest.old replay.new rest.new result }
    ensures leads { IfOk result (λ who. (rows : List Row) (situation : Situation) → IsReplayAt table.now rows replay.old situation
        → who ≡ coordinator replay.old.book.members situation) }
    ensures member { IfOk result (λ who. who < replay.old.book.members) }
    ensures runs { IfOk result (λ who. RunsInReplay who replay.new) }
{
    play_start(replay, table, rest)?;
    let who = replay.coordinator(table);
    play_lead(replay, table, rest, who, at)?;
    Ok(who)
}

// From one minute at which there is something to do to the next, each drained.
fn play_minutes(
    replay: &mut Replay,
    table: &JobTable,
    rest: &mut Rest<'_>,
    who: u8,
    at: Minute,
    to: Minute,
) -> Result<(), Stop>
    requires ready { IsInSituation table.now replay.old }
    requires names { HasUnblankNames table.now }
    requires few { rest.old.number + length rest.old.text.now < 2 ^ 32 }
    requires member { who < replay.old.book.members }
    requires runs { RunsInReplay who replay.old }
    requires inside { IsInWindow table.now.window at.0 }
    requires within { IsInWindow table.now.window to.0 }
    ensures { ComesOf table.now (BeginsWalkOn replay.old.book.members table.now who at.0 to.0)
        (WalksOn replay.old.book.members table.now who at.0 to.0) replay.old rest.old replay.new rest.new result }
{
    let mut above = at;
    'minutes: while let Some(minute) = replay.next_minute(table, who, above, to) {
        play_drain(replay, table, rest, who, minute)?;
        above = minute;
    }
    Ok(())
}

/// Walks to an instant: settles at the latest clock reading so far, or at this instant where that is later, and goes on from there.
///
/// # Errors
///
/// The first line that isn't that of the next turn, and want of memory.
pub(crate) fn play_walk(
    replay: &mut Replay,
    table: &JobTable,
    rest: &mut Rest<'_>,
    to: Minute,
) -> Result<(), Stop>
    requires ready { IsInSituation table.now replay.old }
    requires names { HasUnblankNames table.now }
    requires few { rest.old.number + length rest.old.text.now < 2 ^ 32 }
    requires inside { IsInWindow table.now.window to.0 }
    ensures { ComesOf table.now (BeginsWalk replay.old.book.members table.now to.0) (Walks replay.old.book.members table.now to.0)
        replay.old rest.old replay.new rest.new result }
{
    let at = earlier_minute(replay.latest, to);
    let who = play_settling(replay, table, rest, at)?;
    play_minutes(replay, table, rest, who, at, to)
}
