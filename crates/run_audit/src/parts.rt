//! The parts of a script's commands by the lines of a text.
ghost use Rattle.std.specs.Prelude.{◌≡◌, ◌+◌, ◌<◌, ◌^◌, false, length};
ghost use Rattle.zone_minutes.specs.Window.{IsInWindow};
ghost use Rattle.script_text.specs.Command.{IsInRange};
ghost use Rattle.journal_text.specs.Line.{HasUnblankNames};
ghost use Rattle.script_semantics.specs.Arms.{AreRoundsByArms, PlaysByArms};
ghost use Rattle.script_semantics.specs.Commands.{Plain, set_by, tasks_for};
ghost use Rattle.script_semantics.specs.Round.{round_tasks};
ghost use Rattle.script_semantics.specs.Script.{IsPartOf};
ghost use Rattle.run_replay.specs.Replay.{IsInSituation};
ghost use Rattle.run_audit.specs.Begins.{BeginsPart, BeginsRounds, BeginsToPlay, BeginsToPlayByArms, is_plain};
ghost use Rattle.run_audit.specs.Played.{ComesOf};

use crate::arms::play_by_arms;
use crate::free::play_free;
use crate::lines::Rest;
use crate::play::play_tasks;
use crate::settle::{play_settling, play_walk};
use crate::verdict::Stop;
use due_set::JobTable;
use run_replay::Replay;
use script_text::Command;
use zone_minutes::Minute;

// Whether a command asks for a turn at most and then sets something, on disks that don't stop.
fn is_plain(command: &Command) -> bool
    ensures { result ≡ is_plain command.now }
{
    match *command {
        Command::Campaign { .. } => false,
        Command::Round { .. } => false,
        Command::Settle { .. } => false,
        Command::Walk { .. } => false,
        Command::Break { .. } => false,
        Command::Free { .. } => false,
        _ => true,
    }
}

// A round, in which a disk that is armed may stop.
fn play_round_by_arms(
    replay: &mut Replay,
    table: &JobTable,
    rest: &mut Rest<'_>,
    at: Minute,
) -> Result<(), Stop>
    requires ready { IsInSituation table.now replay.old }
    requires names { HasUnblankNames table.now }
    requires few { rest.old.number + length rest.old.text.now < 2 ^ 32 }
    requires inside { IsInWindow table.now.window at.0 }
    ensures { ComesOf table.now (BeginsToPlayByArms replay.old.book.members (round_tasks replay.old.book.members table.now.window at.0))
        (PlaysByArms replay.old.book.members (round_tasks replay.old.book.members table.now.window at.0))
        replay.old rest.old replay.new rest.new result }
{
    let tasks = replay.round_tasks(table, at)?;
    play_by_arms(replay, table, rest, &tasks)
}

// So many rounds, in which a disk that is armed may stop.
fn play_rounds(
    replay: &mut Replay,
    table: &JobTable,
    rest: &mut Rest<'_>,
    at: Minute,
    rounds: u32,
) -> Result<(), Stop>
    requires ready { IsInSituation table.now replay.old }
    requires names { HasUnblankNames table.now }
    requires few { rest.old.number + length rest.old.text.now < 2 ^ 32 }
    requires inside { IsInWindow table.now.window at.0 }
    ensures { ComesOf table.now (BeginsRounds replay.old.book.members table.now.window at.0 rounds)
        (AreRoundsByArms replay.old.book.members table.now.window at.0 rounds) replay.old rest.old replay.new rest.new result }
{
    'rounds: for _round in 0..rounds {
        play_round_by_arms(replay, table, rest, at)?;
    }
    Ok(())
}

// The turn that a command asks for, where it asks for one, on a disk that may be armed.
fn play_task_for(
    replay: &mut Replay,
    table: &JobTable,
    rest: &mut Rest<'_>,
    command: &Command,
) -> Result<(), Stop>
    requires ready { IsInSituation table.now replay.old }
    requires names { HasUnblankNames table.now }
    requires few { rest.old.number + length rest.old.text.now < 2 ^ 32 }
    requires range { IsInRange replay.old.book.members table.now.window command.now }
    ensures { ComesOf table.now (BeginsToPlayByArms replay.old.book.members (tasks_for command.now))
        (PlaysByArms replay.old.book.members (tasks_for command.now)) replay.old rest.old replay.new rest.new result }
{
    let tasks = replay.tasks_for(table, command)?;
    play_by_arms(replay, table, rest, &tasks)
}

// The turn that a command asks for, where it asks for one, and then what it sets.
fn play_plain(
    replay: &mut Replay,
    table: &JobTable,
    rest: &mut Rest<'_>,
    command: &Command,
) -> Result<(), Stop>
    requires ready { IsInSituation table.now replay.old }
    requires names { HasUnblankNames table.now }
    requires few { rest.old.number + length rest.old.text.now < 2 ^ 32 }
    requires range { IsInRange replay.old.book.members table.now.window command.now }
    ensures { ComesOf table.now (BeginsToPlay replay.old.book.members (tasks_for command.now))
        (Plain replay.old.book.members (tasks_for command.now) (set_by command.now)) replay.old rest.old replay.new rest.new result }
{
    let tasks = replay.tasks_for(table, command)?;
    play_tasks(replay, table, rest, &tasks)?;
    replay.set_by(command)?;
    Ok(())
}

// The part of a command that plays turns on disks that may stop, settles or walks, or arms a disk.
fn play_long(
    replay: &mut Replay,
    table: &JobTable,
    rest: &mut Rest<'_>,
    command: &Command,
) -> Result<(), Stop>
    requires ready { IsInSituation table.now replay.old }
    requires names { HasUnblankNames table.now }
    requires few { rest.old.number + length rest.old.text.now < 2 ^ 32 }
    requires range { IsInRange replay.old.book.members table.now.window command.now }
    requires long { is_plain command.now ≡ false }
    ensures { ComesOf table.now (BeginsPart replay.old.book.members table.now command.now) (IsPartOf replay.old.book.members table.now command.now)
        replay.old rest.old replay.new rest.new result }
{
    match *command {
        Command::Campaign { .. } => play_task_for(replay, table, rest, command),
        Command::Round { at, rounds } => play_rounds(replay, table, rest, at, rounds),
        Command::Settle { at } => {
            play_settling(replay, table, rest, at)?;
            Ok(())
        }
        Command::Walk { to } => play_walk(replay, table, rest, to),
        Command::Break {
            member,
            pass,
            image,
        } => {
            replay.arm(member, pass, image);
            Ok(())
        }
        Command::Free { at, turns } => play_free(replay, table, rest, at, turns),
        _ => unreachable!(),
    }
}

/// The part of a command by the lines of a text.
///
/// # Errors
///
/// The first line that isn't that of the part's next turn, and want of memory.
pub(crate) fn play_part(
    replay: &mut Replay,
    table: &JobTable,
    rest: &mut Rest<'_>,
    command: &Command,
) -> Result<(), Stop>
    requires ready { IsInSituation table.now replay.old }
    requires names { HasUnblankNames table.now }
    requires few { rest.old.number + length rest.old.text.now < 2 ^ 32 }
    requires range { IsInRange replay.old.book.members table.now.window command.now }
    ensures { ComesOf table.now (BeginsPart replay.old.book.members table.now command.now) (IsPartOf replay.old.book.members table.now command.now)
        replay.old rest.old replay.new rest.new result }
{
    if is_plain(command) {
        return play_plain(replay, table, rest, command);
    }
    play_long(replay, table, rest, command)
}
