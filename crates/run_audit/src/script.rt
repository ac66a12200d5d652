//! A whole script, played by the lines of a text.
ghost use Rattle.std.specs.Prelude.{◌≡◌, ◌+◌, ◌<◌, ◌^◌, ◌-ℤ◌, pos, [], All, OnOk, length};
ghost use Rattle.job_table.specs.Names.{HaveWordNames};
ghost use Rattle.journal_text.specs.Line.{HasUnblankNames};
ghost use Rattle.script_semantics.specs.Script.{IsPartOf};
ghost use Rattle.script_semantics.specs.Settling.{Walks};
ghost use Rattle.script_semantics.specs.Situation.{first_situation};
ghost use Rattle.script_text.specs.Command.{IsInRange};
ghost use Rattle.zone_minutes.specs.Window.{IsInWindow};
ghost use Rattle.run_replay.specs.Replay.{IsInSituation, IsReplayAt};
ghost use Rattle.run_audit.specs.Begins.{BeginsPart, BeginsWalk};
ghost use Rattle.run_audit.specs.Headings.{ComesBehind, heading_text};
ghost use Rattle.run_audit.specs.Played.{PlaysScript};
ghost use Rattle.run_audit.specs.declared.heading.Heading.TheVariants.{Command as CommandLine, Walk as WalkLine};

use crate::heading::{Heading, pass_end, pass_heading};
use crate::lines::Rest;
use crate::parts::play_part;
use crate::settle::play_walk;
use crate::verdict::Stop;
use due_set::JobTable;
use run_replay::Replay;
use script_text::Command;
use zone_minutes::Minute;

// The last minute of a table's window.
fn last_minute(table: &JobTable) -> Minute
    ensures last { result.0 ≡ table.now.window.until.0 -ℤ pos 1 }
    ensures inside { IsInWindow table.now.window result.0 }
{
    Minute(table.window().until.0 - 1)
}

// The part of a command by the lines of a text, with the line before it, which has its number from 1.
fn play_command_part(
    replay: &mut Replay,
    table: &JobTable,
    rest: &mut Rest<'_>,
    number: u64,
    command: &Command,
) -> Result<(), Stop>
    requires ready { IsInSituation table.now replay.old }
    requires names { HasUnblankNames table.now }
    requires few { rest.old.number + length rest.old.text.now < 2 ^ 32 }
    requires range { IsInRange replay.old.book.members table.now.window command.now }
    ensures { ComesBehind table.now (heading_text (CommandLine number)) (BeginsPart replay.old.book.members table.now command.now)
        (IsPartOf replay.old.book.members table.now command.now) replay.old rest.old replay.new rest.new result }
{
    pass_heading(replay, table, rest, Heading::Command(number))?;
    play_part(replay, table, rest, command)
}

// The walk to the window's last minute, with the line before it.
fn play_last(replay: &mut Replay, table: &JobTable, rest: &mut Rest<'_>) -> Result<(), Stop>
    requires ready { IsInSituation table.now replay.old }
    requires names { HasUnblankNames table.now }
    requires few { rest.old.number + length rest.old.text.now < 2 ^ 32 }
    ensures { ComesBehind table.now (heading_text WalkLine) (BeginsWalk replay.old.book.members table.now (table.now.window.until.0 -ℤ pos 1))
        (Walks replay.old.book.members table.now (table.now.window.until.0 -ℤ pos 1)) replay.old rest.old replay.new rest.new result }
{
    pass_heading(replay, table, rest, Heading::Walk)?;
    let to = last_minute(table);
    play_walk(replay, table, rest, to)
}

/// Plays a script by the lines of a text, from the first one on.
///
/// # Errors
///
/// The first line that isn't the one that comes next, and want of memory.
pub(crate) fn play_script(
    replay: &mut Replay,
    table: &JobTable,
    script: &[Command],
    text: &str,
) -> Result<(), Stop>
    requires first { IsReplayAt table.now [] replay.old (first_situation replay.old.book.members table.now) }
    requires names { HaveWordNames table.now.jobs }
    requires range { All (λ command. IsInRange replay.old.book.members table.now.window command) script.now }
    requires few { length text.now + 1 < 2 ^ 32 }
    ensures plays { PlaysScript table.now script.now text.now replay.old replay.new result }
    ensures members { OnOk result (replay.new.book.members ≡ replay.old.book.members) }
{
    let mut rest = Rest { text, number: 1 };
    pass_heading(replay, table, &mut rest, Heading::First)?;
    'parts: for place in 0..script.len() {
        play_command_part(replay, table, &mut rest, place as u64 + 1, &script[place])?;
    }
    play_last(replay, table, &mut rest)?;
    pass_heading(replay, table, &mut rest, Heading::Last)?;
    pass_end(replay, table, &mut rest)
}
