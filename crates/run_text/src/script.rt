//! The script: its commands, and the end of the file.
ghost use Rattle.std.specs.Prelude.{◌≡◌, ◌+◌, ◌<◌, List, length, IfOk, IfErr, OnOk, IfSome, IfNone};
ghost use Rattle.crontab_text.specs.Lines.{lines_of};
ghost use Rattle.script_text.specs.declared.command.Command.{Command as Says};
ghost use Rattle.run_text.specs.Follow.{Script, End, SaysCommand};
ghost use Rattle.run_text.specs.Reading.{ReadsFrom};
ghost use Rattle.run_text.specs.Run.{Run, with_command, with_commands};
ghost use Rattle.run_text.specs.Steps.{place_of, CarriesBack, RefusedFrom, CanCountLines, IfRefused, BeginsScript, HasScript, PassesCommand};
ghost use Rattle.run_text.specs.declared.table.Tables.{Tables};

use crate::head::Head;
use crate::reader::Reader;
use crate::refusal::{Refusal, RunFault};
use cron_fields::Cause;
use script_text::{Command, Limits, read_command};
use std::alloc::Global;

/// Reads the rest of a file with this head, from the line on that is behind the one that opens the script: the commands.
pub fn read_script(
    alloc: Global,
    reader: &mut Reader<'_>,
    head: Head,
) -> Result<Vec<Command>, RunFault>
    requires { CanCountLines reader.old }
    ensures read { IfOk result (λ commands. (tables : Tables) (run : Run) → BeginsScript head run
        → ReadsFrom tables (reader.old.number + 1) (Script run) (lines_of reader.old.rest.now) (with_commands run commands.items)) }
    ensures refused { IfErr result (λ fault. IfRefused fault (λ refusal. (tables : Tables) (run : Run) → BeginsScript head run
        → RefusedFrom tables (place_of reader.old (Script run)) refusal)) }
{
    let mut commands = Vec::new(alloc);
    let mut left = Limits::whole();
    'commands: while let Some(command) = read_line(reader, head, &mut left)? {
        commands.push(command)?;
    }
    read_end(reader)?;
    Ok(commands)
}

/// Passes the rest of a file with this head, from the line on that is behind the one that opens the script, and keeps no command.
pub fn pass_script(reader: &mut Reader<'_>, head: Head) -> Result<(), Refusal>
    requires { CanCountLines reader.old }
    ensures read { OnOk result ((commands : List Says) × ((tables : Tables) (run : Run) → BeginsScript head run
        → ReadsFrom tables (reader.old.number + 1) (Script run) (lines_of reader.old.rest.now) (with_commands run commands))) }
    ensures refused { IfErr result (λ refusal. (tables : Tables) (run : Run) → BeginsScript head run
        → RefusedFrom tables (place_of reader.old (Script run)) refusal) }
{
    let mut left = Limits::whole();
    'commands: while let Some(_command) = read_line(reader, head, &mut left)? {}
    read_end(reader)
}

// Reads the next command, or else the line that ends the script: None.
fn read_line(
    reader: &mut Reader<'_>,
    head: Head,
    left: &mut Limits,
) -> Result<Option<Command>, Refusal>
    requires { CanCountLines reader.old }
    ensures command { IfOk result (λ read. IfSome read (PassesCommand head reader.old reader.new left.old left.new)) }
    ensures end { IfOk result (λ read. IfNone read ((tables : Tables) (run : Run)
        → CarriesBack tables (place_of reader.old (Script run)) (place_of reader.new (End run)))) }
    ensures refused { IfErr result (λ refusal. (tables : Tables) (run : Run) → HasScript head run left.old
        → RefusedFrom tables (place_of reader.old (Script run)) refusal) }
    ensures room { OnOk result (CanCountLines reader.new) }
    ensures shorter { OnOk result (length reader.new.rest.now < length reader.old.rest.now) }
{
    let Some(line) = reader.next_line() else {
        return Err(Refusal::of_line(reader.number, Cause::MissingLine));
    };
    if line == "end" {
        return Ok(None);
    }
    match command_of(line, head, left) {
        Some(command) => Ok(Some(command)),
        None => Err(Refusal::of_line(reader.number, Cause::BadScript)),
    }
}

// The command that a line says, within the limits of a script.
fn command_of(line: &str, head: Head, left: &mut Limits) -> Option<Command>
    ensures says { IfSome result (λ command. (run : Run) → HasScript head run left.old → SaysCommand run line.now command) }
    ensures left { IfSome result (λ command. (run : Run) → HasScript head run left.old → HasScript head (with_command run command) left.new) }
    ensures none { IfNone result ((run : Run) (command : Says) → HasScript head run left.old → SaysCommand run line.now command → ⊥) }
{
    let command = read_command(line, head.members, &head.window)?;
    *left = left.after(&command)?;
    Some(command)
}

// Finds that no line is behind the one that ends the script.
fn read_end(reader: &mut Reader<'_>) -> Result<(), Refusal>
    requires { CanCountLines reader.old }
    ensures read { OnOk result ((tables : Tables) (run : Run) → ReadsFrom tables (reader.old.number + 1) (End run) (lines_of reader.old.rest.now) run) }
    ensures refused { IfErr result (λ refusal. (tables : Tables) (run : Run) → RefusedFrom tables (place_of reader.old (End run)) refusal) }
{
    match reader.next_line() {
        Some(_) => Err(Refusal::of_line(reader.number, Cause::BadScript)),
        None => Ok(()),
    }
}
