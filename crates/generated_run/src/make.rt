//! The text of a made run.
ghost use Rattle.std.specs.Prelude.{◌≡◌, ◌++◌, ◌∷◌, [], ◌+◌, ◌*◌, ◌<◌, ℕ, map, codes, decimal, IfOk, OnOk, string_bytes};
ghost use Rattle.script_text.specs.Command.{command_line};
ghost use Rattle.script_text.specs.declared.command.Command.TheVariants.{Round as Rounds};
ghost use Rattle.zone_minutes.specs.Civil.{IsCalendarMinute};
ghost use Rattle.generated_run.specs.Draws.{state_at};
ghost use Rattle.generated_run.specs.Made.{daily_lines, day_text, first_parts, head_lines, hour_text, hourly_lines, made_text, part_commands};
ghost use Rattle.cron_io.specs.Lines.{text_of_lines};

use crate::draws::Draws;
use cron_io::OutOfMemory;
use std::alloc::Global;
use std::fmt::Write;
use zone_minutes::{Minute, write_stamp};

// 2024-03-01T00:00Z, in minutes.
const FROM: i64 = 28_487_520;

// Appends the lines before those of the table.
fn put_head(into: &mut String) -> Result<(), OutOfMemory>
    ensures { OnOk result (string_bytes into.new ≡ string_bytes into.old ++ text_of_lines head_lines) }
{
    into.push_str("cronrun 1\nreplicas 3\nwindow ")?;
    write_stamp(Minute(FROM), into)?;
    into.push_str(" ")?;
    write_stamp(Minute(FROM + 14_400), into)?;
    into.push_str("\ngrace 14400\ncrontab make UTC 200\n")?;
    Ok(())
}

// Appends the line of a job of each hour.
fn put_hour(into: &mut String, minute: u32, number: u32) -> Result<(), OutOfMemory>
    ensures { OnOk result (string_bytes into.new ≡ string_bytes into.old ++ (hour_text minute number ++ 10 ∷ [])) }
{
    write!(into, "{minute} * * * * hourly {number}\n")?;
    Ok(())
}

// Appends the lines of the jobs of each hour.
fn put_hours(into: &mut String, draws: &mut Draws) -> Result<(), OutOfMemory>
    ensures drawn { OnOk result ((seed : ℕ) → draws.old.state ≡ state_at seed 0 → draws.new.state ≡ state_at seed 40) }
    ensures put { OnOk result ((seed : ℕ) → draws.old.state ≡ state_at seed 0
        → string_bytes into.new ≡ string_bytes into.old ++ text_of_lines (hourly_lines seed 40)) }
{
    'jobs: for number in 0..40_u32 {
        let minute = draws.below(60);
        put_hour(into, minute, number + 1)?;
    }
    Ok(())
}

// Appends the line of a job of each day.
fn put_day(into: &mut String, minute: u32, hour: u32, number: u32) -> Result<(), OutOfMemory>
    ensures { OnOk result (string_bytes into.new ≡ string_bytes into.old ++ (day_text minute hour number ++ 10 ∷ [])) }
{
    write!(into, "{minute} {hour} * * * daily {number}\n")?;
    Ok(())
}

// Appends the lines of the jobs of each day.
fn put_days(into: &mut String, draws: &mut Draws) -> Result<(), OutOfMemory>
    ensures drawn { OnOk result ((seed : ℕ) → draws.old.state ≡ state_at seed 40 → draws.new.state ≡ state_at seed 360) }
    ensures put { OnOk result ((seed : ℕ) → draws.old.state ≡ state_at seed 40
        → string_bytes into.new ≡ string_bytes into.old ++ text_of_lines (daily_lines seed 160)) }
{
    'jobs: for number in 0..160_u32 {
        let minute = draws.below(60);
        let hour = draws.below(24);
        put_day(into, minute, hour, number + 41)?;
    }
    Ok(())
}

// Appends the line of 40 rounds.
fn put_rounds(into: &mut String, at: Minute) -> Result<(), OutOfMemory>
    requires { IsCalendarMinute at.0 }
    ensures { OnOk result (string_bytes into.new ≡ string_bytes into.old ++ (command_line (Rounds at 40) ++ 10 ∷ [])) }
{
    let rounds = 40_u32;
    into.push_str("round ")?;
    write_stamp(at, into)?;
    write!(into, " {rounds}\n")?;
    Ok(())
}

// Appends the lines by which a replica stops and one stands for leader.
fn put_change(into: &mut String, stops: u32, leads: u32) -> Result<(), OutOfMemory>
    ensures { OnOk result (string_bytes into.new ≡ string_bytes into.old
        ++ (codes "stop " ++ decimal stops ++ 10 ∷ codes "campaign " ++ decimal leads ++ 10 ∷ [])) }
{
    write!(into, "stop {stops}\ncampaign {leads}\n")?;
    Ok(())
}

// Appends the commands of half a day.
fn put_part(into: &mut String, draws: &mut Draws, number: u32) -> Result<(), OutOfMemory>
    requires { number < 20 }
    ensures drawn { OnOk result ((seed : ℕ) → draws.old.state ≡ state_at seed (360 + 2 * number)
        → draws.new.state ≡ state_at seed (362 + 2 * number)) }
    ensures put { OnOk result ((seed : ℕ) → draws.old.state ≡ state_at seed (360 + 2 * number)
        → string_bytes into.new ≡ string_bytes into.old ++ text_of_lines (map command_line (part_commands seed number))) }
{
    let at = Minute(FROM + i64::from(720 * number));
    let stops = draws.below(3);
    let leads = draws.below(3);
    put_rounds(into, at)?;
    put_change(into, stops, leads)?;
    put_rounds(into, at)?;
    into.push_str("restart 0\nrestart 1\nrestart 2\n")?;
    Ok(())
}

// Appends the commands of ten days.
fn put_parts(into: &mut String, draws: &mut Draws) -> Result<(), OutOfMemory>
    ensures { OnOk result ((seed : ℕ) → draws.old.state ≡ state_at seed 360
        → string_bytes into.new ≡ string_bytes into.old ++ text_of_lines (map command_line (first_parts seed 20))) }
{
    'parts: for number in 0..20_u32 {
        put_part(into, draws, number)?;
    }
    Ok(())
}

/// The text of the run that a seed makes: three replicas over the ten days from 2024-03-01T00:00Z on, with 40 jobs of each hour
/// and 160 of each day at times that are drawn, and a script in which drawn replicas stop and drawn ones stand for leader.
///
/// # Errors
///
/// `OutOfMemory`: then there is no text.
pub fn make_run(alloc: Global, seed: u32) -> Result<String, OutOfMemory>
    ensures made { IfOk result (λ text. string_bytes text ≡ made_text seed) }
{
    let mut draws = Draws::new(seed);
    let mut text = String::new(alloc);
    put_head(&mut text)?;
    put_hours(&mut text, &mut draws)?;
    put_days(&mut text, &mut draws)?;
    text.push_str("script\ncampaign 0\n")?;
    put_parts(&mut text, &mut draws)?;
    text.push_str("end\n")?;
    Ok(text)
}
