//! The four lines that a run file begins with.
ghost use Rattle.std.specs.Prelude.{◌≡◌, ◌+◌, ◌<◌, ◌≤◌, ◌^◌, [], ℕ, length, codes, IfOk, IfErr, OnOk, IfSome, IfNone};
ghost use Rattle.zone_minutes.specs.declared.minute.Window.{Window};
ghost use Rattle.run_text.specs.Follow.{Version, Replicas, Times, Sections};
ghost use Rattle.run_text.specs.Grammar.{IsReplicasLine, IsWindowLine, IsGraceLine};
ghost use Rattle.run_text.specs.Run.{run_with};
ghost use Rattle.run_text.specs.Steps.{place_of, start, CarriesBack, RefusedFrom, CanCountLines};
ghost use Rattle.run_text.specs.declared.table.Tables.{Tables};

use crate::reader::Reader;
use crate::refusal::Refusal;
use cron_fields::Cause;
use cron_io::read_number;
use crontab_text::first_line;
use zone_minutes::{Window, read_stamp};

// 365 days, in minutes.
const MOST_GRACE: u32 = 525_600;

// How many replicas there are at most.
const MOST_MEMBERS: u32 = 7;

/// What the head of a run file says.
#[derive(Clone, Copy, Debug, PartialEq, Eq)]
pub struct Head {
    pub members: u8,
    pub window: Window,
    /// Minutes, from 0 to 525,600.
    pub grace: u32,
}

/// Reads the head.
pub fn read_head(text: &str) -> Result<(Head, Reader<'_>), Refusal>
    requires { length text.now < 2 ^ 32 }
    ensures read { IfOk result (λ read. (tables : Tables)
        → CarriesBack tables (start text.now) (place_of read.1 (Sections (run_with read.0.members read.0.window read.0.grace)))) }
    ensures refused { IfErr result (λ refusal. (tables : Tables) → RefusedFrom tables (start text.now) refusal) }
    ensures room { IfOk result (λ read. CanCountLines read.1) }
    ensures shorter { IfOk result (λ read. length read.1.rest.now ≤ length text.now) }
{
    let mut reader = read_version(text)?;
    let members = read_replicas(&mut reader)?;
    let window = read_window(&mut reader)?;
    let grace = read_grace(&mut reader)?;
    let head = Head {
        members,
        window,
        grace,
    };
    Ok((head, reader))
}

// Reads the first line.
fn read_version(text: &str) -> Result<Reader<'_>, Refusal>
    requires { length text.now < 2 ^ 32 }
    ensures read { IfOk result (λ reader. (tables : Tables) → CarriesBack tables (start text.now) (place_of reader Version)) }
    ensures refused { IfErr result (λ refusal. (tables : Tables) → RefusedFrom tables (start text.now) refusal) }
    ensures room { IfOk result CanCountLines }
    ensures shorter { IfOk result (λ reader. length reader.rest.now ≤ length text.now) }
{
    let Some((line, rest)) = first_line(text) else {
        return Err(Refusal::of_line(1, Cause::BadHeader));
    };
    if line != "cronrun 1" {
        return Err(Refusal::of_line(1, Cause::BadHeader));
    }
    Ok(Reader { rest, number: 1 })
}

// Reads the number of replicas.
fn read_replicas(reader: &mut Reader<'_>) -> Result<u8, Refusal>
    requires { CanCountLines reader.old }
    ensures read { IfOk result (λ members. (tables : Tables) → CarriesBack tables (place_of reader.old Version) (place_of reader.new (Replicas members))) }
    ensures refused { IfErr result (λ refusal. (tables : Tables) → RefusedFrom tables (place_of reader.old Version) refusal) }
    ensures room { OnOk result (CanCountLines reader.new) }
    ensures shorter { OnOk result (length reader.new.rest.now ≤ length reader.old.rest.now) }
{
    let Some(line) = reader.next_line() else {
        return Err(Refusal::of_line(reader.number, Cause::BadReplicas));
    };
    match members_of(line) {
        Some(members) => Ok(members as u8),
        None => Err(Refusal::of_line(reader.number, Cause::BadReplicas)),
    }
}

// Reads the window.
fn read_window(reader: &mut Reader<'_>) -> Result<Window, Refusal>
    requires { CanCountLines reader.old }
    ensures read { IfOk result (λ window. (tables : Tables) (members : ℕ)
        → CarriesBack tables (place_of reader.old (Replicas members)) (place_of reader.new (Times members window))) }
    ensures refused { IfErr result (λ refusal. (tables : Tables) (members : ℕ) → RefusedFrom tables (place_of reader.old (Replicas members)) refusal) }
    ensures room { OnOk result (CanCountLines reader.new) }
    ensures shorter { OnOk result (length reader.new.rest.now ≤ length reader.old.rest.now) }
{
    let Some(line) = reader.next_line() else {
        return Err(Refusal::of_line(reader.number, Cause::BadWindow));
    };
    match window_of(line) {
        Some(window) => Ok(window),
        None => Err(Refusal::of_line(reader.number, Cause::BadWindow)),
    }
}

// Reads the minutes of grace.
fn read_grace(reader: &mut Reader<'_>) -> Result<u32, Refusal>
    requires { CanCountLines reader.old }
    ensures read { IfOk result (λ grace. (tables : Tables) (members : ℕ) (window : Window)
        → CarriesBack tables (place_of reader.old (Times members window)) (place_of reader.new (Sections (run_with members window grace)))) }
    ensures refused { IfErr result (λ refusal. (tables : Tables) (members : ℕ) (window : Window)
        → RefusedFrom tables (place_of reader.old (Times members window)) refusal) }
    ensures room { OnOk result (CanCountLines reader.new) }
    ensures shorter { OnOk result (length reader.new.rest.now ≤ length reader.old.rest.now) }
{
    let Some(line) = reader.next_line() else {
        return Err(Refusal::of_line(reader.number, Cause::BadGrace));
    };
    match grace_of(line) {
        Some(grace) => Ok(grace),
        None => Err(Refusal::of_line(reader.number, Cause::BadGrace)),
    }
}

// replicas N, with N from 1 to 7
fn members_of(line: &str) -> Option<u32>
    ensures read { IfSome result (IsReplicasLine line.now) }
    ensures none { IfNone result ((members : ℕ) → IsReplicasLine line.now members → ⊥) }
{
    let members = read_number(line.strip_prefix("replicas ")?, MOST_MEMBERS)?;
    if members == 0 {
        return None;
    }
    Some(members)
}

// window STAMP STAMP
fn window_of(line: &str) -> Option<Window>
    ensures read { IfSome result (IsWindowLine line.now) }
    ensures none { IfNone result ((window : Window) → IsWindowLine line.now window → ⊥) }
{
    let stamps = line.strip_prefix("window ")?;
    let (from, until) = stamps.split_once(' ')?;
    let from = read_stamp(from)?;
    let until = read_stamp(until)?;
    let window = Window { from, until };
    if !window.is_within_limits() {
        return None;
    }
    Some(window)
}

// grace G
fn grace_of(line: &str) -> Option<u32>
    ensures read { IfSome result (IsGraceLine line.now) }
    ensures none { IfNone result ((grace : ℕ) → IsGraceLine line.now grace → ⊥) }
{
    read_number(line.strip_prefix("grace ")?, MOST_GRACE)
}
