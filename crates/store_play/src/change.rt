//! How changes are read.
ghost use Rattle.std.specs.Prelude.{IsTrue};
ghost use Rattle.paxos_base.specs.Rows.{OpenHaveCursors};

use crate::fault::PlayFault;
use crate::parse::{member_of, minute_of, number_of, small_of, split};
use paxos_base::{Ballot, Delta, Entry, JobRow, Kind, RowList, Vote};
use std::alloc::Global;

// A ballot that is written as round and replica.
fn ballot_of(word: &str) -> Result<Ballot, PlayFault> {
    let (round, member) = word.split_once('.').ok_or(PlayFault::BadBallot)?;
    let member = member_of(member)?;
    match number_of(round) {
        Ok(round) if 1 <= round && round < 1 << 61 => Ok(Ballot::of(round, member)),
        _ => Err(PlayFault::BadBallot),
    }
}

fn kind_of(word: &str) -> Result<Kind, PlayFault> {
    match word {
        "launch" => Ok(Kind::Launch),
        "void" => Ok(Kind::Void),
        _ => Err(PlayFault::BadKind),
    }
}

// The start of a launch, as `0 2024-03-31T00:00Z`, and with `decided` where that was at another minute.
fn start_of(text: &str) -> Result<Entry, PlayFault> {
    let (job, stamps) = split(text)?;
    let (at, now) = stamps.split_once(" decided ").unwrap_or((stamps, stamps));
    Ok(Entry::Start {
        job: small_of(job)?,
        at: minute_of(at)?.0,
        now: minute_of(now)?.0,
    })
}

// The end of a launch, as `0 2024-03-31T00:00Z void`.
fn end_of(text: &str) -> Result<Entry, PlayFault> {
    let (job, rest) = split(text)?;
    let (at, kind) = split(rest)?;
    Ok(Entry::End {
        job: small_of(job)?,
        at: minute_of(at)?.0,
        kind: kind_of(kind)?,
    })
}

// The adoption of a version, as `1 2024-03-31T00:30Z`.
fn table_of(text: &str) -> Result<Entry, PlayFault> {
    let (version, now) = split(text)?;
    Ok(Entry::Table {
        version: small_of(version)?,
        now: minute_of(now)?.0,
    })
}

fn entry_of(text: &str) -> Result<Entry, PlayFault> {
    if text == "noop" {
        Ok(Entry::Noop)
    } else if let Some(rest) = text.strip_prefix("start job ") {
        start_of(rest)
    } else if let Some(rest) = text.strip_prefix("end job ") {
        end_of(rest)
    } else if let Some(rest) = text.strip_prefix("version ") {
        table_of(rest)
    } else {
        Err(PlayFault::BadEntry)
    }
}

// A vote, as `1.0 at 5 noop`.
fn vote_of(text: &str) -> Result<Vote, PlayFault> {
    let (ballot, rest) = text.split_once(" at ").ok_or(PlayFault::MissingWord)?;
    let (slot, entry) = split(rest)?;
    Ok(Vote {
        slot: number_of(slot)?,
        ballot: ballot_of(ballot)?,
        entry: entry_of(entry)?,
    })
}

// Puts a part into a row.
fn put_part(row: &mut JobRow, part: &str) -> Result<(), PlayFault> {
    let (name, word) = split(part)?;
    match name {
        "cursor" => row.cursor = Some(minute_of(word)?.0),
        "open" => row.open_now = Some(minute_of(word)?.0),
        "last" => row.last = Some(minute_of(word)?.0),
        "launched" => row.launched = small_of(word)?,
        "voided" => row.voided = small_of(word)?,
        _ => return Err(PlayFault::BadRow),
    }
    Ok(())
}

// The row of that number by its parts, as `cursor 2024-03-31T00:00Z, launched 3`. It is fresh but for these.
fn row_with(number: u32, parts: &str) -> Result<JobRow, PlayFault> {
    let mut row = JobRow::fresh(number);
    for part in parts.split(", ") {
        put_part(&mut row, part)?;
    }
    Ok(row)
}

// The row of a job, as `row job 0, cursor 2024-03-31T00:00Z, launched 3`.
fn row_of(text: &str) -> Result<JobRow, PlayFault> {
    let rest = text.strip_prefix("row job ").ok_or(PlayFault::BadRow)?;
    match rest.split_once(", ") {
        Some((job, parts)) => row_with(small_of(job)?, parts),
        None => Ok(JobRow::fresh(small_of(rest)?)),
    }
}

// The table's own row, by what is written behind `row table` and by its number.
fn table_row_of(number: u32, text: &str) -> Result<JobRow, PlayFault> {
    match text.strip_prefix(", ") {
        Some(parts) => row_with(number, parts),
        None if text.is_empty() => Ok(JobRow::fresh(number)),
        None => Err(PlayFault::BadRow),
    }
}

// Whether each row that is open has a cursor.
fn have_cursors(rows: &[JobRow]) -> bool
    ensures { IsTrue result → OpenHaveCursors rows.now }
{
    rows.iter()
        .all(|row| row.open_now.is_none() || row.cursor.is_some())
}

// A base, as `64; row job 0; row table`. Where the table's own row isn't written it is fresh.
fn base_of(alloc: Global, text: &str) -> Result<Delta, PlayFault> {
    let (jobs, own) = text.split_once("; row table").unwrap_or((text, ""));
    let mut parts = jobs.split("; ");
    let slot = number_of(parts.next().ok_or(PlayFault::MissingWord)?)?;
    let mut items = Vec::new(alloc);
    let mut number = 0u32;
    for part in parts {
        items.push(row_of(part)?)?;
        number = number.saturating_add(1);
    }
    items.push(table_row_of(number, own)?)?;
    if !have_cursors(&items) {
        return Err(PlayFault::BadRow);
    }
    Ok(Delta::Base {
        slot,
        rows: RowList { items },
    })
}

/// A change, in the words in which one is written.
pub fn change_of(alloc: Global, text: &str) -> Result<Delta, PlayFault> {
    let (name, rest) = split(text)?;
    match name {
        "tried" => Ok(Delta::Tried(ballot_of(rest)?)),
        "promised" => Ok(Delta::Promised(ballot_of(rest)?)),
        "voted" => Ok(Delta::Voted(vote_of(rest)?)),
        "base" => base_of(alloc, rest),
        _ => Err(PlayFault::BadCommand),
    }
}
