//! The letters that a scenario makes up.
use crate::fault::PlayFault;
use crate::parse::{member_of, minute_of, number_of, split};
use paxos_base::{Ballot, Entry, JobRow};
use paxos_letter::{Packet, packet_bytes};
use std::alloc::Global;

// How many packets a word stands for at most.
const PACKETS: u64 = 1000;

// A ballot that is written as round and replica.
fn ballot_of(word: &str) -> Result<Ballot, PlayFault> {
    let (round, member) = word.split_once('.').ok_or(PlayFault::BadBallot)?;
    let member = member_of(member)?;
    match number_of(round) {
        Some(round) if 1 <= round && round < 1 << 61 => Ok(Ballot::of(round, member)),
        _ => Err(PlayFault::BadBallot),
    }
}

fn slot_of(word: &str) -> Result<u64, PlayFault> {
    number_of(word).ok_or(PlayFault::BadNumber)
}

// The packet of a ballot and a slot, as `lead 1.0 5`. A promise has no votes, and a no-op is proposed.
fn packet_of(name: &str, words: &str) -> Result<Packet, PlayFault> {
    let (ballot, slot) = split(words)?;
    let ballot = ballot_of(ballot)?;
    let slot = slot_of(slot)?;
    match name {
        "prepare" => Ok(Packet::Prepare { ballot, slot }),
        "promise" => Ok(Packet::Promise {
            ballot,
            slot,
            count: 0,
        }),
        "accept" => Ok(Packet::Accept {
            ballot,
            slot,
            entry: Entry::Noop,
        }),
        "accepted" => Ok(Packet::Accepted { ballot, slot }),
        "lead" => Ok(Packet::Lead { ballot, slot }),
        _ => Err(PlayFault::BadPacket),
    }
}

// Appends the bytes of a packet.
fn put_packet(from: u8, packet: Packet, bytes: &mut Vec<u8>) -> Result<(), PlayFault> {
    bytes.extend_from_slice(&packet_bytes(from, &packet))?;
    Ok(())
}

// Appends the no-op of a slot, as `known 5`, or those of several, as `known 0 to 63`.
fn put_known(from: u8, words: &str, bytes: &mut Vec<u8>) -> Result<(), PlayFault> {
    let (first, last) = words.split_once(" to ").unwrap_or((words, words));
    let first = slot_of(first)?;
    let last = slot_of(last)?;
    if last < first || PACKETS <= last - first {
        return Err(PlayFault::BadSlots);
    }
    for place in 0..last - first + 1 {
        let packet = Packet::Known {
            slot: first + place,
            entry: Entry::Noop,
        };
        put_packet(from, packet, bytes)?;
    }
    Ok(())
}

// A count of launches.
fn count_of(word: &str) -> Result<u32, PlayFault> {
    match number_of(word) {
        Some(count) if count <= u64::from(u32::MAX) => Ok(count as u32),
        _ => Err(PlayFault::BadNumber),
    }
}

// The parts of a row that were given.
#[derive(Default, Drop)]
struct RowParts {
    cursor: Option<i64>,
    open: Option<i64>,
    last: Option<i64>,
    launched: Option<u32>,
    voided: Option<u32>,
}

// Sets a part that isn't set yet.
fn set_once<T: Drop>(part: &mut Option<T>, value: T) -> Result<(), PlayFault> {
    if part.is_some() {
        return Err(PlayFault::BadRow);
    }
    *part = Some(value);
    Ok(())
}

impl RowParts {
    // Takes a part by its name.
    fn set(&mut self, name: &str, word: &str) -> Result<(), PlayFault> {
        match name {
            "cursor" => set_once(&mut self.cursor, minute_of(word)?.0),
            "open" => set_once(&mut self.open, minute_of(word)?.0),
            "last" => set_once(&mut self.last, minute_of(word)?.0),
            "launched" => set_once(&mut self.launched, count_of(word)?),
            "voided" => set_once(&mut self.voided, count_of(word)?),
            _ => Err(PlayFault::BadRow),
        }
    }
}

// A row by its parts, as `cursor 2024-03-31T00:00Z, launched 3`, each at most once. It is fresh but for these.
fn row_of(parts: &str) -> Result<JobRow, PlayFault> {
    let mut given = RowParts::default();
    for part in parts.split(", ") {
        let (name, word) = split(part)?;
        given.set(name, word)?;
    }
    Ok(JobRow {
        cursor: given.cursor,
        open_now: given.open,
        last: given.last,
        launched: given.launched.unwrap_or(0),
        voided: given.voided.unwrap_or(0),
        ..JobRow::fresh(0)
    })
}

// How many rows of jobs there are.
fn rows_of(word: &str) -> Result<u32, PlayFault> {
    match number_of(word) {
        Some(rows) if rows <= PACKETS => Ok(rows as u32),
        _ => Err(PlayFault::BadRows),
    }
}

// Appends a snapshot at a slot, and behind it so many rows of jobs and the table's own, as `snapshot 70 1`. The rows of jobs are
// fresh, or all have the parts that follow, as in `snapshot 70 1, launched 3`; the table's own is fresh.
fn put_snapshot(from: u8, words: &str, bytes: &mut Vec<u8>) -> Result<(), PlayFault> {
    let (slot, rest) = split(words)?;
    let slot = slot_of(slot)?;
    let (rows, row) = match rest.split_once(", ") {
        Some((rows, parts)) => (rows_of(rows)?, row_of(parts)?),
        None => (rows_of(rest)?, JobRow::fresh(0)),
    };
    let count = u64::from(rows) + 1;
    put_packet(from, Packet::Snap { slot, count }, bytes)?;
    for job in 0..rows {
        let row = JobRow { job, ..row };
        put_packet(from, Packet::SnapRow { slot, row }, bytes)?;
    }
    let row = JobRow::fresh(rows);
    put_packet(from, Packet::SnapRow { slot, row }, bytes)
}

// Appends what the words of a packet say.
fn put_words(from: u8, words: &str, bytes: &mut Vec<u8>) -> Result<(), PlayFault> {
    let (name, rest) = split(words)?;
    match name {
        "known" => put_known(from, rest, bytes),
        "snapshot" => put_snapshot(from, rest, bytes),
        "ask" => {
            let slot = slot_of(rest)?;
            put_packet(from, Packet::AskFrom { slot }, bytes)
        }
        _ => put_packet(from, packet_of(name, rest)?, bytes),
    }
}

/// The bytes of a letter from a replica, by the words of its packets with `; ` between them.
pub fn letter_bytes(alloc: Global, from: u8, packets: &str) -> Result<Vec<u8>, PlayFault> {
    let mut bytes = Vec::new(alloc);
    for words in packets.split("; ") {
        put_words(from, words, &mut bytes)?;
    }
    Ok(bytes)
}
