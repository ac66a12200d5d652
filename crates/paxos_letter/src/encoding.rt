ghost use Rattle.std.specs.Prelude.{◌≡◌};
ghost use Rattle.paxos_base.specs.EntryFields.{numbers_of};
ghost use Rattle.paxos_letter.specs.declared.packet.Packet.TheVariants.{SnapRow};
ghost use Rattle.paxos_letter.specs.Fields.{blank};
ghost use Rattle.paxos_letter.specs.Spelling.{fields_of, with_entry, row_tag};

use crate::fields::Fields;
use crate::kinds::{
    ACCEPT, ACCEPTED, ASK_FROM, KNOWN, LEAD, NACK, OLD_VOTE, PREPARE, PROMISE, SNAP, SNAP_ROW,
};
use crate::packet::Packet;
use paxos_base::{Ballot, Entry, JobRow, numbers_of};

fn blank(kind: u8, from: u8) -> Fields
    ensures { result ≡ blank kind from }
{
    Fields {
        kind,
        from,
        tag: 0,
        zero: 0,
        job: 0,
        ballot: 0,
        slot: 0,
        old: 0,
        at: 0,
        moment: 0,
        last: 0,
    }
}

fn with_count(kind: u8, from: u8, slot: u64, count: u64) -> Fields
    ensures { result ≡ record (blank kind from) { slot = slot; old = count } }
{
    Fields {
        slot,
        old: count,
        ..blank(kind, from)
    }
}

fn with_ballot(kind: u8, from: u8, ballot: Ballot, slot: u64) -> Fields
    ensures { result ≡ record (blank kind from) { ballot = ballot; slot = slot } }
{
    Fields {
        ballot: ballot.number(),
        slot,
        ..blank(kind, from)
    }
}

fn with_entry(kind: u8, from: u8, slot: u64, entry: Entry) -> Fields
    ensures { result ≡ record (with_entry kind from (numbers_of entry)) { slot = slot } }
{
    let (tag, job, at, now) = numbers_of(entry);
    Fields {
        tag,
        job,
        slot,
        at,
        moment: now,
        ..blank(kind, from)
    }
}

fn with_vote(kind: u8, from: u8, ballot: Ballot, slot: u64, entry: Entry) -> Fields
    ensures { result ≡ record (with_entry kind from (numbers_of entry)) { ballot = ballot; slot = slot } }
{
    Fields {
        ballot: ballot.number(),
        ..with_entry(kind, from, slot, entry)
    }
}

fn row_tag(row: &JobRow) -> u8
    ensures { result ≡ row_tag row.now }
{
    let cursor = if row.cursor.is_some() { 1 } else { 0 };
    let open = if row.open_now.is_some() { 2 } else { 0 };
    let last = if row.last.is_some() { 4 } else { 0 };
    cursor + open + last
}

fn with_row(from: u8, slot: u64, row: &JobRow) -> Fields
    ensures { result ≡ fields_of from (SnapRow slot row.now) }
{
    Fields {
        tag: row_tag(row),
        job: row.job,
        ballot: u64::from(row.launched),
        slot,
        old: u64::from(row.voided),
        at: row.cursor.unwrap_or(0),
        moment: row.open_now.unwrap_or(0),
        last: row.last.unwrap_or(0),
        ..blank(SNAP_ROW, from)
    }
}

// The fields of a replica's packet.
pub(crate) fn fields_of(from: u8, packet: &Packet) -> Fields
    ensures { result ≡ fields_of from packet.now }
{
    match *packet {
        Packet::Prepare { ballot, slot } => with_ballot(PREPARE, from, ballot, slot),
        Packet::Promise {
            ballot,
            slot,
            count,
        } => Fields {
            old: count,
            ..with_ballot(PROMISE, from, ballot, slot)
        },
        Packet::OldVote {
            ballot,
            slot,
            cast,
            entry,
        } => Fields {
            old: cast.number(),
            ..with_vote(OLD_VOTE, from, ballot, slot, entry)
        },
        Packet::Accept {
            ballot,
            slot,
            entry,
        } => with_vote(ACCEPT, from, ballot, slot, entry),
        Packet::Accepted { ballot, slot } => with_ballot(ACCEPTED, from, ballot, slot),
        Packet::Nack { ballot, promised } => Fields {
            old: promised.number(),
            ..with_ballot(NACK, from, ballot, 0)
        },
        Packet::Known { slot, entry } => with_entry(KNOWN, from, slot, entry),
        Packet::AskFrom { slot } => with_count(ASK_FROM, from, slot, 0),
        Packet::Snap { slot, count } => with_count(SNAP, from, slot, count),
        Packet::SnapRow { slot, row } => with_row(from, slot, &row),
        Packet::Lead { ballot, slot } => with_ballot(LEAD, from, ballot, slot),
    }
}
