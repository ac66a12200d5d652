//! A record by itself: its kind, and its 56 bytes.
ghost use Rattle.std.specs.Prelude.{◌≡◌, Some, IfSome};
ghost use Rattle.paxos_letter.specs.Spelling.{fields_of};
ghost use Rattle.store_format.specs.declared.body.Record.{Record};
ghost use Rattle.store_format.specs.Records.{record_kind, record_packet, record_bytes, IsRecord, RowHasCursor};

use paxos_base::layout::{KIND, PACKET_BYTES};
use paxos_base::{Ballot, JobRow, Vote};
use paxos_letter::{Packet, packet_bytes, packet_in};

// The kinds of records by their numbers.
const TRIED: u8 = 1;

const PROMISED: u8 = 2;

const VOTED: u8 = 3;

const BASE: u8 = 4;

const ROW: u8 = 5;

// The kinds of the packets that have their fields.
const PREPARE: u8 = 1;

const ACCEPT: u8 = 4;

const SNAP: u8 = 9;

const SNAP_ROW: u8 = 10;

// A packet's ballots are those of seven replicas, and the packet of a record is from the first.
const MEMBERS: u8 = 7;

const FROM: u8 = 0;

/// A record of a disk area.
#[derive(Clone, Copy, Debug, PartialEq, Eq)]
pub enum Record {
    /// The replica took up a ballot of its own, which it also promises.
    Tried(Ballot),
    /// The replica promised to take no part in lower ballots.
    Promised(Ballot),
    /// The replica cast a vote, and promises the vote's ballot.
    Voted(Vote),
    /// The entries of the slots below this one are in rows, of which as many follow directly as the count says.
    Base { slot: u64, count: u64 },
    /// One of a base's rows.
    Row { slot: u64, row: JobRow },
}

impl Record {
    fn kind(&self) -> u8
        ensures { result ≡ record_kind self.now }
    {
        match self {
            Record::Tried(_) => TRIED,
            Record::Promised(_) => PROMISED,
            Record::Voted(_) => VOTED,
            Record::Base { .. } => BASE,
            Record::Row { .. } => ROW,
        }
    }

    fn packet(&self) -> Packet
        ensures { result ≡ record_packet self.now }
    {
        match *self {
            Record::Tried(ballot) | Record::Promised(ballot) => Packet::Prepare { ballot, slot: 0 },
            Record::Voted(vote) => Packet::Accept {
                ballot: vote.ballot,
                slot: vote.slot,
                entry: vote.entry,
            },
            Record::Base { slot, count } => Packet::Snap { slot, count },
            Record::Row { slot, row } => Packet::SnapRow { slot, row },
        }
    }
}

/// The bytes of a record.
pub fn record_bytes(item: &Record) -> [u8; PACKET_BYTES]
    ensures spelled { result ≡ record_bytes item.now }
    ensures is_record { RowHasCursor item.now → IsRecord result item.now }
{
    let mut bytes = packet_bytes(FROM, &item.packet());
    bytes[KIND] = item.kind();
    bytes
}

// The kind of the packet that has the fields of a record of this kind.
fn packet_kind(kind: u8) -> Option<u8>
    ensures { (item : Record) → record_kind item ≡ kind → result ≡ Some (fields_of 0 (record_packet item)).kind }
{
    match kind {
        TRIED | PROMISED => Some(PREPARE),
        VOTED => Some(ACCEPT),
        BASE => Some(SNAP),
        ROW => Some(SNAP_ROW),
        _ => None,
    }
}

// The record of a kind that has the fields of a packet.
fn record_of(kind: u8, packet: &Packet) -> Option<Record>
    ensures kind { IfSome result (λ item. record_kind item ≡ kind) }
    ensures packet { IfSome result (λ item. record_packet item ≡ packet.now) }
    ensures only { (item : Record) → record_kind item ≡ kind → record_packet item ≡ packet.now → result ≡ Some item }
{
    match *packet {
        Packet::Prepare { ballot, slot: 0 } if kind == TRIED => Some(Record::Tried(ballot)),
        Packet::Prepare { ballot, slot: 0 } if kind == PROMISED => Some(Record::Promised(ballot)),
        Packet::Accept {
            ballot,
            slot,
            entry,
        } if kind == VOTED => Some(Record::Voted(Vote {
            slot,
            ballot,
            entry,
        })),
        Packet::Snap { slot, count } if kind == BASE => Some(Record::Base { slot, count }),
        Packet::SnapRow { slot, row } if kind == ROW => Some(Record::Row { slot, row }),
        _ => None,
    }
}

/// The record that has these bytes: None exactly where no record has them.
#[inline(always)]
pub fn record_in(bytes: &[u8; PACKET_BYTES]) -> Option<Record>
    ensures found { IfSome result (λ item. IsRecord bytes.now item) }
    ensures only { (item : Record) → IsRecord bytes.now item → result ≡ Some item }
{
    let kind = bytes[KIND];
    let mut packet = *bytes;
    packet[KIND] = packet_kind(kind)?;
    record_of(kind, &packet_in(&packet, MEMBERS, FROM)?)
}
