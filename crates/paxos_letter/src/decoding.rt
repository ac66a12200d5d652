ghost use Rattle.std.specs.Prelude.{◌≡◌, true};
ghost use Rattle.paxos_base.specs.Ballot.{IsBallot};
ghost use Rattle.paxos_base.specs.EntryFields.{entry_numbers, numbers_of};
ghost use Rattle.paxos_letter.specs.declared.packet.Packet.TheVariants.{SnapRow};
ghost use Rattle.paxos_letter.specs.Rules.{has_entry, has_ballot, keeps_kind, keeps_zeros, keeps_members};
ghost use Rattle.paxos_letter.specs.Spelling.{fields_of};

use crate::fields::FieldsAt;
use crate::kinds::{
    ACCEPT, ACCEPTED, ASK_FROM, KNOWN, LEAD, NACK, OLD_VOTE, PREPARE, PROMISE, SNAP, SNAP_ROW,
};
use crate::packet::Packet;
use paxos_base::{Ballot, Entry, JobRow, entry_of};

// The ballot that has the number.
fn ballot_of(number: u64) -> Ballot
    requires { IsBallot number }
    ensures { result ≡ number }
{
    match Ballot::from_number(number) {
        Some(ballot) => ballot,
        None => unreachable!(),
    }
}

// The entry of a packet that has one.
fn entry_in(fields: &FieldsAt<'_>) -> Entry
    requires kind { has_entry fields.now ≡ true }
    requires tag { keeps_kind fields.now ≡ true }
    requires zeros { keeps_zeros fields.now ≡ true }
    ensures { numbers_of result ≡ entry_numbers fields.now.tag fields.now.job fields.now.at fields.now.moment }
{
    match entry_of(fields.tag(), fields.job(), fields.at(), fields.moment()) {
        Ok(entry) => entry,
        Err(_) => unreachable!(),
    }
}

// The row of a packet that has one.
fn row_in(fields: &FieldsAt<'_>) -> JobRow
    requires kind { fields.now.kind ≡ SNAP_ROW }
    requires row { keeps_kind fields.now ≡ true }
    requires zeros { keeps_zeros fields.now ≡ true }
    ensures { fields_of fields.now.from (SnapRow fields.now.slot result) ≡ fields.now }
{
    JobRow {
        job: fields.job(),
        cursor: fields.has_cursor().then_some(fields.at()),
        open_now: fields.is_open().then_some(fields.moment()),
        last: fields.has_last().then_some(fields.last()),
        launched: fields.ballot() as u32,
        voided: fields.old() as u32,
    }
}

// The packet of these fields, of a kind with a ballot.
fn packet_in_ballot(fields: &FieldsAt<'_>) -> Packet
    requires ballot { has_ballot fields.now ≡ true }
    requires kind { keeps_kind fields.now ≡ true }
    requires zeros { keeps_zeros fields.now ≡ true }
    requires members { keeps_members 7 fields.now.from fields.now ≡ true }
    ensures { fields_of fields.now.from result ≡ fields.now }
{
    let ballot = ballot_of(fields.ballot());
    let slot = fields.slot();
    match fields.kind() {
        PREPARE => Packet::Prepare { ballot, slot },
        PROMISE => Packet::Promise {
            ballot,
            slot,
            count: fields.old(),
        },
        OLD_VOTE => Packet::OldVote {
            ballot,
            slot,
            cast: ballot_of(fields.old()),
            entry: entry_in(fields),
        },
        ACCEPT => Packet::Accept {
            ballot,
            slot,
            entry: entry_in(fields),
        },
        ACCEPTED => Packet::Accepted { ballot, slot },
        NACK => Packet::Nack {
            ballot,
            promised: ballot_of(fields.old()),
        },
        LEAD => Packet::Lead { ballot, slot },
        _ => unreachable!(),
    }
}

// The packet of these fields, which keep each rule of a packet by itself.
pub(crate) fn packet_of(fields: &FieldsAt<'_>) -> Packet
    requires kind { keeps_kind fields.now ≡ true }
    requires zeros { keeps_zeros fields.now ≡ true }
    requires members { keeps_members 7 fields.now.from fields.now ≡ true }
    ensures { fields_of fields.now.from result ≡ fields.now }
{
    let slot = fields.slot();
    match fields.kind() {
        KNOWN => Packet::Known {
            slot,
            entry: entry_in(fields),
        },
        ASK_FROM => Packet::AskFrom { slot },
        SNAP => Packet::Snap {
            slot,
            count: fields.old(),
        },
        SNAP_ROW => Packet::SnapRow {
            slot,
            row: row_in(fields),
        },
        _ => packet_in_ballot(fields),
    }
}
