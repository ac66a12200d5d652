ghost use Rattle.std.specs.Prelude.{◌≡◌};
ghost use Rattle.paxos_letter.specs.Fields.{fields_in, bytes_of};

use paxos_base::layout::{
    AT, BALLOT, FROM, JOB, KIND, LAST, NOW, OLD, PACKET_BYTES, SLOT, TAG, ZERO, minute_at,
    put_bytes, put_minute, u32_at, u64_at,
};
use std::marker::Model;

/// The numbers in the fields of a packet.
#[derive(Clone, Copy)]
pub(crate) struct Fields {
    pub(crate) kind: u8,
    pub(crate) from: u8,
    pub(crate) tag: u8,
    pub(crate) zero: u8,
    pub(crate) job: u32,
    pub(crate) ballot: u64,
    pub(crate) slot: u64,
    pub(crate) old: u64,
    pub(crate) at: i64,
    // The field now, a word that contracts use otherwise.
    pub(crate) moment: i64,
    pub(crate) last: i64,
}

// The fields of a packet, each decoded where it lies as it is asked for, since a packet uses few of them.
#[derive(Drop)]
pub(crate) struct FieldsAt<'a> {
    packet: &'a [u8; PACKET_BYTES],
}

impl<'a> Model for FieldsAt<'a> {
    ghost use Rattle.paxos_letter.specs.declared.fields.Fields.{Fields};

    ghost Value = { Fields };

    ghost use Rattle.paxos_letter.specs.Fields.{fields_in};

    ghost view = { λ fields. fields_in fields.packet.now };
}

// The fields of a packet.
pub(crate) fn fields_at(packet: &[u8; PACKET_BYTES]) -> FieldsAt<'_>
    ensures { result ≡ fields_in packet.now }
{
    FieldsAt { packet }
}

impl<'a> FieldsAt<'a> {
    pub(crate) fn kind(&self) -> u8
        ensures { result ≡ self.now.kind }
    {
        self.packet[KIND]
    }

    pub(crate) fn from(&self) -> u8
        ensures { result ≡ self.now.from }
    {
        self.packet[FROM]
    }

    pub(crate) fn tag(&self) -> u8
        ensures { result ≡ self.now.tag }
    {
        self.packet[TAG]
    }

    pub(crate) fn zero(&self) -> u8
        ensures { result ≡ self.now.zero }
    {
        self.packet[ZERO]
    }

    pub(crate) fn job(&self) -> u32
        ensures { result ≡ self.now.job }
    {
        u32_at(self.packet, JOB)
    }

    pub(crate) fn ballot(&self) -> u64
        ensures { result ≡ self.now.ballot }
    {
        u64_at(self.packet, BALLOT)
    }

    pub(crate) fn slot(&self) -> u64
        ensures { result ≡ self.now.slot }
    {
        u64_at(self.packet, SLOT)
    }

    pub(crate) fn old(&self) -> u64
        ensures { result ≡ self.now.old }
    {
        u64_at(self.packet, OLD)
    }

    pub(crate) fn at(&self) -> i64
        ensures { result ≡ self.now.at }
    {
        minute_at(self.packet, AT)
    }

    pub(crate) fn moment(&self) -> i64
        ensures { result ≡ self.now.moment }
    {
        minute_at(self.packet, NOW)
    }

    pub(crate) fn last(&self) -> i64
        ensures { result ≡ self.now.last }
    {
        minute_at(self.packet, LAST)
    }
}

// The packet with these fields.
pub(crate) fn bytes_of(fields: &Fields) -> [u8; PACKET_BYTES]
    ensures { result ≡ bytes_of fields.now }
{
    let mut packet = [0; PACKET_BYTES];
    put_bytes(
        &mut packet,
        KIND,
        &[fields.kind, fields.from, fields.tag, fields.zero],
    );
    put_bytes(&mut packet, JOB, &fields.job.to_be_bytes());
    put_bytes(&mut packet, BALLOT, &fields.ballot.to_be_bytes());
    put_bytes(&mut packet, SLOT, &fields.slot.to_be_bytes());
    put_bytes(&mut packet, OLD, &fields.old.to_be_bytes());
    put_minute(&mut packet, AT, fields.at);
    put_minute(&mut packet, NOW, fields.moment);
    put_minute(&mut packet, LAST, fields.last);
    packet
}
