ghost use Rattle.std.specs.Prelude.{true, ◌≡◌, ◌<◌, ◌==◌};
ghost use Rattle.std.specs.Int.{bit_at};
ghost use Rattle.std.specs.List.{list_all};
ghost use Rattle.paxos_letter.specs.Rules.{has_entry, has_row, has_cursor, is_open, has_last, keeps_row, keeps_kind, keeps_zero, keeps_zeros, has_ballot, has_old_ballot, keeps_members, uses, number_fields, other_fields};
ghost use Rattle.paxos_base.specs.Packet.{BallotField, OldField};

use crate::fields::FieldsAt;
use crate::kinds::{
    ACCEPT, ASK_FROM, KNOWN, LEAD, NACK, OLD_VOTE, PREPARE, PROMISE, SNAP, SNAP_ROW,
};
use paxos_base::Ballot;

// What the bits of a row's tag say.
const CURSOR_BIT: u8 = 0;

const OPEN_BIT: u8 = 1;

const LAST_BIT: u8 = 2;

fn has_bit(tag: u8, bit: u8) -> bool
    requires { bit < 8 }
    ensures { result ≡ (bit_at tag bit == 1) }
{
    tag >> bit & 1 == 1
}

impl<'a> FieldsAt<'a> {
    pub(crate) fn has_entry(&self) -> bool
        ensures { result ≡ has_entry self.now }
    {
        matches!(self.kind(), OLD_VOTE | ACCEPT | KNOWN)
    }

    pub(crate) fn has_row(&self) -> bool
        ensures { result ≡ has_row self.now }
    {
        self.kind() == SNAP_ROW
    }

    pub(crate) fn has_cursor(&self) -> bool
        ensures { result ≡ has_cursor self.now }
    {
        has_bit(self.tag(), CURSOR_BIT)
    }

    pub(crate) fn is_open(&self) -> bool
        ensures { result ≡ is_open self.now }
    {
        has_bit(self.tag(), OPEN_BIT)
    }

    pub(crate) fn has_last(&self) -> bool
        ensures { result ≡ has_last self.now }
    {
        has_bit(self.tag(), LAST_BIT)
    }

    // An open job has a cursor, and counts have 32 bits.
    fn keeps_row(&self) -> bool
        ensures { result ≡ keeps_row self.now }
    {
        self.tag() < 8
            && (!self.is_open() || self.has_cursor())
            && self.ballot() <= u64::from(u32::MAX)
            && self.old() <= u64::from(u32::MAX)
    }

    // The kind is known, and so are the tag and the counts.
    pub(crate) fn keeps_kind(&self) -> bool
        ensures { result ≡ keeps_kind self.now }
    {
        (PREPARE..=LEAD).contains(&self.kind())
            && (!self.has_entry() || self.tag() <= 4)
            && (!self.has_row() || self.keeps_row())
    }

    fn uses_ballot(&self) -> bool
        ensures { result ≡ uses self.now BallotField }
    {
        !matches!(self.kind(), KNOWN | ASK_FROM | SNAP)
    }

    fn uses_old(&self) -> bool
        ensures { result ≡ uses self.now OldField }
    {
        matches!(self.kind(), PROMISE | OLD_VOTE | NACK | SNAP | SNAP_ROW)
    }

    // Of the ballots, the slot and the counts, those are 0 that the packet has no use for.
    fn keeps_number_zeros(&self) -> bool
        ensures { result ≡ list_all (keeps_zero self.now) number_fields }
    {
        (self.uses_ballot() || self.ballot() == 0)
            && (self.kind() != NACK || self.slot() == 0)
            && (self.uses_old() || self.old() == 0)
    }

    // Of an entry's fields, those are 0 that it has no use for.
    fn keeps_entry_zeros(&self) -> bool
        requires { has_entry self.now ≡ true }
        ensures { result ≡ list_all (keeps_zero self.now) other_fields }
    {
        self.last() == 0
            && match self.tag() {
                0 => self.job() == 0 && self.at() == 0 && self.moment() == 0,
                1 => true,
                4 => self.at() == 0,
                _ => self.moment() == 0,
            }
    }

    // Of the other fields, those are 0 that the packet's entry or row has no use for.
    #[inline(always)]
    fn keeps_other_zeros(&self) -> bool
        ensures { result ≡ list_all (keeps_zero self.now) other_fields }
    {
        if self.has_entry() {
            self.keeps_entry_zeros()
        } else if self.has_row() {
            (self.has_cursor() || self.at() == 0)
                && (self.is_open() || self.moment() == 0)
                && (self.has_last() || self.last() == 0)
        } else {
            self.tag() == 0
                && self.job() == 0
                && self.at() == 0
                && self.moment() == 0
                && self.last() == 0
        }
    }

    // Each field is 0 that a packet of its kind, with its tag, has no use for.
    #[inline(always)]
    pub(crate) fn keeps_zeros(&self) -> bool
        ensures { result ≡ keeps_zeros self.now }
    {
        self.zero() == 0 && self.keeps_number_zeros() && self.keeps_other_zeros()
    }

    fn has_ballot(&self) -> bool
        ensures { result ≡ has_ballot self.now }
    {
        self.uses_ballot() && !self.has_row()
    }

    fn has_old_ballot(&self) -> bool
        ensures { result ≡ has_old_ballot self.now }
    {
        matches!(self.kind(), OLD_VOTE | NACK)
    }

    // The packet is of the letter's sender, and that and the ballots are of the members.
    pub(crate) fn keeps_members(&self, members: u8, sender: u8) -> bool
        ensures { result ≡ keeps_members members sender self.now }
    {
        self.from() < members
            && self.from() == sender
            && (!self.has_ballot() || Ballot::is_number_of(members, self.ballot()))
            && (!self.has_old_ballot() || Ballot::is_number_of(members, self.old()))
    }
}
