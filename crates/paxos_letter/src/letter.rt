//! A letter that is read in the bytes that it came in: it is checked once, and its packets are decoded as they are
//! asked for.
ghost use Rattle.std.specs.Prelude.{◌≡◌, ◌≤◌, ◌↔◌, ℕ, List, length, Some, Ok, Err, IfOk};
ghost use Rattle.std.specs.Iterator.{YieldsFirst, item_count};
ghost use Rattle.paxos_letter.specs.declared.fault.LetterFault.{LetterFault};
ghost use Rattle.paxos_letter.specs.declared.packet.Packet.{Packet};
ghost use Rattle.paxos_letter.specs.Letters.{Spells, letter_fault_of};

use crate::checking::first_fault;
use crate::decoding::packet_of;
use crate::fault::LetterFault;
use crate::fields::fields_at;
use crate::packet::Packet;
use paxos_base::layout::{FROM, PACKET_BYTES};
use std::marker::Model;

/// A letter in the bytes that it came in. Contracts see the replica that it is from, and the list of its packets.
#[derive(Debug, Drop)]
pub struct Letter<'a> {
    from: u8,
    packets: &'a [[u8; PACKET_BYTES]],
}

impl<'a> Model for Letter<'a> {
    ghost use Rattle.paxos_letter.specs.Decoding.{LetterContents};

    ghost Value = { LetterContents };

    ghost use Rattle.paxos_letter.specs.Decoding.{packets_in, AllKeepRules};

    ghost view = { λ letter. record { from = letter.from; packets = packets_in letter.packets.now } };

    ghost invariant = { λ letter. AllKeepRules letter.packets.now };
}

impl<'a> Letter<'a> {
    /// Reads a letter to one of that many replicas, which are at most 7.
    ///
    /// # Errors
    ///
    /// The first rule that the bytes break.
    pub fn read(bytes: &'a [u8], members: u8) -> Result<Letter<'a>, LetterFault>
        requires few { members ≤ 7 }

        // What is read is a letter, and is spelled so.
        ensures found { IfOk result (λ letter. Spells members letter.from letter.packets bytes.now) }
        // A letter that is spelled so is read.
        ensures only { (from : ℕ) (packets : List Packet)
            → Spells members from packets bytes.now → result ≡ Ok (record { from = from; packets = packets }) }

        // A fault is answered exactly where there is one, and is the first.
        ensures fault { (fault : LetterFault) → (result ≡ Err fault) ↔ (letter_fault_of members bytes.now ≡ Some fault) }
    {
        if bytes.is_empty() || bytes.len() % PACKET_BYTES != 0 {
            return Err(LetterFault::BadLength { packet: 0 });
        }
        let from = bytes[FROM];
        let (packets, _) = bytes.as_chunks::<PACKET_BYTES>();
        match first_fault(members, from, packets) {
            Some(fault) => Err(fault),
            None => Ok(Letter { from, packets }),
        }
    }

    /// The replica that the letter is from.
    pub fn from(&self) -> u8
        ensures { result ≡ self.now.from }
    {
        self.from
    }

    /// How many packets the letter has.
    pub fn count(&self) -> usize
        ensures { result ≡ length self.now.packets }
    {
        self.packets.len()
    }

    /// The packets in their order.
    pub fn packets(&self) -> Packets<'a>
        ensures { result ≡ self.now.packets }
    {
        Packets { rest: self.packets }
    }
}

/// The packets of a letter that are still to come. Contracts see their list.
#[derive(Debug, Drop)]
pub struct Packets<'a> {
    rest: &'a [[u8; PACKET_BYTES]],
}

impl<'a> Model for Packets<'a> {
    ghost use Rattle.std.specs.Prelude.{List};
    ghost use Rattle.paxos_letter.specs.declared.packet.Packet.{Packet};

    ghost Value = { List Packet };

    ghost use Rattle.paxos_letter.specs.Decoding.{packets_in, AllKeepRules};

    ghost view = { λ packets. packets_in packets.rest.now };

    ghost invariant = { λ packets. AllKeepRules packets.rest.now };
}

impl<'a> Packets<'a> {
    /// The same packets again, for who looks ahead.
    pub fn copy(&self) -> Packets<'a>
        ensures { result ≡ self.now }
    {
        Packets { rest: self.rest }
    }
}

impl<'a> Iterator for Packets<'a> {
    type Item = Packet;

    ghost next_gives = { YieldsFirst (λ rest. rest) };

    ghost remaining = { item_count (λ rest. rest) };

    fn next(&mut self) -> Option<Packet> {
        let (packet, rest) = self.rest.split_first()?;
        self.rest = rest;
        Some(packet_of(&fields_at(packet)))
    }
}
