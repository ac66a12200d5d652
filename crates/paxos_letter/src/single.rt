//! A packet by itself, outside a letter: whoever keeps packets elsewhere, as a disk's records, reads and writes them here.
ghost use Rattle.std.specs.Prelude.{◌≡◌, ◌≤◌, Some, IfSome};
ghost use Rattle.paxos_letter.specs.declared.packet.Packet.{Packet};
ghost use Rattle.paxos_letter.specs.Fields.{FitPacketFields};
ghost use Rattle.paxos_letter.specs.Letters.{SpellsPacket};
ghost use Rattle.paxos_letter.specs.Spelling.{fields_of, packet_bytes};

use crate::decoding::packet_of;
use crate::encoding::fields_of;
use crate::fields::{bytes_of, fields_at};
use crate::packet::Packet;
use paxos_base::PACKET_BYTES;

/// The bytes of a replica's packet.
#[inline(always)]
pub fn packet_bytes(from: u8, packet: &Packet) -> [u8; PACKET_BYTES]
    ensures spelled { result ≡ packet_bytes from packet.now }
    ensures fits { FitPacketFields (fields_of from packet.now) }
{
    bytes_of(&fields_of(from, packet))
}

/// The packet of a sender, one of that many replicas, that is spelled so: None exactly where the bytes are of another
/// sender or break a rule that a packet keeps by itself.
#[inline(always)]
pub fn packet_in(bytes: &[u8; PACKET_BYTES], members: u8, sender: u8) -> Option<Packet>
    requires few { members ≤ 7 }
    ensures found { IfSome result (λ packet. SpellsPacket members sender packet bytes.now) }
    ensures only { (packet : Packet) → SpellsPacket members sender packet bytes.now → result ≡ Some packet }
{
    let fields = fields_at(bytes);
    if fields.keeps_kind() && fields.keeps_zeros() && fields.keeps_members(members, sender) {
        Some(packet_of(&fields))
    } else {
        None
    }
}
