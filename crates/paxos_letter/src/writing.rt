ghost use Rattle.std.specs.Prelude.{◌≡◌, ◌+◌, ◌*◌, ◌<◌, ◌++◌, length, take, vec_len, vec_capacity, OnOk, OnErr};
ghost use Rattle.paxos_letter.specs.Letters.{IsLetter};
ghost use Rattle.paxos_letter.specs.Spelling.{spelling, AllFit};

use crate::encoding::fields_of;
use crate::fields::bytes_of;
use crate::packet::Packet;
use cron_io::OutOfMemory;
use paxos_base::PACKET_BYTES;
use std::alloc::AllocError;

// Want of memory leaves some of the packets' bytes.
fn put_packets(from: u8, packets: &[Packet], into: &mut Vec<u8>) -> Result<(), AllocError>
    ensures ok { OnOk result (into.new.items ≡ into.old.items ++ spelling from packets.now) }
    ensures kept { take (length into.old.items) into.new.items ≡ into.old.items }
    ensures fits { OnOk result (AllFit from packets.now) }
    ensures full { OnErr result (vec_capacity into.old < vec_len into.old + PACKET_BYTES * length packets.now) }
{
    for packet in packets {
        into.extend_from_slice(&bytes_of(&fields_of(from, packet)))?;
    }
    Ok(())
}

/// Appends the letter of a replica with these packets, which are one by the rules for seven members.
///
/// # Errors
///
/// Want of memory, which can only be where there is no room, leaves the bytes as they were.
pub fn write_letter(from: u8, packets: &[Packet], into: &mut Vec<u8>) -> Result<(), OutOfMemory>
    requires letter { IsLetter 7 from packets.now }
    ensures ok { OnOk result (into.new.items ≡ into.old.items ++ spelling from packets.now) }
    ensures err { OnErr result (into.new.items ≡ into.old.items) }
    ensures full { OnErr result (vec_capacity into.old < vec_len into.old + PACKET_BYTES * length packets.now) }
    ensures fits { OnOk result (AllFit from packets.now) }
{
    let before = into.len();
    match put_packets(from, packets, into) {
        Ok(()) => Ok(()),
        Err(_) => {
            into.truncate(before);
            Err(OutOfMemory)
        }
    }
}
