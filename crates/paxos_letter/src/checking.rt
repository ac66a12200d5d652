ghost use Rattle.std.specs.Prelude.{◌≡◌, map, Some, None, IfOk, IfErr};
ghost use Rattle.paxos_letter.specs.Fields.{fields_in};
ghost use Rattle.paxos_letter.specs.Groups.{no_group, after};
ghost use Rattle.paxos_letter.specs.Letters.{fault_at, fault_from};

use crate::fault::LetterFault;
use crate::fields::{FieldsAt, fields_at};
use crate::group::Group;
use paxos_base::layout::PACKET_BYTES;

// What is owed after the packet of a number, or the first rule that it breaks.
fn group_after(
    members: u8,
    sender: u8,
    group: &Group,
    number: u64,
    fields: &FieldsAt<'_>,
) -> Result<Group, LetterFault>
    ensures ok { IfOk result (λ next.
        (fault_at members sender group.now number fields.now ≡ None) × (next ≡ after group.now fields.now)) }
    ensures err { IfErr result (λ fault. fault_at members sender group.now number fields.now ≡ Some fault) }
{
    if !fields.keeps_kind() {
        Err(LetterFault::BadKind { packet: number })
    } else if !fields.keeps_zeros() {
        Err(LetterFault::NotZero { packet: number })
    } else if !fields.keeps_members(members, sender) {
        Err(LetterFault::BadMember { packet: number })
    } else {
        match group.after(fields) {
            Some(next) => Ok(next),
            None => Err(LetterFault::BadGroup { packet: number }),
        }
    }
}

// The first rule that packets break.
pub(crate) fn first_fault(
    members: u8,
    sender: u8,
    packets: &[[u8; PACKET_BYTES]],
) -> Option<LetterFault>
    ensures { result ≡ fault_from members sender no_group 0 (map fields_in packets.now) }
{
    let mut group = Group::none();
    let mut number = 0;
    for packet in packets {
        match group_after(members, sender, &group, number, &fields_at(packet)) {
            Ok(next) => group = next,
            Err(fault) => return Some(fault),
        }
        number += 1;
    }
    if group.is_filled() {
        None
    } else {
        Some(LetterFault::BadGroup { packet: number })
    }
}
