//! Packets and letters, read and written.
ghost use Rattle.std.specs.Prelude.{◌≡◌, IfOk};

use crate::fault_rows::{Changed, REFUSED, SPANS, STRANGE};
use crate::letter_rows::{ACCEPT, BYTES, Bytes, LETTERS, OLD_VOTE, PREPARE, PROMISE, VECTORS};
use paxos_base::PACKET_BYTES;
use paxos_letter::{Letter, LetterFault, Packet, packet_bytes, packet_in, write_letter};
use std::alloc::{AllocError, Global};
use std::test::*;

#[test]
fn packets_have_their_bytes(rt: HostRuntime) -> Result<(), Fail> {
    for row in VECTORS {
        let packet = packet_in(row.bytes, 3, row.from).ok_or(row.text)?;
        let text = format!(in rt.alloc(); "{packet:?}")?;
        assert_eq!(rt; text.as_str(), row.text);
        let bytes = packet_bytes(row.from, &packet);
        assert_eq!(rt; bytes.as_slice(), row.bytes.as_slice());
    }
    Ok(())
}

// The packet with another byte at a place.
fn with_byte(packet: Bytes, place: usize, byte: u8) -> Bytes {
    let mut changed = packet;
    if let Some(old) = changed.get_mut(place) {
        *old = byte;
    }
    changed
}

fn change(changed: &Changed) -> Bytes {
    with_byte(*changed.bytes, changed.place, changed.byte)
}

#[test]
fn packets_of_others_are_none(rt: HostRuntime) {
    for row in STRANGE {
        let packet = row.packet;
        let found = packet_in(&change(&packet), 3, row.sender);
        assert!(rt; found.is_none(), "{packet:?}");
    }
}

// The first packet of a letter to three replicas, or the fault.
fn first_packet(bytes: &[u8]) -> Result<Packet, LetterFault> {
    let letter = Letter::read(bytes, 3)?;
    letter
        .packets()
        .next()
        .ok_or(LetterFault::BadLength { packet: 0 })
}

#[test]
fn each_byte_has_its_field(rt: HostRuntime) -> Result<(), Fail> {
    for row in BYTES {
        let bytes = with_byte(*ACCEPT, row.place, 255);
        let found = first_packet(&bytes);
        let text = format!(in rt.alloc(); "{found:?}")?;
        assert_eq!(rt; text.as_str(), row.text);
    }
    Ok(())
}

#[test]
fn a_letter_with_any_byte_at_fault(rt: HostRuntime) {
    for span in SPANS {
        for place in span.first..span.until {
            let bytes = with_byte(*ACCEPT, place, 255);
            let fault = Letter::read(&bytes, 3).err();
            assert!(rt; fault == span.fault, "{place}");
        }
    }
}

// The fault of a letter to three replicas.
fn fault_of(alloc: Global, packets: &[Changed]) -> Result<Option<LetterFault>, AllocError> {
    let mut bytes = Vec::new(alloc);
    for packet in packets {
        bytes.extend_from_slice(&change(packet))?;
    }
    Ok(Letter::read(&bytes, 3).err())
}

#[test]
fn letters_that_break_a_rule_are_refused(rt: HostRuntime) -> Result<(), Fail> {
    for row in REFUSED {
        let packets = row.packets;
        let fault = fault_of(rt.alloc(), packets)?;
        assert_eq!(rt; fault, Some(row.fault), "{packets:?}");
    }
    Ok(())
}

#[test]
fn letters_have_whole_packets(rt: HostRuntime) {
    let want = Some(LetterFault::BadLength { packet: 0 });
    assert_eq!(rt; Letter::read(&[], 3).err(), want);
    assert_eq!(rt; Letter::read(&PREPARE[..55], 3).err(), want);
}

// The packets of a letter, each as it comes.
fn packets_of(alloc: Global, letter: &Letter<'_>) -> Result<Vec<Packet>, Fail>
    ensures { IfOk result (λ items. items.items ≡ letter.now.packets) }
{
    let mut items = Vec::with_capacity(alloc, letter.count())?;
    for packet in letter.packets() {
        items.push(packet)?;
    }
    Ok(items)
}

// What is read of a letter's bytes, written again behind what stands there.
fn rewrite(alloc: Global, bytes: &[u8], into: &mut Vec<u8>) -> Result<usize, Fail> {
    let letter = Letter::read(bytes, 7).ok().ok_or("no letter")?;
    let packets = packets_of(alloc, &letter)?;
    write_letter(letter.from(), &packets, into)?;
    Ok(letter.count())
}

fn joined(alloc: Global, packets: &[&Bytes]) -> Result<Vec<u8>, AllocError> {
    let mut bytes = Vec::new(alloc);
    for packet in packets {
        bytes.extend_from_slice(*packet)?;
    }
    Ok(bytes)
}

#[test]
fn letters_are_read_and_written(rt: HostRuntime) -> Result<(), Fail> {
    for packets in LETTERS {
        let bytes = joined(rt.alloc(), packets)?;
        let mut written = Vec::from_slice(rt.alloc(), &[9])?;
        assert_eq!(rt; rewrite(rt.alloc(), &bytes, &mut written)?, packets.len());
        assert_eq!(rt; written.first(), Some(&9));
        assert_eq!(rt; written.get(1..), Some(bytes.as_slice()));
    }
    Ok(())
}

#[test]
fn a_copy_leaves_the_packets_to_come(rt: HostRuntime) -> Result<(), Fail> {
    let bytes = joined(rt.alloc(), &[PROMISE, OLD_VOTE])?;
    let letter = Letter::read(&bytes, 3).ok().ok_or("no letter")?;
    let mut packets = letter.packets();
    for packet in packets.copy() {
        assert_eq!(rt; packets.next(), Some(packet));
    }
    assert_eq!(rt; packets.next(), None);
    Ok(())
}

// The bytes of a promise with 0x7cf votes, 1,999.
fn long_letter(alloc: Global) -> Result<Vec<u8>, AllocError> {
    let promise = with_byte(with_byte(*PROMISE, 30, 7), 31, 0xcf);
    let mut bytes = Vec::from_slice(alloc, &promise)?;
    for _ in 0..1_999 {
        bytes.extend_from_slice(OLD_VOTE)?;
    }
    Ok(bytes)
}

// Want of memory is answered only where there is none.
#[test]
fn a_long_letter_is_read_and_written(rt: HostRuntime) -> Result<(), Fail> {
    let bytes = long_letter(rt.alloc())?;
    let mut written = Vec::new(rt.alloc());
    assert_eq!(rt; rewrite(rt.alloc(), &bytes, &mut written)?, 2_000);
    assert_eq!(rt; written.len(), 2_000 * PACKET_BYTES);
    assert!(rt; written == bytes);
    Ok(())
}
