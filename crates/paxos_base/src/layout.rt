//! The layout of a packet: where its fields begin, and how numbers are written and read there.
ghost use Rattle.std.specs.Prelude.{◌≡◌, ◌+◌, ◌≤◌, length};
ghost use Rattle.std.specs.Int.{w32, w64, from_be_bytes, cast_signed};
ghost use Rattle.paxos_base.specs.Packet.{bytes_at, with_bytes, minute_bytes};

/// How many bytes a packet has.
pub const PACKET_BYTES: usize = 56;

/// Where the kind of a packet is, in one byte.
pub const KIND: usize = 0;

/// Where the replica is that a packet is from, in one byte.
pub const FROM: usize = 1;

/// Where the tag of an entry or a row is, in one byte.
pub const TAG: usize = 2;

/// Where a byte is that is always 0.
pub const ZERO: usize = 3;

/// Where the four bytes of a job's number begin.
pub const JOB: usize = 4;

/// Where the eight bytes of a ballot's number begin.
pub const BALLOT: usize = 8;

/// Where the eight bytes of a slot begin.
pub const SLOT: usize = 16;

/// Where the eight bytes of a second ballot or of a count begin.
pub const OLD: usize = 24;

/// Where the eight bytes begin that say when a launch is due.
pub const AT: usize = 32;

/// Where the eight bytes begin of the minute at which a launch was decided.
pub const NOW: usize = 40;

/// Where the eight bytes begin that say when a job's latest launch was due.
pub const LAST: usize = 48;

/// Writes the bytes into a packet from the offset on.
pub fn put_bytes(into: &mut [u8; PACKET_BYTES], offset: usize, bytes: &[u8])
    requires { offset + length bytes.now ≤ PACKET_BYTES }
    ensures { into.new ≡ with_bytes into.old offset bytes.now }
{
    into[offset..offset + bytes.len()].copy_from_slice(bytes);
}

/// Writes a minute into eight bytes of a packet from the offset on, two's complement.
pub fn put_minute(into: &mut [u8; PACKET_BYTES], offset: usize, minute: i64)
    requires { offset + 8 ≤ PACKET_BYTES }
    ensures { into.new ≡ with_bytes into.old offset (minute_bytes minute) }
{
    put_bytes(into, offset, &minute.cast_unsigned().to_be_bytes());
}

/// The number in the four bytes of a packet from the offset on.
pub fn u32_at(packet: &[u8; PACKET_BYTES], offset: usize) -> u32
    requires { offset + 4 ≤ PACKET_BYTES }
    ensures { result ≡ from_be_bytes w32 (bytes_at packet.now offset 4) }
{
    let bytes = &packet[offset..offset + 4];
    u32::from_be_bytes([bytes[0], bytes[1], bytes[2], bytes[3]])
}

/// The number in the eight bytes of a packet from the offset on.
pub fn u64_at(packet: &[u8; PACKET_BYTES], offset: usize) -> u64
    requires { offset + 8 ≤ PACKET_BYTES }
    ensures { result ≡ from_be_bytes w64 (bytes_at packet.now offset 8) }
{
    let bytes = &packet[offset..offset + 8];
    u64::from_be_bytes([
        bytes[0], bytes[1], bytes[2], bytes[3], bytes[4], bytes[5], bytes[6], bytes[7],
    ])
}

/// The minute in the eight bytes of a packet from the offset on, two's complement.
pub fn minute_at(packet: &[u8; PACKET_BYTES], offset: usize) -> i64
    requires { offset + 8 ≤ PACKET_BYTES }
    ensures { result ≡ cast_signed w64 (from_be_bytes w64 (bytes_at packet.now offset 8)) }
{
    u64_at(packet, offset).cast_signed()
}
