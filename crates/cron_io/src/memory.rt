// A source and a sink in memory, whose calls that fail are chosen beforehand.
ghost use Rattle.std.specs.Prelude.{◌≡◌, ◌⊎◌, ◌↔◌, ◌+◌, ◌<◌, ◌≤◌, [], Some, min, length, take, vec_len, vec_capacity, Contains, IsTrue, IsSome, IsOk, IsErr, IfOk, OnOk, OnErr};
ghost use Rattle.std.specs.Io.{ReadsAtMost, WritesAtMost};
ghost use Rattle.std.specs.Io.KnownBytes.{ReadConsumes, WriteAppends};
ghost use Rattle.cron_io.specs.Faults.{HasCause, next_count};
ghost use Rattle.cron_io.specs.Reading.{StaysReliable};
ghost use Rattle.cron_io.specs.Writing.{TakesByRoom};

use crate::{OutOfMemory, Sink, SinkFault, Source, SourceFault};
use std::alloc::Global;

fn is_listed(list: &[u64], number: u64) -> bool
    ensures { IsTrue result ↔ Contains list.now number }
{
    list.contains(&number)
}

// Copies what fits of `from` to the front of `into`, and says how many bytes.
fn copy_front(from: &[u8], into: &mut [u8]) -> usize
    ensures count { result ≡ min (length from.now) (length into.old) }
    ensures bytes { take result into.new ≡ take result from.now }
{
    let count = from.len().min(into.len());
    into[..count].copy_from_slice(&from[..count]);
    count
}

/// A source of bytes in memory. No read takes memory, and each that doesn't fail fills what it can.
#[derive(Debug, Drop)]
pub struct MemSource {
    bytes: Vec<u8>,
    at: usize,
    fails: Vec<u64>,
    calls: u64,
    faults: u64,
    ghost within: { at ≤ vec_len bytes },
}

impl MemSource {
    ghost use Rattle.cron_io.specs.Memory.{source_left, source_fails, source_calls, source_faults};

    /// A source of these bytes, whose reads fail at the numbers in `fails`, counted from 0.
    /// The number stands still at the last value of a `u64`.
    pub fn new(bytes: Vec<u8>, fails: Vec<u64>) -> Self
        ensures left { source_left result ≡ bytes.items }
        ensures fails { source_fails result ≡ fails.items }
        ensures calls { source_calls result ≡ 0 }
        ensures faults { source_faults result ≡ 0 }
    {
        MemSource {
            bytes,
            at: 0,
            fails,
            calls: 0,
            faults: 0,
        }
    }

    /// The bytes that are left.
    pub fn left(&self) -> &[u8]
        ensures { result.now ≡ source_left self.now }
    {
        &self.bytes[self.at..]
    }
}

impl Source for MemSource {
    ghost use Rattle.cron_io.specs.Memory.{source_left, source_calls, source_fails, source_faults, source_seen, NeverFails};

    ghost seen = { source_seen };

    ghost reliable = { NeverFails };

    /// Fails exactly where the number of the call is listed. Else it fills what it can of `into`.
    fn read(&mut self, into: &mut [u8]) -> Result<usize, SourceFault>
        requires { 0 < length into.old }
        ensures bound { ReadsAtMost result into.new }
        ensures bytes { ReadConsumes (Some (source_left self.old)) (Some (source_left self.new))
            result into.new }
        ensures cause { HasCause (source_faults self.old) (source_faults self.new) result }
        ensures no_fault { NeverFails self.old → IsOk result }
        ensures lasting { NeverFails self.old →
            StaysReliable (source_seen self.old) (source_seen self.new) (NeverFails self.new) }

        // What a source in memory promises beyond a source.
        ensures fails { IsErr result ↔ Contains (source_fails self.old) (source_calls self.old) }
        ensures whole { IfOk result (λ count.
            count ≡ min (length (source_left self.old)) (length into.old)) }
        ensures quiet { OnOk result (source_faults self.new ≡ source_faults self.old) }
        ensures counted { OnErr result (source_faults self.new ≡ next_count (source_faults self.old)) }
        ensures call { source_calls self.new ≡ next_count (source_calls self.old) }
        ensures same { source_fails self.new ≡ source_fails self.old }
    {
        let number = self.calls;
        self.calls = number.saturating_add(1);
        if is_listed(&self.fails, number) {
            self.faults = self.faults.saturating_add(1);
            return Err(SourceFault);
        }
        let count = copy_front(&self.bytes[self.at..], into);
        self.at += count;
        Ok(count)
    }
}

/// A sink in memory, whose whole room is taken beforehand. No write takes memory, and each that
/// doesn't fail takes the whole piece.
#[derive(Debug, Drop)]
pub struct MemSink {
    bytes: Vec<u8>,
    room: usize,
    fails: Vec<u64>,
    calls: u64,
    faults: u64,
    ghost fits: { vec_len bytes + room ≤ vec_capacity bytes },
}

impl MemSink {
    ghost use Rattle.cron_io.specs.Memory.{sink_bytes, sink_room, sink_fails, sink_calls, sink_faults};

    /// An empty sink with room for `room` bytes, whose writes fail at the numbers in `fails`,
    /// counted from 0. The number stands still at the last value of a `u64`.
    ///
    /// # Errors
    ///
    /// Memory ran out.
    pub fn new(alloc: Global, room: u32, fails: Vec<u64>) -> Result<Self, OutOfMemory>
        ensures bytes { IfOk result (λ sink. sink_bytes sink ≡ []) }
        ensures room { IfOk result (λ sink. sink_room sink ≡ room) }
        ensures fails { IfOk result (λ sink. sink_fails sink ≡ fails.items) }
        ensures calls { IfOk result (λ sink. sink_calls sink ≡ 0) }
        ensures faults { IfOk result (λ sink. sink_faults sink ≡ 0) }
    {
        let room = room as usize;
        Ok(MemSink {
            bytes: Vec::with_capacity(alloc, room)?,
            room,
            fails,
            calls: 0,
            faults: 0,
        })
    }

    /// What was written.
    pub fn bytes(&self) -> &[u8]
        ensures { result.now ≡ sink_bytes self.now }
    {
        &self.bytes
    }

    /// How many bytes there is room for.
    pub fn room(&self) -> usize
        ensures { result ≡ sink_room self.now }
    {
        self.room
    }
}

impl Sink for MemSink {
    ghost use Rattle.cron_io.specs.Memory.{sink_bytes, sink_room, sink_fails, sink_calls, sink_faults, sink_seen, sink_told};

    ghost seen = { sink_seen };

    /// Fails exactly where the number of the call is listed or the piece is longer than the room.
    /// Else it takes the whole piece.
    fn write(&mut self, piece: &[u8]) -> Result<usize, SinkFault>
        requires { 0 < length piece.now }
        ensures bound { WritesAtMost result piece.now }
        ensures some { IfOk result (λ count. 0 < count) }
        ensures bytes { WriteAppends (Some (sink_bytes self.old)) (Some (sink_bytes self.new))
            result piece.now }
        ensures cause { HasCause (sink_faults self.old) (sink_faults self.new) result }
        ensures by_room { TakesByRoom (sink_seen self.old) (sink_seen self.new) result piece.now }
        ensures at_once { IsSome (sink_told self.old) → IfOk result (λ count. count ≡ length piece.now) }

        // What a sink in memory promises beyond a sink.
        ensures fails { IsErr result ↔ (Contains (sink_fails self.old) (sink_calls self.old)
            ⊎ (sink_room self.old < length piece.now)) }
        ensures whole { IfOk result (λ count. count ≡ length piece.now) }
        ensures taken { OnOk result (sink_room self.new + length piece.now ≡ sink_room self.old) }
        ensures kept { OnErr result (sink_room self.new ≡ sink_room self.old) }
        ensures quiet { OnOk result (sink_faults self.new ≡ sink_faults self.old) }
        ensures counted { OnErr result (sink_faults self.new ≡ next_count (sink_faults self.old)) }
        ensures call { sink_calls self.new ≡ next_count (sink_calls self.old) }
        ensures same { sink_fails self.new ≡ sink_fails self.old }
    {
        let number = self.calls;
        self.calls = number.saturating_add(1);
        if is_listed(&self.fails, number) || piece.len() > self.room {
            self.faults = self.faults.saturating_add(1);
            return Err(SinkFault);
        }
        // The room was taken beforehand.
        self.bytes.extend_from_slice(piece).unwrap();
        self.room -= piece.len();
        Ok(piece.len())
    }
}
