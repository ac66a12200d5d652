//! A source and a sink of the tests that move a byte at a time.
ghost use Rattle.std.specs.Prelude.{None, Some};

use cron_io::{MemSink, MemSource, Sink, SinkFault, Source, SourceFault};

/// Gives a byte at a time.
#[derive(Drop)]
pub struct ByteSource(pub MemSource);

impl Source for ByteSource {
    ghost use Rattle.cron_io.specs.Memory.{source_seen, NeverFails};

    ghost seen = { λ source. source_seen source.0 };

    ghost reliable = { λ source. NeverFails source.0 };

    fn read(&mut self, into: &mut [u8]) -> Result<usize, SourceFault> {
        self.0.read(&mut into[..1])
    }
}

/// Takes a byte at a time, so that it tells no room.
#[derive(Drop)]
pub struct ByteSink(pub MemSink);

impl Sink for ByteSink {
    ghost use Rattle.cron_io.specs.Memory.{sink_bytes, sink_faults};

    ghost seen = { λ sink. record { written = Some (sink_bytes sink.0); faults = sink_faults sink.0; room = None } };

    fn write(&mut self, piece: &[u8]) -> Result<usize, SinkFault> {
        self.0.write(&piece[..1])
    }
}
