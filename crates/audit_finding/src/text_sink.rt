//! A text in memory as a sink.
ghost use Rattle.std.specs.Prelude.{◌≡◌, [], Some, None};

use cron_io::{Sink, SinkFault};
use std::alloc::Global;

/// What was written, in memory that is asked for as it is written. A write fails where there is none.
#[derive(Debug, Drop)]
pub struct TextSink {
    pub bytes: Vec<u8>,
    faults: u64,
}

impl TextSink {
    /// A sink to which nothing was written.
    pub fn new(alloc: Global) -> TextSink
        ensures { result.bytes.items ≡ [] }
    {
        TextSink {
            bytes: Vec::new(alloc),
            faults: 0,
        }
    }
}

impl Sink for TextSink {
    ghost seen = { λ sink. record { written = Some sink.bytes.items; faults = sink.faults; room = None } };

    fn write(&mut self, piece: &[u8]) -> Result<usize, SinkFault> {
        match self.bytes.extend_from_slice(piece) {
            Ok(()) => Ok(piece.len()),
            Err(_) => {
                self.faults = self.faults.saturating_add(1);
                Err(SinkFault)
            }
        }
    }
}
