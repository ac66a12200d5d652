// The readers and writers of std as sources and sinks.
ghost use Rattle.std.specs.Prelude.{◌≡◌, ◌<◌, length, None, IfOk, IsOk};
ghost use Rattle.std.specs.Io.{ReadsAtMost, WritesAtMost};
ghost use Rattle.std.specs.Io.KnownBytes.{ReadConsumes, WriteAppends};
ghost use Rattle.cron_io.specs.Faults.{HasCause};

use crate::asked::Asked;
use crate::{Sink, SinkFault, Source, SourceFault};
use std::io::{Read, Write};

/// A reader of std as a source, with one read of std for each read. Each error of the reader is a
/// fault, `Interrupted` too. It takes no memory.
#[derive(Debug, Drop)]
pub struct StdSource<R> {
    reader: Asked<R>,
    faults: u64,
}

impl<R: Read> StdSource<R> {
    /// A source of what the reader has left.
    pub fn new(reader: R) -> Self
        ensures left { (⟦<StdSource<R> as Source>⟧.seen result).left ≡ R.remaining reader }
        ensures faults { (⟦<StdSource<R> as Source>⟧.seen result).faults ≡ 0 }
    {
        StdSource {
            reader: Asked::new(reader),
            faults: 0,
        }
    }
}

impl<R: Read> Source for StdSource<R> {
    ghost use Rattle.cron_io.specs.Standard.{HandsOn, count_read, source_asking, source_faults};

    ghost seen = { λ s. record { left = R.remaining s.reader.inner; faults = s.faults } };

    // Nothing is known of the reads to come.
    ghost reliable = { λ _. ⊥ };

    /// Asks the reader once.
    fn read(&mut self, into: &mut [u8]) -> Result<usize, SourceFault>
        requires { 0 < length into.old }
        ensures bound { ReadsAtMost result into.new }
        ensures bytes { ReadConsumes (R.remaining self.old.reader.inner) (R.remaining self.new.reader.inner) result into.new }
        ensures cause { HasCause (source_faults self.old) (source_faults self.new) result }
        ensures no_fault { ⊥ → IsOk result }
        // What an adapter owes.
        ensures once { HandsOn (source_asking self.old) (source_asking self.new) (source_faults self.old) (source_faults self.new) count_read result }
    {
        match self.reader.read(into) {
            Ok(count) => Ok(count),
            Err(_) => {
                self.faults = self.faults.saturating_add(1);
                Err(SourceFault)
            }
        }
    }
}

/// A writer of std as a sink, with one write of std for each write. Each error of the writer is a
/// fault, `Interrupted` too, and so is a write that takes no byte. It takes no memory, and never
/// flushes: a writer with a buffer would hide a fault that comes late.
#[derive(Debug, Drop)]
pub struct StdSink<W> {
    writer: Asked<W>,
    faults: u64,
}

impl<W: Write> StdSink<W> {
    /// A sink that writes to the writer.
    pub fn new(writer: W) -> Self
        ensures written { (⟦<StdSink<W> as Sink>⟧.seen result).written ≡ W.contents writer }
        ensures faults { (⟦<StdSink<W> as Sink>⟧.seen result).faults ≡ 0 }
    {
        StdSink {
            writer: Asked::new(writer),
            faults: 0,
        }
    }
}

impl<W: Write> Sink for StdSink<W> {
    ghost use Rattle.cron_io.specs.Standard.{HandsOn, count_written, sink_asking, sink_faults};

    // Nothing is known of the writes to come.
    ghost seen = { λ s. record { written = W.contents s.writer.inner; faults = s.faults; room = None } };

    /// Asks the writer once.
    fn write(&mut self, piece: &[u8]) -> Result<usize, SinkFault>
        requires { 0 < length piece.now }
        ensures bound { WritesAtMost result piece.now }
        ensures some { IfOk result (λ count. 0 < count) }
        ensures bytes { WriteAppends (W.contents self.old.writer.inner) (W.contents self.new.writer.inner) result piece.now }
        ensures cause { HasCause (sink_faults self.old) (sink_faults self.new) result }
        // What an adapter owes.
        ensures once { HandsOn (sink_asking self.old) (sink_asking self.new) (sink_faults self.old) (sink_faults self.new) count_written result }
    {
        match self.writer.write(piece) {
            Ok(count) if count > 0 => Ok(count),
            _ => {
                self.faults = self.faults.saturating_add(1);
                Err(SinkFault)
            }
        }
    }
}
