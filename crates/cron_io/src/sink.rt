// Where bytes go, and all of a piece at once.
ghost use Rattle.std.specs.Prelude.{◌≡◌, ◌<◌, length, IfOk, OnOk, IsSome};
ghost use Rattle.std.specs.Io.{WritesAtMost};
ghost use Rattle.std.specs.Io.KnownBytes.{WriteAppends};
ghost use Rattle.cron_io.specs.Faults.{HasCause};
ghost use Rattle.cron_io.specs.Views.{SinkView};
ghost use Rattle.cron_io.specs.Writing.{HasGained, HasGainedPrefix, TakesByRoom};

/// A write failed.
#[derive(Clone, Copy, Debug, PartialEq, Eq)]
pub struct SinkFault;

/// Where bytes go, in order.
pub trait Sink {
    /// What is seen of it: the bytes that were written, where the sink tells them; how often a write has
    /// failed, a count that doesn't fall, and stands still at the last value of a `u64`; and how many
    /// bytes it still takes, where the sink tells that: then it takes each piece that fits, whole, and
    /// refuses each other piece.
    ghost seen: { Self → SinkView };

    /// Writes the front of `piece`, at least one byte, and says how many.
    ///
    /// # Errors
    ///
    /// A fault, at which the count of faults rose and nothing of the piece was written.
    fn write(&mut self, piece: &[u8]) -> Result<usize, SinkFault>
        requires { 0 < length piece.now }
        ensures bound { WritesAtMost result piece.now }
        ensures some { IfOk result (λ count. 0 < count) }
        ensures bytes { WriteAppends (seen self.old).written (seen self.new).written result piece.now }
        ensures cause { HasCause (seen self.old).faults (seen self.new).faults result }
        ensures by_room { TakesByRoom (seen self.old) (seen self.new) result piece.now }
        ensures at_once { IsSome (seen self.old).room → IfOk result (λ count. count ≡ length piece.now) };
}

/// Writes all of `bytes`, by as few writes as the sink allows. A sink that tells its room takes all
/// of them where they fit, and keeps its room where they don't.
///
/// # Errors
///
/// A fault only where a write failed. Some of the bytes, from the front, may be written then.
pub fn write_all<K: Sink>(sink: &mut K, bytes: &[u8]) -> Result<(), SinkFault>
    ensures bytes { OnOk result (HasGained (K.seen sink.old) (K.seen sink.new) bytes.now) }
    ensures prefix { HasGainedPrefix (K.seen sink.old) (K.seen sink.new) bytes.now }
    ensures cause { HasCause (K.seen sink.old).faults (K.seen sink.new).faults result }
    ensures by_room { TakesByRoom (K.seen sink.old) (K.seen sink.new) result bytes.now }
{
    let mut rest = bytes;
    'pieces: while !rest.is_empty() {
        let count = sink.write(rest)?;
        rest = &rest[count..];
    }
    Ok(())
}
