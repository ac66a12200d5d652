ghost use Rattle.std.specs.Prelude.{◌≡◌, None};
ghost use Rattle.std.specs.Result.{result_ok};
ghost use Rattle.std.specs.Io.{ReadsAtMost, WritesAtMost};
ghost use Rattle.std.specs.Io.KnownBytes.{ReadConsumes, WriteAppends};

use crate::{SinkFault, SourceFault};
use std::io::{Read, Write};

/// A reader or a writer of std, with how often it was asked and what it answered last.
///
/// What std says of a reader and of a writer tells neither how often it was asked nor what it answered. So this much is
/// trusted, and stands in the two calls below alone: each asks once, and notes that answer.
#[derive(Debug, Drop)]
pub(crate) struct Asked<T> {
    pub(crate) inner: T,
    // Stands still at the last value of a `u64`.
    pub(crate) calls: u64,
    // How many bytes the last call moved, or None where it was an error.
    pub(crate) last: Option<usize>,
}

impl<T> Asked<T> {
    pub(crate) fn new(inner: T) -> Asked<T>
        ensures inner { result.inner ≡ inner }
        ensures calls { result.calls ≡ 0 }
        ensures last { result.last ≡ None }
    {
        Asked {
            inner,
            calls: 0,
            last: None,
        }
    }
}

impl<R: Read> Asked<R> {
    ghost use Rattle.cron_io.specs.Standard.{asking_of, WasAskedOnce};

    // How many bytes the reader moved to the front of `into`.
    pub(crate) fn read(&mut self, into: &mut [u8]) -> Result<usize, SourceFault>
        ensures bound { ReadsAtMost result into.new }
        ensures bytes { ReadConsumes (R.remaining self.old.inner) (R.remaining self.new.inner) result into.new }
        ensures once { WasAskedOnce (asking_of self.old) (asking_of self.new) (result_ok result) }
    {
        let answer = self.inner.read(into).map_err(|_| SourceFault);
        self.calls = self.calls.saturating_add(1);
        self.last = answer.ok();
        answer
    }
}

impl<W: Write> Asked<W> {
    ghost use Rattle.cron_io.specs.Standard.{asking_of, WasAskedOnce};

    // How many bytes of the piece the writer took.
    pub(crate) fn write(&mut self, piece: &[u8]) -> Result<usize, SinkFault>
        ensures bound { WritesAtMost result piece.now }
        ensures bytes { WriteAppends (W.contents self.old.inner) (W.contents self.new.inner) result piece.now }
        ensures once { WasAskedOnce (asking_of self.old) (asking_of self.new) (result_ok result) }
    {
        let answer = self.inner.write(piece).map_err(|_| SinkFault);
        self.calls = self.calls.saturating_add(1);
        self.last = answer.ok();
        answer
    }
}
