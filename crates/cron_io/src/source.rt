// Where bytes come from, and all of them at once.
ghost use Rattle.std.specs.Prelude.{◌≡◌, ◌+◌, ◌<◌, ◌≤◌, length, IfOk, IsOk, IsErrOf};
ghost use Rattle.std.specs.Io.{ReadsAtMost};
ghost use Rattle.std.specs.Io.KnownBytes.{ReadConsumes};
ghost use Rattle.cron_io.specs.Faults.{HasCause, Rose};
ghost use Rattle.cron_io.specs.Reading.{IsReadToEnd, HasReadOn, HasTakenCount, StaysReliable};
ghost use Rattle.cron_io.specs.Views.{SourceView};
ghost use Rattle.cron_io.specs.declared.source.ReadAllFault.TheVariants.{ReadFault, OutOfMemory};

use std::alloc::{AllocError, Global};

/// How many bytes one read is asked for.
const CHUNK: usize = 4096;

/// A read failed.
#[derive(Clone, Copy, Debug, PartialEq, Eq)]
pub struct SourceFault;

/// Where bytes come from, in order, up to an end.
pub trait Source {
    /// What is seen of it: the bytes that are left, where the source tells them, and how often a read
    /// has failed, a count that doesn't fall, and stands still at the last value of a `u64`.
    ghost seen: { Self → SourceView };

    /// No read fails from here on, where the source tells that.
    ghost reliable: { Self → Type 0 };

    /// Moves some of the bytes that are left into the front of `into`, and says how many: 0 only at
    /// the end.
    ///
    /// # Errors
    ///
    /// A fault, at which the count of faults rose and no byte was taken. What `into` then has is
    /// left open.
    fn read(&mut self, into: &mut [u8]) -> Result<usize, SourceFault>
        requires { 0 < length into.old }
        ensures bound { ReadsAtMost result into.new }
        ensures bytes { ReadConsumes (seen self.old).left (seen self.new).left result into.new }
        ensures cause { HasCause (seen self.old).faults (seen self.new).faults result }
        ensures no_fault { reliable self.old → IsOk result }
        ensures lasting { reliable self.old →
            StaysReliable (seen self.old) (seen self.new) (reliable self.new) };
}

/// Why not all the bytes were read.
#[derive(Clone, Copy, Debug, PartialEq, Eq)]
pub enum ReadAllFault {
    /// A read failed.
    ReadFault,
    /// More bytes came than the limit allows.
    TooLong,
    /// Memory ran out.
    OutOfMemory,
}

impl From<SourceFault> for ReadAllFault {
    ghost from_gives = { λ _ e. e ≡ ReadFault };

    fn from(_: SourceFault) -> Self {
        ReadAllFault::ReadFault
    }
}

impl From<AllocError> for ReadAllFault {
    ghost from_gives = { λ _ e. e ≡ OutOfMemory };

    fn from(_: AllocError) -> Self {
        ReadAllFault::OutOfMemory
    }
}

/// All the bytes up to the end, of which there may be at most `limit`.
///
/// # Errors
///
/// `ReadFault` only where a read failed, `TooLong` only where `limit + 1` bytes came, and
/// `OutOfMemory`. Each loses the bytes that were taken before it. A source that is reliable gives no
/// `ReadFault`.
pub fn read_all<S: Source>(
    alloc: Global,
    source: &mut S,
    limit: u32,
) -> Result<Vec<u8>, ReadAllFault>
    ensures bytes { IfOk result (λ v. IsReadToEnd (S.seen source.old) (S.seen source.new) v.items) }
    ensures short { IfOk result (λ v. length v.items ≤ limit) }
    ensures long { IsErrOf result ReadAllFault.TooLong →
        HasTakenCount (S.seen source.old) (S.seen source.new) (limit + 1) }
    ensures read_on { HasReadOn (S.seen source.old) (S.seen source.new) }
    ensures fault { IsErrOf result ReadAllFault.ReadFault →
        Rose (S.seen source.old).faults (S.seen source.new).faults }
    ensures no_fault { S.reliable source.old → IsErrOf result ReadAllFault.ReadFault → ⊥ }
    ensures lasting { S.reliable source.old →
        StaysReliable (S.seen source.old) (S.seen source.new) (S.reliable source.new) }
{
    // One byte past the limit tells a source that is too long from one that just fits.
    let most = limit as usize + 1;
    let mut chunk = [0u8; CHUNK];
    let mut bytes = Vec::new(alloc);
    'chunks: while bytes.len() < most {
        let room = CHUNK.min(most - bytes.len());
        let count = source.read(&mut chunk[..room])?;
        if count == 0 {
            return Ok(bytes);
        }
        bytes.extend_from_slice(&chunk[..count])?;
    }
    Err(ReadAllFault::TooLong)
}
