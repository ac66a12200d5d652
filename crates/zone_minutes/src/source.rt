//! Where a zone's offsets come from, and what `jiff` makes of it.
ghost use Rattle.std.specs.Prelude.{◌≡◌, ◌↔◌, IsTrue, IsNone, IsErrOf, IfOk, Some};
ghost use Rattle.jiff.specs.Placed.{IsPosixZone};
ghost use Rattle.jiff.specs.Words.{plain_zone, read_whole};
ghost use Rattle.zone_minutes.specs.Zone.{PosixRule, TzifFile, source_of, kept_source, fault_text, IsOffsetInRange, IsSourceRefused, IsTable, IsUnread};

use jiff::Error as JiffError;
use jiff::tz::{TimeZone, Tzif};
use std::alloc::{AllocError, AllocFailed, Global};
use std::error::Error;
use std::fmt;

/// What a zone's offsets come from.
#[derive(Clone, Copy, Debug, PartialEq, Eq)]
pub enum ZoneSource<'a> {
    /// One offset at every instant: minutes east of UTC, from -720 to 840.
    Fixed { minutes: i16 },
    /// A TZ rule of POSIX, as `CET-1CEST,M3.5.0,M10.5.0/3`.
    Posix(&'a str),
    /// The bytes of a TZif file (RFC 8536).
    Tzif(&'a [u8]),
}

// -12:00 and +14:00, in minutes.
const WESTERNMOST: i16 = -720;

const EASTERNMOST: i16 = 840;

impl<'a> ZoneSource<'a> {
    /// Whether a fixed offset is from -12:00 to +14:00.
    pub fn is_in_range(&self) -> bool
        ensures { IsTrue result ↔ IsOffsetInRange self.now }
    {
        match *self {
            ZoneSource::Fixed { minutes } => WESTERNMOST <= minutes && minutes <= EASTERNMOST,
            ZoneSource::Posix(_) | ZoneSource::Tzif(_) => true,
        }
    }
}

/// Why a zone was not built.
#[derive(Clone, Copy, Debug, PartialEq, Eq)]
pub enum ZoneFault {
    /// `jiff` refuses the rule or the file.
    BadZone,
    /// Memory ran out.
    OutOfMemory,
}

impl fmt::Display for ZoneFault {
    ghost output = { λ fault. Some (fault_text fault) };

    fn fmt<W: fmt::Write>(&self, f: &mut fmt::Formatter<W>) -> fmt::Result {
        match self {
            ZoneFault::BadZone => write!(f, "not a time zone"),
            ZoneFault::OutOfMemory => write!(f, "out of memory"),
        }
    }
}

impl Error for ZoneFault {}

impl From<AllocError> for ZoneFault {
    ghost use Rattle.zone_minutes.specs.declared.source.ZoneFault.{ZoneFault};

    ghost from_gives = { λ _ fault. fault ≡ ZoneFault.OutOfMemory };

    fn from(_: AllocError) -> Self {
        ZoneFault::OutOfMemory
    }
}

impl<T: Drop> From<AllocFailed<T>> for ZoneFault {
    ghost use Rattle.zone_minutes.specs.declared.source.ZoneFault.{ZoneFault};

    ghost from_gives = { λ _ fault. fault ≡ ZoneFault.OutOfMemory };

    fn from(_: AllocFailed<T>) -> Self {
        ZoneFault::OutOfMemory
    }
}

/// A source that a zone keeps: the zone outlives the text or the file that it was read from.
#[derive(Debug, Drop)]
pub(crate) enum KeptSource {
    Fixed { minutes: i16 },
    Posix(String),
    Tzif(Vec<u8>),
}

impl KeptSource {
    /// The same source.
    pub(crate) fn new(alloc: Global, source: &ZoneSource<'_>) -> Result<KeptSource, AllocError>
        ensures { IfOk result (λ kept. kept_source kept ≡ source_of source.now) }
    {
        match *source {
            ZoneSource::Fixed { minutes } => Ok(KeptSource::Fixed { minutes }),
            ZoneSource::Posix(text) => Ok(KeptSource::Posix(String::from_str(alloc, text)?)),
            ZoneSource::Tzif(bytes) => Ok(KeptSource::Tzif(bytes.to_vec(alloc)?)),
        }
    }
}

/// The zone of a rule. It takes no memory.
pub(crate) fn read_rule(text: &str) -> Result<TimeZone<'static>, ZoneFault>
    ensures zone { IfOk result (λ zone. IsPosixZone text.now (plain_zone zone)) }
    ensures refused { IsErrOf result ZoneFault.BadZone → IsNone (read_whole text.now) }
    ensures unread { IsUnread (PosixRule text.now) → IsErrOf result ZoneFault.BadZone }
{
    match TimeZone::posix(text) {
        Ok(zone) => Ok(zone),
        Err(_) => Err(ZoneFault::BadZone),
    }
}

/// The table of a file.
pub(crate) fn read_table(alloc: Global, bytes: &[u8]) -> Result<Tzif, ZoneFault>
    ensures table { IfOk result (IsTable bytes.now) }
    ensures refused { IsErrOf result ZoneFault.BadZone → IsSourceRefused (TzifFile bytes.now) }
    ensures unread { IsUnread (TzifFile bytes.now) → IsErrOf result ZoneFault.BadZone }
{
    match Tzif::parse(alloc, None, bytes) {
        Ok(table) => Ok(table),
        Err(JiffError::OutOfMemory) => Err(ZoneFault::OutOfMemory),
        Err(_) => Err(ZoneFault::BadZone),
    }
}
