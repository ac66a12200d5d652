ghost use Rattle.zone_minutes.specs.Zone.{IsMinutesAhead};

use crate::minute::Minute;

/// Instants one after another at which a zone's clocks are as far ahead.
#[derive(Clone, Copy, Debug, PartialEq, Eq)]
pub struct Run {
    /// The first instant.
    pub from: Minute,
    /// The end, which is outside.
    pub until: Minute,
    /// How many minutes the local time is ahead of the instant.
    pub ahead: i16,
    pub ghost ahead_in: { IsMinutesAhead ahead },
}
