// The kinds of packets by their numbers.
pub(crate) const PREPARE: u8 = 1;

pub(crate) const PROMISE: u8 = 2;

pub(crate) const OLD_VOTE: u8 = 3;

pub(crate) const ACCEPT: u8 = 4;

pub(crate) const ACCEPTED: u8 = 5;

pub(crate) const NACK: u8 = 6;

pub(crate) const KNOWN: u8 = 7;

pub(crate) const ASK_FROM: u8 = 8;

pub(crate) const SNAP: u8 = 9;

pub(crate) const SNAP_ROW: u8 = 10;

pub(crate) const LEAD: u8 = 11;
