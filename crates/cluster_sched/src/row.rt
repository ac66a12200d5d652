use paxos_base::Kind;
use zone_minutes::Minute;

/// The name of a launch: its job's number in the table of jobs, and when it is due, in minutes since 1970-01-01T00:00Z,
/// or of an anacron job the number of its day.
#[derive(Clone, Copy, Debug, PartialEq, Eq, PartialOrd, Ord, Hash)]
pub struct Name {
    pub job: u32,
    pub at: i64,
}

/// A row of the scheduler: what it holds under a name.
#[derive(Clone, Copy, Debug, PartialEq, Eq)]
pub struct SchedRow {
    pub name: Name,
    /// Whether it is a launch, or was given up.
    pub kind: Kind,
    /// The clock of the call.
    pub now: Minute,
    /// The number of the replica that called.
    pub by: u8,
}
