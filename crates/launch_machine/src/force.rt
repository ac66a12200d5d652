//! The version of a table that is in force.
ghost use Rattle.std.specs.Prelude.{◌≡◌, ◌<◌};
ghost use Rattle.paxos_base.specs.Rows.{RowsStand};
ghost use Rattle.due_set.specs.Table.{version_count};
ghost use Rattle.launch_machine.specs.Clerk.{in_force, later_of, next_version, table_size};

use due_set::JobTable;
use paxos_base::JobRow;

/// The version of a table that is in force.
#[derive(Clone, Copy, Debug, PartialEq, Eq)]
pub struct InForce {
    /// The version, counted from 0.
    pub version: u32,
    /// The minute since when it is in force, since 1970-01-01 00:00 UTC; of the first version none.
    pub since: Option<i64>,
}

/// The version that is in force by the rows of a launch table.
pub fn in_force(rows: &[JobRow], table: &JobTable) -> InForce
    requires { RowsStand rows.now (table_size table.now) }
    ensures force { result ≡ in_force table.now rows.now }
    ensures known { result.version < version_count table.now }
{
    let own = rows[table.jobs() as usize];
    InForce {
        version: own.launched,
        since: own.cursor,
    }
}

/// The version that comes next, if the table has one.
pub fn next_version(rows: &[JobRow], table: &JobTable) -> Option<u32>
    requires { RowsStand rows.now (table_size table.now) }
    ensures { result ≡ next_version table.now rows.now }
{
    let versions = table.versions();
    let version = in_force(rows, table).version;
    if version + 1 < versions {
        Some(version + 1)
    } else {
        None
    }
}

/// The later of two instants, where there are any.
pub fn later_of(instant: Option<i64>, other: Option<i64>) -> Option<i64>
    ensures { result ≡ later_of instant other }
{
    match (instant, other) {
        (Some(instant), Some(other)) => Some(instant.max(other)),
        (None, other) => other,
        (instant, None) => instant,
    }
}
