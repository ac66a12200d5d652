//! Which rows stand for a table of jobs.
ghost use Rattle.std.specs.Prelude.{IsTrue};
ghost use Rattle.paxos_base.specs.Rows.{OpenHaveCursors};

use paxos_base::{JobRow, RowList, rows_stand};
use std::alloc::Global;
use std::test::*;

// The row of a job.
const JOB: JobRow = JobRow {
    job: 0,
    cursor: Some(20),
    open_now: Some(21),
    last: Some(10),
    launched: 1,
    voided: 2,
};

// The table's own row, of its first version.
const OWN: JobRow = JobRow {
    job: 1,
    cursor: None,
    open_now: None,
    last: None,
    launched: 0,
    voided: 0,
};

// The table's own row, of its second version.
const SECOND: JobRow = JobRow {
    job: 1,
    cursor: Some(5),
    open_now: None,
    last: None,
    launched: 1,
    voided: 0,
};

/// Rows, and whether they stand for a table of one job and so many versions.
struct Standing {
    rows: &'static [JobRow],
    versions: u32,
    stand: bool,
}

const STANDING: &[Standing] = &[
    Standing {
        rows: &[JOB, OWN],
        versions: 1,
        stand: true,
    },
    Standing {
        rows: &[JOB, OWN],
        versions: 0,
        stand: false,
    },
    Standing {
        rows: &[JOB],
        versions: 1,
        stand: false,
    },
    Standing {
        rows: &[JOB, OWN, OWN],
        versions: 1,
        stand: false,
    },
    Standing {
        rows: &[OWN, JOB],
        versions: 1,
        stand: false,
    },
    Standing {
        rows: &[JOB, SECOND],
        versions: 2,
        stand: true,
    },
    Standing {
        rows: &[JOB, SECOND],
        versions: 1,
        stand: false,
    },
    Standing {
        rows: &[
            JOB,
            JobRow {
                cursor: Some(5),
                ..OWN
            },
        ],
        versions: 2,
        stand: false,
    },
    Standing {
        rows: &[
            JOB,
            JobRow {
                cursor: None,
                ..SECOND
            },
        ],
        versions: 2,
        stand: false,
    },
    Standing {
        rows: &[
            JOB,
            JobRow {
                open_now: Some(6),
                ..SECOND
            },
        ],
        versions: 2,
        stand: false,
    },
    Standing {
        rows: &[
            JOB,
            JobRow {
                last: Some(5),
                ..OWN
            },
        ],
        versions: 1,
        stand: false,
    },
    Standing {
        rows: &[JOB, JobRow { voided: 1, ..OWN }],
        versions: 1,
        stand: false,
    },
];

// Whether each row that is open has a cursor.
fn have_cursors(rows: &[JobRow]) -> bool
    ensures { IsTrue result → OpenHaveCursors rows.now }
{
    rows.iter()
        .all(|row| row.open_now.is_none() || row.cursor.is_some())
}

// The rows as those of a launch table.
fn list_of_rows(alloc: Global, rows: &[JobRow]) -> Result<RowList, Fail> {
    let mut items = Vec::new(alloc);
    items.extend_from_slice(rows)?;
    if !have_cursors(&items) {
        return Err("a row that is open has no cursor".into());
    }
    Ok(RowList { items })
}

#[test]
fn rows_stand_in_order(rt: HostRuntime) -> Result<(), Fail> {
    for row in STANDING {
        let rows = list_of_rows(rt.alloc(), row.rows)?;
        let stand = rows_stand(&rows, 1, row.versions);
        assert_eq!(rt; stand, row.stand, "{rows:?}");
    }
    Ok(())
}
