//! Texts of reports.
ghost use Rattle.std.specs.Prelude.{All, IsTrue};
ghost use Rattle.cluster_sched.specs.Names.{IsNameIn};

use crate::build::{FIRST_DATE, FROM, HOUR};
use cluster_sched::{Name, SchedRow, is_name_in};
use cron_io::MemSink;
use due_set::{JobKind, JobSpec, JobTable, Period};
use paxos_base::Kind;
use report_text::{ReportFault, write_report};
use std::alloc::Global;
use std::test::Fail;
use zone_minutes::Minute;

const NO_JOB_REPORT: &str = "cron report 1
window 2024-03-31T00:00Z 2024-03-31T01:00Z
replicas 1
jobs 0
end
";

const NO_END: &str = "cron report 1
window 2024-03-31T00:00Z 2024-03-31T01:00Z
replicas 1
jobs 0
";

const THREE_LAUNCHES_REPORT: &str = "cron report 1
window 2024-03-31T00:00Z 2024-03-31T01:00Z
replicas 1
jobs 1
job alice:1 launched 3 void 0
launch alice:1@20240331T0000Z
launch alice:1@20240331T0020Z
launch alice:1@20240331T0040Z
end
";

const TWO_JOBS_REPORT: &str = "cron report 1
window 2024-03-31T00:00Z 2024-03-31T01:00Z
replicas 5
jobs 2
job alice:1 launched 2 void 1
job bob:2 launched 1 void 0
launch alice:1@20240331T0000Z
void alice:1@20240331T0020Z
launch alice:1@20240331T0040Z
launch bob:2@20240331T0030Z
end
";

const DATES_REPORT: &str = "cron report 1
window 2024-03-31T00:00Z 2024-03-31T01:00Z
replicas 1
jobs 2
job alice:1 launched 0 void 0
job x/backup launched 1 void 1
void x/backup@2024-03-30
launch x/backup@2024-03-31
end
";

const BACKUP: JobKind = JobKind::Anacron {
    period: Period::Days(1),
    first_minute: 0,
    last_minute: 1440,
};

/// A launch or a void of a job, of an instant or a date.
struct Made(u32, i64, Kind);

/// A table of so many jobs, the second of them by its period or not; the replicas and rows of a report, the write that
/// fails, what comes of it, and what is written then.
struct Report {
    jobs: u8,
    dated: bool,
    members: u8,
    rows: &'static [Made],
    fails: &'static [u64],
    result: Result<(), ReportFault>,
    text: &'static str,
}

const REPORTS: &[Report] = &[
    Report {
        jobs: 0,
        dated: false,
        members: 1,
        rows: &[],
        fails: &[],
        result: Ok(()),
        text: NO_JOB_REPORT,
    },
    Report {
        jobs: 1,
        dated: false,
        members: 1,
        rows: &[
            Made(0, FROM + 40, Kind::Launch),
            Made(0, FROM, Kind::Launch),
            Made(0, FROM + 20, Kind::Launch),
        ],
        fails: &[],
        result: Ok(()),
        text: THREE_LAUNCHES_REPORT,
    },
    Report {
        jobs: 2,
        dated: false,
        members: 5,
        rows: &[
            Made(0, FROM, Kind::Launch),
            Made(0, FROM + 20, Kind::Void),
            Made(1, FROM + 30, Kind::Launch),
            Made(0, FROM + 40, Kind::Launch),
        ],
        fails: &[],
        result: Ok(()),
        text: TWO_JOBS_REPORT,
    },
    Report {
        jobs: 2,
        dated: true,
        members: 1,
        rows: &[
            Made(1, FIRST_DATE, Kind::Launch),
            Made(1, FIRST_DATE - 1, Kind::Void),
        ],
        fails: &[],
        result: Ok(()),
        text: DATES_REPORT,
    },
    // Each line is one write, so the fifth is the last.
    Report {
        jobs: 0,
        dated: false,
        members: 1,
        rows: &[],
        fails: &[0],
        result: Err(ReportFault::WriteFault),
        text: "",
    },
    Report {
        jobs: 0,
        dated: false,
        members: 1,
        rows: &[],
        fails: &[1],
        result: Err(ReportFault::WriteFault),
        text: "cron report 1\n",
    },
    Report {
        jobs: 0,
        dated: false,
        members: 1,
        rows: &[],
        fails: &[4],
        result: Err(ReportFault::WriteFault),
        text: NO_END,
    },
];

fn table_of(alloc: Global, report: &Report) -> Result<JobTable, Fail> {
    let mut jobs = Vec::new(alloc);
    if report.jobs > 0 {
        jobs.push(JobSpec::new(alloc, "alice:1", 0, JobKind::Never)?)?;
    }
    if report.jobs > 1 && report.dated {
        jobs.push(JobSpec::new(alloc, "x/backup", 0, BACKUP)?)?;
    } else if report.jobs > 1 {
        jobs.push(JobSpec::new(alloc, "bob:2", 0, JobKind::Never)?)?;
    }
    Ok(JobTable::in_utc(alloc, HOUR, 0, jobs)?)
}

fn rows_of(alloc: Global, report: &Report) -> Result<Vec<SchedRow>, Fail> {
    let mut rows = Vec::new(alloc);
    for made in report.rows {
        let Made(job, at, kind) = *made;
        let name = Name { job, at };
        rows.push(SchedRow {
            name,
            kind,
            now: Minute(at),
            by: 0,
        })?;
    }
    Ok(rows)
}

/// Whether each row is of a launch that the table can have.
pub fn are_names_in(table: &JobTable, rows: &[SchedRow]) -> bool
    ensures { IsTrue result → All (λ row. IsNameIn table.now row.name) rows.now }
{
    rows.iter().all(|row| is_name_in(table, row.name))
}

fn is_written(alloc: Global, report: &Report) -> Result<bool, Fail> {
    let table = table_of(alloc, report)?;
    let rows = rows_of(alloc, report)?;
    if !are_names_in(&table, &rows) {
        return Err("a row of another table".into());
    }
    let mut sink = MemSink::new(alloc, 1 << 10, report.fails.to_vec(alloc)?)?;
    let result = write_report(alloc, &mut sink, &table, report.members, &rows);
    Ok(result == report.result && sink.bytes() == report.text.as_bytes())
}

#[test]
fn reports_have_their_texts(rt: HostRuntime) -> Result<(), Fail> {
    for (place, report) in REPORTS.iter().enumerate() {
        let holds = is_written(rt.alloc(), report)?;
        assert!(rt; holds, "{place}");
    }
    Ok(())
}
