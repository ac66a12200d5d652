//! Runs without a script, in which each launch is made when it is due.
use crate::worlds::report_of;
use std::alloc::Global;
use std::sync::Wait;
use std::test::*;
use std::thread::Threads;

// A run of one replica without grace: its window, its tables, and the report's lines behind those of the head.
struct Walk {
    window: &'static str,
    tables: &'static str,
    lines: &'static str,
}

const HOUR: &str = "2024-03-31T00:00Z 2024-03-31T01:00Z";

// The last day of a month, and two days more.
const THREE_DAYS: &str = "2024-03-31T00:00Z 2024-04-03T00:00Z";

const WALKS: &[Walk] = &[
    Walk {
        window: HOUR,
        tables: "crontab alice UTC 1\n0,20,40 * * * * true\n",
        lines: "jobs 1\njob alice:1 launched 3 void 0\nlaunch alice:1@20240331T0000Z\nlaunch alice:1@20240331T0020Z\n\
            launch alice:1@20240331T0040Z\nend\n",
    },
    // Two jobs, both due in one of the minutes.
    Walk {
        window: HOUR,
        tables: "crontab bob UTC 2\n10,30 * * * * true\n5,20,30 * * * * true\n",
        lines: "jobs 2\njob bob:1 launched 2 void 0\njob bob:2 launched 3 void 0\nlaunch bob:1@20240331T0010Z\n\
            launch bob:1@20240331T0030Z\nlaunch bob:2@20240331T0005Z\nlaunch bob:2@20240331T0020Z\n\
            launch bob:2@20240331T0030Z\nend\n",
    },
    // Nothing is due.
    Walk {
        window: HOUR,
        tables: "crontab alice UTC 1\n0 1 * * * true\n",
        lines: "jobs 1\njob alice:1 launched 0 void 0\nend\n",
    },
    // A daily job, at the first minute of its hours on each day.
    Walk {
        window: THREE_DAYS,
        tables: "anacrontab etc UTC 2\nSTART_HOURS_RANGE=6-22\n1 0 daily true\n",
        lines: "jobs 1\njob etc/daily launched 3 void 0\nlaunch etc/daily@2024-03-31\nlaunch etc/daily@2024-04-01\n\
            launch etc/daily@2024-04-02\nend\n",
    },
    Walk {
        window: THREE_DAYS,
        tables: "anacrontab etc UTC 1\n2 0 second true\n",
        lines: "jobs 1\njob etc/second launched 2 void 0\nlaunch etc/second@2024-03-31\nlaunch etc/second@2024-04-02\nend\n",
    },
    Walk {
        window: THREE_DAYS,
        tables: "anacrontab etc UTC 2\nSTART_HOURS_RANGE=3-4\n@monthly 0 books true\n",
        lines: "jobs 1\njob etc/books launched 2 void 0\nlaunch etc/books@2024-03-31\nlaunch etc/books@2024-04-01\nend\n",
    },
    // The window ends before the job's hours.
    Walk {
        window: HOUR,
        tables: "anacrontab etc UTC 2\nSTART_HOURS_RANGE=6-22\n1 0 daily true\n",
        lines: "jobs 1\njob etc/daily launched 0 void 0\nend\n",
    },
    // A daily job beside one of a crontab.
    Walk {
        window: HOUR,
        tables: "crontab alice UTC 1\n10,20,30 * * * * true\nanacrontab etc UTC 1\n1 20 daily true\n",
        lines: "jobs 2\njob alice:1 launched 3 void 0\njob etc/daily launched 1 void 0\nlaunch alice:1@20240331T0010Z\n\
            launch alice:1@20240331T0020Z\nlaunch alice:1@20240331T0030Z\nlaunch etc/daily@2024-03-31\nend\n",
    },
];

// The report of a run.
fn report_by<R: Threads + Wait + Sync>(rt: &R, alloc: Global, walk: &Walk) -> Result<String, Fail> {
    let text = format!(in alloc;
        "cronrun 1\nreplicas 1\nwindow {}\ngrace 0\n{}script\nend\n",
        walk.window, walk.tables
    )?;
    report_of(rt, alloc, &text, 1)
}

#[test]
fn each_launch_is_made_when_it_is_due(rt: HostRuntime) -> Result<(), Fail> {
    for walk in WALKS {
        let report = report_by(&rt, rt.alloc(), walk)?;
        assert!(rt; report.ends_with(walk.lines), "{} {report}", walk.tables);
    }
    Ok(())
}
