//! Runs that worlds play, and how often each job is launched and given up.
use crate::worlds::report_of;
use std::alloc::Global;
use std::sync::Wait;
use std::test::*;
use std::thread::Threads;

// A run of so many replicas, with these minutes of grace, over a window, of a table, with a script; and its report's lines of jobs.
struct Run {
    members: u8,
    grace: u32,
    window: &'static str,
    table: &'static str,
    commands: &'static str,
    jobs: &'static str,
}

const FOUR_HOURS: &str = "2024-03-31T00:00Z 2024-03-31T04:00Z";

// One job, at 01:00.
const AT_ONE: &str = "crontab alice UTC 1\n0 1 * * * true\n";

const RUNS: &[Run] = &[
    // Without a script the walk launches each due instant in its minute.
    Run {
        members: 1,
        grace: 0,
        window: FOUR_HOURS,
        table: "crontab alice UTC 1\n*/30 * * * * true\n",
        commands: "",
        jobs: "job alice:1 launched 8 void 0\n",
    },
    // Nobody led up to the minute at which the job is due; a minute later it is too late.
    Run {
        members: 3,
        grace: 0,
        window: FOUR_HOURS,
        table: AT_ONE,
        commands: "round 2024-03-31T01:00Z 9\n",
        jobs: "job alice:1 launched 1 void 0\n",
    },
    Run {
        members: 3,
        grace: 0,
        window: FOUR_HOURS,
        table: AT_ONE,
        commands: "round 2024-03-31T01:01Z 1\n",
        jobs: "job alice:1 launched 0 void 1\n",
    },
    // Within grace it is launched, and behind it it is given up.
    Run {
        members: 1,
        grace: 5,
        window: FOUR_HOURS,
        table: AT_ONE,
        commands: "round 2024-03-31T01:05Z 1\n",
        jobs: "job alice:1 launched 1 void 0\n",
    },
    Run {
        members: 1,
        grace: 4,
        window: FOUR_HOURS,
        table: AT_ONE,
        commands: "round 2024-03-31T01:05Z 1\n",
        jobs: "job alice:1 launched 0 void 1\n",
    },
    // The launch goes late. Its leader stops, and another one gives it up, before it arrives.
    Run {
        members: 3,
        grace: 5,
        window: FOUR_HOURS,
        table: AT_ONE,
        commands: "campaign 0\nfate 0 late\nround 2024-03-31T01:00Z 4\nstop 0\ncampaign 1\n\
            round 2024-03-31T01:10Z 5\narrive 0\n",
        jobs: "job alice:1 launched 0 void 1\n",
    },
    // It arrives before that.
    Run {
        members: 3,
        grace: 5,
        window: FOUR_HOURS,
        table: AT_ONE,
        commands: "campaign 0\nfate 0 late\nround 2024-03-31T01:00Z 4\nstop 0\narrive 0\ncampaign 1\n\
            round 2024-03-31T01:10Z 5\n",
        jobs: "job alice:1 launched 1 void 0\n",
    },
    // The call is lost before it comes to the rows, and is made again.
    Run {
        members: 3,
        grace: 0,
        window: FOUR_HOURS,
        table: AT_ONE,
        commands: "campaign 0\nfate 0 lost-before\nround 2024-03-31T01:00Z 4\n",
        jobs: "job alice:1 launched 1 void 0\n",
    },
    // Two stand for leader, and no letter reaches the second any more: nobody leads before the walk.
    Run {
        members: 3,
        grace: 0,
        window: FOUR_HOURS,
        table: AT_ONE,
        commands: "campaign 0\ncampaign 1\ncut 0 1\ncut 2 1\nround 2024-03-31T01:00Z 2\n",
        jobs: "job alice:1 launched 1 void 0\n",
    },
    // Letters come twice, again, and in another order.
    Run {
        members: 3,
        grace: 0,
        window: FOUR_HOURS,
        table: AT_ONE,
        commands: "campaign 0\nround 2024-03-31T01:00Z 2\nrepeat 0 1\nagain 0\nreverse 1\n\
            round 2024-03-31T01:00Z 4\n",
        jobs: "job alice:1 launched 1 void 0\n",
    },
    // A replica comes back more than 200 slots behind.
    Run {
        members: 3,
        grace: 120,
        window: "2024-03-31T00:00Z 2024-03-31T02:00Z",
        table: "crontab alice UTC 1\n* * * * * true\n",
        commands: "stop 2\ncampaign 0\nround 2024-03-31T01:59Z 600\n",
        jobs: "job alice:1 launched 120 void 0\n",
    },
];

// The report of a run.
fn report_by<R: Threads + Wait + Sync>(rt: &R, alloc: Global, run: &Run) -> Result<String, Fail> {
    let text = format!(in alloc;
        "cronrun 1\nreplicas {}\nwindow {}\ngrace {}\n{}script\n{}end\n",
        run.members, run.window, run.grace, run.table, run.commands
    )?;
    report_of(rt, alloc, &text, 1)
}

#[test]
fn runs_launch_and_give_up(rt: HostRuntime) -> Result<(), Fail> {
    for run in RUNS {
        let report = report_by(&rt, rt.alloc(), run)?;
        assert!(rt; report.contains(run.jobs), "{} {report}", run.commands);
    }
    Ok(())
}

const FIRST: &str = "\
cronrun 1
replicas 3
window 2024-03-31T00:00Z 2024-03-31T01:00Z
grace 0
crontab alice UTC 1
0,20,40 * * * * echo hi
script
campaign 2
round 2024-03-31T00:00Z 1
end
";

const FIRST_REPORT: &str = "\
cron report 1
window 2024-03-31T00:00Z 2024-03-31T01:00Z
replicas 3
jobs 1
job alice:1 launched 3 void 0
launch alice:1@20240331T0000Z
launch alice:1@20240331T0020Z
launch alice:1@20240331T0040Z
end
";

#[test]
fn a_whole_report(rt: HostRuntime) -> Result<(), Fail> {
    let plain = report_of(&rt, rt.alloc(), FIRST, 1)?;
    assert_eq!(rt; plain.as_str(), FIRST_REPORT);
    let shared = report_of(&rt, rt.alloc(), FIRST, 3)?;
    assert_eq!(rt; shared.as_str(), FIRST_REPORT);
    Ok(())
}
