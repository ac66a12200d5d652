//! Runs with a script, through the whole program, and what their reports say of each job.
use crate::program::{Left, args_of, play};
use std::alloc::Global;
use std::sync::Wait;
use std::test::Fail;
use std::thread::Threads;

// A run of so many replicas, with these minutes of grace, over a window, of a table, with a script; and the part of its report behind the
// line of the replicas.
struct Scripted {
    members: u8,
    grace: u32,
    window: &'static str,
    table: &'static str,
    commands: &'static str,
    report: &'static str,
}

const FOUR_HOURS: &str = "2024-03-31T00:00Z 2024-03-31T04:00Z";

// One job, at 01:00.
const AT_ONE: &str = "crontab alice UTC 1\n0 1 * * * true\n";

const LAUNCHED: &str =
    "jobs 1\njob alice:1 launched 1 void 0\nlaunch alice:1@20240331T0100Z\nend\n";

const GIVEN_UP: &str = "jobs 1\njob alice:1 launched 0 void 1\nvoid alice:1@20240331T0100Z\nend\n";

const SCRIPTED: &[Scripted] = &[
    // The launch goes late. Its leader stops, and another one gives it up, before it arrives.
    Scripted {
        members: 3,
        grace: 5,
        window: FOUR_HOURS,
        table: AT_ONE,
        commands: "campaign 0\nfate 0 late\nround 2024-03-31T01:00Z 4\nstop 0\ncampaign 1\n\
            round 2024-03-31T01:10Z 5\narrive 0\n",
        report: GIVEN_UP,
    },
    // It arrives before that.
    Scripted {
        members: 3,
        grace: 5,
        window: FOUR_HOURS,
        table: AT_ONE,
        commands: "campaign 0\nfate 0 late\nround 2024-03-31T01:00Z 4\nstop 0\narrive 0\ncampaign 1\n\
            round 2024-03-31T01:10Z 5\n",
        report: LAUNCHED,
    },
    // Two stand for leader, and no letter reaches the second any more: nobody leads before the walk.
    Scripted {
        members: 3,
        grace: 0,
        window: FOUR_HOURS,
        table: AT_ONE,
        commands: "campaign 0\ncampaign 1\ncut 0 1\ncut 2 1\nround 2024-03-31T01:00Z 2\n",
        report: LAUNCHED,
    },
    // Letters come twice, again, and in another order.
    Scripted {
        members: 3,
        grace: 0,
        window: FOUR_HOURS,
        table: AT_ONE,
        commands: "campaign 0\nround 2024-03-31T01:00Z 2\nrepeat 0 1\nagain 0\nreverse 1\n\
            round 2024-03-31T01:00Z 4\n",
        report: LAUNCHED,
    },
    // Within grace it is launched, and behind it it is given up.
    Scripted {
        members: 1,
        grace: 5,
        window: FOUR_HOURS,
        table: AT_ONE,
        commands: "round 2024-03-31T01:05Z 1\n",
        report: LAUNCHED,
    },
    Scripted {
        members: 1,
        grace: 4,
        window: FOUR_HOURS,
        table: AT_ONE,
        commands: "round 2024-03-31T01:05Z 1\n",
        report: GIVEN_UP,
    },
];

// What the program leaves of such a run, with these words, where these writes of the report fail.
fn left_by<R: Threads + Wait + Sync>(
    rt: &R,
    alloc: Global,
    run: &Scripted,
    words: &[&str],
    writes: &[u64],
) -> Result<Left, Fail> {
    let input = format!(in alloc;
        "cronrun 1\nreplicas {}\nwindow {}\ngrace {}\n{}script\n{}end\n",
        run.members, run.window, run.grace, run.table, run.commands
    )?;
    let args = args_of(alloc, words)?;
    play(rt, alloc, Ok(args), &input, writes)
}

// The whole report of such a run.
fn report_of(alloc: Global, run: &Scripted) -> Result<String, Fail> {
    Ok(format!(in alloc;
        "cron report 1\nwindow {}\nreplicas {}\n{}",
        run.window, run.members, run.report
    )?)
}

// The words behind the program's name: however many lanes they ask for, the report has the same bytes.
const LANES: &[&[&str]] = &[&[], &["--lanes", "3"]];

#[test]
fn scripts(rt: HostRuntime) -> Result<(), Fail> {
    let mut ok = true;
    for run in SCRIPTED {
        let report = report_of(rt.alloc(), run)?;
        for words in LANES {
            let left = left_by(&rt, rt.alloc(), run, words, &[])?;
            ok &= left.status == 0 && left.report.bytes() == report.as_bytes();
        }
    }
    assert_eq!(rt; ok, true);
    Ok(())
}

// A write of the report that fails, and the status then, and how many bytes of the report stand in front of it.
struct Failing {
    write: u64,
    status: u8,
    written: usize,
    note: &'static str,
}

const WRITE_FAULT: &str = "cron_cluster: write fault\n";

// Each line is one write. A run that was played ends as any other where one of them fails.
const FAILING: &[Failing] = &[
    Failing {
        write: 0,
        status: 4,
        written: 0,
        note: WRITE_FAULT,
    },
    Failing {
        write: 4,
        status: 4,
        written: 75,
        note: WRITE_FAULT,
    },
    Failing {
        write: 5,
        status: 4,
        written: 105,
        note: WRITE_FAULT,
    },
    Failing {
        write: 7,
        status: 0,
        written: 139,
        note: "",
    },
];

#[test]
fn writes_that_fail_behind_a_script(rt: HostRuntime) -> Result<(), Fail> {
    let mut ok = true;
    for row in FAILING {
        for run in SCRIPTED {
            let report = report_of(rt.alloc(), run)?;
            let front = &report.as_bytes()[..report.len().min(row.written)];
            let left = left_by(&rt, rt.alloc(), run, &[], &[row.write])?;
            ok &= left.status == row.status && left.report.bytes() == front;
            ok &= left.notes.bytes() == row.note.as_bytes();
        }
    }
    assert_eq!(rt; ok, true);
    Ok(())
}

// Up to a leader that is to vote for the start of the launch.
const LEADS: &str = "\
cronrun 1
replicas 3
window 2024-03-31T00:00Z 2024-03-31T04:00Z
grace 0
crontab alice UTC 1
0 1 * * * true
script
campaign 0
round 2024-03-31T01:00Z 1
";

const LEADS_REPORT: &str = "\
cron report 1
window 2024-03-31T00:00Z 2024-03-31T04:00Z
replicas 3
jobs 1
job alice:1 launched 1 void 0
launch alice:1@20240331T0100Z
end
";

// What the last syncs left, the stopped call done, and the bytes 0 and 1 in all that was written since.
const IMAGES: &[u8] = &[0, 1, 2, 5];

#[test]
fn a_leader_stops_as_it_votes(rt: HostRuntime) -> Result<(), Fail> {
    for calls in 0..4_u8 {
        for image in IMAGES {
            let input = format!(in rt.alloc();
                "{LEADS}break 0 {calls} {image}\nround 2024-03-31T01:00Z 1\nend\n"
            )?;
            let args = args_of(rt.alloc(), &[])?;
            let left = play(&rt, rt.alloc(), Ok(args), &input, &[])?;
            let told = left.report.bytes() == LEADS_REPORT.as_bytes();
            assert!(rt; left.status == 0 && told, "{calls} {image}");
        }
    }
    Ok(())
}
