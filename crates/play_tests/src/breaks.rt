//! Scripts in which disks are armed: who stops, what else happens in the round, and what the stop leaves.
use crate::worlds::told_of;
use std::alloc::Global;
use std::test::*;

// A run of so many replicas, with a script; how its journal begins, and how its report ends.
struct Broken {
    members: u8,
    commands: &'static str,
    turns: &'static str,
    jobs: &'static str,
}

const LAUNCHED: &str =
    "jobs 1\njob alice:1 launched 1 void 0\nlaunch alice:1@20240331T0100Z\nend\n";

const GIVEN_UP: &str = "jobs 1\njob alice:1 launched 0 void 1\nvoid alice:1@20240331T0100Z\nend\n";

// By `tools/small_world`.
const BROKEN: &[Broken] = &[
    // The calls are counted over changes: a ballot takes four, and the third of the vote's is stopped.
    Broken {
        members: 1,
        commands: "break 0 6 1\ncampaign 0\nround 2024-03-31T01:00Z 3\n",
        turns: "\
command 1
command 2
0 0 campaign
command 3
1 0 stop kept tick 2024-03-31T01:00Z
command end
",
        jobs: LAUNCHED,
    },
    // Another `break` begins the count anew.
    Broken {
        members: 1,
        commands: "break 0 5 1\ncampaign 0\nbreak 0 5 1\nround 2024-03-31T01:00Z 3\n",
        turns: "\
command 1
command 2
0 0 campaign
command 3
command 4
1 0 tick 2024-03-31T01:00Z
2 0 tick 2024-03-31T01:00Z done alice:1@20240331T0100Z launch
3 0 stop lost answer
command end
",
        jobs: LAUNCHED,
    },
    // It takes the place of the one before.
    Broken {
        members: 1,
        commands: "break 0 0 0\nbreak 0 4294967295 0\ncampaign 0\n",
        turns: "\
command 1
command 2
command 3
0 0 campaign
command end
",
        jobs: LAUNCHED,
    },
    // Who is stopped isn't armed, and who stops is armed no more.
    Broken {
        members: 1,
        commands: "stop 0\nbreak 0 0 1\nrestart 0\ncampaign 0\n",
        turns: "\
command 1
0 0 stop
command 2
command 3
1 0 restart
command 4
2 0 campaign
command end
",
        jobs: LAUNCHED,
    },
    Broken {
        members: 1,
        commands: "break 0 0 1\nstop 0\nrestart 0\ncampaign 0\n",
        turns: "\
command 1
command 2
0 0 stop
command 3
1 0 restart
command 4
2 0 campaign
command end
",
        jobs: LAUNCHED,
    },
    Broken {
        members: 1,
        commands: "break 0 0 1\ncampaign 0\nrestart 0\ncampaign 0\n",
        turns: "\
command 1
command 2
0 0 stop lost campaign
command 3
1 0 restart
command 4
2 0 campaign
command end
",
        jobs: LAUNCHED,
    },
    // Nor is who settles, within the script or at its end.
    Broken {
        members: 1,
        commands: "break 0 0 1\nsettle 2024-03-31T01:00Z\n",
        turns: "\
command 1
command 2
0 0 campaign
",
        jobs: LAUNCHED,
    },
    Broken {
        members: 1,
        commands: "break 0 0 1\nwalk 2024-03-31T01:00Z\n",
        turns: "\
command 1
command 2
0 0 campaign
",
        jobs: LAUNCHED,
    },
    Broken {
        members: 1,
        commands: "break 0 0 1\n",
        turns: "\
command 1
command end
0 0 campaign
",
        jobs: LAUNCHED,
    },
    // A candidate that stops sends no letter, though its ballot is kept.
    Broken {
        members: 3,
        commands: "break 0 3 1\ncampaign 0\nround 2024-03-31T01:00Z 1\n",
        turns: "\
command 1
command 2
0 0 stop kept campaign
command 3
1 1 tick 2024-03-31T01:00Z
2 2 tick 2024-03-31T01:00Z
command end
",
        jobs: LAUNCHED,
    },
    // Letter 0 waits twice for replica 1. It has no more turns in the round in which it stops, and hears nothing once it has started.
    Broken {
        members: 3,
        commands: "campaign 0\nagain 0\nbreak 1 0 1\nround 2024-03-31T01:00Z 1\nrestart 1\nround 2024-03-31T01:00Z 1\n",
        turns: "\
command 1
0 0 campaign
command 2
command 3
command 4
1 0 tick 2024-03-31T01:00Z
2 1 stop lost hear 0
3 2 hear 1
4 2 tick 2024-03-31T01:00Z
command 5
5 1 restart
command 6
6 0 hear 2
7 0 tick 2024-03-31T01:00Z
8 1 tick 2024-03-31T01:00Z
9 2 tick 2024-03-31T01:00Z
command end
",
        jobs: LAUNCHED,
    },
    // Nobody hears of replica 2's ballot, the third of the first round. Where replica 1 has kept its promise, its own ballot is of the
    // second round, and it leads by replica 2's promise; else it is the second of the first round, and nobody leads until it is too late.
    Broken {
        members: 3,
        commands: "campaign 2\ndrop 2 0\ndrop 2 1\ncampaign 0\nbreak 1 2 1\nround 2024-03-31T01:00Z 1\nstop 0\n\
            restart 1\ncampaign 1\nround 2024-03-31T01:00Z 6\nround 2024-03-31T01:06Z 1\n",
        turns: "\
command 1
0 2 campaign
command 2
command 3
command 4
1 0 campaign
command 5
command 6
2 0 tick 2024-03-31T01:00Z
3 1 stop kept hear 2
4 2 hear 3
5 2 tick 2024-03-31T01:00Z
",
        jobs: LAUNCHED,
    },
    Broken {
        members: 3,
        commands: "campaign 2\ndrop 2 0\ndrop 2 1\ncampaign 0\nbreak 1 2 0\nround 2024-03-31T01:00Z 1\nstop 0\n\
            restart 1\ncampaign 1\nround 2024-03-31T01:00Z 6\nround 2024-03-31T01:06Z 1\n",
        turns: "\
command 1
0 2 campaign
command 2
command 3
command 4
1 0 campaign
command 5
command 6
2 0 tick 2024-03-31T01:00Z
3 1 stop lost hear 2
4 2 hear 3
5 2 tick 2024-03-31T01:00Z
",
        jobs: GIVEN_UP,
    },
    // The end of a launch is kept; or it is lost, and the launch is called for again.
    Broken {
        members: 1,
        commands: "campaign 0\nround 2024-03-31T01:00Z 2\nbreak 0 2 1\nround 2024-03-31T01:00Z 1\nrestart 0\n\
            campaign 0\nround 2024-03-31T01:00Z 4\n",
        turns: "\
command 1
0 0 campaign
command 2
1 0 tick 2024-03-31T01:00Z
2 0 tick 2024-03-31T01:00Z done alice:1@20240331T0100Z launch
command 3
command 4
3 0 stop kept answer
command 5
4 0 restart
command 6
5 0 campaign
command 7
6 0 tick 2024-03-31T01:00Z
7 0 tick 2024-03-31T01:00Z
8 0 tick 2024-03-31T01:00Z
9 0 tick 2024-03-31T01:00Z
command end
",
        jobs: LAUNCHED,
    },
    Broken {
        members: 1,
        commands: "campaign 0\nround 2024-03-31T01:00Z 2\nbreak 0 2 0\nround 2024-03-31T01:00Z 1\nrestart 0\n\
            campaign 0\nround 2024-03-31T01:00Z 4\n",
        turns: "\
command 1
0 0 campaign
command 2
1 0 tick 2024-03-31T01:00Z
2 0 tick 2024-03-31T01:00Z done alice:1@20240331T0100Z launch
command 3
command 4
3 0 stop lost answer
command 5
4 0 restart
command 6
5 0 campaign
command 7
6 0 tick 2024-03-31T01:00Z
7 0 tick 2024-03-31T01:00Z done alice:1@20240331T0100Z launch
8 0 answer
9 0 tick 2024-03-31T01:00Z
10 0 tick 2024-03-31T01:00Z
command end
",
        jobs: LAUNCHED,
    },
    // Another leads on, and ends the launch.
    Broken {
        members: 3,
        commands: "campaign 0\nround 2024-03-31T01:00Z 3\nbreak 0 2 0\nround 2024-03-31T01:00Z 1\ncampaign 1\n\
            round 2024-03-31T01:06Z 6\n",
        turns: "\
command 1
0 0 campaign
command 2
1 0 tick 2024-03-31T01:00Z
2 1 hear 0
3 1 tick 2024-03-31T01:00Z
4 2 hear 1
5 2 tick 2024-03-31T01:00Z
6 0 hear 2
7 0 hear 3
8 0 tick 2024-03-31T01:00Z
9 1 tick 2024-03-31T01:00Z
10 2 tick 2024-03-31T01:00Z
11 0 tick 2024-03-31T01:00Z
12 1 hear 4
13 1 tick 2024-03-31T01:00Z
14 2 hear 5
15 2 tick 2024-03-31T01:00Z
command 3
command 4
16 0 hear 6
17 0 hear 7
18 0 tick 2024-03-31T01:00Z done alice:1@20240331T0100Z launch
19 1 tick 2024-03-31T01:00Z
20 2 tick 2024-03-31T01:00Z
command 5
21 1 campaign
command 6
22 0 stop lost answer
23 1 hear 8
24 1 tick 2024-03-31T01:06Z
25 2 hear 9
26 2 hear 11
27 2 tick 2024-03-31T01:06Z
28 1 hear 12
29 1 tick 2024-03-31T01:06Z done alice:1@20240331T0100Z launch
30 2 tick 2024-03-31T01:06Z
31 1 answer
",
        jobs: LAUNCHED,
    },
    // A clock, a fate and a cut stay over a stop.
    Broken {
        members: 3,
        commands: "skew 0 3\nfate 0 late\ncut 0 1\nbreak 0 0 0\ncampaign 0\nrestart 0\ncampaign 0\n\
            round 2024-03-31T01:00Z 4\n",
        turns: "\
command 1
command 2
command 3
command 4
command 5
0 0 stop lost campaign
command 6
1 0 restart
command 7
2 0 campaign
command 8
3 0 tick 2024-03-31T01:03Z
4 1 tick 2024-03-31T01:00Z
5 2 hear 1
6 2 tick 2024-03-31T01:00Z
7 0 hear 2
8 0 tick 2024-03-31T01:03Z
9 1 tick 2024-03-31T01:00Z
10 2 tick 2024-03-31T01:00Z
11 0 tick 2024-03-31T01:03Z
12 1 tick 2024-03-31T01:00Z
13 2 hear 4
14 2 tick 2024-03-31T01:00Z
15 0 hear 5
16 0 tick 2024-03-31T01:03Z late
17 1 tick 2024-03-31T01:00Z
18 2 tick 2024-03-31T01:00Z
command end
",
        jobs: LAUNCHED,
    },
    // The walk begins at the clock reading of the tick that was stopped.
    Broken {
        members: 1,
        commands: "campaign 0\nskew 0 3\nbreak 0 0 0\nround 2024-03-31T01:00Z 1\n",
        turns: "\
command 1
0 0 campaign
command 2
command 3
command 4
1 0 stop lost tick 2024-03-31T01:03Z
command end
2 0 restart
3 0 campaign
4 0 tick 2024-03-31T01:03Z
",
        jobs: LAUNCHED,
    },
    // A free turn that is stopped is the last one.
    Broken {
        members: 1,
        commands: "break 0 4 1\nfree 2024-03-31T01:00Z 5\n",
        turns: "\
command 1
command 2
0 0 campaign
1 0 stop lost tick 2024-03-31T01:00Z
command end
",
        jobs: LAUNCHED,
    },
    Broken {
        members: 2,
        commands: "stop 1\nbreak 0 0 1\nfree 2024-03-31T01:00Z 3\nrestart 0\nfree 2024-03-31T01:00Z 2\n",
        turns: "\
command 1
0 1 stop
command 2
command 3
1 0 stop lost campaign
command 4
2 0 restart
command 5
3 0 campaign
4 0 tick 2024-03-31T01:00Z
command end
",
        jobs: LAUNCHED,
    },
];

// Its run file, with one job at 01:00, which may be launched up to five minutes later.
fn text_of(alloc: Global, run: &Broken) -> Result<String, Fail> {
    Ok(format!(in alloc;
        "cronrun 1\nreplicas {}\nwindow 2024-03-31T00:00Z 2024-03-31T04:00Z\ngrace 5\n\
        crontab alice UTC 1\n0 1 * * * true\nscript\n{}end\n",
        run.members, run.commands
    )?)
}

// Whether a report and the journal behind it are those of the run.
fn is_told(told: &str, run: &Broken) -> bool {
    match told.split_once("cron journal 1\n") {
        Some((report, journal)) => report.ends_with(run.jobs) && journal.starts_with(run.turns),
        None => false,
    }
}

#[test]
fn scripts_with_stops(rt: HostRuntime) -> Result<(), Fail> {
    for run in BROKEN {
        let text = text_of(rt.alloc(), run)?;
        let plain = told_of(&rt, rt.alloc(), &text, 1)?;
        assert!(rt; is_told(&plain, run), "{} {plain}", run.commands);
        let shared = told_of(&rt, rt.alloc(), &text, 3)?;
        assert!(rt; plain == shared, "{} {shared}", run.commands);
    }
    Ok(())
}
