//! The journal behind a report, through the whole program.
use crate::program::{args_of, play};
use crate::runs::{THREE_LAUNCHES, THREE_LAUNCHES_REPORT};
use std::test::Fail;

// A launch whose first call is lost, and whose second one arrives late.
const TWO_CALLS: &str = "\
cronrun 1
replicas 1
window 2024-03-31T00:00Z 2024-03-31T01:00Z
grace 5
crontab alice UTC 1
30 0 * * * true
script
campaign 0
fate 0 lost-before
round 2024-03-31T00:30Z 2
fate 0 late
round 2024-03-31T00:31Z 1
stop 0
arrive 0
restart 0
end
";

// Its report, and its journal as `tools/small_world` works it out.
const TWO_CALLS_TOLD: &str = "\
cron report 1
window 2024-03-31T00:00Z 2024-03-31T01:00Z
replicas 1
jobs 1
job alice:1 launched 1 void 0
launch alice:1@20240331T0030Z
end
cron journal 1
command 1
0 0 campaign
command 2
command 3
1 0 tick 2024-03-31T00:30Z
2 0 tick 2024-03-31T00:30Z lost-before
command 4
command 5
3 0 tick 2024-03-31T00:31Z late
command 6
4 0 stop
command 7
5 - arrive 0
command 8
6 0 restart
command end
7 0 campaign
8 0 tick 2024-03-31T00:31Z
9 0 tick 2024-03-31T00:31Z done alice:1@20240331T0030Z launch
10 0 answer
11 0 tick 2024-03-31T00:31Z
end
";

// A disk stops as a promise is saved, which is lost, and one as the leader's vote is, which is kept.
const TWO_STOPS: &str = "\
cronrun 1
replicas 3
window 2024-03-31T00:00Z 2024-03-31T01:00Z
grace 5
crontab alice UTC 1
30 0 * * * true
script
campaign 0
break 1 3 2
round 2024-03-31T00:30Z 1
restart 1
break 0 2 5
round 2024-03-31T00:30Z 1
restart 0
end
";

const TWO_STOPS_TOLD: &str = "\
cron report 1
window 2024-03-31T00:00Z 2024-03-31T01:00Z
replicas 3
jobs 1
job alice:1 launched 1 void 0
launch alice:1@20240331T0030Z
end
cron journal 1
command 1
0 0 campaign
command 2
command 3
1 0 tick 2024-03-31T00:30Z
2 1 stop lost hear 0
3 2 hear 1
4 2 tick 2024-03-31T00:30Z
command 4
5 1 restart
command 5
command 6
6 0 hear 2
7 0 stop kept tick 2024-03-31T00:30Z
8 1 tick 2024-03-31T00:30Z
9 2 tick 2024-03-31T00:30Z
command 7
10 0 restart
command end
11 0 campaign
12 0 tick 2024-03-31T00:30Z
13 1 hear 3
14 1 tick 2024-03-31T00:30Z
15 2 hear 4
16 2 tick 2024-03-31T00:30Z
17 0 hear 5
18 0 hear 6
19 0 tick 2024-03-31T00:30Z
20 1 tick 2024-03-31T00:30Z
21 2 tick 2024-03-31T00:30Z
22 0 tick 2024-03-31T00:30Z
23 1 hear 7
24 1 tick 2024-03-31T00:30Z
25 2 hear 8
26 2 tick 2024-03-31T00:30Z
27 0 hear 9
28 0 hear 10
29 0 tick 2024-03-31T00:30Z done alice:1@20240331T0030Z launch
30 1 tick 2024-03-31T00:30Z
31 2 tick 2024-03-31T00:30Z
32 0 answer
33 0 tick 2024-03-31T00:30Z
34 1 hear 11
35 1 tick 2024-03-31T00:30Z
36 2 hear 12
37 2 tick 2024-03-31T00:30Z
38 0 tick 2024-03-31T00:30Z
39 1 hear 13
40 1 tick 2024-03-31T00:30Z
41 2 hear 14
42 2 tick 2024-03-31T00:30Z
43 0 hear 15
44 0 hear 16
45 0 tick 2024-03-31T00:30Z
46 1 tick 2024-03-31T00:30Z
47 2 tick 2024-03-31T00:30Z
48 0 tick 2024-03-31T00:30Z
49 1 hear 17
50 1 hear 19
51 1 tick 2024-03-31T00:30Z
52 2 hear 18
53 2 hear 20
54 2 tick 2024-03-31T00:30Z
end
";

// A run file, and its report with the journal behind it.
struct Told {
    input: &'static str,
    told: &'static str,
}

const TOLD: &[Told] = &[
    Told {
        input: TWO_CALLS,
        told: TWO_CALLS_TOLD,
    },
    Told {
        input: TWO_STOPS,
        told: TWO_STOPS_TOLD,
    },
];

const JOURNAL: &[&[&str]] = &[
    &["--journal"],
    &["--journal", "--lanes", "3"],
    &["--lanes=3", "--journal"],
];

#[test]
fn a_journal_stands_behind_the_report(rt: HostRuntime) -> Result<(), Fail> {
    for words in JOURNAL {
        for run in TOLD {
            let args = args_of(rt.alloc(), words)?;
            let left = play(&rt, rt.alloc(), Ok(args), run.input, &[])?;
            assert!(rt; left.status == 0, "{words:?}");
            let told = left.report.bytes() == run.told.as_bytes();
            assert!(rt; told, "{words:?} {}", run.input);
            assert!(rt; left.notes.bytes().is_empty(), "{words:?}");
        }
    }
    Ok(())
}

// How the journal of a run without commands begins: its one part is the walk.
const WALK: &str = "\
cron journal 1
command end
0 0 campaign
1 0 tick 2024-03-31T00:00Z
2 0 tick 2024-03-31T00:00Z done alice:1@20240331T0000Z launch
3 0 answer
4 0 tick 2024-03-31T00:00Z
";

#[test]
fn a_walk_is_the_last_part(rt: HostRuntime) -> Result<(), Fail> {
    let args = args_of(rt.alloc(), &["--journal"])?;
    let left = play(&rt, rt.alloc(), Ok(args), THREE_LAUNCHES, &[])?;
    assert_eq!(rt; left.status, 0);
    let told = std::str::from_utf8(left.report.bytes())?;
    let Some(journal) = told.strip_prefix(THREE_LAUNCHES_REPORT) else {
        return Err(Fail::from("no report"));
    };
    assert!(rt; journal.starts_with(WALK), "{journal}");
    Ok(())
}

// A write that fails, by its number from 0, and how many lines are written then. The report has seven.
#[derive(Debug)]
struct Cut {
    write: u64,
    lines: usize,
}

const CUTS: &[Cut] = &[
    Cut { write: 6, lines: 6 },
    Cut { write: 7, lines: 7 },
    Cut { write: 8, lines: 8 },
];

#[test]
fn a_fault_leaves_the_lines_before_it(rt: HostRuntime) -> Result<(), Fail> {
    for cut in CUTS {
        let args = args_of(rt.alloc(), &["--journal"])?;
        let left = play(&rt, rt.alloc(), Ok(args), TWO_CALLS, &[cut.write])?;
        let written = std::str::from_utf8(left.report.bytes())?;
        assert!(rt; left.status == 4, "{cut:?}");
        assert!(rt; TWO_CALLS_TOLD.starts_with(written), "{cut:?}");
        assert!(rt; written.lines().count() == cut.lines, "{cut:?}");
        let noted = left.notes.bytes() == "cron_cluster: write fault\n".as_bytes();
        assert!(rt; noted, "{cut:?}");
    }
    Ok(())
}
