//! What was seen of the board, between the report and the journal, through the whole program.
use crate::program::{args_of, play};
use crate::runs::THREE_LAUNCHES_REPORT;
use std::alloc::Global;
use std::test::Fail;

// The commands of a script, and what is written of the board. Each launch is made, whatever the script.
struct Watched {
    commands: &'static str,
    seen: &'static str,
}

const WATCHED: &[Watched] = &[
    // The start of a launch is learned, and then its end too.
    Watched {
        commands: "free 2024-03-31T00:00Z 2\n",
        seen: "watch 1 1 1\n",
    },
    Watched {
        commands: "free 2024-03-31T00:00Z 20\n",
        seen: "watch 1 2 0\n",
    },
    Watched {
        commands: "free 2024-03-31T00:00Z 2\nheal\nfree 2024-03-31T00:00Z 2\n",
        seen: "watch 1 1 1\nwatch 3 2 0\n",
    },
    // A replica that is stopped has no turn.
    Watched {
        commands: "stop 0\nfree 2024-03-31T00:00Z 20\n",
        seen: "watch 2 0 0\n",
    },
    // Where there are no free turns, nothing is seen.
    Watched {
        commands: "campaign 0\nround 2024-03-31T00:00Z 2\n",
        seen: "",
    },
    Watched {
        commands: "",
        seen: "",
    },
];

// The run of such a script.
fn input_of(alloc: Global, commands: &str) -> Result<String, Fail> {
    Ok(format!(in alloc;
        "cronrun 1\nreplicas 1\nwindow 2024-03-31T00:00Z 2024-03-31T01:00Z\ngrace 0\n\
        crontab alice UTC 1\n0,20,40 * * * * echo hi\nscript\n{commands}end\n"
    )?)
}

// The report of such a run, and what follows it.
fn after_report(alloc: Global, more: &str) -> Result<String, Fail> {
    Ok(format!(in alloc; "{}{more}", THREE_LAUNCHES_REPORT)?)
}

const WATCH: &[&[&str]] = &[
    &["--watch"],
    &["--watch", "--lanes", "3"],
    &["--lanes=3", "--watch"],
];

#[test]
fn what_was_seen_stands_after_the_report(rt: HostRuntime) -> Result<(), Fail> {
    for words in WATCH {
        for row in WATCHED {
            let args = args_of(rt.alloc(), words)?;
            let input = input_of(rt.alloc(), row.commands)?;
            let left = play(&rt, rt.alloc(), Ok(args), &input, &[])?;
            let told = after_report(rt.alloc(), row.seen)?;
            assert!(rt; left.status == 0, "{words:?}");
            let same = left.report.bytes() == told.as_bytes();
            assert!(rt; same, "{words:?} {}", row.commands);
            assert!(rt; left.notes.bytes().is_empty(), "{words:?}");
        }
    }
    Ok(())
}

const BOTH: &[&[&str]] = &[
    &["--watch", "--journal"],
    &["--journal", "--watch"],
    &["--journal", "--lanes=3", "--watch"],
];

// A script, and what is written after the report: what was seen of the board, and the journal as `tools/small_world` works it out.
struct Told {
    commands: &'static str,
    told: &'static str,
}

const TOLD: &[Told] = &[
    Told {
        commands: "free 2024-03-31T00:00Z 2\nstop 0\nfree 2024-03-31T00:00Z 20\n",
        told: "\
watch 1 1 1
watch 3 1 1
cron journal 1
command 1
0 0 campaign
1 0 tick 2024-03-31T00:00Z
command 2
2 0 stop
command 3
command end
3 0 restart
4 0 campaign
5 0 tick 2024-03-31T00:00Z
6 0 tick 2024-03-31T00:00Z done alice:1@20240331T0000Z launch
7 0 answer
8 0 tick 2024-03-31T00:00Z
9 0 tick 2024-03-31T00:20Z
10 0 tick 2024-03-31T00:20Z done alice:1@20240331T0020Z launch
11 0 answer
12 0 tick 2024-03-31T00:20Z
13 0 tick 2024-03-31T00:40Z
14 0 tick 2024-03-31T00:40Z done alice:1@20240331T0040Z launch
15 0 answer
16 0 tick 2024-03-31T00:40Z
end
",
    },
    Told {
        commands: "",
        told: "\
cron journal 1
command end
0 0 campaign
1 0 tick 2024-03-31T00:00Z
2 0 tick 2024-03-31T00:00Z done alice:1@20240331T0000Z launch
3 0 answer
4 0 tick 2024-03-31T00:00Z
5 0 tick 2024-03-31T00:20Z
6 0 tick 2024-03-31T00:20Z done alice:1@20240331T0020Z launch
7 0 answer
8 0 tick 2024-03-31T00:20Z
9 0 tick 2024-03-31T00:40Z
10 0 tick 2024-03-31T00:40Z done alice:1@20240331T0040Z launch
11 0 answer
12 0 tick 2024-03-31T00:40Z
end
",
    },
];

#[test]
fn what_was_seen_stands_before_the_journal(rt: HostRuntime) -> Result<(), Fail> {
    for words in BOTH {
        for row in TOLD {
            let args = args_of(rt.alloc(), words)?;
            let input = input_of(rt.alloc(), row.commands)?;
            let left = play(&rt, rt.alloc(), Ok(args), &input, &[])?;
            let told = after_report(rt.alloc(), row.told)?;
            assert!(rt; left.status == 0, "{words:?}");
            let same = left.report.bytes() == told.as_bytes();
            assert!(rt; same, "{words:?} {}", row.commands);
            assert!(rt; left.notes.bytes().is_empty(), "{words:?}");
        }
    }
    Ok(())
}

// A write that fails, by its number from 0, and how many lines are written then. The report has nine, each of them one write, and
// what was seen is one write.
#[derive(Debug)]
struct Cut {
    write: u64,
    lines: usize,
}

const CUTS: &[Cut] = &[
    Cut { write: 8, lines: 8 },
    Cut { write: 9, lines: 9 },
    Cut {
        write: 10,
        lines: 11,
    },
    Cut {
        write: 11,
        lines: 12,
    },
];

#[test]
fn a_fault_leaves_the_lines_before_it(rt: HostRuntime) -> Result<(), Fail> {
    let commands = "free 2024-03-31T00:00Z 2\nfree 2024-03-31T00:00Z 2\n";
    let input = input_of(rt.alloc(), commands)?;
    let told = after_report(rt.alloc(), "watch 1 1 1\nwatch 2 2 0\ncron journal 1\n")?;
    for cut in CUTS {
        let args = args_of(rt.alloc(), &["--watch", "--journal"])?;
        let left = play(&rt, rt.alloc(), Ok(args), &input, &[cut.write])?;
        let written = std::str::from_utf8(left.report.bytes())?;
        assert!(rt; left.status == 4, "{cut:?}");
        assert!(rt; told.starts_with(written), "{cut:?}");
        assert!(rt; written.lines().count() == cut.lines, "{cut:?}");
        let noted = left.notes.bytes() == "cron_cluster: write fault\n".as_bytes();
        assert!(rt; noted, "{cut:?}");
    }
    Ok(())
}
