//! The audit of a run file with a report and a journal behind it, through the whole program.
use crate::play::{Faults, NO_FAULTS, play_words};
use crate::runs::{THREE_LAUNCHES, THREE_LAUNCHES_REPORT, TOO_LARGE};
use std::alloc::Global;
use std::test::Fail;

// The journal of the run.
const JOURNAL: &str = "\
cron journal 1
command end
0 0 campaign
1 0 tick 2024-03-31T00:00Z
2 0 tick 2024-03-31T00:00Z done alice:1@20240331T0000Z launch
3 0 answer
4 0 tick 2024-03-31T00:00Z
5 0 tick 2024-03-31T00:20Z
6 0 tick 2024-03-31T00:20Z done alice:1@20240331T0020Z launch
7 0 answer
8 0 tick 2024-03-31T00:20Z
9 0 tick 2024-03-31T00:40Z
10 0 tick 2024-03-31T00:40Z done alice:1@20240331T0040Z launch
11 0 answer
12 0 tick 2024-03-31T00:40Z
end
";

// A part of what is read that is changed, what stands there then, and the status, the line and the note that come of it.
#[derive(Debug)]
struct Row {
    old: &'static str,
    new: &'static str,
    status: u8,
    line: &'static str,
    note: &'static str,
}

const ROWS: &[Row] = &[
    Row {
        old: "",
        new: "",
        status: 0,
        line: "audit yes\n",
        note: "",
    },
    Row {
        old: "launched 3",
        new: "launched 2",
        status: 6,
        line: "audit no 5 5\n",
        note: "",
    },
    // Line 13, in place of which one has no form, one is that of no turn, and one isn't what the script asks for.
    Row {
        old: "1 0 tick 2024-03-31T00:00Z\n2 ",
        new: "x\n2 ",
        status: 6,
        line: "audit no 13 1\n",
        note: "",
    },
    Row {
        old: "1 0 tick 2024-03-31T00:00Z\n2 ",
        new: "1 0 answer\n2 ",
        status: 6,
        line: "audit no 13 2\n",
        note: "",
    },
    Row {
        old: "1 0 tick 2024-03-31T00:00Z\n2 ",
        new: "1 0 campaign\n2 ",
        status: 6,
        line: "audit no 13 3\n",
        note: "",
    },
    // The last line is missing.
    Row {
        old: "12 0 tick 2024-03-31T00:40Z\nend\n",
        new: "12 0 tick 2024-03-31T00:40Z\n",
        status: 6,
        line: "audit no 25 4\n",
        note: "",
    },
    // There is no report, so no journal either.
    Row {
        old: THREE_LAUNCHES_REPORT,
        new: "",
        status: 2,
        line: "",
        note: "cron_cluster: line 9: cause 30 at 0\n",
    },
    // The run is refused.
    Row {
        old: "0,20,40 * * * *",
        new: "60 * * * *",
        status: 2,
        line: "",
        note: "cron_cluster: line 6: cause 3 at 0\n",
    },
];

// The run, its report and its journal, in which a part is changed.
fn input_of(alloc: Global, old: &str, new: &str) -> Result<String, Fail> {
    let whole = format!(in alloc; "{}{}{}", THREE_LAUNCHES, THREE_LAUNCHES_REPORT, JOURNAL)?;
    Ok(whole.replacen(alloc, old, new, 1)?)
}

const AUDIT: &[&[&str]] = &[&["--audit"], &["--lanes=3", "--audit"]];

#[test]
fn what_stands_behind_a_run_is_judged(rt: HostRuntime) -> Result<(), Fail> {
    for words in AUDIT {
        for row in ROWS {
            let input = input_of(rt.alloc(), row.old, row.new)?;
            let left = play_words(&rt, rt.alloc(), words, input.as_bytes(), &NO_FAULTS)?;
            assert!(rt; left.end.status == row.status, "{row:?}");
            assert!(rt; left.report.bytes() == row.line.as_bytes(), "{row:?}");
            assert!(rt; left.notes.bytes() == row.note.as_bytes(), "{row:?}");
            assert!(rt; left.end.nodes.is_empty(), "{row:?}");
        }
    }
    Ok(())
}

// The one write fails.
const UNWRITTEN: Faults = Faults {
    reads: &[],
    writes: &[0],
    notes: &[],
};

// The first read fails.
const UNREAD: Faults = Faults {
    reads: &[0],
    writes: &[],
    notes: &[],
};

#[test]
fn a_fault_ends_an_audit(rt: HostRuntime) -> Result<(), Fail> {
    let input = input_of(rt.alloc(), "", "")?;
    let left = play_words(&rt, rt.alloc(), &["--audit"], input.as_bytes(), &UNWRITTEN)?;
    assert_eq!(rt; left.end.status, 4);
    assert!(rt; left.report.bytes().is_empty());
    assert_eq!(rt; left.end.book.ledger().held().len(), 3);
    let left = play_words(&rt, rt.alloc(), &["--audit"], input.as_bytes(), &UNREAD)?;
    assert_eq!(rt; left.end.status, 3);
    assert!(rt; left.end.book.ledger().held().is_empty());
    Ok(())
}

#[test]
fn a_run_that_is_too_large_is_refused(rt: HostRuntime) -> Result<(), Fail> {
    let input = " ".repeat(rt.alloc(), 1_048_577)?;
    let left = play_words(&rt, rt.alloc(), &["--audit"], input.as_bytes(), &NO_FAULTS)?;
    assert_eq!(rt; left.end.status, 2);
    assert_eq!(rt; left.notes.bytes(), TOO_LARGE.as_bytes());
    Ok(())
}
