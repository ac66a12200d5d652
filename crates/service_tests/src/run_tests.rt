//! What whole runs leave.
use crate::anacron_runs::{
    CRONIE, CRONIE_REPORT, HOURS, SLASH, UP_TO_THE_FIRST_MINUTE, UP_TO_THE_FIRST_MINUTE_JOBS,
    WITH_THE_FIRST_MINUTE, WITH_THE_FIRST_MINUTE_JOBS,
};
use crate::play::{Faults, NO_FAULTS, play, show};
use crate::runs::{
    CHOICE, CHOICE_JOBS, CUT, DAY_RULE, DAY_RULE_REPORT, FOREIGN_ZONE, LATE_VERSION,
    LATE_VERSION_REPORT, NEVER, NEVER_REPORT, NO_SECTION, NO_SECTION_REPORT, NOT_TEXT, ONE_LABEL,
    RENAMED_JOB, RENAMED_JOB_REPORT, SYSTEM, SYSTEM_JOBS, THREE_LAUNCHES, THREE_LAUNCHES_REPORT,
    TWO_VERSIONS, TWO_VERSIONS_REPORT, VERSION_LEFT_OUT, ZERO_BYTE, ZONE_LINE, ZONE_RULE,
};
use std::test::Fail;

// A run file, and a part of its report.
struct Reported {
    input: &'static str,
    report: &'static str,
}

const REPORTED: &[Reported] = &[
    Reported {
        input: THREE_LAUNCHES,
        report: THREE_LAUNCHES_REPORT,
    },
    Reported {
        input: NO_SECTION,
        report: NO_SECTION_REPORT,
    },
    Reported {
        input: DAY_RULE,
        report: DAY_RULE_REPORT,
    },
    Reported {
        input: NEVER,
        report: NEVER_REPORT,
    },
    Reported {
        input: CRONIE,
        report: CRONIE_REPORT,
    },
    Reported {
        input: SYSTEM,
        report: SYSTEM_JOBS,
    },
    Reported {
        input: CHOICE,
        report: CHOICE_JOBS,
    },
    Reported {
        input: UP_TO_THE_FIRST_MINUTE,
        report: UP_TO_THE_FIRST_MINUTE_JOBS,
    },
    Reported {
        input: WITH_THE_FIRST_MINUTE,
        report: WITH_THE_FIRST_MINUTE_JOBS,
    },
    Reported {
        input: TWO_VERSIONS,
        report: TWO_VERSIONS_REPORT,
    },
    Reported {
        input: LATE_VERSION,
        report: LATE_VERSION_REPORT,
    },
    Reported {
        input: RENAMED_JOB,
        report: RENAMED_JOB_REPORT,
    },
];

#[test]
fn reports(rt: HostRuntime) -> Result<(), Fail> {
    for row in REPORTED {
        let left = play(&rt, rt.alloc(), row.input.as_bytes(), &NO_FAULTS)?;
        let shown = show(rt.alloc(), &left)?;
        assert!(rt; shown.starts_with("0\n"), "{}", row.input);
        assert!(rt; shown.contains(row.report), "{}", row.input);
    }
    Ok(())
}

// A run file, and the note of its refusal.
struct Refused {
    input: &'static str,
    shown: &'static str,
}

const REFUSED: &[Refused] = &[
    Refused {
        input: ZONE_LINE,
        shown: "2\ncron_cluster: line 5: cause 34 at 0\n",
    },
    Refused {
        input: ZONE_RULE,
        shown: "2\ncron_cluster: line 6: cause 32 at 0\n",
    },
    Refused {
        input: FOREIGN_ZONE,
        shown: "2\ncron_cluster: line 6: cause 21 at 0\n",
    },
    Refused {
        input: ONE_LABEL,
        shown: "2\ncron_cluster: line 8: cause 22 at 0\n",
    },
    Refused {
        input: CUT,
        shown: "2\ncron_cluster: line 8: cause 31 at 0\n",
    },
    Refused {
        input: "",
        shown: "2\ncron_cluster: line 1: cause 25 at 0\n",
    },
    Refused {
        input: ZERO_BYTE,
        shown: "2\ncron_cluster: line 6: cause 15 at 0\n",
    },
    Refused {
        input: SLASH,
        shown: "2\ncron_cluster: line 7: cause 18 at 4\n",
    },
    Refused {
        input: VERSION_LEFT_OUT,
        shown: "2\ncron_cluster: line 7: cause 36 at 0\n",
    },
    Refused {
        input: HOURS,
        shown: "2\ncron_cluster: line 6: cause 19 at 18\n",
    },
];

#[test]
fn refusals(rt: HostRuntime) -> Result<(), Fail> {
    for row in REFUSED {
        let left = play(&rt, rt.alloc(), row.input.as_bytes(), &NO_FAULTS)?;
        assert_eq!(rt;
            show(rt.alloc(), &left)?.as_str(),
            row.shown,
            "{}",
            row.input
        );
    }
    let left = play(&rt, rt.alloc(), NOT_TEXT, &NO_FAULTS)?;
    assert_eq!(rt;
        left.notes.bytes(),
        b"cron_cluster: line 2: cause 15 at 0\n".as_slice()
    );
    Ok(())
}

// Calls that fail, and what is left then.
struct Faulty {
    input: &'static str,
    faults: Faults,
    shown: &'static str,
}

const FAULTY: &[Faulty] = &[
    Faulty {
        input: THREE_LAUNCHES,
        faults: Faults {
            reads: &[0],
            writes: &[],
            notes: &[],
        },
        shown: "3\ncron_cluster: read fault\n",
    },
    Faulty {
        input: THREE_LAUNCHES,
        faults: Faults {
            reads: &[1],
            writes: &[],
            notes: &[],
        },
        shown: "3\ncron_cluster: read fault\n",
    },
    Faulty {
        input: THREE_LAUNCHES,
        faults: Faults {
            reads: &[],
            writes: &[0],
            notes: &[],
        },
        shown: "4\ncron_cluster: write fault\n",
    },
    Faulty {
        input: THREE_LAUNCHES,
        faults: Faults {
            reads: &[],
            writes: &[1],
            notes: &[],
        },
        shown: "4\ncron report 1\ncron_cluster: write fault\n",
    },
    Faulty {
        input: ZONE_LINE,
        faults: Faults {
            reads: &[],
            writes: &[],
            notes: &[0],
        },
        shown: "2\n",
    },
];

#[test]
fn faults(rt: HostRuntime) -> Result<(), Fail> {
    for row in FAULTY {
        let left = play(&rt, rt.alloc(), row.input.as_bytes(), &row.faults)?;
        assert_eq!(rt; show(rt.alloc(), &left)?.as_str(), row.shown);
    }
    Ok(())
}

// How many bytes are kept of a run file that breaks off, and what is left of the run.
struct Cut {
    length: usize,
    shown: &'static str,
}

const CUTS: &[Cut] = &[
    Cut {
        length: 0,
        shown: "2\ncron_cluster: line 1: cause 25 at 0\n",
    },
    Cut {
        length: 10,
        shown: "2\ncron_cluster: line 2: cause 26 at 0\n",
    },
    Cut {
        length: 92,
        shown: "2\ncron_cluster: line 5: cause 29 at 0\n",
    },
    Cut {
        length: 93,
        shown: "2\ncron_cluster: line 6: cause 10 at 1\n",
    },
    Cut {
        length: 107,
        shown: "2\ncron_cluster: line 6: cause 11 at 15\n",
    },
    Cut {
        length: 116,
        shown: "2\ncron_cluster: line 7: cause 31 at 0\n",
    },
    Cut {
        length: 123,
        shown: "2\ncron_cluster: line 8: cause 31 at 0\n",
    },
    Cut {
        length: 125,
        shown: "2\ncron_cluster: line 8: cause 30 at 0\n",
    },
];

#[test]
fn run_files_that_break_off(rt: HostRuntime) -> Result<(), Fail> {
    let whole = THREE_LAUNCHES.as_bytes();
    for row in CUTS {
        let front = &whole[..whole.len().min(row.length)];
        let left = play(&rt, rt.alloc(), front, &NO_FAULTS)?;
        let shown = show(rt.alloc(), &left)?;
        assert_eq!(rt; shown.as_str(), row.shown);
    }
    Ok(())
}

// Only the last newline of 127 bytes may be missing.
#[test]
fn each_length_of_a_run_file(rt: HostRuntime) -> Result<(), Fail> {
    let whole = THREE_LAUNCHES.as_bytes();
    for length in 0..128 {
        let front = &whole[..whole.len().min(length)];
        let left = play(&rt, rt.alloc(), front, &NO_FAULTS)?;
        let status = if length < 126 { 2 } else { 0 };
        assert!(rt; left.end.status == status, "{length}");
    }
    Ok(())
}
