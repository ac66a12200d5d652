//! The program by its arguments.
use crate::program::{args_of, play};
use crate::runs::{
    NO_FAULTS_CHECK, SKIPPED_HOUR, SKIPPED_HOUR_LIST, THREE_LAUNCHES, THREE_LAUNCHES_LIST,
    THREE_LAUNCHES_REPORT, TWO_FAULTS, TWO_FAULTS_CHECK,
};
use std::io::{self, ErrorKind};
use std::test::Fail;

#[test]
fn a_name_alone(rt: HostRuntime) -> Result<(), Fail> {
    let left = play(
        &rt,
        rt.alloc(),
        Ok(args_of(rt.alloc(), &[])?),
        THREE_LAUNCHES,
        &[],
    )?;
    assert_eq!(rt; left.status, 0);
    assert_eq!(rt; left.report.bytes(), THREE_LAUNCHES_REPORT.as_bytes());
    Ok(())
}

// Words, an input, the writes that fail, and the status and the text that come of it.
struct Listed {
    words: &'static [&'static str],
    input: &'static str,
    writes: &'static [u64],
    status: u8,
    text: &'static str,
}

const LISTED: &[Listed] = &[
    Listed {
        words: &["--list"],
        input: THREE_LAUNCHES,
        writes: &[],
        status: 0,
        text: THREE_LAUNCHES_LIST,
    },
    Listed {
        words: &["--list"],
        input: SKIPPED_HOUR,
        writes: &[],
        status: 0,
        text: SKIPPED_HOUR_LIST,
    },
    Listed {
        words: &["--check"],
        input: THREE_LAUNCHES,
        writes: &[],
        status: 0,
        text: NO_FAULTS_CHECK,
    },
    Listed {
        words: &["--check"],
        input: TWO_FAULTS,
        writes: &[],
        status: 0,
        text: TWO_FAULTS_CHECK,
    },
    Listed {
        words: &["--list"],
        input: TWO_FAULTS,
        writes: &[],
        status: 2,
        text: "",
    },
    Listed {
        words: &["--check"],
        input: "cronrun 2",
        writes: &[],
        status: 2,
        text: "",
    },
    Listed {
        words: &["--list"],
        input: THREE_LAUNCHES,
        writes: &[0],
        status: 4,
        text: "",
    },
    Listed {
        words: &["--check"],
        input: TWO_FAULTS,
        writes: &[0],
        status: 4,
        text: "",
    },
];

#[test]
fn lists_and_checks(rt: HostRuntime) -> Result<(), Fail> {
    for row in LISTED {
        let args = args_of(rt.alloc(), row.words)?;
        let left = play(&rt, rt.alloc(), Ok(args), row.input, row.writes)?;
        assert_eq!(rt; left.status, row.status);
        assert_eq!(rt; left.report.bytes(), row.text.as_bytes());
    }
    Ok(())
}

#[test]
fn arguments_at_fault(rt: HostRuntime) -> Result<(), Fail> {
    let fault = io::Error::from(ErrorKind::InvalidData);
    let left = play(&rt, rt.alloc(), Err(fault), THREE_LAUNCHES, &[])?;
    assert_eq!(rt; left.status, 1);
    let fault = io::Error::from(ErrorKind::OutOfMemory);
    let left = play(&rt, rt.alloc(), Err(fault), THREE_LAUNCHES, &[])?;
    assert_eq!(rt; left.status, 5);
    Ok(())
}

// A write of the report that fails, the status then, and how many bytes of the report stand in front of it. Each line is one
// write, and the report has nine.
#[derive(Debug)]
struct Failing {
    write: u64,
    status: u8,
    written: usize,
}

const FAILING: &[Failing] = &[
    Failing {
        write: 0,
        status: 4,
        written: 0,
    },
    Failing {
        write: 1,
        status: 4,
        written: 14,
    },
    Failing {
        write: 2,
        status: 4,
        written: 57,
    },
    Failing {
        write: 3,
        status: 4,
        written: 68,
    },
    Failing {
        write: 4,
        status: 4,
        written: 75,
    },
    Failing {
        write: 5,
        status: 4,
        written: 105,
    },
    Failing {
        write: 6,
        status: 4,
        written: 135,
    },
    Failing {
        write: 7,
        status: 4,
        written: 165,
    },
    Failing {
        write: 8,
        status: 4,
        written: 195,
    },
    Failing {
        write: 9,
        status: 0,
        written: 199,
    },
];

#[test]
fn each_write_of_a_report(rt: HostRuntime) -> Result<(), Fail> {
    let report = THREE_LAUNCHES_REPORT.as_bytes();
    for row in FAILING {
        let args = args_of(rt.alloc(), &[])?;
        let left = play(&rt, rt.alloc(), Ok(args), THREE_LAUNCHES, &[row.write])?;
        let front = &report[..report.len().min(row.written)];
        let ok = left.status == row.status && left.report.bytes() == front;
        assert!(rt; ok, "{row:?}");
    }
    Ok(())
}
