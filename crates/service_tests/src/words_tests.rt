//! What the words of a command line ask for, and which are at fault.
use crate::program::{args_of, play};
use crate::runs::{THREE_LAUNCHES, USAGE};
use program_options::{Asked, Output, Request, read_words};
use std::alloc::Global;
use std::env::Args;
use std::test::Fail;

// The words behind a program's name.
fn words_of(alloc: Global, words: &[&str]) -> Result<Args, Fail> {
    let mut args = args_of(alloc, words)?;
    let _name = args.next();
    Ok(args)
}

// Words, what they ask for, and on how many lanes.
struct Row {
    words: &'static [&'static str],
    request: Request,
    lanes: u8,
}

const REPORT: Request = Request::Text(Output::Report {
    watch: false,
    journal: false,
});

const JOURNAL: Request = Request::Text(Output::Report {
    watch: false,
    journal: true,
});

const WATCH: Request = Request::Text(Output::Report {
    watch: true,
    journal: false,
});

const BOTH: Request = Request::Text(Output::Report {
    watch: true,
    journal: true,
});

const ASKED: &[Row] = &[
    Row {
        words: &[],
        request: REPORT,
        lanes: 1,
    },
    Row {
        words: &["--list"],
        request: Request::Text(Output::DueList),
        lanes: 1,
    },
    Row {
        words: &["--check"],
        request: Request::Text(Output::Check),
        lanes: 1,
    },
    Row {
        words: &["--audit"],
        request: Request::Audit,
        lanes: 1,
    },
    Row {
        words: &["--audit", "--lanes", "3"],
        request: Request::Audit,
        lanes: 3,
    },
    Row {
        words: &["--lanes=3", "--audit"],
        request: Request::Audit,
        lanes: 3,
    },
    Row {
        words: &["--lanes", "1"],
        request: REPORT,
        lanes: 1,
    },
    Row {
        words: &["--lanes", "8"],
        request: REPORT,
        lanes: 8,
    },
    Row {
        words: &["--lanes=1"],
        request: REPORT,
        lanes: 1,
    },
    Row {
        words: &["--lanes=8"],
        request: REPORT,
        lanes: 8,
    },
    Row {
        words: &["--lanes", "3", "--list"],
        request: Request::Text(Output::DueList),
        lanes: 3,
    },
    Row {
        words: &["--list", "--lanes", "3"],
        request: Request::Text(Output::DueList),
        lanes: 3,
    },
    Row {
        words: &["--lanes=2", "--check"],
        request: Request::Text(Output::Check),
        lanes: 2,
    },
    Row {
        words: &["--check", "--lanes=2"],
        request: Request::Text(Output::Check),
        lanes: 2,
    },
    Row {
        words: &["--journal"],
        request: JOURNAL,
        lanes: 1,
    },
    Row {
        words: &["--journal", "--lanes", "3"],
        request: JOURNAL,
        lanes: 3,
    },
    Row {
        words: &["--lanes=3", "--journal"],
        request: JOURNAL,
        lanes: 3,
    },
    Row {
        words: &["--watch"],
        request: WATCH,
        lanes: 1,
    },
    Row {
        words: &["--watch", "--lanes", "3"],
        request: WATCH,
        lanes: 3,
    },
    Row {
        words: &["--lanes", "3", "--watch"],
        request: WATCH,
        lanes: 3,
    },
    Row {
        words: &["--watch", "--lanes=3"],
        request: WATCH,
        lanes: 3,
    },
    Row {
        words: &["--lanes=3", "--watch"],
        request: WATCH,
        lanes: 3,
    },
    Row {
        words: &["--watch", "--journal"],
        request: BOTH,
        lanes: 1,
    },
    Row {
        words: &["--journal", "--watch"],
        request: BOTH,
        lanes: 1,
    },
    Row {
        words: &["--watch", "--journal", "--lanes", "3"],
        request: BOTH,
        lanes: 3,
    },
    Row {
        words: &["--journal", "--lanes=3", "--watch"],
        request: BOTH,
        lanes: 3,
    },
    Row {
        words: &["--lanes=3", "--watch", "--journal"],
        request: BOTH,
        lanes: 3,
    },
    Row {
        words: &["--make", "7"],
        request: Request::Text(Output::Summary(7)),
        lanes: 1,
    },
    Row {
        words: &["--make=7"],
        request: Request::Text(Output::Summary(7)),
        lanes: 1,
    },
    Row {
        words: &["--make", "0"],
        request: Request::Text(Output::Summary(0)),
        lanes: 1,
    },
    Row {
        words: &["--make=4294967295"],
        request: Request::Text(Output::Summary(4_294_967_295)),
        lanes: 1,
    },
    Row {
        words: &["--make", "7", "--lanes", "2"],
        request: Request::Text(Output::Summary(7)),
        lanes: 2,
    },
    Row {
        words: &["--lanes=2", "--make=7"],
        request: Request::Text(Output::Summary(7)),
        lanes: 2,
    },
];

#[test]
fn words_ask(rt: HostRuntime) -> Result<(), Fail> {
    let mut ok = true;
    for row in ASKED {
        let asked = Asked {
            request: row.request,
            lanes: row.lanes,
        };
        ok &= read_words(words_of(rt.alloc(), row.words)?) == Some(asked);
    }
    assert_eq!(rt; ok, true);
    Ok(())
}

const FAULTY: &[&[&str]] = &[
    // No option, or an abbreviation of one.
    &[""],
    &["--"],
    &["--help"],
    &["--lists"],
    &["--lis"],
    &["--list="],
    &["--lane", "2"],
    &["--LANES", "2"],
    &["3"],
    &["--", "--list"],
    &["--list", "--"],
    // A number that is none of lanes.
    &["--lanes"],
    &["--lanes", "0"],
    &["--lanes", "08"],
    &["--lanes", "9"],
    &["--lanes", "+2"],
    &["--lanes", "-1"],
    &["--lanes", ""],
    &["--lanes", " 2"],
    &["--lanes", "4294967298"],
    &["--lanes", "--list"],
    &["--lanes="],
    &["--lanes=0"],
    &["--lanes=08"],
    &["--lanes=9"],
    &["--lanes=+2"],
    &["--lanes==2"],
    &["--lanes=", "2"],
    // Options that may not stand together.
    &["--list", "--check"],
    &["--check", "--list"],
    &["--list", "--list"],
    &["--check", "--check"],
    &["--lanes", "2", "--lanes", "2"],
    &["--lanes", "2", "--lanes=3"],
    &["--lanes=2", "--lanes=2"],
    &["--list", "--lanes", "2", "--check"],
    &["--lanes=2", "--list", "--lanes=2"],
    // A word behind all values.
    &["--lanes", "2", "3"],
    &["--list", "2"],
    // A number that is no seed.
    &["--make"],
    &["--make", "07"],
    &["--make", "+7"],
    &["--make", "-1"],
    &["--make", ""],
    &["--make", "4294967296"],
    &["--make", "18446744073709551623"],
    &["--make", "--journal"],
    &["--make="],
    &["--make=07"],
    &["--make=4294967296"],
    &["--make==7"],
    // A journal of another text, or two of a kind.
    &["--journal="],
    &["--journals"],
    &["--journal", "7"],
    &["--journal", "--journal"],
    &["--journal", "--list"],
    &["--check", "--journal"],
    &["--make", "7", "--journal"],
    &["--journal", "--make=7"],
    &["--make", "7", "--make", "7"],
    &["--make=7", "--lanes", "2", "--make", "8"],
    &["--list", "--make=7"],
    &["--make", "7", "--check"],
    // The board beside another text, or twice.
    &["--watch="],
    &["--watched"],
    &["--watch", "7"],
    &["--make", "--watch"],
    &["--lanes", "--watch"],
    &["--watch", "--watch"],
    &["--watch", "--journal", "--watch"],
    &["--journal", "--watch", "--journal"],
    &["--lanes=2", "--watch", "--lanes=2"],
    &["--watch", "--list"],
    &["--list", "--watch"],
    &["--watch", "--check"],
    &["--check", "--watch"],
    &["--watch", "--make", "7"],
    &["--watch", "--make=7"],
    &["--make", "7", "--watch"],
    &["--make=7", "--watch"],
    &["--journal", "--watch", "--list"],
    &["--check", "--watch", "--journal"],
    // An audit beside something else than lanes, or twice.
    &["--audit="],
    &["--audits"],
    &["--audit", "7"],
    &["--lanes", "--audit"],
    &["--make", "--audit"],
    &["--audit", "--audit"],
    &["--audit", "--list"],
    &["--check", "--audit"],
    &["--audit", "--journal"],
    &["--journal", "--audit"],
    &["--audit", "--watch"],
    &["--watch", "--audit"],
    &["--audit", "--make=7"],
    &["--make", "7", "--audit"],
    &["--lanes=2", "--audit", "--lanes=2"],
];

#[test]
fn faulty_words(rt: HostRuntime) -> Result<(), Fail> {
    let mut ok = true;
    for words in FAULTY {
        ok &= read_words(words_of(rt.alloc(), words)?) == None;
        let args = args_of(rt.alloc(), words)?;
        let left = play(&rt, rt.alloc(), Ok(args), THREE_LAUNCHES, &[])?;
        ok &= left.status == 1 && left.notes.bytes() == USAGE.as_bytes();
    }
    assert_eq!(rt; ok, true);
    Ok(())
}
