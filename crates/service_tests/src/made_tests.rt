//! The summary of the run that a seed makes, through the whole program.
use crate::play::{Faults, play_words};
use std::test::Fail;

// The due instants of a made run are all launched.
const SUMMARY: &str = "\
cron make 1
seed 7
jobs 200
launched 11200
void 0
end
";

// The first read would fail.
const UNREADABLE: Faults = Faults {
    reads: &[0],
    writes: &[],
    notes: &[],
};

const MAKE: &[&[&str]] = &[&["--make", "7"], &["--make=7", "--lanes=3"]];

#[test]
fn a_made_run_reads_nothing(rt: HostRuntime) -> Result<(), Fail> {
    let read = play_words(&rt, rt.alloc(), &[], &[], &UNREADABLE)?;
    assert_eq!(rt; read.end.status, 3);
    for words in MAKE {
        let left = play_words(&rt, rt.alloc(), words, &[], &UNREADABLE)?;
        assert!(rt; left.end.status == 0, "{words:?}");
        assert!(rt; left.report.bytes() == SUMMARY.as_bytes(), "{words:?}");
        assert!(rt; left.notes.bytes().is_empty(), "{words:?}");
    }
    Ok(())
}

// The third write fails.
const THIRD_WRITE: Faults = Faults {
    reads: &[],
    writes: &[2],
    notes: &[],
};

#[test]
fn a_fault_cuts_the_summary_of_a_made_run(rt: HostRuntime) -> Result<(), Fail> {
    for words in MAKE {
        let left = play_words(&rt, rt.alloc(), words, &[], &THIRD_WRITE)?;
        assert!(rt; left.end.status == 4, "{words:?}");
        let told = left.report.bytes() == "cron make 1\nseed 7\n".as_bytes();
        assert!(rt; told, "{words:?}");
        let noted = left.notes.bytes() == "cron_cluster: write fault\n".as_bytes();
        assert!(rt; noted, "{words:?}");
    }
    Ok(())
}
