//! Runs over a source and sinks that move a byte at a time.
use crate::bytewise::{ByteSink, ByteSource};
use crate::play::Faults;
use crate::runs::{THREE_LAUNCHES, THREE_LAUNCHES_REPORT};
use cron_io::{MemSink, MemSource};
use cron_serve::cron_cluster;
use std::alloc::Global;
use std::sync::Wait;
use std::test::Fail;
use std::thread::Threads;
use world_free::OpenGate;

// What is left by a run.
#[derive(Drop)]
struct Left {
    status: u8,
    report: ByteSink,
    notes: ByteSink,
}

// What is left by a run of single bytes, whose calls of these numbers fail.
fn play<R: Threads + Wait + Sync>(
    rt: &R,
    alloc: Global,
    input: &str,
    faults: &Faults,
) -> Result<Left, Fail> {
    let bytes = input.as_bytes().to_vec(alloc)?;
    let mut source = ByteSource(MemSource::new(bytes, faults.reads.to_vec(alloc)?));
    let mut report = ByteSink(MemSink::new(alloc, 1 << 10, faults.writes.to_vec(alloc)?)?);
    let mut notes = ByteSink(MemSink::new(alloc, 200, faults.notes.to_vec(alloc)?)?);
    let words = Vec::new(alloc).into_iter();
    let end = cron_cluster(
        rt,
        alloc,
        words,
        &mut source,
        &mut report,
        &mut notes,
        &OpenGate,
    );
    Ok(Left {
        status: end.status,
        report,
        notes,
    })
}

// Each byte is one call, so a call's number is how many bytes came before it. So many bytes of the report are written.
struct Bytewise {
    input: &'static str,
    faults: Faults,
    status: u8,
    written: usize,
    note: &'static str,
}

// The last three have a fault in the midst of a line of the report, and of a note.
const BYTEWISE: &[Bytewise] = &[
    Bytewise {
        input: THREE_LAUNCHES,
        faults: Faults {
            reads: &[],
            writes: &[],
            notes: &[],
        },
        status: 0,
        written: 200,
        note: "",
    },
    Bytewise {
        input: THREE_LAUNCHES,
        faults: Faults {
            reads: &[40],
            writes: &[],
            notes: &[],
        },
        status: 3,
        written: 0,
        note: "cron_cluster: read fault\n",
    },
    Bytewise {
        input: THREE_LAUNCHES,
        faults: Faults {
            reads: &[],
            writes: &[20],
            notes: &[],
        },
        status: 4,
        written: 20,
        note: "cron_cluster: write fault\n",
    },
    Bytewise {
        input: THREE_LAUNCHES,
        faults: Faults {
            reads: &[40],
            writes: &[],
            notes: &[16],
        },
        status: 3,
        written: 0,
        note: "cron_cluster: re",
    },
    Bytewise {
        input: "cronrun 2\n",
        faults: Faults {
            reads: &[],
            writes: &[],
            notes: &[20],
        },
        status: 2,
        written: 0,
        note: "cron_cluster: line 1",
    },
];

#[test]
fn single_bytes(rt: HostRuntime) -> Result<(), Fail> {
    for row in BYTEWISE {
        let left = play(&rt, rt.alloc(), row.input, &row.faults)?;
        assert_eq!(rt; left.status, row.status);
        let report = THREE_LAUNCHES_REPORT.as_bytes();
        assert_eq!(rt;
            left.report.0.bytes(),
            &report[..report.len().min(row.written)]
        );
        assert_eq!(rt; left.notes.0.bytes(), row.note.as_bytes());
    }
    Ok(())
}
