//! Reading to the end and writing all, over memory.
use cron_io::{MemSink, MemSource, ReadAllFault, Sink, SinkFault, Source, read_all, write_all};
use std::alloc::Global;
use std::test::Fail;

// A text that is read up to a limit, where the reads of these numbers fail.
#[derive(Debug)]
struct Reading {
    text: &'static str,
    limit: u32,
    fails: &'static [u64],
    want: Result<usize, ReadAllFault>,
}

const READINGS: &[Reading] = &[
    Reading {
        text: "abc",
        limit: 3,
        fails: &[],
        want: Ok(3),
    },
    Reading {
        text: "abc",
        limit: 2,
        fails: &[],
        want: Err(ReadAllFault::TooLong),
    },
    Reading {
        text: "abc",
        limit: 3,
        fails: &[0],
        want: Err(ReadAllFault::ReadFault),
    },
    Reading {
        text: "abc",
        limit: 3,
        fails: &[1],
        want: Err(ReadAllFault::ReadFault),
    },
    Reading {
        text: "abc",
        limit: 3,
        fails: &[2],
        want: Ok(3),
    },
    Reading {
        text: "",
        limit: 0,
        fails: &[],
        want: Ok(0),
    },
    Reading {
        text: "a",
        limit: 0,
        fails: &[],
        want: Err(ReadAllFault::TooLong),
    },
];

fn source_of(alloc: Global, text: &[u8], fails: &[u64]) -> Result<MemSource, Fail> {
    let bytes = Vec::from_slice(alloc, text)?;
    Ok(MemSource::new(bytes, Vec::from_slice(alloc, fails)?))
}

#[test]
fn reads_all_up_to_the_limit(rt: HostRuntime) -> Result<(), Fail> {
    for row in READINGS {
        let mut source = source_of(rt.alloc(), row.text.as_bytes(), row.fails)?;
        let read = read_all(rt.alloc(), &mut source, row.limit).map(|bytes| bytes.len());
        assert_eq!(rt; read, row.want, "{row:?}");
    }
    Ok(())
}

// Ten thousand bytes are read by three reads.
#[test]
fn a_fault_in_mid_stream_loses_what_was_read(rt: HostRuntime) -> Result<(), Fail> {
    let bytes = vec![in rt.alloc(); 7u8; 10000]?;
    let mut source = source_of(rt.alloc(), &bytes, &[1])?;
    let fault = read_all(rt.alloc(), &mut source, 10000).err();
    assert_eq!(rt; fault, Some(ReadAllFault::ReadFault));
    assert_eq!(rt; source.left().len(), 10000 - 4096);
    let rest = read_all(rt.alloc(), &mut source, 10000)?;
    assert_eq!(rt; rest.len(), 10000 - 4096);
    Ok(())
}

// A piece that is written whole or not at all, to a sink with room for nine bytes whose second write fails.
#[derive(Debug)]
struct Writing {
    piece: &'static str,
    want: Result<(), SinkFault>,
    written: &'static str,
}

const WRITINGS: &[Writing] = &[
    Writing {
        piece: "abc",
        want: Ok(()),
        written: "abc",
    },
    Writing {
        piece: "",
        want: Ok(()),
        written: "abc",
    },
    Writing {
        piece: "def",
        want: Err(SinkFault),
        written: "abc",
    },
    Writing {
        piece: "ghi",
        want: Ok(()),
        written: "abcghi",
    },
    Writing {
        piece: "jklm",
        want: Err(SinkFault),
        written: "abcghi",
    },
    Writing {
        piece: "jkl",
        want: Ok(()),
        written: "abcghijkl",
    },
];

#[test]
fn a_write_fails_in_mid_stream_and_beyond_the_room(rt: HostRuntime) -> Result<(), Fail> {
    let mut sink = MemSink::new(rt.alloc(), 9, vec![in rt.alloc(); 1]?)?;
    for row in WRITINGS {
        let answer = write_all(&mut sink, row.piece.as_bytes());
        assert_eq!(rt; answer, row.want, "{row:?}");
        assert_eq!(rt; sink.bytes(), row.written.as_bytes(), "{row:?}");
    }
    Ok(())
}
