//! Readers and writers of std.
use cron_io::{SinkFault, StdSink, StdSource, read_all, write_all};
use std::io::{Cursor, Read};
use std::test::Fail;

// The first read of a chain is short.
#[test]
fn a_reader_of_std_is_read_to_its_end(rt: HostRuntime) -> Result<(), Fail> {
    let mut source = StdSource::new(b"ab".as_slice().chain(b"cd".as_slice()));
    let bytes = read_all(rt.alloc(), &mut source, 4)?;
    assert_eq!(rt; bytes.as_slice(), b"abcd".as_slice());
    Ok(())
}

#[test]
fn a_writer_of_std_takes_all(rt: HostRuntime) -> Result<(), Fail> {
    let mut written = Vec::new(rt.alloc());
    let answer = write_all(&mut StdSink::new(&mut written), b"abcd");
    assert_eq!(rt; answer, Ok(()));
    assert_eq!(rt; written.as_slice(), b"abcd".as_slice());
    Ok(())
}

// The cursor takes a part of the last write and then nothing.
#[test]
fn a_writer_that_is_full_is_a_fault(rt: HostRuntime) -> Result<(), Fail> {
    let mut buffer = [0u8; 3];
    let mut full = StdSink::new(Cursor::new(&mut buffer[..]));
    assert_eq!(rt; write_all(&mut full, b"ab"), Ok(()));
    assert_eq!(rt; write_all(&mut full, b"cd"), Err(SinkFault));
    assert_eq!(rt; buffer, *b"abc");
    Ok(())
}
