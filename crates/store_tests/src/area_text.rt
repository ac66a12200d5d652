//! The bytes of files, as texts.
use crate::change::{ballot_of, row_of};
use disk_model::{Disk, DiskFault, FileNo, MemDisk};
use gate_file::Body56;
use paxos_base::JobRow;
use std::alloc::{AllocError, Global};
use store_format::{Record, record_bytes};

/// The body of a letter: `p` and `q` are promises of the ballots 8 and 16, `b` and `c` the bases of slot 5 with three and with
/// two rows, `r` and `s` the rows of two jobs, `t` the table's own and `u` one in its place that a job may have, and any other
/// stands for its own byte.
pub fn body_of(letter: u8) -> [u8; 56] {
    let item = match letter {
        b'p' => Record::Promised(ballot_of(8)),
        b'q' => Record::Promised(ballot_of(16)),
        b'b' => Record::Base { slot: 5, count: 3 },
        b'c' => Record::Base { slot: 5, count: 2 },
        b'r' => Record::Row {
            slot: 5,
            row: row_of(0, 7),
        },
        b's' => Record::Row {
            slot: 5,
            row: row_of(1, 7),
        },
        b't' => Record::Row {
            slot: 5,
            row: row_of(2, 7),
        },
        b'u' => Record::Row {
            slot: 5,
            row: JobRow {
                job: 2,
                ..row_of(1, 7)
            },
        },
        b'f' => return [0xff; 56],
        _ => return [letter; 56],
    };
    record_bytes(&item)
}

/// The bytes of a text: each digit is a gate, a capital letter is a gate of 255, and each other letter is a body.
pub fn bytes_of(alloc: Global, text: &str) -> Result<Vec<u8>, AllocError> {
    let mut bytes = Vec::new(alloc);
    for letter in text.as_bytes() {
        if letter.is_ascii_digit() {
            bytes.push(letter.wrapping_sub(b'0'))?;
        } else if letter.is_ascii_uppercase() {
            bytes.push(0xff)?;
        } else {
            bytes.extend_from_slice(&body_of(*letter))?;
        }
    }
    Ok(bytes)
}

/// A body for each letter.
pub fn bodies_of(alloc: Global, text: &str) -> Result<Vec<Body56>, AllocError> {
    let mut bodies = Vec::new(alloc);
    for letter in text.as_bytes() {
        bodies.push(Body56 {
            bytes: body_of(*letter),
        })?;
    }
    Ok(bodies)
}

/// Gives an empty file these bytes, synced.
pub fn fill(disk: &mut MemDisk, file: FileNo, bytes: &[u8]) -> Result<(), DiskFault> {
    disk.write_at(file, 0, bytes)?;
    disk.sync(file)
}
