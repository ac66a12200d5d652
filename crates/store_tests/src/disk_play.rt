//! Calls of a disk, as the tables of the tests have them.
use disk_model::FileNo::{AreaA, AreaB, Chooser};
use disk_model::{Disk, DiskFault, FileNo};
use std::alloc::Global;
use std::test::Fail;

/// A call of a disk. A place beyond the end stands for the end, and a length beyond it for the whole.
#[derive(Clone, Copy, Debug)]
pub enum Call {
    Length(FileNo),
    /// Of no bytes.
    Read(FileNo),
    Write(FileNo, u64, &'static str),
    Cut(FileNo, u64),
    Sync(FileNo),
}

fn write<D: Disk>(disk: &mut D, file: FileNo, at: u64, piece: &str) -> Result<(), DiskFault> {
    if at == 0 {
        return disk.write_at(file, 0, piece.as_bytes());
    }
    let end = disk.length(file)?;
    disk.write_at(file, at.min(end), piece.as_bytes())
}

fn cut<D: Disk>(disk: &mut D, file: FileNo, length: u64) -> Result<(), DiskFault> {
    if length == 0 {
        return disk.cut(file, 0);
    }
    let end = disk.length(file)?;
    disk.cut(file, length.min(end))
}

/// Makes the call, and where its number isn't 0 asks for the length before.
pub fn make_call<D: Disk>(disk: &mut D, call: Call) -> Result<(), DiskFault> {
    match call {
        Call::Length(file) => disk.length(file).map(|_| ()),
        Call::Read(file) => disk.read(file, 0, &mut []),
        Call::Write(file, at, piece) => write(disk, file, at, piece),
        Call::Cut(file, length) => cut(disk, file, length),
        Call::Sync(file) => disk.sync(file),
    }
}

/// The bytes of the three files, with a slash after each.
pub fn text_of<D: Disk>(alloc: Global, disk: &mut D) -> Result<Vec<u8>, Fail> {
    let mut text = Vec::new(alloc);
    for file in [Chooser, AreaA, AreaB] {
        let length = disk.length(file)?;
        let mut bytes = vec![in alloc; 0u8; length as usize]?;
        disk.read(file, 0, &mut bytes)?;
        text.extend_from_slice(&bytes)?;
        text.push(b'/')?;
    }
    Ok(text)
}
