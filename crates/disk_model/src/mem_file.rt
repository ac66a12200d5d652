//! A file in memory, with what a stop may make of it.
ghost use Rattle.std.specs.Prelude.{◌≡◌, ◌+◌, ◌≤◌, [], ◌∷◌, ◌++◌, length, take, vec_len, vec_capacity, OnOk, OnErr};
ghost use Rattle.disk_model.specs.Images.{written_over};
ghost use Rattle.disk_model.specs.Touched.{Agree};

use crate::span::{Span, copy_touched, fill_touched};
use cron_io::OutOfMemory;
use std::alloc::Global;
use std::mem;

// Writes over the bytes from an offset on, and past their end, where there is room.
fn write_over(bytes: &mut Vec<u8>, at: usize, piece: &[u8])
    requires at { at ≤ vec_len bytes.old }
    requires room { at + length piece.now ≤ vec_capacity bytes.old }
    ensures items { bytes.new.items ≡ written_over at piece.now bytes.old.items }
    ensures capacity { vec_capacity bytes.old ≤ vec_capacity bytes.new }
{
    let over = piece.len().min(bytes.len() - at);
    bytes[at..at + over].copy_from_slice(&piece[..over]);
    bytes.extend_from_slice(&piece[over..]).unwrap();
}

/// A file in memory. A sync and a cut take time by what was written since the last sync, and no memory.
#[derive(Drop)]
pub(crate) struct MemFile {
    bytes: Vec<u8>,
    // What the last sync left.
    synced: Vec<u8>,
    // Where bytes were written since.
    touched: Vec<Span>,
    ghost agrees: { Agree synced.items bytes.items touched.items },
    ghost room: { vec_len bytes ≤ vec_capacity synced },
    ghost back: { vec_len synced ≤ vec_capacity bytes },
}

impl MemFile {
    ghost use Rattle.disk_model.specs.Memory.{IsWritten, IsFileCut, IsSynced, IsSameFile, Restores, file_bytes, synced_of, spans_of};

    pub(crate) fn new(alloc: Global) -> MemFile
        ensures bytes { file_bytes result ≡ [] }
        ensures synced { synced_of result ≡ [] }
        ensures touched { spans_of result ≡ [] }
    {
        MemFile {
            bytes: Vec::new(alloc),
            synced: Vec::new(alloc),
            touched: Vec::new(alloc),
        }
    }

    pub(crate) fn bytes(&self) -> &[u8]
        ensures { result.now ≡ file_bytes self.now }
    {
        &self.bytes
    }

    // Takes the room that a later sync and a return to what it left need, too.
    pub(crate) fn write_at(&mut self, at: usize, piece: &[u8]) -> Result<(), OutOfMemory>
        requires { at ≤ length (file_bytes self.old) }
        ensures ok { OnOk result (IsWritten at piece.now self.old self.new) }
        ensures err { OnErr result (IsSameFile self.old self.new) }
    {
        let until = at + piece.len();
        self.bytes.reserve(until.saturating_sub(self.bytes.len()))?;
        self.synced
            .reserve(until.saturating_sub(self.synced.len()))?;
        self.touched.push(Span { from: at, until })?;
        write_over(&mut self.bytes, at, piece);
        Ok(())
    }

    pub(crate) fn cut(&mut self, size: usize)
        requires { size ≤ length (file_bytes self.old) }
        ensures { IsFileCut size self.old self.new }
    {
        self.bytes.truncate(size);
    }

    pub(crate) fn sync(&mut self)
        ensures { IsSynced (file_bytes self.old) self.new }
    {
        self.synced.truncate(self.bytes.len());
        let kept = self.synced.len();
        copy_touched(&self.touched, &self.bytes, &mut self.synced);
        self.synced.extend_from_slice(&self.bytes[kept..]).unwrap();
        self.touched.clear();
    }

    // Makes the file what it is in the image of a number, all of it synced.
    pub(crate) fn restore(&mut self, image: u32)
        ensures { Restores image self.old self.new }
    {
        match image % 3 {
            0 => mem::swap(&mut self.bytes, &mut self.synced),
            1 => {}
            _ => fill_touched(&self.touched, (image / 3 % 256) as u8, &mut self.bytes),
        }
        self.sync();
    }
}
