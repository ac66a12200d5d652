use crate::armed::{Arm, ArmedDisk};
use crate::calls::Calls;
use crate::disk::Disk;
use crate::fault::{DiskFault, FileNo};
use crate::mem_files::MemFiles;
use cron_io::OutOfMemory;
use http_server::Log;
use std::alloc::Global;

impl From<OutOfMemory> for DiskFault {
    ghost use Rattle.std.specs.Prelude.{◌≡◌};
    ghost use Rattle.disk_model.specs.declared.fault.DiskFault.TheVariants.{OutOfMemory};

    ghost from_gives = { λ _ e. e ≡ OutOfMemory };

    fn from(_: OutOfMemory) -> Self {
        DiskFault::OutOfMemory
    }
}

/// A disk in memory. It is honest, and tells when it will stop.
///
/// A write and a sync take time by the bytes written since the file's last sync. What it was at each moment is a record
/// that only proofs read.
#[derive(Drop)]
pub struct MemDisk {
    files: MemFiles,
    // What the files were before each change, since the disk was made or revived.
    history: Log<MemFiles, FileNo>,
    calls: Calls,
}

impl MemDisk {
    ghost use Rattle.std.specs.Prelude.{◌≡◌, Some};
    ghost use Rattle.disk_model.specs.Images.{Image};
    ghost use Rattle.disk_model.specs.Calls.{is_listing, no_counts};
    ghost use Rattle.disk_model.specs.MemDisk.{told_of, seen_of, left_by, counts_by, no_files, new_told};

    /// Three empty files. Each call of [`Disk`] whose number, counted from 0, is in `fails` fails and changes nothing;
    /// calls of a disk that has stopped count too. The number stands still at the last value of a `u64`.
    pub fn new(alloc: Global, fails: Vec<u64>) -> MemDisk
        ensures seen { seen_of result ≡ no_files }
        ensures images { (image : Image) → left_by result image → image ≡ no_files }
        ensures told { told_of result ≡ Some (new_told (is_listing fails.items)) }
        ensures counts { counts_by result ≡ no_counts }
    {
        MemDisk {
            files: MemFiles::new(alloc),
            history: Log::new(),
            calls: Calls::new(fails),
        }
    }
}

impl Disk for MemDisk {
    ghost use Rattle.std.specs.Prelude.{◌≡◌};
    ghost use Rattle.std.proofs.Common.{inl, sym, ap};
    ghost use Rattle.disk_model.specs.Left.{seen_left};
    ghost use Rattle.disk_model.specs.MemDisk.{seen_of, view_of, done_in};
    ghost use Rattle.disk_model.specs.Past.{only_now};

    ghost view = { view_of };

    ghost counts_now = { λ disk start image honest le now. inl now };

    ghost only_now = { λ disk image honest left. only_now disk.history.items disk.files image left };

    ghost seen_is_left = { λ disk honest. seen_left disk.files };

    ghost done_is_seen = { λ disk told_now is. sym (ap (λ told. done_in told (seen_of disk)) is) };

    fn length(&mut self, file: FileNo) -> Result<u64, DiskFault> {
        self.calls.begin()?;
        Ok(self.files.bytes(file).len() as u64)
    }

    fn read(&mut self, file: FileNo, at: u64, into: &mut [u8]) -> Result<(), DiskFault> {
        self.calls.begin()?;
        let at = at as usize;
        into.copy_from_slice(&self.files.bytes(file)[at..at + into.len()]);
        Ok(())
    }

    fn write_at(&mut self, file: FileNo, at: u64, bytes: &[u8]) -> Result<(), DiskFault> {
        self.calls.begin()?;
        let history = self.history.and(&self.files, &file);
        self.files.write_at(file, at as usize, bytes)?;
        self.history = history;
        self.calls.pass()
    }

    fn cut(&mut self, file: FileNo, length: u64) -> Result<(), DiskFault> {
        self.calls.begin()?;
        self.history = self.history.and(&self.files, &file);
        self.files.cut(file, length as usize);
        self.calls.pass()
    }

    fn sync(&mut self, file: FileNo) -> Result<(), DiskFault> {
        self.calls.begin()?;
        self.calls.pass()?;
        self.history = self.history.and(&self.files, &file);
        self.files.sync(file);
        Ok(())
    }
}

impl ArmedDisk for MemDisk {
    ghost use Rattle.std.proofs.Common.{refl};

    ghost tells = { λ disk. refl };

    fn arm(&mut self, pass: u32, image: u32) {
        self.calls.arm(Some(Arm { left: pass, image }));
    }

    fn disarm(&mut self) {
        self.calls.arm(None);
    }

    fn revive(&mut self) {
        if let Some(image) = self.calls.image() {
            self.files.restore(image);
            self.history = Log::new();
            self.calls.revive();
        }
    }
}
