//! The three files in memory.
ghost use Rattle.std.specs.Prelude.{◌≡◌, ◌≤◌, [], length, OnOk, OnErr};

use crate::fault::FileNo;
use crate::mem_file::MemFile;
use cron_io::OutOfMemory;
use std::alloc::Global;

#[derive(Drop)]
pub(crate) struct MemFiles {
    chooser: MemFile,
    area_a: MemFile,
    area_b: MemFile,
}

impl MemFiles {
    ghost use Rattle.disk_model.specs.Images.{Image, file_of};
    ghost use Rattle.disk_model.specs.Memory.{file_bytes, IsWritten, IsFileCut, IsSynced, IsSameFile, Restores};
    ghost use Rattle.disk_model.specs.Files.{mem_file, seen_in, InMemFile, AllRestored, AreEmpty, IsSame};

    pub(crate) fn new(alloc: Global) -> MemFiles
        ensures { AreEmpty result }
    {
        MemFiles {
            chooser: MemFile::new(alloc),
            area_a: MemFile::new(alloc),
            area_b: MemFile::new(alloc),
        }
    }

    pub(crate) fn bytes(&self, file: FileNo) -> &[u8]
        ensures { result.now ≡ file_of file (seen_in self.now) }
    {
        match file {
            FileNo::Chooser => self.chooser.bytes(),
            FileNo::AreaA => self.area_a.bytes(),
            FileNo::AreaB => self.area_b.bytes(),
        }
    }

    pub(crate) fn write_at(
        &mut self,
        file: FileNo,
        at: usize,
        piece: &[u8],
    ) -> Result<(), OutOfMemory>
        requires { at ≤ length (file_of file (seen_in self.old)) }
        ensures ok { OnOk result (InMemFile file (IsWritten at piece.now) self.old self.new) }
        ensures err { OnErr result (IsSame self.old self.new) }
    {
        match file {
            FileNo::Chooser => self.chooser.write_at(at, piece),
            FileNo::AreaA => self.area_a.write_at(at, piece),
            FileNo::AreaB => self.area_b.write_at(at, piece),
        }
    }

    pub(crate) fn cut(&mut self, file: FileNo, size: usize)
        requires { size ≤ length (file_of file (seen_in self.old)) }
        ensures { InMemFile file (IsFileCut size) self.old self.new }
    {
        match file {
            FileNo::Chooser => self.chooser.cut(size),
            FileNo::AreaA => self.area_a.cut(size),
            FileNo::AreaB => self.area_b.cut(size),
        }
    }

    pub(crate) fn sync(&mut self, file: FileNo)
        ensures { InMemFile file (λ old new. IsSynced (file_bytes old) new) self.old self.new }
    {
        match file {
            FileNo::Chooser => self.chooser.sync(),
            FileNo::AreaA => self.area_a.sync(),
            FileNo::AreaB => self.area_b.sync(),
        }
    }

    pub(crate) fn restore(&mut self, image: u32)
        ensures { AllRestored image self.old self.new }
    {
        self.chooser.restore(image);
        self.area_a.restore(image);
        self.area_b.restore(image);
    }
}
