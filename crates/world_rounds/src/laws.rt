//! Laws of worlds. Each is the contract of a function that does nothing.
ghost use Rattle.std.specs.Prelude.{◌≡◌, false, Some};
ghost use Rattle.disk_model.specs.Images.{Image};
ghost use Rattle.disk_model.specs.MemDisk.{left_by, new_told, no_files, told_of, view_of};
ghost use Rattle.disk_model.specs.declared.mem_disk.MemDisk.{MemDisk};
ghost use Rattle.world_rounds.specs.Start.{IsFreshDisk};

/// A world can begin on new disks in memory of which no call is to fail.
pub fn a_new_disk_in_memory_is_fresh()
    ensures { (disk : MemDisk) → ((image : Image) → left_by disk image → image ≡ no_files) → told_of disk ≡ Some (new_told false)
        → IsFreshDisk view_of disk }
{}
