ghost use Rattle.std.specs.Prelude.{◌≡◌, ◌↔◌, ◌≤◌, length, IfOk, OnOk, IsErrOf};
ghost use Rattle.disk_model.specs.declared.fault.DiskFault.TheVariants.{OutOfMemory};
ghost use Rattle.disk_model.specs.Faults.{CountsDiskAnswer};
ghost use Rattle.disk_model.specs.Images.{file_of, InFile, HoldsPiece, Torn, IsDurable, NoNewImage, InFileOnly};
ghost use Rattle.disk_model.specs.Told.{TellsThen, AfterLooks, AfterWriteSynced};
ghost use Rattle.disk_model.specs.View.{LeavesOnly};

use crate::disk::Disk;
use crate::fault::{DiskFault, FileNo};
use std::alloc::Global;

/// Writes over a file's bytes from an offset on, and syncs it. What it had was synced.
///
/// # Errors
///
/// Those of the disk. After want of memory nothing has changed.
pub fn write_synced<D: Disk>(
    disk: &mut D,
    file: FileNo,
    at: u64,
    bytes: &[u8],
) -> Result<(), DiskFault>
    requires within { at ≤ length (file_of file (D.view.seen disk.old)) }
    requires durable { D.view.honest disk.old → IsDurable file (D.view.seen disk.old) (D.view.may_leave disk.old) }
    ensures written { OnOk result (InFile file (HoldsPiece at bytes.now) (D.view.seen disk.old) (D.view.seen disk.new)) }
    ensures durable { OnOk result (D.view.honest disk.new → IsDurable file (D.view.seen disk.new) (D.view.may_leave disk.new)) }
    ensures images { D.view.honest disk.old → LeavesOnly D.view disk.old disk.new
        (InFileOnly file (D.view.may_leave disk.old) (Torn at (length bytes.now) (file_of file (D.view.seen disk.old)))) }
    ensures unchanged { IsErrOf result OutOfMemory → D.view.seen disk.new ≡ D.view.seen disk.old }
    ensures still_durable { IsErrOf result OutOfMemory → D.view.honest disk.new → IsDurable file (D.view.seen disk.new) (D.view.may_leave disk.new) }
    ensures no_new_image { IsErrOf result OutOfMemory → D.view.honest disk.old → NoNewImage (D.view.may_leave disk.old) (D.view.may_leave disk.new) }
    ensures honest { D.view.honest disk.new ↔ D.view.honest disk.old }
    ensures counts { CountsDiskAnswer (D.view.counts disk.old) (D.view.counts disk.new) result }
    ensures told { TellsThen (AfterWriteSynced file at bytes.now result) (D.view.told disk.old) (D.view.told disk.new) }
{
    disk.write_at(file, at, bytes)?;
    disk.sync(file)
}

/// All the bytes of a file.
///
/// # Errors
///
/// Those of the disk, and want of memory for the bytes.
pub fn read_file<D: Disk>(alloc: Global, disk: &mut D, file: FileNo) -> Result<Vec<u8>, DiskFault>
    ensures bytes { IfOk result (λ bytes. bytes.items ≡ file_of file (D.view.seen disk.old)) }
    ensures seen { D.view.seen disk.new ≡ D.view.seen disk.old }
    ensures durable { (D.view.honest disk.old → IsDurable file (D.view.seen disk.old) (D.view.may_leave disk.old))
        → D.view.honest disk.new → IsDurable file (D.view.seen disk.new) (D.view.may_leave disk.new) }
    ensures no_new_image { D.view.honest disk.old → NoNewImage (D.view.may_leave disk.old) (D.view.may_leave disk.new) }
    ensures images { D.view.honest disk.old → LeavesOnly D.view disk.old disk.new (D.view.may_leave disk.old) }
    ensures honest { D.view.honest disk.new ↔ D.view.honest disk.old }
    ensures counts { CountsDiskAnswer (D.view.counts disk.old) (D.view.counts disk.new) result }
    ensures told { TellsThen (AfterLooks result) (D.view.told disk.old) (D.view.told disk.new) }
{
    let size = disk.length(file)? as usize;
    let mut bytes = vec![in alloc; 0; size]?;
    disk.read(file, 0, &mut bytes)?;
    Ok(bytes)
}
