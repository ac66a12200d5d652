//! The chooser's byte, and the area that it selects.
ghost use Rattle.std.specs.Prelude.{◌≡◌, ◌↔◌, [], ◌∷◌, IfOk, OnOk};
ghost use Rattle.disk_model.specs.Faults.{CountsDiskAnswer, WantsNoMemory};
ghost use Rattle.disk_model.specs.Images.{IsDurable, NoNewImage};
ghost use Rattle.disk_model.specs.Made.{SyncOf, MadeCalls};
ghost use Rattle.disk_model.specs.Told.{TellsThen};
ghost use Rattle.disk_model.specs.declared.fault.FileNo.TheVariants.{Chooser};
ghost use Rattle.disk_model.specs.View.{LeavesOnly};
ghost use Rattle.replica_store.specs.Files.{selected, selected_by, bit_of, other_area};

use disk_model::{Disk, DiskFault, FileNo};

// The area that a byte selects.
fn selected_by(byte: u8) -> FileNo
    ensures { result ≡ selected_by byte }
{
    if byte % 2 == 1 {
        FileNo::AreaB
    } else {
        FileNo::AreaA
    }
}

// The byte that selects an area, and the first for the chooser itself.
pub(crate) fn bit_of(area: FileNo) -> u8
    ensures { result ≡ bit_of area }
{
    match area {
        FileNo::AreaB => 1,
        _ => 0,
    }
}

// The other area.
pub(crate) fn other_area(area: FileNo) -> FileNo
    ensures { result ≡ other_area area }
{
    match area {
        FileNo::AreaA => FileNo::AreaB,
        _ => FileNo::AreaA,
    }
}

// Syncs the chooser, and says which area it selects.
pub(crate) fn select<D: Disk>(disk: &mut D) -> Result<FileNo, DiskFault>
    ensures selected { IfOk result (λ area. area ≡ selected (D.view.seen disk.old)) }
    ensures seen { D.view.seen disk.new ≡ D.view.seen disk.old }
    ensures durable { OnOk result (D.view.honest disk.new → IsDurable Chooser (D.view.seen disk.new) (D.view.may_leave disk.new)) }
    ensures no_new_image { D.view.honest disk.old → NoNewImage (D.view.may_leave disk.old) (D.view.may_leave disk.new) }
    ensures images { D.view.honest disk.old → LeavesOnly D.view disk.old disk.new (D.view.may_leave disk.old) }
    ensures honest { D.view.honest disk.new ↔ D.view.honest disk.old }
    ensures counts { CountsDiskAnswer (D.view.counts disk.old) (D.view.counts disk.new) result }
    ensures memory { WantsNoMemory result }
    ensures told { TellsThen (MadeCalls (λ fault. fault) (SyncOf Chooser ∷ []) result) (D.view.told disk.old) (D.view.told disk.new) }
{
    disk.sync(FileNo::Chooser)?;
    if disk.length(FileNo::Chooser)? == 0 {
        return Ok(FileNo::AreaA);
    }
    let mut byte = [0];
    disk.read(FileNo::Chooser, 0, &mut byte)?;
    Ok(selected_by(byte[0]))
}
