ghost use Rattle.std.specs.Prelude.{◌≡◌, ◌↔◌, ◌+◌, ◌≤◌, ℕ, Some, length, take, drop, IfOk, OnOk, IsErrOf};
ghost use Rattle.disk_model.specs.declared.fault.DiskFault.TheVariants.{OutOfMemory};
ghost use Rattle.disk_model.specs.Faults.{CountsDiskAnswer, WantsNoMemory};
ghost use Rattle.disk_model.specs.Images.{Image, file_of, InFile, HoldsPiece, Torn, Cut, ImagesFollow, IsDurable, NoNewImage};
ghost use Rattle.disk_model.specs.Told.{Told, TellsThen, after_write, after_cut, after_sync, no_change, AfterCall, AfterLook};
ghost use Rattle.disk_model.specs.View.{DiskView, HasElapsed};

use crate::fault::{DiskFault, FileNo};

/// A disk of three files.
///
/// Contracts see what a read gives, the images that a stop may leave now, and those that one might have left since an
/// earlier moment. What they say of images they say of an honest disk: each disk says of itself whether it is one. What
/// they say of answers and of the counts of stops and faults they say of every disk.
pub trait Disk: Drop {
    /// What it says of itself.
    ghost view: { DiskView Self };

    /// The length of a file in bytes.
    fn length(&mut self, file: FileNo) -> Result<u64, DiskFault>
        ensures length { IfOk result (λ size. size ≡ length (file_of file (view.seen self.old))) }
        ensures seen { view.seen self.new ≡ view.seen self.old }
        ensures images { view.honest self.old → NoNewImage (view.may_leave self.old) (view.may_leave self.new) }
        ensures time { view.honest self.old → HasElapsed view self.old self.new }
        ensures honest { view.honest self.new ↔ view.honest self.old }
        ensures counts { CountsDiskAnswer (view.counts self.old) (view.counts self.new) result }
        ensures memory { WantsNoMemory result }
        ensures told { TellsThen (AfterLook result) (view.told self.old) (view.told self.new) };

    /// Fills `into` with a file's bytes from an offset on, all of which lie in the file.
    fn read(&mut self, file: FileNo, at: u64, into: &mut [u8]) -> Result<(), DiskFault>
        requires { at + length into.old ≤ length (file_of file (view.seen self.old)) }
        ensures bytes { OnOk result (into.new ≡ take (length into.old) (drop at (file_of file (view.seen self.old)))) }
        ensures filled { length into.new ≡ length into.old }
        ensures seen { view.seen self.new ≡ view.seen self.old }
        ensures images { view.honest self.old → NoNewImage (view.may_leave self.old) (view.may_leave self.new) }
        ensures time { view.honest self.old → HasElapsed view self.old self.new }
        ensures honest { view.honest self.new ↔ view.honest self.old }
        ensures counts { CountsDiskAnswer (view.counts self.old) (view.counts self.new) result }
        ensures memory { WantsNoMemory result }
        ensures told { TellsThen (AfterLook result) (view.told self.old) (view.told self.new) };

    /// Writes over a file's bytes from an offset on, and past its end.
    fn write_at(&mut self, file: FileNo, at: u64, bytes: &[u8]) -> Result<(), DiskFault>
        requires { at ≤ length (file_of file (view.seen self.old)) }
        ensures written { OnOk result (InFile file (HoldsPiece at bytes.now) (view.seen self.old) (view.seen self.new)) }
        ensures images { view.honest self.old → ImagesFollow (InFile file (Torn at (length bytes.now))) (view.may_leave self.old) (view.may_leave self.new) }
        ensures time { view.honest self.old → HasElapsed view self.old self.new }
        // Want of memory comes before anything changes.
        ensures unchanged { IsErrOf result OutOfMemory → view.seen self.new ≡ view.seen self.old }
        ensures no_new_image { IsErrOf result OutOfMemory → view.honest self.old → NoNewImage (view.may_leave self.old) (view.may_leave self.new) }
        ensures honest { view.honest self.new ↔ view.honest self.old }
        ensures counts { CountsDiskAnswer (view.counts self.old) (view.counts self.new) result }
        ensures told { TellsThen (AfterCall (after_write file at bytes.now) (after_write file at bytes.now) result) (view.told self.old) (view.told self.new) };

    /// Cuts a file to a length in bytes, which is at most its own.
    fn cut(&mut self, file: FileNo, length: u64) -> Result<(), DiskFault>
        requires { length ≤ Rattle.std.specs.Prelude.length (file_of file (view.seen self.old)) }
        ensures cut { OnOk result (InFile file (λ old new. new ≡ take length old) (view.seen self.old) (view.seen self.new)) }
        ensures images { view.honest self.old → ImagesFollow (InFile file (Cut length)) (view.may_leave self.old) (view.may_leave self.new) }
        ensures time { view.honest self.old → HasElapsed view self.old self.new }
        ensures honest { view.honest self.new ↔ view.honest self.old }
        ensures counts { CountsDiskAnswer (view.counts self.old) (view.counts self.new) result }
        ensures memory { WantsNoMemory result }
        ensures told { TellsThen (AfterCall (after_cut file length) (after_cut file length) result) (view.told self.old) (view.told self.new) };

    /// After it, whatever image a stop leaves, the file has the bytes that a read gives.
    fn sync(&mut self, file: FileNo) -> Result<(), DiskFault>
        ensures durable { OnOk result (view.honest self.old → IsDurable file (view.seen self.new) (view.may_leave self.new)) }
        ensures seen { view.seen self.new ≡ view.seen self.old }
        ensures images { view.honest self.old → NoNewImage (view.may_leave self.old) (view.may_leave self.new) }
        ensures time { view.honest self.old → HasElapsed view self.old self.new }
        ensures honest { view.honest self.new ↔ view.honest self.old }
        ensures counts { CountsDiskAnswer (view.counts self.old) (view.counts self.new) result }
        ensures memory { WantsNoMemory result }
        ensures told { TellsThen (AfterCall (after_sync file) no_change result) (view.told self.old) (view.told self.new) };

    /// This moment is one of those since an earlier one.
    ghost counts_now: { (disk : Self) (start : ℕ) (image : Image) → view.honest disk → start ≤ view.moment disk
        → view.may_leave disk image → view.left_since disk start image };

    /// Since this moment there is no other.
    ghost only_now: { (disk : Self) (image : Image) → view.honest disk → view.left_since disk (view.moment disk) image → view.may_leave disk image };

    /// What a read gives is one of the images of now.
    ghost seen_is_left: { (disk : Self) → view.honest disk → view.may_leave disk (view.seen disk) };

    /// What it tells of its bytes is what a read gives.
    ghost done_is_seen: { (disk : Self) (told_now : Told) → view.told disk ≡ Some told_now → told_now.done ≡ view.seen disk };
}
