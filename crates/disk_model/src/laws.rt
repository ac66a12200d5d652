//! Laws of disks. Each is the contract of a function that does nothing.
ghost use Rattle.std.specs.Prelude.{◌≡◌, ◌↔◌, ◌≤◌, ◌-◌, ℕ, true, false, List, Result, None, Some, length, min, take, IsErrOf};
ghost use Rattle.disk_model.specs.declared.armed.Arm.{Arm};
ghost use Rattle.disk_model.specs.declared.fault.DiskFault.{DiskFault};
ghost use Rattle.disk_model.specs.declared.fault.DiskFault.TheVariants.{Stopped, Failed};
ghost use Rattle.disk_model.specs.declared.mem_disk.MemDisk.{MemDisk};
ghost use Rattle.disk_model.specs.Faults.{Counts, CountsDiskAnswer};
ghost use Rattle.disk_model.specs.Images.{Image, Cut};
ghost use Rattle.disk_model.specs.Made.{DiskCall, AllDone, BreaksOff, StopsAt};
ghost use Rattle.disk_model.specs.MemDisk.{told_of, left_by};
ghost use Rattle.disk_model.specs.Told.{Told, MayBeLeft};
ghost use Rattle.disk_model.specs.View.{HasElapsed};

use crate::disk::Disk;

/// Each count stays but at the answer that tells of its rise: a disk that never answers `Failed` has counted no fault.
pub fn counts_rise_where_that_is_told()
    ensures stops { (old new : Counts) (result : Result ℕ DiskFault) → CountsDiskAnswer old new result
        → (IsErrOf result Stopped → ⊥) → new.stops ≡ old.stops }
    ensures faults { (old new : Counts) (result : Result ℕ DiskFault) → CountsDiskAnswer old new result
        → (IsErrOf result Failed → ⊥) → new.faults ≡ old.faults }
{}

/// What a stop may leave of a disk in memory is just what may be left of its files by what it tells.
pub fn a_memory_disk_leaves_what_may_be_left()
    ensures { (disk : MemDisk) (told : Told) (image : Image) → told_of disk ≡ Some told → (left_by disk image ↔ MayBeLeft told image) }
{}

/// A cut that a stop cuts short leaves a front of the file, which is no shorter than the cut makes it.
pub fn a_cut_leaves_a_front()
    ensures { (size : ℕ) (old new : List ℕ) → Cut size old new
        → (min size (length old) ≤ length new) × (length new ≤ length old) × (new ≡ take (length new) old) }
{}

/// What a stop since a moment might have left stays so over the calls that follow.
pub fn time_keeps_what_was_left<D: Disk>()
    ensures { (one two three : D) (start : ℕ) (image : Image)
        → HasElapsed D.view one two
        → HasElapsed D.view two three
        → start ≤ D.view.moment one → D.view.left_since one start image → D.view.left_since three start image }
{}

/// Within which call an armed disk stops. Calls that are done are no more than those that were to succeed, and leave so
/// many less; a stop comes when none is left, within the call whose number, counted from 0, was to succeed no more. A
/// disk that isn't armed never stops.
pub fn an_armed_disk_stops_after_so_many_calls()
    ensures passes { (calls : List DiskCall) (arm : Arm) (old new : Told) → old.arm ≡ Some arm → AllDone calls old new
        → (length calls ≤ arm.left) × (new.arm ≡ Some (record arm { left = arm.left - length calls })) }
    ensures stops { (calls : List DiskCall) (arm : Arm) (old new : Told) → old.stopped ≡ false → old.arm ≡ Some arm → BreaksOff Stopped calls old new
        → StopsAt arm.left calls old new × (new.stopped ≡ true) × (new.arm ≡ Some (record arm { left = 0 })) }
    ensures unarmed { (calls : List DiskCall) (old new : Told) → old.stopped ≡ false → old.arm ≡ None → BreaksOff Stopped calls old new → ⊥ }
{}
