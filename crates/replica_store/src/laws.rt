ghost use Rattle.std.specs.Prelude.{◌≡◌, ◌↔◌, ◌<◌, ◌≤◌, ℕ, true, false, Option, Some, List, [], length, map};
ghost use Rattle.paxos_base.specs.declared.rows.TableSize.{TableSize};
ghost use Rattle.disk_model.specs.declared.armed.Arm.{Arm};
ghost use Rattle.disk_model.specs.declared.fault.FileNo.{FileNo};
ghost use Rattle.disk_model.specs.declared.fault.FileNo.TheVariants.{Chooser};
ghost use Rattle.disk_model.specs.Images.{Image, file_of, IsDurable, NoNewImage};
ghost use Rattle.disk_model.specs.Made.{AllDone};
ghost use Rattle.disk_model.specs.Told.{Told, image_left, after_arm, after_disarm, after_revive};
ghost use Rattle.gate_file.specs.Gates.{HasRestingGate};
ghost use Rattle.paxos_base.specs.declared.durable.Delta.{Delta};
ghost use Rattle.paxos_base.specs.declared.durable.Delta.TheVariants.{Base};
ghost use Rattle.paxos_base.specs.declared.durable.Durable.{Durable};
ghost use Rattle.paxos_base.specs.declared.rows.JobRow.{JobRow};
ghost use Rattle.paxos_base.specs.Durable.{after_delta};
ghost use Rattle.store_format.specs.declared.body.Record.{Record};
ghost use Rattle.store_format.specs.Area.{fresh_kept, base_records};
ghost use Rattle.store_format.specs.Order.{delta_record};
ghost use Rattle.store_format.specs.Records.{AreRecords, IsRecord, record_bytes};
ghost use Rattle.replica_store.specs.declared.store.Store.{Store};
ghost use Rattle.replica_store.specs.Files.{SelectsFormat1, selected, selected_by, other_area, BodiesStand, FilesStand, FilesStandForEither, IsRecoverable};
ghost use Rattle.replica_store.specs.Kept.{IsClean, IsReady, StopsInSave, Shows};
ghost use Rattle.replica_store.specs.Made.{attach_calls, save_calls, area_after};
ghost use Rattle.replica_store.specs.Store.{size_of_store, area_of, records_of, StoreKeeps, IsStoreAtRest};

use disk_model::Disk;

/// A law, with nothing to run: files stand for one state at most, and a store keeps one.
pub fn files_stand_for_one_state()
    ensures files { (size : TableSize) (image : Image) (one other : Durable) → FilesStand size one image → FilesStand size other image → one ≡ other }
    ensures store { (store : Store) (one other : Durable) → StoreKeeps store one → StoreKeeps store other → one ≡ other }
{}

/// A law, with nothing to run: an empty disk stands for the fresh state, and is recoverable with it.
pub fn an_empty_disk_is_recoverable<D: Disk>()
    ensures stands { (size : TableSize) (image : Image) → ((file : FileNo) → file_of file image ≡ []) → FilesStand size (fresh_kept size) image }
    ensures recoverable { (disk : D) (size : TableSize) → ((image : Image) → D.view.may_leave disk image → (file : FileNo) → file_of file image ≡ [])
        → IsRecoverable size (fresh_kept size) (fresh_kept size) (D.view.may_leave disk) }
{}

/// A law, with nothing to run: each image that a stop may leave of a recoverable disk stands for one of its two states, and
/// the disk is recoverable from there.
pub fn a_stop_leaves_one_of_two_states<D: Disk>()
    ensures stands { (disk : D) (size : TableSize) (before after : Durable) (image : Image)
        → IsRecoverable size before after (D.view.may_leave disk) → D.view.may_leave disk image → FilesStandForEither size before after image }
    ensures recoverable { (disk left : D) (size : TableSize) (before after : Durable)
        → IsRecoverable size before after (D.view.may_leave disk) → NoNewImage (D.view.may_leave disk) (D.view.may_leave left)
        → IsRecoverable size before after (D.view.may_leave left) }
{}

/// A law, with nothing to run: between two calls of a store, whatever a stop leaves stands for the one state that it keeps.
pub fn a_store_at_rest_is_recoverable<D: Disk>()
    ensures { (disk : D) (store : Store) (kept : Durable) → D.view.honest disk → IsStoreAtRest D.view disk store → StoreKeeps store kept
        → IsRecoverable (size_of_store store) kept kept (D.view.may_leave disk) }
{}

/// A law, with nothing to run: a store at rest stays so while a disk's files stay as they are, as through the calls of
/// [`disk_model::ArmedDisk`] that arm it and take that back.
pub fn a_store_at_rest_stays_so<D: Disk>()
    ensures { (old new : D) (store : Store) → D.view.seen new ≡ D.view.seen old → NoNewImage (D.view.may_leave old) (D.view.may_leave new)
        → (D.view.honest new ↔ D.view.honest old)
        → IsStoreAtRest D.view old store → IsStoreAtRest D.view new store }
{}

/// A law, with nothing to run: a disk is recoverable with the state that its files stand for, where the chooser and the
/// selected area are synced, and a byte 0 stands at the tail gate of that area.
pub fn synced_files_are_recoverable<D: Disk>()
    ensures { (disk : D) (size : TableSize) (records : List (List ℕ)) (kept : Durable)
        → IsDurable Chooser (D.view.seen disk) (D.view.may_leave disk) → IsDurable (selected (D.view.seen disk)) (D.view.seen disk) (D.view.may_leave disk)
        → HasRestingGate (file_of (selected (D.view.seen disk)) (D.view.seen disk)) records → BodiesStand size records kept
        → IsRecoverable size kept kept (D.view.may_leave disk) }
{}

/// A law, with nothing to run: whether a change is kept that a record saves, where an armed disk stops within the save. A
/// stop within the first two calls, which put the record behind its gate, leaves the state before the change. One within the
/// last two, which open the gate, keeps the change exactly where the image shows the gate's byte as 1. The same area is in use.
pub fn a_stop_may_keep_a_record()
    ensures early { (size : TableSize) (area : FileNo) (kept : Durable) (own : Option ℕ) (change : Delta) (item : Record) (arm : Arm) (old new : Told)
        → StopsInSave size area kept own change arm old new → delta_record change ≡ Some item
        → arm.left < 2 → FilesStand size kept (image_left new) }
    ensures lost { (size : TableSize) (area : FileNo) (kept : Durable) (own : Option ℕ) (change : Delta) (item : Record) (arm : Arm) (old new : Told)
        → StopsInSave size area kept own change arm old new → delta_record change ≡ Some item
        → 2 ≤ arm.left → (Shows (λ byte. byte ≡ 1) arm.image → ⊥) → FilesStand size kept (image_left new) }
    ensures saved { (size : TableSize) (area : FileNo) (kept : Durable) (own : Option ℕ) (change : Delta) (item : Record) (arm : Arm) (old new : Told)
        → StopsInSave size area kept own change arm old new → delta_record change ≡ Some item → IsRecord (record_bytes item) item
        → 2 ≤ arm.left → Shows (λ byte. byte ≡ 1) arm.image → FilesStand size (after_delta change kept) (image_left new) }
    ensures area { (size : TableSize) (area : FileNo) (kept : Durable) (own : Option ℕ) (change : Delta) (item : Record) (arm : Arm) (old new : Told)
        → StopsInSave size area kept own change arm old new → delta_record change ≡ Some item → selected (image_left new) ≡ area }
    // The area that the image selects begins with no base of format 1.
    ensures early_format { (size : TableSize) (area : FileNo) (kept : Durable) (own : Option ℕ) (change : Delta) (item : Record) (arm : Arm) (old new : Told)
        → StopsInSave size area kept own change arm old new → delta_record change ≡ Some item
        → arm.left < 2 → SelectsFormat1 size (image_left new) → ⊥ }
    ensures lost_format { (size : TableSize) (area : FileNo) (kept : Durable) (own : Option ℕ) (change : Delta) (item : Record) (arm : Arm) (old new : Told)
        → StopsInSave size area kept own change arm old new → delta_record change ≡ Some item
        → 2 ≤ arm.left → (Shows (λ byte. byte ≡ 1) arm.image → ⊥) → SelectsFormat1 size (image_left new) → ⊥ }
    ensures saved_format { (size : TableSize) (area : FileNo) (kept : Durable) (own : Option ℕ) (change : Delta) (item : Record) (arm : Arm) (old new : Told)
        → StopsInSave size area kept own change arm old new → delta_record change ≡ Some item → IsRecord (record_bytes item) item
        → 2 ≤ arm.left → Shows (λ byte. byte ≡ 1) arm.image → SelectsFormat1 size (image_left new) → ⊥ }
{}

/// A law, with nothing to run: whether a base is kept, where an armed disk stops within its save. A stop within the first
/// three calls, which write the other area, leaves the state before the base. One within the last two, which write the
/// chooser's byte, keeps the base exactly where the image shows a byte that selects the other area. That area is in use where
/// the base is kept, and else the same as before.
pub fn a_stop_may_keep_a_base()
    ensures early { (size : TableSize) (area : FileNo) (kept : Durable) (own : Option ℕ) (slot : ℕ) (rows : List JobRow) (arm : Arm) (old new : Told)
        → StopsInSave size area kept own (Base slot rows) arm old new
        → arm.left < 3 → FilesStand size kept (image_left new) }
    ensures lost { (size : TableSize) (area : FileNo) (kept : Durable) (own : Option ℕ) (slot : ℕ) (rows : List JobRow) (arm : Arm) (old new : Told)
        → StopsInSave size area kept own (Base slot rows) arm old new
        → 3 ≤ arm.left → (Shows (λ byte. selected_by byte ≡ other_area area) arm.image → ⊥) → FilesStand size kept (image_left new) }
    ensures saved { (size : TableSize) (area : FileNo) (kept : Durable) (own : Option ℕ) (slot : ℕ) (rows : List JobRow) (arm : Arm) (old new : Told)
        → StopsInSave size area kept own (Base slot rows) arm old new
        → AreRecords (map record_bytes (base_records kept own slot rows)) (base_records kept own slot rows)
        → 3 ≤ arm.left → Shows (λ byte. selected_by byte ≡ other_area area) arm.image → FilesStand size (after_delta (Base slot rows) kept) (image_left new) }
    ensures early_area { (size : TableSize) (area : FileNo) (kept : Durable) (own : Option ℕ) (slot : ℕ) (rows : List JobRow) (arm : Arm) (old new : Told)
        → StopsInSave size area kept own (Base slot rows) arm old new
        → arm.left < 3 → selected (image_left new) ≡ area }
    ensures lost_area { (size : TableSize) (area : FileNo) (kept : Durable) (own : Option ℕ) (slot : ℕ) (rows : List JobRow) (arm : Arm) (old new : Told)
        → StopsInSave size area kept own (Base slot rows) arm old new
        → 3 ≤ arm.left → (Shows (λ byte. selected_by byte ≡ other_area area) arm.image → ⊥) → selected (image_left new) ≡ area }
    ensures saved_area { (size : TableSize) (area : FileNo) (kept : Durable) (own : Option ℕ) (slot : ℕ) (rows : List JobRow) (arm : Arm) (old new : Told)
        → StopsInSave size area kept own (Base slot rows) arm old new
        → 3 ≤ arm.left → Shows (λ byte. selected_by byte ≡ other_area area) arm.image → selected (image_left new) ≡ other_area area }
    // The area that the image selects begins with no base of format 1.
    ensures early_format { (size : TableSize) (area : FileNo) (kept : Durable) (own : Option ℕ) (slot : ℕ) (rows : List JobRow) (arm : Arm) (old new : Told)
        → StopsInSave size area kept own (Base slot rows) arm old new
        → arm.left < 3 → SelectsFormat1 size (image_left new) → ⊥ }
    ensures lost_format { (size : TableSize) (area : FileNo) (kept : Durable) (own : Option ℕ) (slot : ℕ) (rows : List JobRow) (arm : Arm) (old new : Told)
        → StopsInSave size area kept own (Base slot rows) arm old new
        → 3 ≤ arm.left → (Shows (λ byte. selected_by byte ≡ other_area area) arm.image → ⊥) → SelectsFormat1 size (image_left new) → ⊥ }
    ensures saved_format { (size : TableSize) (area : FileNo) (kept : Durable) (own : Option ℕ) (slot : ℕ) (rows : List JobRow) (arm : Arm) (old new : Told)
        → StopsInSave size area kept own (Base slot rows) arm old new
        → AreRecords (map record_bytes (base_records kept own slot rows)) (base_records kept own slot rows)
        → 3 ≤ arm.left → Shows (λ byte. selected_by byte ≡ other_area area) arm.image → SelectsFormat1 size (image_left new) → ⊥ }
{}

/// A law, with nothing to run: a disk that runs is ready for a save where the store is at rest, and the chooser and its area
/// are clean in what the disk tells. They are so after an attach and after a save that were done, whether the disk is armed
/// then or not; and a revival leaves every file clean.
pub fn a_disk_is_ready_for_a_save<D: Disk>()
    ensures ready { (disk : D) (store : Store) (told : Told) → IsStoreAtRest D.view disk store → D.view.told disk ≡ Some told
        → told.stopped ≡ false → IsClean Chooser told → IsClean (area_of store) told → IsReady (area_of store) (records_of store) told }
    ensures attached { (image : Image) (count : ℕ) (old new : Told) → AllDone (attach_calls image count) old new
        → IsClean Chooser new × IsClean (selected image) new }
    ensures saved { (area : FileNo) (records : List (List ℕ)) (kept : Durable) (own : Option ℕ) (change : Delta) (old new : Told)
        → IsReady area records old → AllDone (save_calls area (length records) kept own change) old new
        → IsClean Chooser new × IsClean (area_after change area) new }
    ensures armed { (pass image : ℕ) (file : FileNo) (told : Told) → IsClean file told → IsClean file (after_arm pass image told) }
    ensures disarmed { (file : FileNo) (told : Told) → IsClean file told → IsClean file (after_disarm told) }
    ensures revived { (file : FileNo) (told : Told) → told.stopped ≡ true → IsClean file (after_revive told) }
{}
