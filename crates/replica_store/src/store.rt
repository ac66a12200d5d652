ghost use Rattle.std.specs.Prelude.{◌≡◌, ◌↔◌, ◌⊎◌, ◌<◌, ◌^◌, ⊤, ℕ, List, length, map, Option, Some, Ok, Err, IfOk, OnOk, OnErr, IsErrOf};
ghost use Rattle.paxos_base.specs.declared.rows.TableSize.{TableSize};
ghost use Rattle.disk_model.specs.Images.{file_of, OthersStay, NoNewImage, InFileOnly};
ghost use Rattle.gate_file.specs.File.{file_no, bodies_of, IsFileAtRest};
ghost use Rattle.disk_model.specs.Made.{AllDone, DiskCall, MadeCalls};
ghost use Rattle.disk_model.specs.Told.{TellsThen};
ghost use Rattle.disk_model.specs.View.{LeavesOnly};
ghost use Rattle.gate_file.specs.Gates.{HasBodies};
ghost use Rattle.gate_file.specs.Made.{rewrite_calls};
ghost use Rattle.paxos_base.specs.declared.durable.Delta.{Delta};
ghost use Rattle.paxos_base.specs.declared.durable.Delta.TheVariants.{Base};
ghost use Rattle.paxos_base.specs.declared.durable.Durable.{Durable};
ghost use Rattle.paxos_base.specs.Durable.{after_delta};
ghost use Rattle.store_format.specs.Area.{BeginsInFormat1, StandFor, IsFirstRecordAtFault, base_records};
ghost use Rattle.store_format.specs.declared.body.Record.{Record};
ghost use Rattle.store_format.specs.Records.{AreRecords, IsRecord, record_bytes};
ghost use Rattle.paxos_base.specs.declared.rows.JobRow.{JobRow};
ghost use Rattle.paxos_base.specs.Rows.{RowsStand};
ghost use Rattle.store_format.specs.Order.{ChangeMayFollow, delta_record};
ghost use Rattle.replica_store.specs.declared.fault.StoreFault.TheVariants.{Stopped, OutOfMemory, Damaged};
ghost use Rattle.replica_store.specs.Faults.{HasStoreAnswer, of_disk};
ghost use Rattle.replica_store.specs.Files.{SelectsFormat1, selected, other_area, BodiesStand, FilesStand, FilesStandForEither, IsRecoverable};
ghost use Rattle.disk_model.specs.declared.fault.FileNo.TheVariants.{Chooser};
ghost use Rattle.replica_store.specs.Kept.{IsClean};
ghost use Rattle.replica_store.specs.Made.{AreAttachCalls, look_calls, attach_calls, save_calls, area_after};

use crate::chooser::{bit_of, other_area, select};
use crate::fault::StoreFault;
use disk_model::{Disk, FileNo, write_synced};
use gate_file::{GateFile, ReadGates};
use paxos_base::{Delta, Durable, RowList, TableSize};
use std::alloc::Global;
use store_format::{
    begins_in_format_1, delta_record, read_beside_rows, read_records, record_bytes, write_base,
};

/// What a replica keeps on its disk.
#[derive(Debug, Drop)]
pub struct Store {
    alloc: Global,
    size: TableSize,
    gates: GateFile,
}

impl Store {
    ghost use Rattle.replica_store.specs.Store.{size_of_store, area_of, records_of, IsInFormat2, StoreKeeps, IsStoreAtRest};

    /// Attaches the files of a disk, of a table of that size, and says what they stand for. What an earlier call that
    /// failed left is decided here. If the selected area begins with a base of format 1, what it stands for is saved as a
    /// base in the other one, which is selected then.
    ///
    /// # Errors
    ///
    /// Those of the disk, want of memory, and `Damaged` where the files stand for no state. Then nothing was written.
    pub fn attach<D: Disk>(
        alloc: Global,
        disk: &mut D,
        size: TableSize,
    ) -> Result<(Store, Durable), StoreFault>
        ensures rests { IfOk result (λ found. IsStoreAtRest D.view disk.new found.0) }
        ensures size { IfOk result (λ found. size_of_store found.0 ≡ size) }
        ensures keeps { IfOk result (λ found. StoreKeeps found.0 found.1) }
        ensures stand { IfOk result (λ found. FilesStand size found.1 (D.view.seen disk.old)) }
        // So a replica can start with it.
        ensures rows { IfOk result (λ found. RowsStand found.1.rows size) }
        ensures tried { IfOk result (λ found. found.1.tried < 2 ^ 61) }
        // Afterwards the selected area begins with no base of format 1.
        ensures format { IfOk result (λ found. IsInFormat2 found.0) }
        ensures migrated { OnOk result (SelectsFormat1 size (D.view.seen disk.new) → ⊥) }
        ensures moved { SelectsFormat1 size (D.view.seen disk.old) → IfOk result (λ found. area_of found.0 ≡ other_area (selected (D.view.seen disk.old))) }
        // If it began with none before, it stays selected, and the chooser and the other area stay as they are.
        ensures area { (SelectsFormat1 size (D.view.seen disk.old) → ⊥)
            → IfOk result (λ found. area_of found.0 ≡ selected (D.view.seen disk.old)) }
        ensures others { (SelectsFormat1 size (D.view.seen disk.old) → ⊥)
            → OnOk result (OthersStay (selected (D.view.seen disk.old)) (D.view.seen disk.old) (D.view.seen disk.new)) }
        // So they do, whatever the answer is, in whatever a stop leaves.
        ensures elsewhere { (SelectsFormat1 size (D.view.seen disk.old) → ⊥) → D.view.honest disk.old → LeavesOnly D.view disk.old disk.new
            (InFileOnly (selected (D.view.seen disk.old)) (D.view.may_leave disk.old) (λ bytes. ⊤)) }

        // From a disk that was recoverable, with the state before a change or after it, one of the two is found; whatever a
        // stop within this call leaves stands for one of them, and the disk stays recoverable.
        ensures either { (before after : Durable) → D.view.honest disk.old → IsRecoverable size before after (D.view.may_leave disk.old)
            → IfOk result (λ found. (found.1 ≡ before) ⊎ (found.1 ≡ after)) }
        ensures sound { (before after : Durable) (gate : ℕ) → D.view.honest disk.old → IsRecoverable size before after (D.view.may_leave disk.old)
            → result ≡ Err (Damaged gate) → ⊥ }
        ensures images { (before after : Durable) → D.view.honest disk.old → IsRecoverable size before after (D.view.may_leave disk.old)
            → LeavesOnly D.view disk.old disk.new (FilesStandForEither size before after) }
        ensures recoverable { (before after : Durable) → D.view.honest disk.old → IsRecoverable size before after (D.view.may_leave disk.old)
            → IsRecoverable size before after (D.view.may_leave disk.new) }

        ensures damaged { (gate : ℕ) (bodies : List (List ℕ)) → result ≡ Err (Damaged gate)
            → HasBodies (file_of (selected (D.view.seen disk.old)) (D.view.seen disk.old)) bodies
            → IsFirstRecordAtFault size bodies gate }
        ensures unwritten { (gate : ℕ) → result ≡ Err (Damaged gate) → D.view.seen disk.new ≡ D.view.seen disk.old }
        ensures damaged_image { (gate : ℕ) → result ≡ Err (Damaged gate) → D.view.honest disk.old
            → NoNewImage (D.view.may_leave disk.old) (D.view.may_leave disk.new) }
        ensures damaged_images { (gate : ℕ) → result ≡ Err (Damaged gate) → D.view.honest disk.old
            → LeavesOnly D.view disk.old disk.new (D.view.may_leave disk.old) }
        ensures memory_image { (SelectsFormat1 size (D.view.seen disk.old) → ⊥) → IsErrOf result OutOfMemory → D.view.honest disk.old
            → NoNewImage (D.view.may_leave disk.old) (D.view.may_leave disk.new) }
        ensures told { (records : List (List ℕ)) → HasBodies (file_of (selected (D.view.seen disk.old)) (D.view.seen disk.old)) records
            → (calls : List DiskCall) × AreAttachCalls size (D.view.seen disk.old) records calls
            × TellsThen (MadeCalls of_disk calls result) (D.view.told disk.old) (D.view.told disk.new) }
        ensures told_damaged { (gate : ℕ) → result ≡ Err (Damaged gate)
            → TellsThen (AllDone (look_calls (D.view.seen disk.old))) (D.view.told disk.old) (D.view.told disk.new) }
        // Nothing of the chooser and of the store's area waits for a sync, in what the disk tells.
        ensures clean { IfOk result (λ found. TellsThen (λ before after. IsClean Chooser after × IsClean (area_of found.0) after)
            (D.view.told disk.old) (D.view.told disk.new)) }
        ensures answer { HasStoreAnswer D.view disk.old disk.new result }
    {
        let (mut store, kept) = Store::attach_as_it_is(alloc, disk, size)?;
        if !begins_in_format_1(size, store.gates.bodies()) {
            return Ok((store, kept));
        }
        store.save_base(disk, kept.base, &kept.rows)?;
        Ok((store, kept))
    }

    // Attaches the files of a disk as they are, in either format.
    fn attach_as_it_is<D: Disk>(
        alloc: Global,
        disk: &mut D,
        size: TableSize,
    ) -> Result<(Store, Durable), StoreFault>
        ensures rests { IfOk result (λ found. IsStoreAtRest D.view disk.new found.0) }
        ensures size { IfOk result (λ found. size_of_store found.0 ≡ size) }
        ensures keeps { IfOk result (λ found. StoreKeeps found.0 found.1) }
        ensures stand { IfOk result (λ found. FilesStand size found.1 (D.view.seen disk.old)) }
        // So a replica can start with it.
        ensures rows { IfOk result (λ found. RowsStand found.1.rows size) }
        ensures tried { IfOk result (λ found. found.1.tried < 2 ^ 61) }
        ensures area { IfOk result (λ found. area_of found.0 ≡ selected (D.view.seen disk.old)) }
        ensures records { IfOk result (λ found. HasBodies (file_of (selected (D.view.seen disk.old)) (D.view.seen disk.old)) (records_of found.0)) }
        // The chooser and the other area stay as they are.
        ensures others { OnOk result (OthersStay (selected (D.view.seen disk.old)) (D.view.seen disk.old) (D.view.seen disk.new)) }
        // So they do, whatever the answer is, in whatever a stop leaves.
        ensures elsewhere { D.view.honest disk.old → LeavesOnly D.view disk.old disk.new
            (InFileOnly (selected (D.view.seen disk.old)) (D.view.may_leave disk.old) (λ bytes. ⊤)) }

        // From a disk that was recoverable, with the state before a change or after it, one of the two is found; whatever a
        // stop within this call leaves stands for one of them, and the disk stays recoverable.
        ensures either { (before after : Durable) → D.view.honest disk.old → IsRecoverable size before after (D.view.may_leave disk.old)
            → IfOk result (λ found. (found.1 ≡ before) ⊎ (found.1 ≡ after)) }
        ensures sound { (before after : Durable) (gate : ℕ) → D.view.honest disk.old → IsRecoverable size before after (D.view.may_leave disk.old)
            → result ≡ Err (Damaged gate) → ⊥ }
        ensures images { (before after : Durable) → D.view.honest disk.old → IsRecoverable size before after (D.view.may_leave disk.old)
            → LeavesOnly D.view disk.old disk.new (FilesStandForEither size before after) }
        ensures recoverable { (before after : Durable) → D.view.honest disk.old → IsRecoverable size before after (D.view.may_leave disk.old)
            → IsRecoverable size before after (D.view.may_leave disk.new) }

        ensures damaged { (gate : ℕ) (bodies : List (List ℕ)) → result ≡ Err (Damaged gate)
            → HasBodies (file_of (selected (D.view.seen disk.old)) (D.view.seen disk.old)) bodies
            → IsFirstRecordAtFault size bodies gate }
        ensures unwritten { (gate : ℕ) → result ≡ Err (Damaged gate) → D.view.seen disk.new ≡ D.view.seen disk.old }
        ensures damaged_image { (gate : ℕ) → result ≡ Err (Damaged gate) → D.view.honest disk.old
            → NoNewImage (D.view.may_leave disk.old) (D.view.may_leave disk.new) }
        ensures damaged_images { (gate : ℕ) → result ≡ Err (Damaged gate) → D.view.honest disk.old
            → LeavesOnly D.view disk.old disk.new (D.view.may_leave disk.old) }
        ensures memory_image { IsErrOf result OutOfMemory → D.view.honest disk.old → NoNewImage (D.view.may_leave disk.old) (D.view.may_leave disk.new) }
        ensures told { (records : List (List ℕ)) → HasBodies (file_of (selected (D.view.seen disk.old)) (D.view.seen disk.old)) records
            → TellsThen (MadeCalls of_disk (attach_calls (D.view.seen disk.old) (length records)) result) (D.view.told disk.old) (D.view.told disk.new) }
        ensures told_damaged { (gate : ℕ) → result ≡ Err (Damaged gate)
            → TellsThen (AllDone (look_calls (D.view.seen disk.old))) (D.view.told disk.old) (D.view.told disk.new) }
        ensures answer { HasStoreAnswer D.view disk.old disk.new result }
    {
        let area = select(disk)?;
        let read = ReadGates::read(alloc, disk, area)?;
        let (kept, _) = read_records(alloc, size, read.bodies())?;
        let gates = read.close(disk)?;
        Ok((Store { alloc, size, gates }, kept))
    }

    /// Saves a change. At `Ok` the files stand for the state after it, whatever a stop does.
    ///
    /// A change is appended to the area by two writes, each synced. For a base the other area is cut, written and synced,
    /// and then the chooser's byte is written and synced.
    ///
    /// # Errors
    ///
    /// `Stopped` and `DiskFault` where the disk stopped or failed: then the files stand for the state before the change or
    /// for the one after it, and are to be attached again. `OutOfMemory`: they stand for the state before it, and the store
    /// can go on. `Damaged` never.
    pub fn save<D: Disk>(&mut self, disk: &mut D, delta: &Delta) -> Result<(), StoreFault>
        requires rests { IsStoreAtRest D.view disk.old self.old }
        requires follows { (kept : Durable) → StoreKeeps self.old kept → ChangeMayFollow (size_of_store self.old) kept delta.now }
        ensures rests { OnOk result (IsStoreAtRest D.view disk.new self.new) }
        ensures keeps { (kept : Durable) → StoreKeeps self.old kept → OnOk result (StoreKeeps self.new (after_delta delta.now kept)) }
        ensures size { size_of_store self.new ≡ size_of_store self.old }

        // Whatever a stop within the call leaves stands for the state before the change or for the one after it, and whatever
        // the answer is, the disk is recoverable with one of the two.
        ensures images { (kept : Durable) → StoreKeeps self.old kept → D.view.honest disk.old
            → LeavesOnly D.view disk.old disk.new (FilesStandForEither (size_of_store self.old) kept (after_delta delta.now kept)) }
        ensures recoverable { (kept : Durable) → StoreKeeps self.old kept → D.view.honest disk.old
            → IsRecoverable (size_of_store self.old) kept (after_delta delta.now kept) (D.view.may_leave disk.new) }

        ensures memory { IsErrOf result OutOfMemory → IsStoreAtRest D.view disk.new self.new }
        ensures memory_keeps { (kept : Durable) → StoreKeeps self.old kept → IsErrOf result OutOfMemory → StoreKeeps self.new kept }
        ensures undamaged { (gate : ℕ) → result ≡ Err (Damaged gate) → ⊥ }
        ensures format { IsInFormat2 self.old → IsInFormat2 self.new }
        // It goes on in its area, and after a base in the other one.
        ensures area { OnOk result (area_of self.new ≡ area_after delta.now (area_of self.old)) }
        ensures same_area { OnErr result (area_of self.new ≡ area_of self.old) }
        ensures told { (kept : Durable) (own : Option ℕ) → StandFor (size_of_store self.old) (records_of self.old) kept own
            → TellsThen (MadeCalls of_disk (save_calls (area_of self.old) (length (records_of self.old)) kept own delta.now) result)
            (D.view.told disk.old) (D.view.told disk.new) }
        // What is said of a stop within it asks that its records are spelled.
        ensures spelled { (item : Record) → delta_record delta.now ≡ Some item → IsRecord (record_bytes item) item }
        ensures base_spelled { (kept : Durable) (own : Option ℕ) (slot : ℕ) (rows : List JobRow)
            → StandFor (size_of_store self.old) (records_of self.old) kept own
            → delta.now ≡ Base slot rows → IsErrOf result Stopped
            → AreRecords (map record_bytes (base_records kept own slot rows)) (base_records kept own slot rows) }
        ensures answer { HasStoreAnswer D.view disk.old disk.new result }
    {
        if let Delta::Base { slot, rows } = delta {
            return self.save_base(disk, *slot, rows);
        }
        let Some(item) = delta_record(delta) else {
            unreachable!()
        };
        self.gates.append(disk, &record_bytes(&item))?;
        Ok(())
    }

    // Saves a base: the other area is written for it, and selected.
    fn save_base<D: Disk>(
        &mut self,
        disk: &mut D,
        slot: u64,
        rows: &RowList,
    ) -> Result<(), StoreFault>
        requires rests { IsStoreAtRest D.view disk.old self.old }
        requires rows { RowsStand rows.now (size_of_store self.old) }
        ensures rests { OnOk result (IsStoreAtRest D.view disk.new self.new) }
        ensures keeps { (kept : Durable) → StoreKeeps self.old kept → OnOk result (StoreKeeps self.new (after_delta (Base slot rows.now) kept)) }
        ensures size { size_of_store self.new ≡ size_of_store self.old }
        ensures images { (kept : Durable) → StoreKeeps self.old kept → D.view.honest disk.old
            → LeavesOnly D.view disk.old disk.new (FilesStandForEither (size_of_store self.old) kept (after_delta (Base slot rows.now) kept)) }
        ensures recoverable { (kept : Durable) → StoreKeeps self.old kept → D.view.honest disk.old
            → IsRecoverable (size_of_store self.old) kept (after_delta (Base slot rows.now) kept) (D.view.may_leave disk.new) }
        ensures memory { IsErrOf result OutOfMemory → IsStoreAtRest D.view disk.new self.new }
        ensures memory_keeps { (kept : Durable) → StoreKeeps self.old kept → IsErrOf result OutOfMemory → StoreKeeps self.new kept }
        ensures undamaged { (gate : ℕ) → result ≡ Err (Damaged gate) → ⊥ }
        ensures format { OnOk result (IsInFormat2 self.new) }
        ensures still { IsInFormat2 self.old → IsInFormat2 self.new }
        ensures area { OnOk result (area_of self.new ≡ other_area (area_of self.old)) }
        ensures same_area { OnErr result (area_of self.new ≡ area_of self.old) }
        ensures told { (kept : Durable) (own : Option ℕ) → StandFor (size_of_store self.old) (records_of self.old) kept own
            → TellsThen (MadeCalls of_disk (save_calls (area_of self.old) (length (records_of self.old)) kept own (Base slot rows.now)) result)
            (D.view.told disk.old) (D.view.told disk.new) }
        ensures spelled { (kept : Durable) (own : Option ℕ) → StandFor (size_of_store self.old) (records_of self.old) kept own → IsErrOf result Stopped
            → AreRecords (map record_bytes (base_records kept own slot rows.now)) (base_records kept own slot rows.now) }
        ensures answer { HasStoreAnswer D.view disk.old disk.new result }
    {
        let gates = self.write_area(disk, slot, rows)?;
        write_synced(disk, FileNo::Chooser, 0, &[bit_of(gates.file())])?;
        self.gates = gates;
        Ok(())
    }

    // Writes the other area for a base: its rows, and a copy of what is kept beside them.
    fn write_area<D: Disk>(
        &self,
        disk: &mut D,
        slot: u64,
        rows: &RowList,
    ) -> Result<GateFile, StoreFault>
        requires rests { IsStoreAtRest D.view disk.old self.now }
        requires rows { RowsStand rows.now (size_of_store self.now) }
        ensures rests { IfOk result (λ gates. IsFileAtRest D.view disk.new gates) }
        ensures file { IfOk result (λ gates. file_no gates ≡ other_area (area_of self.now)) }
        ensures stand { (kept : Durable) → StoreKeeps self.now kept
            → IfOk result (λ gates. BodiesStand (size_of_store self.now) (bodies_of gates) (after_delta (Base slot rows.now) kept)) }
        ensures format { IfOk result (λ gates. BeginsInFormat1 (size_of_store self.now) (bodies_of gates) → ⊥) }
        ensures others { OnOk result (OthersStay (other_area (area_of self.now)) (D.view.seen disk.old) (D.view.seen disk.new)) }
        ensures images { D.view.honest disk.old → LeavesOnly D.view disk.old disk.new
            (InFileOnly (other_area (area_of self.now)) (D.view.may_leave disk.old) (λ bytes. ⊤)) }
        ensures memory_others { IsErrOf result OutOfMemory → OthersStay (other_area (area_of self.now)) (D.view.seen disk.old) (D.view.seen disk.new) }
        ensures undamaged { (gate : ℕ) → result ≡ Err (Damaged gate) → ⊥ }
        ensures told { (kept : Durable) (own : Option ℕ) → StandFor (size_of_store self.now) (records_of self.now) kept own
            → TellsThen (MadeCalls of_disk (rewrite_calls (other_area (area_of self.now)) (map record_bytes (base_records kept own slot rows.now))) result)
            (D.view.told disk.old) (D.view.told disk.new) }
        ensures spelled { (kept : Durable) (own : Option ℕ) → StandFor (size_of_store self.now) (records_of self.now) kept own
            → OnOk result (AreRecords (map record_bytes (base_records kept own slot rows.now)) (base_records kept own slot rows.now)) }
        ensures stopped_spelled { (kept : Durable) (own : Option ℕ) → StandFor (size_of_store self.now) (records_of self.now) kept own → IsErrOf result Stopped
            → AreRecords (map record_bytes (base_records kept own slot rows.now)) (base_records kept own slot rows.now) }
        ensures answer { HasStoreAnswer D.view disk.old disk.new result }
    {
        let (kept, own) = read_beside_rows(self.alloc, self.size, self.gates.bodies())?;
        let bodies = write_base(self.alloc, &kept, own, slot, rows)?;
        let other = other_area(self.gates.file());
        Ok(GateFile::rewrite(self.alloc, disk, other, bodies)?)
    }
}
