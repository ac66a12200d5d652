//! A store with what it keeps, which says what may be saved next, and the disk that it keeps it on.
ghost use Rattle.std.specs.Prelude.{◌≡◌, IfOk, OnOk};
ghost use Rattle.paxos_base.specs.Durable.{after_delta};
ghost use Rattle.store_format.specs.Order.{ChangeMayFollow};
ghost use Rattle.replica_store.specs.Store.{size_of_store, StoreKeeps, IsStoreAtRest};
ghost use Rattle.store_tests.specs.Tables.{two_jobs};

use crate::area_text::fill;
use crate::change::{Change, SIZE, delta_of};
use cron_io::OutOfMemory;
use disk_model::FileNo::{AreaA, AreaB, Chooser};
use disk_model::{ArmedDisk, Disk, MemDisk};
use paxos_base::{Delta, Durable};
use replica_store::{Store, StoreFault};
use std::alloc::Global;
use std::test::Fail;
use store_format::may_follow;

// Takes over a change.
fn take(durable: &mut Durable, delta: Delta) -> Result<(), OutOfMemory>
    ensures { OnOk result (durable.new ≡ after_delta delta durable.old) }
{
    durable.apply(delta)?;
    Ok(())
}

#[derive(Drop)]
struct Kept {
    store: Store,
    durable: Durable,
}

impl Kept {
    fn attach<D: Disk>(alloc: Global, disk: &mut D) -> Result<Kept, StoreFault>
        ensures rests { IfOk result (λ kept. IsStoreAtRest D.view disk.new kept.store) }
        ensures keeps { IfOk result (λ kept. StoreKeeps kept.store kept.durable) }
        ensures size { IfOk result (λ kept. size_of_store kept.store ≡ two_jobs) }
    {
        let (store, durable) = Store::attach(alloc, disk, SIZE)?;
        Ok(Kept { store, durable })
    }

    fn save<D: Disk>(&mut self, disk: &mut D, delta: Delta) -> Result<(), StoreFault>
        requires rests { IsStoreAtRest D.view disk.old self.old.store }
        requires keeps { StoreKeeps self.old.store self.old.durable }
        requires size { size_of_store self.old.store ≡ two_jobs }
        requires follows { ChangeMayFollow two_jobs self.old.durable delta }
        ensures rests { OnOk result (IsStoreAtRest D.view disk.new self.new.store) }
        ensures keeps { OnOk result (StoreKeeps self.new.store self.new.durable) }
        ensures size { size_of_store self.new.store ≡ two_jobs }
    {
        self.store.save(disk, &delta)?;
        take(&mut self.durable, delta)?;
        Ok(())
    }

    // Saves changes, up to the first that isn't saved. One that may not follow is told as a damaged gate.
    fn save_all<D: Disk>(
        &mut self,
        alloc: Global,
        disk: &mut D,
        changes: &[Change],
    ) -> Result<(), StoreFault>
        requires rests { IsStoreAtRest D.view disk.old self.old.store }
        requires keeps { StoreKeeps self.old.store self.old.durable }
        requires size { size_of_store self.old.store ≡ two_jobs }
    {
        for change in changes {
            let delta = delta_of(alloc, *change)?;
            if !may_follow(&self.durable, SIZE, &delta) {
                return Err(StoreFault::Damaged { gate: u64::MAX });
            }
            self.save(disk, delta)?;
        }
        Ok(())
    }
}

/// An empty disk, on which the calls of these numbers fail.
pub fn empty_disk(alloc: Global, fails: &[u64]) -> Result<MemDisk, Fail> {
    Ok(MemDisk::new(alloc, Vec::from_slice(alloc, fails)?))
}

/// A disk that has these files, synced.
pub fn disk_with(
    alloc: Global,
    chooser: &[u8],
    area_a: &[u8],
    area_b: &[u8],
) -> Result<MemDisk, Fail> {
    let mut disk = empty_disk(alloc, &[])?;
    fill(&mut disk, Chooser, chooser)?;
    fill(&mut disk, AreaA, area_a)?;
    fill(&mut disk, AreaB, area_b)?;
    Ok(disk)
}

/// Attaches the disk, and says what it keeps.
pub fn find(alloc: Global, disk: &mut MemDisk) -> Result<Durable, StoreFault> {
    Ok(Kept::attach(alloc, disk)?.durable)
}

/// Attaches the disk, and saves changes with one store, up to the first that isn't saved.
pub fn save(alloc: Global, disk: &mut MemDisk, changes: &[Change]) -> Result<(), StoreFault> {
    let mut kept = Kept::attach(alloc, disk)?;
    kept.save_all(alloc, disk, changes)
}

/// Attaches the disk, and saves a change, and between the two the disk is armed.
pub fn save_armed(
    alloc: Global,
    disk: &mut MemDisk,
    change: Change,
    pass: u32,
    image: u32,
) -> Result<(), StoreFault> {
    let mut kept = Kept::attach(alloc, disk)?;
    disk.arm(pass, image);
    kept.save_all(alloc, disk, &[change])
}
