//! A world before any turn, on disks in memory.
ghost use Rattle.std.specs.Prelude.{◌≡◌, ◌≤◌, [], IfOk, Contains, length};
ghost use Rattle.script_semantics.specs.Situation.{first_situation};
ghost use Rattle.disk_model.specs.declared.mem_disk.MemDisk.{MemDisk as Files};
ghost use Rattle.script_play.specs.Play.{IsFreshMemDisk, IsMemWorldAt};
ghost use Rattle.world_rounds.specs.World.{book_of};

use cron_io::OutOfMemory;
use disk_model::MemDisk;
use due_set::JobTable;
use std::alloc::Global;
use world_rounds::World;

// So many empty disks that never fail.
fn empty_disks(alloc: Global, count: u8) -> Result<Vec<MemDisk>, OutOfMemory>
    ensures count { IfOk result (λ disks. length disks.items ≡ count) }
    ensures fresh { IfOk result (λ disks. (disk : Files) → Contains disks.items disk → IsFreshMemDisk disk) }
{
    let mut disks = Vec::new(alloc);
    'disks: for _number in 0..count {
        disks.push(MemDisk::new(alloc, Vec::new(alloc)))?;
    }
    Ok(disks)
}

/// A world of so many replicas before any turn, each on an empty disk in memory that never fails.
///
/// # Errors
///
/// Want of memory.
pub fn empty_world(
    alloc: Global,
    table: &JobTable,
    members: u8,
) -> Result<World<MemDisk>, OutOfMemory>
    requires { members ≤ 7 }
    ensures starts { IfOk result (λ world. IsMemWorldAt table.now [] world (first_situation members table.now)) }
    ensures members { IfOk result (λ world. (book_of world).members ≡ members) }
{
    let disks = empty_disks(alloc, members)?;
    World::new(alloc, table, members, disks)
}
