//! What a node does where it starts.
ghost use Rattle.std.specs.Prelude.{◌≡◌, ◌<◌, ◌≤◌, ◌⊎◌, ℕ, List, Ok, Err, IsSome, IsSomeAnd, IfOk, OnOk, length};
ghost use Rattle.launch_machine.specs.Clerk.{table_size};
ghost use Rattle.disk_model.specs.Images.{file_of};
ghost use Rattle.disk_model.specs.View.{LeavesOnly};
ghost use Rattle.gate_file.specs.Gates.{HasBodies};
ghost use Rattle.paxos_base.specs.declared.durable.Durable.{Durable};
ghost use Rattle.paxos_letter.specs.declared.fault.LetterFault.{LetterFault};
ghost use Rattle.step_spec.specs.State.{started};
ghost use Rattle.store_format.specs.Area.{IsFirstRecordAtFault};
ghost use Rattle.replica_core.specs.Step.{IsOfTable};
ghost use Rattle.replica_store.specs.Files.{SelectsFormat1, selected, FilesStand, FilesStandForEither, IsRecoverable};
ghost use Rattle.replica_store.specs.Store.{area_of, size_of_store, IsInFormat2, StoreKeeps, IsStoreAtRest};
ghost use Rattle.replica_node.specs.declared.fault.NodeFault.TheVariants.{Damaged, Letter};
ghost use Rattle.replica_node.specs.Faults.{EndsRun, HasNodeAnswer};
ghost use Rattle.replica_node.specs.Reliable.{IsReliable, IsUnfailing, IsUnfailingAfter};
ghost use Rattle.replica_node.specs.Kept.{IsAreaSynced};

use crate::fault::NodeFault;
use disk_model::Disk;
use due_set::JobTable;
use launch_machine::table_size;
use replica_core::Replica;
use replica_store::Store;
use std::alloc::Global;

/// A store attached to its disk, and the replica that starts with what it keeps.
pub fn start<D: Disk>(
    alloc: Global,
    me: u8,
    members: u8,
    table: &JobTable,
    disk: &mut D,
) -> Result<(Store, Replica), NodeFault>
    requires me { me < members }
    requires few { members ≤ 7 }
    ensures rests { IfOk result (λ found. IsStoreAtRest D.view disk.new found.0) }
    ensures size { IfOk result (λ found. size_of_store found.0 ≡ table_size table.now) }
    ensures keeps { IfOk result (λ found. StoreKeeps found.0 found.1.state.kept) }
    ensures identity { IfOk result (λ found. found.1.identity ≡ record { me = me; members = members }) }
    ensures started { IfOk result (λ found. found.1.state ≡ started me found.1.state.kept) }
    ensures of_table { IfOk result (λ found. IsOfTable table.now found.1) }
    ensures stand { IfOk result (λ found. FilesStand (table_size table.now) found.1.state.kept (D.view.seen disk.old)) }
    ensures format { IfOk result (λ found. IsInFormat2 found.0) }
    ensures area { (SelectsFormat1 (table_size table.now) (D.view.seen disk.old) → ⊥)
        → IfOk result (λ found. area_of found.0 ≡ selected (D.view.seen disk.old)) }
    ensures clean { IsSome (D.view.told disk.old) → IfOk result (λ found. IsSomeAnd (D.view.told disk.new) (IsAreaSynced (area_of found.0))) }
    ensures reliable { IsReliable (D.view.told disk.old) → OnOk result (IsReliable (D.view.told disk.new)) }
    ensures unended { IsReliable (D.view.told disk.old) → EndsRun result → ⊥ }
    ensures unfailing { IsUnfailing (D.view.told disk.old) → IsUnfailingAfter result (D.view.told disk.new) }
    ensures either { (before after : Durable) → D.view.honest disk.old → IsRecoverable (table_size table.now) before after (D.view.may_leave disk.old)
        → IfOk result (λ found. (found.1.state.kept ≡ before) ⊎ (found.1.state.kept ≡ after)) }
    ensures sound { (before after : Durable) (gate : ℕ) → D.view.honest disk.old
        → IsRecoverable (table_size table.now) before after (D.view.may_leave disk.old)
        → result ≡ Err (Damaged gate) → ⊥ }
    ensures images { (before after : Durable) → D.view.honest disk.old → IsRecoverable (table_size table.now) before after (D.view.may_leave disk.old)
        → LeavesOnly D.view disk.old disk.new (FilesStandForEither (table_size table.now) before after) }
    ensures recoverable { (before after : Durable) → D.view.honest disk.old → IsRecoverable (table_size table.now) before after (D.view.may_leave disk.old)
        → IsRecoverable (table_size table.now) before after (D.view.may_leave disk.new) }
    ensures damaged { (gate : ℕ) (bodies : List (List ℕ)) → result ≡ Err (Damaged gate)
        → HasBodies (file_of (selected (D.view.seen disk.old)) (D.view.seen disk.old)) bodies
        → IsFirstRecordAtFault (table_size table.now) bodies gate }
    ensures unwritten { (gate : ℕ) → result ≡ Err (Damaged gate) → D.view.seen disk.new ≡ D.view.seen disk.old }
    ensures no_letter { (fault : LetterFault) → result ≡ Err (Letter fault) → ⊥ }
    ensures answer { HasNodeAnswer D.view disk.old disk.new result }
{
    let (store, kept) = Store::attach(alloc, disk, table_size(table))?;
    let replica = Replica::start(me, members, table, kept)?;
    Ok((store, replica))
}
