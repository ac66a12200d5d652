//! What a node does where it is reopened.
ghost use Rattle.std.specs.Prelude.{◌≡◌, ◌↔◌, ◌⊎◌, ℕ, List, IsTrue, None, Some, Err, IfOk, IsSomeAnd};
ghost use Rattle.paxos_base.specs.declared.rows.TableSize.{TableSize};
ghost use Rattle.disk_model.specs.Images.{file_of, NoNewImage};
ghost use Rattle.disk_model.specs.Told.{Told, TellsStop, image_left};
ghost use Rattle.due_set.specs.Table.{Table};
ghost use Rattle.gate_file.specs.Gates.{HasBodies};
ghost use Rattle.replica_core.specs.Commit.{kept_after};
ghost use Rattle.paxos_base.specs.declared.durable.Delta.{Delta};
ghost use Rattle.paxos_base.specs.declared.durable.Durable.{Durable};
ghost use Rattle.paxos_letter.specs.declared.fault.LetterFault.{LetterFault};
ghost use Rattle.store_format.specs.Area.{IsFirstRecordAtFault};
ghost use Rattle.replica_core.specs.Replica.{IsSmall, ReplicaState};
ghost use Rattle.replica_core.specs.Step.{CanTake, IsOfTable};
ghost use Rattle.replica_store.specs.Files.{SelectsFormat1, selected, FilesStand, IsRecoverable};
ghost use Rattle.replica_store.specs.Store.{area_of, size_of_store, IsInFormat2, StoreKeeps, IsStoreAtRest};
ghost use Rattle.replica_node.specs.Change.{ShowsChange, IsDecided};
ghost use Rattle.replica_node.specs.Faults.{EndsRun, HasNodeAnswer};
ghost use Rattle.replica_node.specs.Kept.{IsAreaSynced};
ghost use Rattle.replica_node.specs.Reliable.{CantFail, IsReliable};
ghost use Rattle.replica_node.specs.Stopped.{HasPlanned, IsDiskUnarmed};
ghost use Rattle.replica_node.specs.declared.fault.NodeFault.TheVariants.{Stopped, Damaged, Letter};

use crate::change::shows_change;
use crate::fault::NodeFault;
use disk_model::ArmedDisk;
use due_set::JobTable;
use paxos_base::{Delta, Durable, TableSize};
use replica_core::{Planned, Replica};
use replica_store::Store;
use std::alloc::Global;

/// Attaches a disk that has stopped, as the stop left it, and says what its files stand for.
pub fn attach_stopped<D: ArmedDisk>(
    alloc: Global,
    disk: &mut D,
    size: TableSize,
) -> Result<(Store, Durable), NodeFault>
    requires stopped { TellsStop (D.view.told disk.old) }
    ensures rests { IfOk result (λ found. IsStoreAtRest D.view disk.new found.0) }
    ensures size { IfOk result (λ found. size_of_store found.0 ≡ size) }
    ensures keeps { IfOk result (λ found. StoreKeeps found.0 found.1) }
    ensures image { (told : Told) → D.view.told disk.old ≡ Some told → IfOk result (λ found. FilesStand size found.1 (image_left told)) }
    ensures format { IfOk result (λ found. IsInFormat2 found.0) }
    ensures area { (told : Told) → D.view.told disk.old ≡ Some told → (SelectsFormat1 size (image_left told) → ⊥)
        → IfOk result (λ found. area_of found.0 ≡ selected (image_left told)) }
    ensures clean { IfOk result (λ found. IsSomeAnd (D.view.told disk.new) (IsAreaSynced (area_of found.0))) }
    ensures either { (before after : Durable) → D.view.honest disk.old → IsRecoverable size before after (D.view.may_leave disk.old)
        → IfOk result (λ found. (found.1 ≡ before) ⊎ (found.1 ≡ after)) }
    ensures sound { (before after : Durable) (gate : ℕ) → D.view.honest disk.old → IsRecoverable size before after (D.view.may_leave disk.old)
        → result ≡ Err (Damaged gate) → ⊥ }
    ensures recoverable { (before after : Durable) → D.view.honest disk.old → IsRecoverable size before after (D.view.may_leave disk.old)
        → IsRecoverable size before after (D.view.may_leave disk.new) }
    ensures damaged { (gate : ℕ) (bodies : List (List ℕ)) → result ≡ Err (Damaged gate)
        → HasBodies (file_of (selected (D.view.seen disk.new)) (D.view.seen disk.new)) bodies
        → IsFirstRecordAtFault size bodies gate }
    ensures quiet { IsDiskUnarmed (D.view.told disk.new) }
    ensures reliable { CantFail (D.view.told disk.old) → IsReliable (D.view.told disk.new) }
    ensures unended { CantFail (D.view.told disk.old) → EndsRun result → ⊥ }
    ensures never_stopped { result ≡ Err Stopped → ⊥ }
    ensures no_letter { (fault : LetterFault) → result ≡ Err (Letter fault) → ⊥ }
    ensures answer { HasNodeAnswer D.view disk.old disk.new result }
{
    disk.revive();
    Ok(Store::attach(alloc, disk, size)?)
}

/// Takes a step that was cut short where what is kept shows its change, and gives that change.
pub fn take_kept(
    replica: &mut Replica,
    table: &JobTable,
    planned: Planned,
    kept: &Durable,
) -> Option<Delta>
    requires of_table { IsOfTable table.now replica.old }
    requires small { IsSmall replica.old.state replica.old.machine.rows }
    requires can_take { CanTake table.now replica.old planned }
    ensures answer { (change : Delta) → HasPlanned table.now replica.old planned change → IsDecided change kept.now result }
    ensures kept { (change : Delta) → HasPlanned table.now replica.old planned change
        → replica.new.state.kept ≡ kept_after result replica.old.state.kept }
{
    if shows_planned(&planned, kept) {
        replica.complete(table, planned).delta
    } else {
        None
    }
}

// Whether what is kept shows the change of a planned step.
fn shows_planned(planned: &Planned, kept: &Durable) -> bool
    ensures { (table : Table) (replica : ReplicaState) (change : Delta) → HasPlanned table replica planned.now change
        → (IsTrue result ↔ ShowsChange change kept.now) }
{
    match planned.delta() {
        Some(change) => shows_change(kept, change),
        None => false,
    }
}
