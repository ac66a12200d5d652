//! Laws of a replica on its disk. Each is the contract of a function that does nothing.
ghost use Rattle.std.specs.Prelude.{◌≡◌, ◌↔◌, ◌≤◌, ◌%◌, ℕ, IsTrue, List, [], Option, length};
ghost use Rattle.launch_machine.specs.Clerk.{table_size};
ghost use Rattle.disk_model.specs.declared.armed.Arm.{Arm};
ghost use Rattle.disk_model.specs.declared.fault.FileNo.TheVariants.{AreaA, AreaB};
ghost use Rattle.disk_model.specs.Images.{Image};
ghost use Rattle.disk_model.specs.Told.{Told};
ghost use Rattle.due_set.specs.Table.{Table};
ghost use Rattle.paxos_base.specs.declared.durable.Delta.{Delta};
ghost use Rattle.paxos_base.specs.declared.durable.Delta.TheVariants.{Base};
ghost use Rattle.paxos_base.specs.declared.rows.JobRow.{JobRow};
ghost use Rattle.step_spec.specs.State.{State};
ghost use Rattle.replica_core.specs.Replica.{ReplicaState};
ghost use Rattle.replica_core.specs.declared.input.Input.{Input};
ghost use Rattle.save_calls.specs.Save.{bases_after, is_kept};
ghost use Rattle.replica_store.specs.Files.{SelectsFormat1, selected, FilesStand, IsRecoverable};
ghost use Rattle.replica_store.specs.Kept.{Shows};
ghost use Rattle.replica_store.specs.Made.{area_after};
ghost use Rattle.replica_node.specs.Kept.{area_by, KeepsChange};
ghost use Rattle.replica_node.specs.Reliable.{IsReliable, IsUnarmed, IsUnfailing};
ghost use Rattle.replica_node.specs.declared.node.Node.{Node};
ghost use Rattle.replica_node.specs.Node.{disk_of, replica_of, IsNodeAtRest, LeadsTo};

use disk_model::Disk;

/// Whatever a stop leaves of a node between two of its calls stands for what its replica keeps, and a replica can go on from
/// there with that. The area that its disk selects begins with no base of format 1.
pub fn a_node_at_rest_is_recoverable<D: Disk>()
    ensures stands { (table : Table) (node : Node D) (image : Image) → IsNodeAtRest D.view table node
        → D.view.honest (disk_of node) → D.view.may_leave (disk_of node) image → FilesStand (table_size table) (replica_of node).state.kept image }
    ensures recoverable { (table : Table) (node : Node D) → IsNodeAtRest D.view table node → D.view.honest (disk_of node)
        → IsRecoverable (table_size table) (replica_of node).state.kept (replica_of node).state.kept (D.view.may_leave (disk_of node)) }
    ensures format { (table : Table) (node : Node D) → IsNodeAtRest D.view table node
        → SelectsFormat1 (table_size table) (D.view.seen (disk_of node)) → ⊥ }
{}

/// A disk is reliable exactly where it is unfailing and not armed.
pub fn a_reliable_disk_is_unfailing_and_unarmed()
    ensures { (told : Option Told) → IsReliable told ↔ (IsUnfailing told × IsUnarmed told) }
{}

/// A replica's step at an input leads to one state.
pub fn a_step_leads_to_one_state()
    ensures { (table : Table) (input : Input) (replica : ReplicaState) (one other : State)
        → LeadsTo table input replica one → LeadsTo table input replica other → one ≡ other }
{}

/// Whether a disk that stops within the save of a change keeps it, the numbers say that it was armed with, and how many bases were
/// kept: they say which area is in use, from an empty chooser on, and each base that is kept is one more.
pub fn a_change_is_kept_by_the_numbers()
    ensures kept { (bases : ℕ) (change : Delta) (arm : Arm) → KeepsChange (area_by bases) change arm ↔ IsTrue (is_kept bases change arm.left arm.image) }
    ensures first { (image : Image) → image.chooser ≡ [] → selected image ≡ area_by 0 }
    ensures next { (bases : ℕ) (change : Delta) → area_after change (area_by bases) ≡ area_by (bases_after change bases) }
{}

/// An armed disk that stops within the save of a base keeps it by the low bit of the byte that its image shows: 1 where the
/// first area is in use, and so an even number of bases was kept before, and 0 where the second is.
pub fn a_base_is_kept_by_the_low_bit()
    ensures first { (slot : ℕ) (rows : List JobRow) (arm : Arm)
        → KeepsChange AreaA (Base slot rows) arm ↔ ((3 ≤ arm.left) × Shows (λ byte. byte % 2 ≡ 1) arm.image) }
    ensures second { (slot : ℕ) (rows : List JobRow) (arm : Arm)
        → KeepsChange AreaB (Base slot rows) arm ↔ ((3 ≤ arm.left) × Shows (λ byte. byte % 2 ≡ 0) arm.image) }
{}
