ghost use Rattle.std.specs.Prelude.{◌≡◌, ◌↔◌, ◌<◌, ◌≤◌, ◌-◌, ◌⊎◌, ℕ, List, true, false, Ok, Err, None, Some, IsSome, IfOk, OnOk, OnErr, IsErrOf, length, Option};
ghost use Rattle.std.specs.Option.{option_copied};
ghost use Rattle.launch_machine.specs.Clerk.{table_size};
ghost use Rattle.disk_model.specs.declared.armed.Arm.{Arm};
ghost use Rattle.disk_model.specs.declared.fault.FileNo.{FileNo};
ghost use Rattle.disk_model.specs.Images.{Image, file_of};
ghost use Rattle.disk_model.specs.Made.{MadeCalls};
ghost use Rattle.disk_model.specs.Told.{TellsThen, Told, after_arm, after_disarm, image_left};
ghost use Rattle.disk_model.specs.View.{LeavesOnly};
ghost use Rattle.due_set.specs.Table.{Table};
ghost use Rattle.gate_file.specs.Gates.{HasBodies};
ghost use Rattle.paxos_base.specs.Durable.{after_delta};
ghost use Rattle.paxos_base.specs.declared.durable.Delta.{Delta};
ghost use Rattle.paxos_base.specs.declared.durable.Durable.{Durable};
ghost use Rattle.paxos_letter.specs.declared.fault.LetterFault.{LetterFault};
ghost use Rattle.durable_changes.specs.Anew.{ProposesAnew};
ghost use Rattle.step_spec.specs.State.{started};
ghost use Rattle.store_format.specs.Area.{IsFirstRecordAtFault};
ghost use Rattle.store_format.specs.Order.{ChangeMayFollow};
ghost use Rattle.replica_core.specs.Commit.{kept_after};
ghost use Rattle.replica_core.specs.Replica.{IsSmall};
ghost use Rattle.replica_core.specs.Step.{IsSameReplica, IsInputInside, Steps, fault_in};
ghost use Rattle.replica_store.specs.Files.{selected, FilesStand, FilesStandForEither, IsRecoverable, SelectsFormat1};
ghost use Rattle.replica_store.specs.Store.{area_of, size_of_store, IsInFormat2, StoreKeeps, IsStoreAtRest};
ghost use Rattle.replica_node.specs.declared.fault.NodeFault.TheVariants.{Stopped, OutOfMemory, Damaged, Letter};
ghost use Rattle.replica_node.specs.Faults.{of_disk_answer, EndsRun, HasNodeAnswer, IsStepRefused, letter_told};
ghost use Rattle.replica_node.specs.Reliable.{CantFail, IsReliable, IsUnfailing, IsUnfailingAfter};
ghost use Rattle.replica_node.specs.Kept.{area_for, calls_of_change, EndsByArm, IsAnsweredByArm, KeepsChange, LeavesByArm};

use crate::fault::NodeFault;
use crate::reopen::{attach_stopped, take_kept};
use crate::start::start;
use disk_model::{ArmedDisk, Disk};
use due_set::JobTable;
use launch_machine::table_size;
use paxos_base::Delta;
use replica_core::{Input, Planned, Replica, StepOut};
use replica_store::{Store, StoreFault};
use std::alloc::Global;

/// A replica with its disk.
#[derive(Debug, Drop)]
pub struct Node<D> {
    replica: Replica,
    store: Store,
    disk: D,
    running: bool,
    // The step whose save was stopped, where one was.
    stopped: Option<Planned>,
}

impl<D: Disk> Node<D> {
    ghost use Rattle.replica_node.specs.Node.{disk_after, disk_of, fault_of, disk_calls_for, replica_of, runs_in, store_of, FilesStandAround, IsChangeOf, IsNodeAtRest, IsRecoverableAround, RecordsStand};
    ghost use Rattle.replica_node.specs.Kept.{IsNodeArmed, IsNodeClean};
    ghost use Rattle.replica_node.specs.Stopped.{IsStoppedWithin, cut_short};

    /// Whether it runs: no call has told of a stop or a fault of the disk.
    pub fn is_running(&self) -> bool
        ensures { result ≡ runs_in self.now }
    {
        self.running
    }

    /// Its replica.
    pub fn replica(&self) -> &Replica
        ensures { result.now ≡ replica_of self.now }
    {
        &self.replica
    }

    /// Its disk.
    pub fn into_disk(self) -> D
        ensures { result ≡ disk_of self }
    {
        self.disk
    }

    /// Starts a replica with what its disk keeps. What an earlier call that failed left is decided here.
    ///
    /// # Errors
    ///
    /// Those of the disk, want of memory, and `Damaged` where the files stand for no state. The disk is handed back.
    pub fn recover(
        alloc: Global,
        me: u8,
        members: u8,
        table: &JobTable,
        mut disk: D,
    ) -> Result<Node<D>, (D, NodeFault)>
        requires me { me < members }
        requires few { members ≤ 7 }
        ensures at_rest { IfOk result (λ node. IsNodeAtRest D.view table.now node) }
        ensures identity { IfOk result (λ node. (replica_of node).identity ≡ record { me = me; members = members }) }
        ensures started { IfOk result (λ node. (replica_of node).state ≡ started me (replica_of node).state.kept) }
        ensures stand { IfOk result (λ node. FilesStand (table_size table.now) (replica_of node).state.kept (D.view.seen disk)) }
        // Its store goes on in the area that the chooser selects, where this begins with no base of format 1.
        ensures area { (SelectsFormat1 (table_size table.now) (D.view.seen disk) → ⊥)
            → IfOk result (λ node. area_of (store_of node) ≡ selected (D.view.seen disk)) }
        ensures clean { IsSome (D.view.told disk) → IfOk result (IsNodeClean D.view) }
        // From a disk that is reliable, want of memory and files at fault are the only faults, and the node's disk is so.
        ensures reliable { IsReliable (D.view.told disk) → IfOk result (λ node. IsReliable (D.view.told (disk_of node))) }
        ensures unended { IsReliable (D.view.told disk) → EndsRun (fault_of result) → ⊥ }
        // One that can't fail doesn't, whether it is armed or not.
        ensures unfailing { IsUnfailing (D.view.told disk) → IsUnfailingAfter (fault_of result) (D.view.told (disk_after result)) }

        // From a disk that was recoverable, with the state before a change or after it, one of the two is found; whatever a
        // stop within this call leaves stands for one of them, and the disk stays recoverable.
        ensures either { (before after : Durable) → D.view.honest disk → IsRecoverable (table_size table.now) before after (D.view.may_leave disk)
            → IfOk result (λ node. ((replica_of node).state.kept ≡ before) ⊎ ((replica_of node).state.kept ≡ after)) }
        ensures sound { (before after : Durable) (gate : ℕ) → D.view.honest disk → IsRecoverable (table_size table.now) before after (D.view.may_leave disk)
            → fault_of result ≡ Err (Damaged gate) → ⊥ }
        ensures images { (before after : Durable) → D.view.honest disk → IsRecoverable (table_size table.now) before after (D.view.may_leave disk)
            → LeavesOnly D.view disk (disk_after result) (FilesStandForEither (table_size table.now) before after) }
        ensures recoverable { (before after : Durable) → D.view.honest disk → IsRecoverable (table_size table.now) before after (D.view.may_leave disk)
            → IsRecoverable (table_size table.now) before after (D.view.may_leave (disk_after result)) }

        ensures damaged { (gate : ℕ) (bodies : List (List ℕ)) → fault_of result ≡ Err (Damaged gate)
            → HasBodies (file_of (selected (D.view.seen disk)) (D.view.seen disk)) bodies
            → IsFirstRecordAtFault (table_size table.now) bodies gate }
        ensures unwritten { (gate : ℕ) → fault_of result ≡ Err (Damaged gate) → D.view.seen (disk_after result) ≡ D.view.seen disk }
        ensures no_letter { (fault : LetterFault) → fault_of result ≡ Err (Letter fault) → ⊥ }
        ensures answer { HasNodeAnswer D.view disk (disk_after result) (fault_of result) }
    {
        match start(alloc, me, members, table, &mut disk) {
            Ok((store, replica)) => Ok(Node {
                replica,
                store,
                disk,
                running: true,
                stopped: None,
            }),
            Err(fault) => Err((disk, fault)),
        }
    }

    /// Does a step at an input. Its change is safe, whatever a stop does, before its letters, its learned entries and its
    /// call are handed out.
    ///
    /// # Errors
    ///
    /// `Letter` where the bytes are no letter, and `OutOfMemory`: the node is as it was, and its files stand for what it
    /// keeps. `Stopped` and `DiskFault` where the disk stopped or failed: then nothing is handed out, the files stand for
    /// what the replica kept before the step or for what it keeps after it, and the node doesn't run any more. `Damaged`
    /// never.
    pub fn handle(&mut self, table: &JobTable, input: Input<'_>) -> Result<StepOut, NodeFault>
        requires at_rest { IsNodeAtRest D.view table.now self.old }
        requires small { IsSmall (replica_of self.old).state (replica_of self.old).machine.rows }
        requires inside { IsInputInside table.now input }
        ensures steps { IfOk result (λ out. Steps table.now input.entry (replica_of self.old) (replica_of self.new) out) }
        ensures at_rest { OnOk result (IsNodeAtRest D.view table.now self.new) }
        // Whatever a stop leaves from now on stands for the state after the step.
        ensures safe { D.view.honest (disk_of self.old) → OnOk result ((image : Image) → D.view.may_leave (disk_of self.new) image
            → FilesStand (table_size table.now) (replica_of self.new).state.kept image) }
        // Nothing of the chooser and of the store's area waits for a sync, in what the disk tells, where nothing did before.
        ensures clean { IsNodeClean D.view self.old → OnOk result (IsNodeClean D.view self.new) }
        ensures letter_clean { (fault : LetterFault) → result ≡ Err (Letter fault) → IsNodeClean D.view self.old → IsNodeClean D.view self.new }
        // On a disk that is reliable it goes on, and the disk stays so.
        ensures reliable { IsReliable (D.view.told (disk_of self.old)) → OnOk result (IsReliable (D.view.told (disk_of self.new))) }
        ensures unended { IsReliable (D.view.told (disk_of self.old)) → EndsRun result → ⊥ }
        ensures area { (change : Option Delta) → IsChangeOf table.now input.entry (replica_of self.old) change
            → OnOk result (area_of (store_of self.new) ≡ area_for change (area_of (store_of self.old))) }
        // It uses up as many calls of the disk's arm as save its change, and stops where fewer are left.
        ensures armed { (change : Option Delta) (arm : Arm) → IsChangeOf table.now input.entry (replica_of self.old) change → IsNodeArmed D.view self.old arm
            → OnOk result ((calls_of_change change ≤ arm.left) × IsNodeArmed D.view self.new (record arm { left = arm.left - calls_of_change change })) }
        ensures too_few { (change : Option Delta) (arm : Arm) → IsChangeOf table.now input.entry (replica_of self.old) change → IsErrOf result Stopped
            → IsNodeClean D.view self.old → IsNodeArmed D.view self.old arm → arm.left < calls_of_change change }
        // A disk that can't fail doesn't, whether it is armed or not; so it stops exactly there, but for want of memory.
        ensures unfailing { IsUnfailing (D.view.told (disk_of self.old)) → IsUnfailingAfter result (D.view.told (disk_of self.new)) }
        ensures ends_by_arm { (change : Option Delta) (arm : Arm) → IsChangeOf table.now input.entry (replica_of self.old) change
            → IsUnfailing (D.view.told (disk_of self.old)) → IsNodeClean D.view self.old → IsNodeArmed D.view self.old arm
            → EndsByArm (calls_of_change change) arm.left result }

        ensures alike { OnErr result (IsSameReplica (replica_of self.new) (replica_of self.old)) }
        ensures refused { IsStepRefused result → IsNodeAtRest D.view table.now self.new }
        // The bytes of a letter are refused exactly where they break a rule, for the first that they break.
        ensures fault { letter_told result ≡ fault_in (replica_of self.old).identity.members input.entry }
        ensures untouched { (fault : LetterFault) → result ≡ Err (Letter fault) → disk_of self.new ≡ disk_of self.old }
        ensures ended { EndsRun result → runs_in self.new ≡ false }
        // Where the disk stopped, that was within the save of the step's change, and the node can be reopened.
        ensures stopped { IsSome (D.view.told (disk_of self.old)) → IsErrOf result Stopped
            → IsStoppedWithin D.view table.now input.entry (replica_of self.old) self.new }
        // Whether the change is kept then, and which area is in use, the numbers say that the disk was armed with.
        ensures kept_by_arm { (change : Delta) (arm : Arm) → IsChangeOf table.now input.entry (replica_of self.old) (Some change) → IsErrOf result Stopped
            → IsNodeClean D.view self.old → IsNodeArmed D.view self.old arm
            → LeavesByArm (table_size table.now) (area_of (store_of self.old)) (replica_of self.old).state.kept change arm (D.view.told (disk_of self.new)) }
        ensures undamaged { (gate : ℕ) → result ≡ Err (Damaged gate) → ⊥ }

        // Whatever a stop within the call leaves stands for the state before the step or for that after it, and a replica can
        // go on from the disk with one of the two.
        ensures images { D.view.honest (disk_of self.old) → LeavesOnly D.view (disk_of self.old) (disk_of self.new)
            (FilesStandAround table.now input.entry (replica_of self.old)) }
        ensures recoverable { D.view.honest (disk_of self.old) → EndsRun result
            → IsRecoverableAround table.now input.entry (replica_of self.old) (D.view.may_leave (disk_of self.new)) }
        // At Ok each call of the disk was made that saves the step's change, and at a fault of the disk they broke off there.
        ensures told { (own : Option ℕ) (change : Option Delta) → RecordsStand self.old own → IsChangeOf table.now input.entry (replica_of self.old) change
            → TellsThen (MadeCalls of_disk_answer (disk_calls_for self.old own change) result) (D.view.told (disk_of self.old))
            (D.view.told (disk_of self.new)) }
        ensures answer { HasNodeAnswer D.view (disk_of self.old) (disk_of self.new) result }
    {
        let mut planned = self.replica.begin();
        self.replica.plan(table, input, &mut planned)?;
        match self.keep(planned.delta()) {
            Ok(()) => Ok(self.replica.complete(table, planned)),
            Err(NodeFault::Stopped) => {
                self.stopped = Some(planned);
                Err(NodeFault::Stopped)
            }
            Err(fault) => Err(fault),
        }
    }

    // Saves a change, where there is one.
    fn keep(&mut self, delta: Option<&Delta>) -> Result<(), NodeFault>
        requires rests { IsStoreAtRest D.view (disk_of self.old) (store_of self.old) }
        requires keeps { StoreKeeps (store_of self.old) (replica_of self.old).state.kept }
        requires format { IsInFormat2 (store_of self.old) }
        requires follows { (change : Delta) → option_copied delta ≡ Some change
            → ChangeMayFollow (size_of_store (store_of self.old)) (replica_of self.old).state.kept change }
        ensures replica { replica_of self.new ≡ replica_of self.old }
        ensures changed { IsErrOf result Stopped → IsSome (option_copied delta.entry) }
        ensures size { size_of_store (store_of self.new) ≡ size_of_store (store_of self.old) }
        ensures format { IsInFormat2 (store_of self.new) }
        ensures runs { OnOk result (runs_in self.new ≡ runs_in self.old) }
        ensures rests { OnOk result (IsStoreAtRest D.view (disk_of self.new) (store_of self.new)) }
        ensures keeps { OnOk result (StoreKeeps (store_of self.new) (kept_after (option_copied delta.entry) (replica_of self.old).state.kept)) }
        ensures memory { IsErrOf result OutOfMemory → (runs_in self.new ≡ runs_in self.old)
            × IsStoreAtRest D.view (disk_of self.new) (store_of self.new)
            × StoreKeeps (store_of self.new) (replica_of self.old).state.kept }
        ensures ended { EndsRun result → runs_in self.new ≡ false }
        ensures images { D.view.honest (disk_of self.old) → LeavesOnly D.view (disk_of self.old) (disk_of self.new)
            (FilesStandForEither (size_of_store (store_of self.old)) (replica_of self.old).state.kept
            (kept_after (option_copied delta.entry) (replica_of self.old).state.kept)) }
        ensures recoverable { D.view.honest (disk_of self.old) → IsRecoverable (size_of_store (store_of self.old)) (replica_of self.old).state.kept
            (kept_after (option_copied delta.entry) (replica_of self.old).state.kept) (D.view.may_leave (disk_of self.new)) }
        ensures undamaged { (gate : ℕ) → result ≡ Err (Damaged gate) → ⊥ }
        ensures no_letter { (fault : LetterFault) → result ≡ Err (Letter fault) → ⊥ }
        ensures told { (own : Option ℕ) → RecordsStand self.old own
            → TellsThen (MadeCalls of_disk_answer (disk_calls_for self.old own (option_copied delta.entry)) result) (D.view.told (disk_of self.old))
            (D.view.told (disk_of self.new)) }
        ensures reliable { IsReliable (D.view.told (disk_of self.old)) → OnOk result (IsReliable (D.view.told (disk_of self.new))) }
        ensures unended { IsReliable (D.view.told (disk_of self.old)) → EndsRun result → ⊥ }
        ensures unfailing { IsUnfailing (D.view.told (disk_of self.old)) → IsUnfailingAfter result (D.view.told (disk_of self.new)) }
        ensures clean { IsNodeClean D.view self.old → OnOk result (IsNodeClean D.view self.new) }
        ensures area { OnOk result (area_of (store_of self.new) ≡ area_for (option_copied delta.entry) (area_of (store_of self.old))) }
        ensures kept_by_arm { (change : Delta) (arm : Arm) → option_copied delta.entry ≡ Some change → IsErrOf result Stopped
            → IsNodeClean D.view self.old → IsNodeArmed D.view self.old arm
            → LeavesByArm (size_of_store (store_of self.old)) (area_of (store_of self.old)) (replica_of self.old).state.kept change arm
            (D.view.told (disk_of self.new)) }
        ensures answer { HasNodeAnswer D.view (disk_of self.old) (disk_of self.new) result }
    {
        let Some(delta) = delta else {
            return Ok(());
        };
        match self.store.save(&mut self.disk, delta) {
            Ok(()) => Ok(()),
            Err(StoreFault::OutOfMemory) => Err(NodeFault::OutOfMemory),
            Err(StoreFault::Stopped) => {
                self.running = false;
                Err(NodeFault::Stopped)
            }
            Err(StoreFault::DiskFault) => {
                self.running = false;
                Err(NodeFault::DiskFault)
            }
            Err(StoreFault::Damaged { .. }) => unreachable!(),
        }
    }
}

impl<D: ArmedDisk> Node<D> {
    ghost use Rattle.replica_node.specs.Node.{disk_after, disk_of, fault_of, replica_of, runs_in, store_of, IsNodeAtRest};
    ghost use Rattle.replica_node.specs.Kept.{IsNodeArmed, IsNodeClean};
    ghost use Rattle.replica_node.specs.Stopped.{IsDiskUnarmed, IsStopped, reopened};
    ghost use Rattle.replica_node.specs.declared.fault.NodeFault.{NodeFault};

    /// Lets `pass` more writes, cuts and syncs of its disk succeed, and the next one stop within and leave the image of that
    /// number. Nothing else of the node changes.
    pub fn arm(&mut self, pass: u32, image: u32)
        ensures told { TellsThen (λ old new. new ≡ after_arm pass image old) (D.view.told (disk_of self.old)) (D.view.told (disk_of self.new)) }
        ensures seen { D.view.seen (disk_of self.new) ≡ D.view.seen (disk_of self.old) }
        ensures images { (left : Image) → D.view.may_leave (disk_of self.new) left ↔ D.view.may_leave (disk_of self.old) left }
        ensures moment { D.view.moment (disk_of self.new) ≡ D.view.moment (disk_of self.old) }
        ensures time { (start : ℕ) (left : Image) → D.view.left_since (disk_of self.new) start left ↔ D.view.left_since (disk_of self.old) start left }
        ensures honest { D.view.honest (disk_of self.new) ↔ D.view.honest (disk_of self.old) }
        ensures counts { D.view.counts (disk_of self.new) ≡ D.view.counts (disk_of self.old) }
        ensures replica { replica_of self.new ≡ replica_of self.old }
        ensures store { store_of self.new ≡ store_of self.old }
        ensures runs { runs_in self.new ≡ runs_in self.old }
        ensures at_rest { (table : Table) → IsNodeAtRest D.view table self.old
            → IsNodeAtRest D.view table self.new }
        ensures clean { IsNodeClean D.view self.old → IsNodeClean D.view self.new }
        ensures armed { IsNodeClean D.view self.old → IsNodeArmed D.view self.new (record { left = pass; image = image }) }
        ensures unfailing { IsUnfailing (D.view.told (disk_of self.old)) → IsUnfailing (D.view.told (disk_of self.new)) }
    {
        self.disk.arm(pass, image);
    }

    /// Takes [`Node::arm`] back, where no stop has come. Nothing else of the node changes.
    pub fn disarm(&mut self)
        ensures told { TellsThen (λ old new. new ≡ after_disarm old) (D.view.told (disk_of self.old)) (D.view.told (disk_of self.new)) }
        ensures seen { D.view.seen (disk_of self.new) ≡ D.view.seen (disk_of self.old) }
        ensures images { (left : Image) → D.view.may_leave (disk_of self.new) left ↔ D.view.may_leave (disk_of self.old) left }
        ensures moment { D.view.moment (disk_of self.new) ≡ D.view.moment (disk_of self.old) }
        ensures time { (start : ℕ) (left : Image) → D.view.left_since (disk_of self.new) start left ↔ D.view.left_since (disk_of self.old) start left }
        ensures honest { D.view.honest (disk_of self.new) ↔ D.view.honest (disk_of self.old) }
        ensures counts { D.view.counts (disk_of self.new) ≡ D.view.counts (disk_of self.old) }
        ensures replica { replica_of self.new ≡ replica_of self.old }
        ensures store { store_of self.new ≡ store_of self.old }
        ensures runs { runs_in self.new ≡ runs_in self.old }
        ensures at_rest { (table : Table) → IsNodeAtRest D.view table self.old
            → IsNodeAtRest D.view table self.new }
        ensures clean { IsNodeClean D.view self.old → IsNodeClean D.view self.new }
        ensures reliable { IsUnfailing (D.view.told (disk_of self.old)) → IsReliable (D.view.told (disk_of self.new)) }
    {
        self.disk.disarm();
    }

    /// Revives the disk of a node whose last step was stopped, attaches it, and says whether the files kept the step's change:
    /// the answer is that change exactly where they did. The replica keeps then what the files stand for. The node runs no
    /// more than before: it is started again from its disk, which is neither armed nor stopped.
    ///
    /// # Errors
    ///
    /// Those of [`Node::recover`] but `Stopped`. The disk is handed back.
    pub fn reopen(
        self,
        alloc: Global,
        table: &JobTable,
    ) -> Result<(Node<D>, Option<Delta>), (D, NodeFault)>
        requires stopped { IsStopped D.view table.now self }
        ensures ended { IfOk result (λ found. runs_in found.0 ≡ false) }
        // The answer is the change of the step that was cut short, or none; the replica keeps what it kept before the step
        // with that change, or without.
        ensures change { (stop : IsStopped D.view table.now self)
            → IfOk result (λ found. (found.1 ≡ Some stop.change) ⊎ (found.1 ≡ None)) }
        ensures kept { IfOk result (λ found. (replica_of found.0).state.kept ≡ kept_after found.1 (replica_of self).state.kept) }
        // The files stand for that, as did the image that the stop left; and where the answer is none, they don't stand for
        // the state after the change.
        ensures stand { D.view.honest (disk_of self)
            → IfOk result (λ found. FilesStand (table_size table.now) (replica_of found.0).state.kept (D.view.seen (disk_of found.0))) }
        ensures image { (told : Told) → D.view.honest (disk_of self) → D.view.told (disk_of self) ≡ Some told
            → IfOk result (λ found. FilesStand (table_size table.now) (replica_of found.0).state.kept (image_left told)) }
        ensures lost { (stop : IsStopped D.view table.now self) → D.view.honest (disk_of self)
            → IfOk result (λ found. found.1 ≡ None
            → FilesStand (table_size table.now) (after_delta stop.change (replica_of self).state.kept) (D.view.seen (disk_of found.0)) → ⊥) }
        // Where the numbers that the disk was armed with say whether the stop kept the change, they decide the answer: where they
        // don't keep it, it is none, but for a vote that a leader casts again.
        ensures answer_by_arm { (stop : IsStopped D.view table.now self) (area : FileNo) (arm : Arm) → D.view.honest (disk_of self)
            → LeavesByArm (table_size table.now) area (replica_of self).state.kept stop.change arm (D.view.told (disk_of self))
            → IfOk result (λ found. IsAnsweredByArm area (replica_of self).state.kept stop.change arm found.1) }
        ensures lost_by_arm { (stop : IsStopped D.view table.now self) (area : FileNo) (arm : Arm) → D.view.honest (disk_of self)
            → LeavesByArm (table_size table.now) area (replica_of self).state.kept stop.change arm (D.view.told (disk_of self))
            → ProposesAnew (replica_of self).state → (KeepsChange area stop.change arm → ⊥) → IfOk result (λ found. found.1 ≡ None) }
        // The area in use is that of the image that the stop left, where this begins with no base of format 1; by the numbers of
        // the arm, it is the one after the answer.
        ensures area { (told : Told) → D.view.told (disk_of self) ≡ Some told
            → (SelectsFormat1 (table_size table.now) (image_left told) → ⊥)
            → IfOk result (λ found. selected (D.view.seen (disk_of found.0)) ≡ selected (image_left told)) }
        ensures area_by_arm { (stop : IsStopped D.view table.now self) (area : FileNo) (arm : Arm) → D.view.honest (disk_of self)
            → LeavesByArm (table_size table.now) area (replica_of self).state.kept stop.change arm (D.view.told (disk_of self))
            → IfOk result (λ found. selected (D.view.seen (disk_of found.0)) ≡ area_for found.1 area) }
        ensures recoverable { D.view.honest (disk_of self)
            → IfOk result (λ found. IsRecoverable (table_size table.now) (replica_of found.0).state.kept (replica_of found.0).state.kept
            (D.view.may_leave (disk_of found.0))) }

        ensures still_recoverable { (stop : IsStopped D.view table.now self) → D.view.honest (disk_of self)
            → IsRecoverable (table_size table.now) (replica_of self).state.kept (after_delta stop.change (replica_of self).state.kept)
            (D.view.may_leave (disk_after (reopened result))) }
        ensures quiet { IsDiskUnarmed (D.view.told (disk_after (reopened result))) }
        // A disk that can't fail is reliable then, and of an honest one want of memory is the only fault.
        ensures reliable { CantFail (D.view.told (disk_of self)) → IsReliable (D.view.told (disk_after (reopened result))) }
        ensures unended { CantFail (D.view.told (disk_of self)) → EndsRun (fault_of (reopened result)) → ⊥ }
        ensures memory_alone { (fault : NodeFault) → D.view.honest (disk_of self) → CantFail (D.view.told (disk_of self))
            → fault_of (reopened result) ≡ Err fault → fault ≡ OutOfMemory }
        ensures never_stopped { fault_of (reopened result) ≡ Err Stopped → ⊥ }
        ensures sound { (gate : ℕ) → D.view.honest (disk_of self) → fault_of (reopened result) ≡ Err (Damaged gate) → ⊥ }
        ensures damaged { (gate : ℕ) (bodies : List (List ℕ)) → fault_of (reopened result) ≡ Err (Damaged gate)
            → HasBodies (file_of (selected (D.view.seen (disk_after (reopened result)))) (D.view.seen (disk_after (reopened result)))) bodies
            → IsFirstRecordAtFault (table_size table.now) bodies gate }
        ensures no_letter { (fault : LetterFault) → fault_of (reopened result) ≡ Err (Letter fault) → ⊥ }
        ensures answer { HasNodeAnswer D.view (disk_of self) (disk_after (reopened result)) (fault_of (reopened result)) }
    {
        let Node {
            mut replica,
            mut disk,
            stopped,
            ..
        } = self;
        let Some(planned) = stopped else {
            unreachable!()
        };
        match attach_stopped(alloc, &mut disk, table_size(table)) {
            Ok((store, kept)) => {
                let change = take_kept(&mut replica, table, planned, &kept);
                let node = Node {
                    replica,
                    store,
                    disk,
                    running: false,
                    stopped: None,
                };
                Ok((node, change))
            }
            Err(fault) => Err((disk, fault)),
        }
    }
}

impl<D: ArmedDisk> Node<D> {
    ghost use Rattle.replica_node.specs.Node.{disk_of, replica_of, store_of, IsNodeAtRest};
    ghost use Rattle.replica_node.specs.Kept.{IsNodeClean};
    ghost use Rattle.replica_node.specs.Stopped.{IsStopped};
    ghost use Rattle.replica_node.specs.declared.fault.NodeFault.{NodeFault};

    /// Revives the disk of a node whose last step was stopped, attaches it, and starts the replica with what the files kept: what
    /// [`Node::reopen`] and [`Node::recover`] do one after the other, where the node stands. The answer is the step's change
    /// exactly where the files kept it.
    ///
    /// # Errors
    ///
    /// Those of [`Node::reopen`]. The node takes no more calls then.
    pub fn attach_again(
        &mut self,
        alloc: Global,
        me: u8,
        members: u8,
        table: &JobTable,
    ) -> Result<Option<Delta>, NodeFault>
        requires me { me < members }
        requires few { members ≤ 7 }
        requires stopped { IsStopped D.view table.now self.old }
        ensures at_rest { OnOk result (IsNodeAtRest D.view table.now self.new) }
        ensures identity { OnOk result ((replica_of self.new).identity ≡ record { me = me; members = members }) }
        ensures started { OnOk result ((replica_of self.new).state ≡ started me (replica_of self.new).state.kept) }
        // The replica keeps what it kept before the step, with the change that is answered or without.
        ensures change { (stop : IsStopped D.view table.now self.old)
            → IfOk result (λ answer. (answer ≡ Some stop.change) ⊎ (answer ≡ None)) }
        ensures kept { D.view.honest (disk_of self.old)
            → IfOk result (λ answer. (replica_of self.new).state.kept ≡ kept_after answer (replica_of self.old).state.kept) }
        // The numbers that the disk was armed with decide the answer and the area in use, as they do for `reopen`.
        ensures answer_by_arm { (stop : IsStopped D.view table.now self.old) (area : FileNo) (arm : Arm) → D.view.honest (disk_of self.old)
            → LeavesByArm (table_size table.now) area (replica_of self.old).state.kept stop.change arm (D.view.told (disk_of self.old))
            → IfOk result (λ answer. IsAnsweredByArm area (replica_of self.old).state.kept stop.change arm answer) }
        ensures lost_by_arm { (stop : IsStopped D.view table.now self.old) (area : FileNo) (arm : Arm) → D.view.honest (disk_of self.old)
            → LeavesByArm (table_size table.now) area (replica_of self.old).state.kept stop.change arm (D.view.told (disk_of self.old))
            → ProposesAnew (replica_of self.old).state → (KeepsChange area stop.change arm → ⊥) → IfOk result (λ answer. answer ≡ None) }
        ensures area_by_arm { (stop : IsStopped D.view table.now self.old) (area : FileNo) (arm : Arm) → D.view.honest (disk_of self.old)
            → LeavesByArm (table_size table.now) area (replica_of self.old).state.kept stop.change arm (D.view.told (disk_of self.old))
            → IfOk result (λ answer. area_of (store_of self.new) ≡ area_for answer area) }
        ensures clean { OnOk result (IsNodeClean D.view self.new) }
        ensures reliable { CantFail (D.view.told (disk_of self.old)) → OnOk result (IsReliable (D.view.told (disk_of self.new))) }
        ensures memory_alone { (fault : NodeFault) → D.view.honest (disk_of self.old) → CantFail (D.view.told (disk_of self.old))
            → result ≡ Err fault → fault ≡ OutOfMemory }
        ensures answer { HasNodeAnswer D.view (disk_of self.old) (disk_of self.new) result }
    {
        let Some(planned) = self.stopped.take() else {
            unreachable!()
        };
        let (store, kept) = attach_stopped(alloc, &mut self.disk, table_size(table))?;
        let change = take_kept(&mut self.replica, table, planned, &kept);
        self.replica = Replica::start(me, members, table, kept)?;
        self.store = store;
        self.running = true;
        Ok(change)
    }
}
