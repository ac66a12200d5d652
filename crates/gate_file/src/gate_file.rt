ghost use Rattle.std.specs.Prelude.{◌≡◌, ◌↔◌, ⊤, ℕ, List, ◌++◌, ◌∷◌, [], length, Option, Some, IfOk, OnOk, OnErr, IsErrOf};
ghost use Rattle.disk_model.specs.Images.{file_of, OthersStay, NoNewImage, InFileOnly, AllHave};
ghost use Rattle.gate_file.specs.declared.fault.GateFault.TheVariants.{OutOfMemory};
ghost use Rattle.disk_model.specs.Made.{MadeCalls};
ghost use Rattle.disk_model.specs.Told.{TellsThen};
ghost use Rattle.disk_model.specs.View.{LeavesOnly};
ghost use Rattle.gate_file.specs.Faults.{HasGateAnswer, gate_fault_of};
ghost use Rattle.gate_file.specs.Made.{read_calls, close_calls, append_calls, rewrite_calls};
ghost use Rattle.gate_file.specs.Gates.{HasBodies, IsStaged, gated};

use crate::body::Body56;
use crate::fault::GateFault;
use crate::read_gates::ReadGates;
use crate::reading::{STEP, gated, with_closed_gate};
use disk_model::{Disk, FileNo, write_synced};
use std::alloc::Global;

// More have no place in memory.
const MOST_BODIES: usize = 1 << 57;

/// A file of bodies behind gates.
#[derive(Debug, Drop)]
pub struct GateFile {
    pub(crate) file: FileNo,
    pub(crate) bodies: Vec<Body56>,
}

impl GateFile {
    ghost use Rattle.gate_file.specs.File.{file_no, bodies_of, IsFileAtRest};

    /// The file's number.
    pub fn file(&self) -> FileNo
        ensures { result ≡ file_no self.now }
    {
        self.file
    }

    /// The bodies that the file has, in order.
    pub fn bodies(&self) -> &[Body56]
        ensures { result.now ≡ bodies_of self.now }
    {
        &self.bodies
    }

    /// Attaches a file. What it has is synced, so that an earlier call that failed is decided, and read; where no byte 0
    /// stands at its tail gate, one is written there, and synced.
    ///
    /// # Errors
    ///
    /// `Stopped` and `DiskFault` where the disk stopped or failed, and `OutOfMemory` for the bodies. Then the file can be
    /// attached again.
    pub fn attach<D: Disk>(alloc: Global, disk: &mut D, file: FileNo) -> Result<GateFile, GateFault>
        ensures rests { IfOk result (λ gates. IsFileAtRest D.view disk.new gates) }
        ensures file { IfOk result (λ gates. file_no gates ≡ file) }
        ensures bodies { IfOk result (λ gates. HasBodies (file_of file (D.view.seen disk.old)) (bodies_of gates)) }
        ensures others { OnOk result (OthersStay file (D.view.seen disk.old) (D.view.seen disk.new)) }

        // Where an append was cut short, whatever a stop within this call leaves has the bodies from before it, with its body
        // or without.
        ensures images { (bodies : List (List ℕ)) (pending : Option (List ℕ)) → D.view.honest disk.old
            → AllHave file (IsStaged bodies pending) (D.view.may_leave disk.old)
            → LeavesOnly D.view disk.old disk.new
            (InFileOnly file (D.view.may_leave disk.old) (IsStaged bodies pending)) }

        ensures memory_image { IsErrOf result OutOfMemory → D.view.honest disk.old → NoNewImage (D.view.may_leave disk.old) (D.view.may_leave disk.new) }
        ensures answer { HasGateAnswer D.view disk.old disk.new result }
        ensures told { (bodies : List (List ℕ)) → HasBodies (file_of file (D.view.seen disk.old)) bodies
            → TellsThen (MadeCalls gate_fault_of (read_calls file ++ close_calls file (file_of file (D.view.seen disk.old)) (length bodies)) result)
            (D.view.told disk.old) (D.view.told disk.new) }
    {
        ReadGates::read(alloc, disk, file)?.close(disk)
    }

    /// Writes a file anew, with these bodies and nothing else: it is cut to nothing, written whole, and synced. Until then
    /// a stop may leave any bytes in it.
    ///
    /// # Errors
    ///
    /// `Stopped` and `DiskFault` where the disk stopped or failed, and `OutOfMemory`. The bodies that it had may be gone then.
    pub fn rewrite<D: Disk>(
        alloc: Global,
        disk: &mut D,
        file: FileNo,
        bodies: Vec<Body56>,
    ) -> Result<GateFile, GateFault>
        ensures rests { IfOk result (λ gates. IsFileAtRest D.view disk.new gates) }
        ensures file { IfOk result (λ gates. file_no gates ≡ file) }
        ensures bodies { IfOk result (λ gates. bodies_of gates ≡ bodies.items) }
        ensures whole { OnOk result (file_of file (D.view.seen disk.new) ≡ gated bodies.items) }
        ensures others { OnOk result (OthersStay file (D.view.seen disk.old) (D.view.seen disk.new)) }
        ensures images { D.view.honest disk.old → LeavesOnly D.view disk.old disk.new
            (InFileOnly file (D.view.may_leave disk.old) (λ bytes. ⊤)) }
        ensures memory_others { IsErrOf result OutOfMemory → OthersStay file (D.view.seen disk.old) (D.view.seen disk.new) }
        ensures answer { HasGateAnswer D.view disk.old disk.new result }
        ensures told { TellsThen (MadeCalls gate_fault_of (rewrite_calls file bodies.items) result) (D.view.told disk.old) (D.view.told disk.new) }
    {
        let bytes = gated(alloc, &bodies)?;
        disk.cut(file, 0)?;
        disk.write_at(file, 0, &bytes)?;
        disk.sync(file)?;
        Ok(GateFile { file, bodies })
    }

    /// AddsRecords a body. At `Ok` it is in the file whatever a stop does.
    ///
    /// # Errors
    ///
    /// `Stopped` and `DiskFault` where the disk stopped or failed: then the file has the bodies that it had, with the new one
    /// or without, and is to be attached again. `OutOfMemory`: it has those that it had, and more can be appended.
    pub fn append<D: Disk>(&mut self, disk: &mut D, body: &[u8; 56]) -> Result<(), GateFault>
        requires { IsFileAtRest D.view disk.old self.old }
        ensures rests { OnOk result (IsFileAtRest D.view disk.new self.new) }
        ensures bodies { OnOk result (bodies_of self.new ≡ bodies_of self.old ++ body.now ∷ []) }
        ensures others { OnOk result (OthersStay (file_no self.old) (D.view.seen disk.old) (D.view.seen disk.new)) }
        ensures file { file_no self.new ≡ file_no self.old }

        // Whatever a stop within the call leaves has the bodies from before, with the new one or without.
        ensures images { D.view.honest disk.old → LeavesOnly D.view disk.old disk.new
            (InFileOnly (file_no self.old) (D.view.may_leave disk.old) (IsStaged (bodies_of self.old) (Some body.now))) }

        ensures kept { OnErr result (bodies_of self.new ≡ bodies_of self.old) }
        ensures memory { IsErrOf result OutOfMemory → IsFileAtRest D.view disk.new self.new }
        ensures memory_others { IsErrOf result OutOfMemory → OthersStay (file_no self.old) (D.view.seen disk.old) (D.view.seen disk.new) }
        ensures answer { HasGateAnswer D.view disk.old disk.new result }
        ensures told { TellsThen (MadeCalls gate_fault_of (append_calls (file_no self.old) (length (bodies_of self.old)) body.now) result)
            (D.view.told disk.old) (D.view.told disk.new) }
    {
        if self.bodies.len() >= MOST_BODIES {
            return Err(GateFault::OutOfMemory);
        }
        self.bodies.reserve(1)?;
        let gate = (self.bodies.len() * STEP) as u64;
        write_synced(disk, self.file, gate + 1, &with_closed_gate(body))?;
        write_synced(disk, self.file, gate, &[1])?;
        self.bodies.push(Body56 { bytes: *body }).unwrap();
        Ok(())
    }
}
