ghost use Rattle.std.specs.Prelude.{◌≡◌, ◌↔◌, ⊤, ℕ, List, length, Option, IfOk, OnOk, IsErrOf};
ghost use Rattle.disk_model.specs.Images.{file_of, OthersStay, NoNewImage, InFileOnly, AllHave};
ghost use Rattle.disk_model.specs.Made.{MadeCalls};
ghost use Rattle.disk_model.specs.Told.{TellsThen};
ghost use Rattle.disk_model.specs.View.{LeavesOnly};
ghost use Rattle.gate_file.specs.declared.fault.GateFault.TheVariants.{OutOfMemory};
ghost use Rattle.gate_file.specs.Faults.{HasGateAnswer, gate_fault_of};
ghost use Rattle.gate_file.specs.Made.{read_calls, close_calls};
ghost use Rattle.gate_file.specs.Gates.{HasBodies, IsStaged};

use crate::body::Body56;
use crate::fault::GateFault;
use crate::gate_file::GateFile;
use crate::reading::{STEP, has_closed_gate, open_bodies};
use disk_model::{Disk, FileNo, read_file, write_synced};
use std::alloc::Global;

/// A gated file that was read, and not written yet. Whoever refuses what it has leaves it as it is.
#[derive(Debug, Drop)]
pub struct ReadGates {
    file: FileNo,
    bodies: Vec<Body56>,
    // A byte 0 stands at the tail gate.
    closed: bool,
}

impl ReadGates {
    ghost use Rattle.gate_file.specs.File.{file_no, bodies_of, IsFileAtRest};
    ghost use Rattle.gate_file.specs.ReadFile.{file_read, bodies_read, IsRead};

    /// The bodies that the file has, in order.
    pub fn bodies(&self) -> &[Body56]
        ensures { result.now ≡ bodies_read self.now }
    {
        &self.bodies
    }

    /// Syncs a file, so that an earlier call that failed is decided, and reads it.
    ///
    /// # Errors
    ///
    /// `Stopped` and `DiskFault` where the disk stopped or failed, and `OutOfMemory` for the bytes and the bodies. Then
    /// nothing was written.
    pub fn read<D: Disk>(alloc: Global, disk: &mut D, file: FileNo) -> Result<ReadGates, GateFault>
        ensures read { IfOk result (λ gates. IsRead D.view disk.new gates) }
        ensures file { IfOk result (λ gates. file_read gates ≡ file) }
        ensures bodies { IfOk result (λ gates. HasBodies (file_of file (D.view.seen disk.old)) (bodies_read gates)) }
        ensures seen { D.view.seen disk.new ≡ D.view.seen disk.old }
        ensures no_new_image { D.view.honest disk.old → NoNewImage (D.view.may_leave disk.old) (D.view.may_leave disk.new) }
        ensures images { D.view.honest disk.old → LeavesOnly D.view disk.old disk.new (D.view.may_leave disk.old) }
        ensures answer { HasGateAnswer D.view disk.old disk.new result }
        ensures told { TellsThen (MadeCalls gate_fault_of (read_calls file) result) (D.view.told disk.old) (D.view.told disk.new) }
    {
        disk.sync(file)?;
        let bytes = read_file(alloc, disk, file)?;
        let bodies = open_bodies(alloc, &bytes)?;
        let closed = has_closed_gate(&bytes, bodies.len() * STEP);
        Ok(ReadGates {
            file,
            bodies,
            closed,
        })
    }

    /// Writes a byte 0 at the tail gate, where none stands there, and syncs it: then bodies can be appended.
    ///
    /// # Errors
    ///
    /// `Stopped` and `DiskFault` where the disk stopped or failed, and `OutOfMemory`. Then the file is to be read again.
    pub fn close<D: Disk>(self, disk: &mut D) -> Result<GateFile, GateFault>
        requires { IsRead D.view disk.old self }
        ensures rests { IfOk result (λ gates. IsFileAtRest D.view disk.new gates) }
        ensures file { IfOk result (λ gates. file_no gates ≡ file_read self) }
        ensures bodies { IfOk result (λ gates. bodies_of gates ≡ bodies_read self) }
        ensures others { OnOk result (OthersStay (file_read self) (D.view.seen disk.old) (D.view.seen disk.new)) }

        // Where an append was cut short, whatever a stop within this call leaves has the bodies from before it, with its body
        // or without.
        ensures images { (bodies : List (List ℕ)) (pending : Option (List ℕ)) → D.view.honest disk.old
            → AllHave (file_read self) (IsStaged bodies pending) (D.view.may_leave disk.old)
            → LeavesOnly D.view disk.old disk.new
            (InFileOnly (file_read self) (D.view.may_leave disk.old) (IsStaged bodies pending)) }

        // And whatever the file had, the other files are as they were.
        ensures elsewhere { D.view.honest disk.old → LeavesOnly D.view disk.old disk.new
            (InFileOnly (file_read self) (D.view.may_leave disk.old) (λ bytes. ⊤)) }
        ensures memory_image { IsErrOf result OutOfMemory → D.view.honest disk.old → NoNewImage (D.view.may_leave disk.old) (D.view.may_leave disk.new) }
        ensures answer { HasGateAnswer D.view disk.old disk.new result }
        ensures told { TellsThen (MadeCalls gate_fault_of
            (close_calls (file_read self) (file_of (file_read self) (D.view.seen disk.old)) (length (bodies_read self))) result)
            (D.view.told disk.old) (D.view.told disk.new) }
    {
        let ReadGates {
            file,
            bodies,
            closed,
        } = self;
        if closed {
            return Ok(GateFile { file, bodies });
        }
        let tail = (bodies.len() * STEP) as u64;
        write_synced(disk, file, tail, &[0])?;
        Ok(GateFile { file, bodies })
    }
}
