use crate::command::Extent;
use crate::fault::{PlayFault, Refusal};
use crate::hour::empty_disk;
use crate::running::Running;
use crate::text::Text;
use cluster_sched::{Name, SchedRow};
use due_set::JobTable;
use paxos_base::{Delta, Durable};
use replica_core::{Input, StepOut};
use std::alloc::Global;

/// What is on the disk of a replica, the replica while it runs, and the launch that it has called last.
#[derive(Drop)]
pub struct Host<'a> {
    me: u8,
    members: u8,
    table: &'a JobTable,
    durable: Durable,
    replica: Option<Running<'a>>,
    call: Option<Name>,
}

impl<'a> Host<'a> {
    /// A replica that starts for the first time.
    pub fn new(
        alloc: Global,
        table: &'a JobTable,
        me: u8,
        members: u8,
    ) -> Result<Host<'a>, PlayFault> {
        let mut host = Host {
            me,
            members,
            table,
            durable: empty_disk(alloc, table)?,
            replica: None,
            call: None,
        };
        host.start()?;
        Ok(host)
    }

    /// Starts the replica with what is on its disk.
    pub fn start(&mut self) -> Result<(), PlayFault> {
        let durable = self.durable.clone()?;
        let replica = Running::start(self.me, self.members, self.table, durable)?;
        self.replica = Some(replica);
        self.call = None;
        Ok(())
    }

    /// The replica stops, and loses all that is not on its disk.
    pub fn stop(&mut self) {
        self.replica = None;
    }

    /// Whether no replica runs.
    pub fn is_stopped(&self) -> bool {
        self.replica.is_none()
    }

    /// Puts an equal replica in the place of the one that runs.
    pub fn copy(&mut self) -> Result<(), PlayFault> {
        let replica = self.replica.as_ref().ok_or(PlayFault::Stopped)?;
        let copy = replica.copy()?;
        self.replica = Some(copy);
        Ok(())
    }

    /// The launch that the replica has called last.
    pub fn last_call(&self) -> Result<Name, PlayFault> {
        self.call.ok_or(PlayFault::NoCall)
    }

    /// A step of the replica, as far as it shall go. What it plans and for what it refuses a letter is written. None where no
    /// step is taken.
    pub fn take(
        &mut self,
        extent: Extent,
        input: Input<'_>,
        text: &mut Text,
    ) -> Result<Option<StepOut>, PlayFault> {
        match self.attempt(extent, input, text) {
            Ok(out) => Ok(out),
            Err(Refusal::Letter(fault)) => {
                text.put_letter_fault(fault)?;
                Ok(None)
            }
            Err(Refusal::Play(fault)) => Err(fault),
        }
    }

    // A step, or why there is none.
    fn attempt(
        &mut self,
        extent: Extent,
        input: Input<'_>,
        text: &mut Text,
    ) -> Result<Option<StepOut>, Refusal> {
        let replica = self.replica.as_mut().ok_or(PlayFault::Stopped)?;
        match extent {
            Extent::Whole => Ok(Some(replica.step(input)?)),
            Extent::Plan => {
                replica.plan(input, text)?;
                Ok(None)
            }
            Extent::Halves => Ok(Some(replica.complete(input, text)?)),
        }
    }

    /// Stores what a step changes on the disk, and writes it.
    pub fn store(&mut self, delta: Delta, text: &mut Text) -> Result<(), PlayFault> {
        text.put_delta("  delta ", &delta)?;
        self.durable.apply(delta)?;
        Ok(())
    }

    /// Takes down which launch the replica calls, and writes it.
    pub fn call(&mut self, row: SchedRow, text: &mut Text) -> Result<(), PlayFault> {
        text.put_call(&row)?;
        self.call = Some(row.name);
        Ok(())
    }

    /// Writes the replica's term.
    pub fn tell_term(&self, text: &mut Text) -> Result<(), PlayFault> {
        let replica = self.replica.as_ref().ok_or(PlayFault::Stopped)?;
        text.put_term(self.me, replica.term())?;
        Ok(())
    }
}
