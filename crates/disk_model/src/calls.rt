//! Which calls of a disk in memory fail, and when it stops.
ghost use Rattle.std.specs.Prelude.{◌≡◌, true, false, None, OnOk, IsErrOf};
ghost use Rattle.disk_model.specs.declared.fault.DiskFault.TheVariants.{Stopped, Failed};
ghost use Rattle.disk_model.specs.Faults.{CountsDiskAnswer, WantsNoMemory};

use crate::armed::Arm;
use crate::fault::DiskFault;

#[derive(Debug, Drop)]
pub(crate) struct Calls {
    fails: Vec<u64>,
    // The number of the next call.
    number: u64,
    arm: Option<Arm>,
    stopped: bool,
    stops: u64,
    faults: u64,
}

impl Calls {
    ghost use Rattle.disk_model.specs.Calls.{call_counts, no_counts, can_fail, image_left, HasSameArm, Passed, IsArmed, IsRevived};

    pub(crate) fn new(fails: Vec<u64>) -> Calls
        ensures fails { result.fails ≡ fails }
        ensures arm { result.arm ≡ None }
        ensures stopped { result.stopped ≡ false }
        ensures counts { call_counts result ≡ no_counts }
    {
        Calls {
            fails,
            number: 0,
            arm: None,
            stopped: false,
            stops: 0,
            faults: 0,
        }
    }

    // The image that a stop leaves, where one came.
    pub(crate) fn image(&self) -> Option<u32>
        ensures { result ≡ image_left self.now }
    {
        if self.stopped {
            Some(self.arm.map_or(1, |arm| arm.image))
        } else {
            None
        }
    }

    // Begins a call: where the disk has stopped the call is stopped, and where its number is listed it fails.
    pub(crate) fn begin(&mut self) -> Result<(), DiskFault>
        ensures counts { CountsDiskAnswer (call_counts self.old) (call_counts self.new) result }
        ensures ok { OnOk result (self.old.stopped ≡ false) }
        ensures stopped { IsErrOf result Stopped → self.old.stopped ≡ true }
        ensures failed { IsErrOf result Failed → can_fail self.old ≡ true }
        ensures running { IsErrOf result Failed → self.old.stopped ≡ false }
        ensures memory { WantsNoMemory result }
        ensures same { HasSameArm self.old self.new }
    {
        let number = self.number;
        self.number = number.saturating_add(1);
        if self.stopped {
            self.stops = self.stops.saturating_add(1);
            return Err(DiskFault::Stopped);
        }
        if self.fails.contains(&number) {
            self.faults = self.faults.saturating_add(1);
            return Err(DiskFault::Failed);
        }
        Ok(())
    }

    // Lets a write, a cut or a sync succeed, or stop within.
    pub(crate) fn pass(&mut self) -> Result<(), DiskFault>
        requires { self.old.stopped ≡ false }
        ensures counts { CountsDiskAnswer (call_counts self.old) (call_counts self.new) result }
        ensures passed { Passed self.old self.new result }
    {
        match &mut self.arm {
            Some(arm) if arm.left == 0 => {
                self.stopped = true;
                self.stops = self.stops.saturating_add(1);
                Err(DiskFault::Stopped)
            }
            Some(arm) => {
                arm.left -= 1;
                Ok(())
            }
            None => Ok(()),
        }
    }

    pub(crate) fn arm(&mut self, arm: Option<Arm>)
        ensures { IsArmed arm self.old self.new }
    {
        if !self.stopped {
            self.arm = arm;
        }
    }

    pub(crate) fn revive(&mut self)
        ensures { IsRevived self.old self.new }
    {
        if self.stopped {
            self.arm = None;
            self.stopped = false;
        }
    }
}
