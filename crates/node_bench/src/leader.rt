//! A leader that is alone: it launches what is due, minute by minute.
use crate::fault::BenchFault;
use crate::seat::Steps;
use due_set::JobTable;
use replica_core::{Input, StepOut};
use std::fmt;
use zone_minutes::Minute;

// The most steps in a minute.
const MOST_STEPS: usize = 10_000;

/// What a leader has done.
#[derive(Clone, Copy, Debug)]
pub struct Done {
    pub launches: u64,
    pub steps: u64,
}

impl fmt::Display for Done {
    fn fmt<W: fmt::Write>(&self, f: &mut fmt::Formatter<W>) -> fmt::Result {
        let Done { launches, steps } = *self;
        write!(f, "{launches} launches, {steps} steps")
    }
}

/// A leader, and what it has done.
#[derive(Drop)]
pub struct Leader<S> {
    seat: S,
    done: Done,
}

impl<S: Steps> Leader<S> {
    /// A leader before its first step.
    pub fn new(seat: S) -> Leader<S> {
        let done = Done {
            launches: 0,
            steps: 0,
        };
        Leader { seat, done }
    }

    /// What it has done.
    pub fn done(&self) -> Done {
        self.done
    }

    /// Stands for leader, and leads from the first minute of the window to the last one.
    pub fn run(&mut self, table: &JobTable) -> Result<(), BenchFault> {
        self.step(Input::Campaign)?;
        let window = table.window();
        for now in window.from.0..window.until.0 {
            self.minute(Minute(now))?;
        }
        Ok(())
    }

    // Ticks at a minute until there is nothing more to do.
    fn minute(&mut self, now: Minute) -> Result<(), BenchFault> {
        for _ in 0..MOST_STEPS {
            let out = self.step(Input::Tick { now })?;
            if let Some(row) = out.call {
                let (job, at, kind) = (row.name.job, row.name.at, row.kind);
                self.step(Input::Answer { job, at, kind })?;
                self.done.launches = self.done.launches.saturating_add(1);
            } else if out.delta.is_none() {
                return Ok(());
            }
        }
        Err(BenchFault::NoEnd)
    }

    fn step(&mut self, input: Input<'_>) -> Result<StepOut, BenchFault> {
        self.done.steps = self.done.steps.saturating_add(1);
        self.seat.step(input)
    }
}
