//! Three replicas that hear each other's letters at once, the first of which leads.
use crate::fault::BenchFault;
use crate::seat::{MEMBERS, Seat};
use due_set::JobTable;
use replica_core::{Input, OutLetter, StepOut};
use std::alloc::Global;
use std::{fmt, mem};
use zone_minutes::Minute;

// The most letters that come of a step of the leader.
const MOST_LETTERS: usize = 100;

// The most steps of the leader in a minute.
const MOST_STEPS: usize = 10_000;

/// What replicas have done.
#[derive(Clone, Copy, Debug)]
pub struct Done {
    pub launches: u64,
    pub steps: u64,
    pub letters: u64,
}

impl fmt::Display for Done {
    fn fmt<W: fmt::Write>(&self, f: &mut fmt::Formatter<W>) -> fmt::Result {
        let Done {
            launches,
            steps,
            letters,
        } = *self;
        write!(f, "{launches} launches, {steps} steps, {letters} letters")
    }
}

/// Replicas of one table, and what they have done.
#[derive(Debug, Drop)]
pub struct Group<'a> {
    table: &'a JobTable,
    seats: Vec<Seat<'a>>,
    // Room for the letters of a step and those that come of it. It is empty between two steps of the leader.
    letters: Vec<OutLetter>,
    done: Done,
}

impl<'a> Group<'a> {
    /// Replicas before their first step.
    pub fn start(alloc: Global, table: &'a JobTable) -> Result<Group<'a>, BenchFault> {
        let mut seats = Vec::new(alloc);
        for me in 0..MEMBERS {
            seats.push(Seat::start(alloc, me, table)?)?;
        }
        let done = Done {
            launches: 0,
            steps: 0,
            letters: 0,
        };
        Ok(Group {
            table,
            seats,
            letters: Vec::new(alloc),
            done,
        })
    }

    /// What they have done.
    pub fn done(&self) -> Done {
        self.done
    }

    /// In how many minutes of the window the leader's launch table asks for nothing.
    pub fn rests(&self) -> u64 {
        match self.seats.first() {
            Some(leader) => leader.rests(),
            None => 0,
        }
    }

    /// The first replica stands for leader, and leads from the first minute of the window to the last one.
    pub fn run(&mut self) -> Result<(), BenchFault> {
        self.lead(Input::Campaign)?;
        let window = self.table.window();
        for now in window.from.0..window.until.0 {
            self.minute(Minute(now))?;
        }
        Ok(())
    }

    // Ticks at a minute until there is nothing more to do.
    fn minute(&mut self, now: Minute) -> Result<(), BenchFault> {
        for _ in 0..MOST_STEPS {
            let out = self.lead(Input::Tick { now })?;
            if let Some(row) = out.call {
                let (job, at, kind) = (row.name.job, row.name.at, row.kind);
                self.lead(Input::Answer { job, at, kind })?;
                self.done.launches = self.done.launches.saturating_add(1);
            } else if out.delta.is_none() {
                return Ok(());
            }
        }
        Err(BenchFault::NoEnd)
    }

    // A step of the leader, and those of all that come of it.
    fn lead(&mut self, input: Input<'_>) -> Result<StepOut, BenchFault> {
        let none = Vec::new(*self.letters.allocator());
        let mut letters = mem::replace(&mut self.letters, none);
        let mut out = self.step(0, input)?;
        letters.append(&mut out.letters.items)?;
        self.deliver(&mut letters)?;
        letters.clear();
        self.letters = letters;
        Ok(out)
    }

    // Delivers letters, and those that come of them, in turn.
    fn deliver(&mut self, letters: &mut Vec<OutLetter>) -> Result<(), BenchFault> {
        for place in 0..MOST_LETTERS {
            let Some(letter) = letters.get(place) else {
                return Ok(());
            };
            let bytes = letter.bytes.bytes();
            let mut answers = self.step(letter.to, Input::Hear { bytes })?.letters;
            letters.append(&mut answers.items)?;
            self.done.letters = self.done.letters.saturating_add(1);
        }
        Err(BenchFault::NoEnd)
    }

    // A step of a replica.
    fn step(&mut self, member: u8, input: Input<'_>) -> Result<StepOut, BenchFault> {
        let Some(seat) = self.seats.get_mut(usize::from(member)) else {
            return Err(BenchFault::NoReplica);
        };
        self.done.steps = self.done.steps.saturating_add(1);
        seat.step(input)
    }
}
