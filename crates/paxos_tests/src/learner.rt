//! A learner, told entries one after another.
use crate::builders::start_of;
use learner_core::{Learner, Learnt};
use std::alloc::Global;
use std::test::*;

// What a learner is told or asked. An entry is given by its job.
#[derive(Clone, Copy, Debug)]
enum Call {
    // It begins at a slot.
    Begin(u64),
    // It hears of a job's entry at a slot. What came of it, and the prefix afterwards.
    Learn(u64, u32),
    // The entry at a slot.
    At(u64),
    // How many entries it has from a slot on.
    From(u64),
    // It begins at a later slot.
    Rebase(u64),
    // A copy goes on in its place.
    Copy,
}

struct Step {
    call: Call,
    want: &'static str,
}

const STEPS: &[Step] = &[
    // One slot after the other.
    Step {
        call: Call::Begin(0),
        want: "0, 0",
    },
    Step {
        call: Call::Learn(1, 3),
        want: "Gap, 0",
    },
    Step {
        call: Call::Learn(0, 2),
        want: "New, 1",
    },
    Step {
        call: Call::Learn(0, 2),
        want: "Old, 1",
    },
    Step {
        call: Call::Learn(2, 4),
        want: "Gap, 1",
    },
    Step {
        call: Call::Learn(1, 3),
        want: "New, 2",
    },
    Step {
        call: Call::Learn(2, 4),
        want: "New, 3",
    },
    Step {
        call: Call::Learn(1, 4),
        want: "Old, 3",
    },
    Step {
        call: Call::At(0),
        want: "Some(Start { job: 2, at: 5, now: 6 })",
    },
    Step {
        call: Call::At(1),
        want: "Some(Start { job: 3, at: 5, now: 6 })",
    },
    Step {
        call: Call::At(2),
        want: "Some(Start { job: 4, at: 5, now: 6 })",
    },
    Step {
        call: Call::At(3),
        want: "None",
    },
    // From a later slot on.
    Step {
        call: Call::Begin(7),
        want: "7, 7",
    },
    Step {
        call: Call::Learn(6, 4),
        want: "Old, 7",
    },
    Step {
        call: Call::Learn(7, 3),
        want: "New, 8",
    },
    Step {
        call: Call::Learn(8, 4),
        want: "New, 9",
    },
    Step {
        call: Call::Learn(9, 2),
        want: "New, 10",
    },
    Step {
        call: Call::Rebase(9),
        want: "9, 10",
    },
    Step {
        call: Call::Copy,
        want: "9, 10",
    },
    Step {
        call: Call::At(8),
        want: "None",
    },
    Step {
        call: Call::At(9),
        want: "Some(Start { job: 2, at: 5, now: 6 })",
    },
    Step {
        call: Call::At(10),
        want: "None",
    },
    Step {
        call: Call::From(9),
        want: "1",
    },
    Step {
        call: Call::From(11),
        want: "0",
    },
    // The base goes beyond all that was learned.
    Step {
        call: Call::Rebase(64),
        want: "64, 64",
    },
    Step {
        call: Call::At(9),
        want: "None",
    },
    Step {
        call: Call::At(63),
        want: "None",
    },
    Step {
        call: Call::At(64),
        want: "None",
    },
];

// A learner takes entries while its prefix is below this.
const LIMIT: u64 = 1 << 63;

fn learn(learner: &mut Learner, slot: u64, job: u32) -> Result<Learnt, Fail> {
    learner.reserve(1)?;
    if learner.prefix() < LIMIT {
        Ok(learner.learn(slot, start_of(job))?)
    } else {
        Err(Fail::from("a prefix beyond the limit"))
    }
}

fn count_from(learner: &Learner, first: u64) -> usize {
    if learner.base() <= first {
        learner.entries_from(first).len()
    } else {
        0
    }
}

fn rebase(learner: &mut Learner, slot: u64) {
    if learner.base() < slot {
        learner.rebase(slot);
    }
}

// The base and the prefix.
fn ends_text(alloc: Global, learner: &Learner) -> Result<String, Fail> {
    let (base, prefix) = (learner.base(), learner.prefix());
    Ok(format!(in alloc; "{base}, {prefix}")?)
}

// Makes the call, and says what was answered.
fn play(alloc: Global, learner: &mut Learner, call: Call) -> Result<String, Fail> {
    match call {
        Call::Begin(base) => *learner = Learner::new(alloc, base),
        Call::Learn(slot, job) => {
            let learnt = learn(learner, slot, job)?;
            let prefix = learner.prefix();
            return Ok(format!(in alloc; "{learnt:?}, {prefix}")?);
        }
        Call::At(slot) => {
            let entry = learner.entry_at(slot);
            return Ok(format!(in alloc; "{entry:?}")?);
        }
        Call::From(first) => {
            let count = count_from(learner, first);
            return Ok(format!(in alloc; "{count}")?);
        }
        Call::Rebase(slot) => rebase(learner, slot),
        Call::Copy => *learner = learner.copy()?,
    }
    ends_text(alloc, learner)
}

#[test]
fn a_learner_learns_without_gaps(rt: HostRuntime) -> Result<(), Fail> {
    let mut learner = Learner::new(rt.alloc(), 0);
    for (number, step) in STEPS.iter().enumerate() {
        let answer = play(rt.alloc(), &mut learner, step.call)?;
        assert_eq!(rt; answer.as_str(), step.want, "step {number}");
    }
    Ok(())
}
