//! Launches of jobs that run by their period.
ghost use Rattle.launch_machine.specs.Machine.{StandsFor};

use crate::build::{FIRST_DATE, FROM, THREE_DAYS, When, two_jobs};
use crate::machine::{Step, first_difference};
use due_set::{JobTable, Period};
use launch_machine::{Effect, Intent, Machine};
use paxos_base::{Entry, JobRow, Kind};
use std::alloc::Global;
use std::test::Fail;

const STEPS: &[Step] = &[
    // Before its first minute the job rests, and no other date can be started.
    Step {
        minute: 29,
        intent: Intent::Rest,
        next: Some(30),
        entry: Entry::Start {
            job: 0,
            at: FIRST_DATE,
            now: FROM + 29,
        },
        effect: Effect::Ignored,
    },
    Step {
        minute: 30,
        intent: Intent::Start {
            job: 0,
            at: FIRST_DATE,
        },
        next: Some(30),
        entry: Entry::Start {
            job: 0,
            at: FIRST_DATE + 1,
            now: FROM + 30,
        },
        effect: Effect::Ignored,
    },
    Step {
        minute: 30,
        intent: Intent::Start {
            job: 0,
            at: FIRST_DATE,
        },
        next: Some(30),
        entry: Entry::Start {
            job: 0,
            at: FROM + 30,
            now: FROM + 30,
        },
        effect: Effect::Ignored,
    },
    Step {
        minute: 30,
        intent: Intent::Start {
            job: 0,
            at: FIRST_DATE,
        },
        next: Some(30),
        entry: Entry::Start {
            job: 0,
            at: FIRST_DATE,
            now: FROM + 30,
        },
        effect: Effect::Opened,
    },
    Step {
        minute: 30,
        intent: Intent::Call {
            job: 0,
            at: FIRST_DATE,
            kind: Kind::Launch,
        },
        next: Some(40),
        entry: Entry::Start {
            job: 0,
            at: FIRST_DATE,
            now: FROM + 31,
        },
        effect: Effect::Ignored,
    },
    // It is called up to the end of its date, and not before it.
    Step {
        minute: 1439,
        intent: Intent::Call {
            job: 0,
            at: FIRST_DATE,
            kind: Kind::Launch,
        },
        next: Some(40),
        entry: Entry::End {
            job: 0,
            at: FIRST_DATE,
            kind: Kind::Launch,
        },
        effect: Effect::Closed,
    },
    Step {
        minute: 31,
        intent: Intent::Rest,
        next: Some(40),
        entry: Entry::Start {
            job: 0,
            at: FIRST_DATE,
            now: FROM + 31,
        },
        effect: Effect::Ignored,
    },
    Step {
        minute: 40,
        intent: Intent::Start {
            job: 1,
            at: FROM + 40,
        },
        next: Some(40),
        entry: Entry::Start {
            job: 1,
            at: FROM + 40,
            now: FROM + 40,
        },
        effect: Effect::Opened,
    },
    Step {
        minute: 40,
        intent: Intent::Call {
            job: 1,
            at: FROM + 40,
            kind: Kind::Launch,
        },
        next: Some(1470),
        entry: Entry::End {
            job: 1,
            at: FROM + 40,
            kind: Kind::Launch,
        },
        effect: Effect::Closed,
    },
    // At 22:00 of the second day its hours are over, and the entry is the next.
    Step {
        minute: 1440 + 1319,
        intent: Intent::Start {
            job: 0,
            at: FIRST_DATE + 1,
        },
        next: Some(100),
        entry: Entry::Start {
            job: 0,
            at: FIRST_DATE + 1,
            now: FROM + 1440 + 1320,
        },
        effect: Effect::Ignored,
    },
    Step {
        minute: 1440 + 1320,
        intent: Intent::Start {
            job: 1,
            at: FROM + 100,
        },
        next: Some(100),
        entry: Entry::Start {
            job: 1,
            at: FROM + 100,
            now: FROM + 1440 + 1320,
        },
        effect: Effect::Opened,
    },
    Step {
        minute: 1440 + 1320,
        intent: Intent::Call {
            job: 1,
            at: FROM + 100,
            kind: Kind::Void,
        },
        next: Some(1470),
        entry: Entry::End {
            job: 1,
            at: FROM + 100,
            kind: Kind::Void,
        },
        effect: Effect::Closed,
    },
    // The second day is passed over; a launch that is called on a later date is void.
    Step {
        minute: 1440 + 31,
        intent: Intent::Start {
            job: 0,
            at: FIRST_DATE + 1,
        },
        next: Some(160),
        entry: Entry::Start {
            job: 0,
            at: FIRST_DATE + 1,
            now: FROM + 1440 + 31,
        },
        effect: Effect::Opened,
    },
    Step {
        minute: 2 * 1440,
        intent: Intent::Call {
            job: 0,
            at: FIRST_DATE + 1,
            kind: Kind::Void,
        },
        next: Some(160),
        entry: Entry::End {
            job: 0,
            at: FIRST_DATE + 1,
            kind: Kind::Void,
        },
        effect: Effect::Closed,
    },
    Step {
        minute: 2 * 1440 + 29,
        intent: Intent::Start {
            job: 1,
            at: FROM + 160,
        },
        next: Some(160),
        entry: Entry::Noop,
        effect: Effect::Ignored,
    },
    Step {
        minute: 2 * 1440 + 30,
        intent: Intent::Start {
            job: 0,
            at: FIRST_DATE + 2,
        },
        next: Some(160),
        entry: Entry::Start {
            job: 0,
            at: FIRST_DATE + 2,
            now: FROM + 2 * 1440 + 30,
        },
        effect: Effect::Opened,
    },
];

// What the steps leave of the first job.
const DAILY: JobRow = JobRow {
    job: 0,
    cursor: Some(FIRST_DATE + 2),
    open_now: Some(FROM + 2 * 1440 + 30),
    last: Some(FIRST_DATE),
    launched: 1,
    voided: 1,
};

// A table of three days with a job that runs once a day, from 00:30 on and before 22:00, and an entry at minute 40.
fn daily_and_hourly(alloc: Global) -> Result<JobTable, Fail> {
    let daily = When::Once(Period::Days(1), 30, 1320);
    two_jobs(alloc, THREE_DAYS, 0, daily, When::At("40"))
}

#[test]
fn dates_in_turn(rt: HostRuntime) -> Result<(), Fail> {
    let table = daily_and_hourly(rt.alloc())?;
    let mut machine = Machine::new(rt.alloc(), &table)?;
    assert_eq!(rt; first_difference(&mut machine, &table, STEPS), None);
    let rows = machine.copy_rows(rt.alloc())?;
    assert_eq!(rt; rows.items.first(), Some(&DAILY));
    Ok(())
}
