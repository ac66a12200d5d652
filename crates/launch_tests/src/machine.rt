//! Starts and ends of launches, in turn.
ghost use Rattle.std.specs.Prelude.{◌<◌, ◌+◌, ◌^◌, ◌↔◌, IsTrue};
ghost use Rattle.launch_machine.specs.Machine.{CanCount, StandsFor};
ghost use Rattle.paxos_base.specs.Rows.{OpenHasCursor};

use crate::build::{FROM, HOUR, When, instant_in, two_jobs};
use due_set::JobTable;
use launch_machine::{Effect, Intent, Machine};
use paxos_base::{Entry, JobRow, Kind, RowList};
use std::alloc::Global;
use std::test::Fail;
use zone_minutes::Minute;

/// At a minute of the window a leader does this, the next start is to come at this one, and then an entry comes, with an
/// effect.
pub struct Step {
    pub minute: i64,
    pub intent: Intent,
    pub next: Option<i64>,
    pub entry: Entry,
    pub effect: Effect,
}

fn has_room(row: JobRow) -> bool
    ensures { IsTrue result ↔ ((row.launched + 1 < 2 ^ 32) × (row.voided + 1 < 2 ^ 32)) }
{
    row.launched < u32::MAX && row.voided < u32::MAX
}

// Whether the entry's count can rise.
fn can_count(machine: &Machine, table: &JobTable, entry: Entry) -> bool
    requires { StandsFor table.now machine.now }
    ensures { IsTrue result → CanCount machine.now.rows entry }
{
    match entry {
        Entry::End { job, .. } => job <= table.jobs() && has_room(machine.row(job)),
        Entry::Noop | Entry::Start { .. } | Entry::Table { .. } => true,
    }
}

// What the entry does, where its count can rise.
fn applied(machine: &mut Machine, table: &JobTable, entry: Entry) -> Option<Effect>
    requires { StandsFor table.now machine.old }
    ensures { StandsFor table.now machine.new }
{
    if can_count(machine, table, entry) {
        Some(machine.apply(table, entry))
    } else {
        None
    }
}

/// What a leader does next at a minute of the window.
pub fn chosen(machine: &Machine, table: &JobTable, minute: i64) -> Option<Intent>
    requires { StandsFor table.now machine.now }
{
    let now = instant_in(table, minute)?;
    Some(machine.choose(table, now))
}

// Whether a step goes as it says.
fn play(machine: &mut Machine, table: &JobTable, step: &Step) -> bool
    requires { StandsFor table.now machine.old }
    ensures { StandsFor table.now machine.new }
{
    let next = step.next.map(|minute| Minute(FROM.wrapping_add(minute)));
    chosen(machine, table, step.minute) == Some(step.intent)
        && machine.next_start() == next
        && applied(machine, table, step.entry) == Some(step.effect)
}

/// The first of the steps that goes otherwise.
pub fn first_difference(machine: &mut Machine, table: &JobTable, steps: &[Step]) -> Option<usize>
    requires { StandsFor table.now machine.old }
    ensures { StandsFor table.now machine.new }
{
    for (place, step) in steps.iter().enumerate() {
        if !play(machine, table, step) {
            return Some(place);
        }
    }
    None
}

const STEPS: &[Step] = &[
    Step {
        minute: 0,
        intent: Intent::Start { job: 0, at: FROM },
        next: Some(0),
        entry: Entry::Noop,
        effect: Effect::Ignored,
    },
    Step {
        minute: 0,
        intent: Intent::Start { job: 0, at: FROM },
        next: Some(0),
        entry: Entry::Start {
            job: 0,
            at: FROM + 20,
            now: FROM + 20,
        },
        effect: Effect::Ignored,
    },
    Step {
        minute: 0,
        intent: Intent::Start { job: 0, at: FROM },
        next: Some(0),
        entry: Entry::Start {
            job: 2,
            at: FROM,
            now: FROM,
        },
        effect: Effect::Ignored,
    },
    Step {
        minute: 0,
        intent: Intent::Start { job: 0, at: FROM },
        next: Some(0),
        entry: Entry::End {
            job: 0,
            at: FROM,
            kind: Kind::Launch,
        },
        effect: Effect::Ignored,
    },
    Step {
        minute: 0,
        intent: Intent::Start { job: 0, at: FROM },
        next: Some(0),
        entry: Entry::Start {
            job: 1,
            at: FROM,
            now: FROM,
        },
        effect: Effect::Opened,
    },
    Step {
        minute: 0,
        intent: Intent::Call {
            job: 1,
            at: FROM,
            kind: Kind::Launch,
        },
        next: Some(0),
        entry: Entry::Start {
            job: 0,
            at: FROM,
            now: FROM,
        },
        effect: Effect::Opened,
    },
    Step {
        minute: 0,
        intent: Intent::Call {
            job: 0,
            at: FROM,
            kind: Kind::Launch,
        },
        next: None,
        entry: Entry::Start {
            job: 0,
            at: FROM + 20,
            now: FROM + 20,
        },
        effect: Effect::Ignored,
    },
    Step {
        minute: 0,
        intent: Intent::Call {
            job: 0,
            at: FROM,
            kind: Kind::Launch,
        },
        next: None,
        entry: Entry::End {
            job: 0,
            at: FROM + 20,
            kind: Kind::Launch,
        },
        effect: Effect::Ignored,
    },
    Step {
        minute: 0,
        intent: Intent::Call {
            job: 0,
            at: FROM,
            kind: Kind::Launch,
        },
        next: None,
        entry: Entry::End {
            job: 0,
            at: FROM,
            kind: Kind::Launch,
        },
        effect: Effect::Closed,
    },
    Step {
        minute: 1,
        intent: Intent::Call {
            job: 1,
            at: FROM,
            kind: Kind::Void,
        },
        next: Some(20),
        entry: Entry::End {
            job: 1,
            at: FROM,
            kind: Kind::Void,
        },
        effect: Effect::Closed,
    },
    Step {
        minute: 19,
        intent: Intent::Rest,
        next: Some(20),
        entry: Entry::Start {
            job: 0,
            at: FROM + 20,
            now: FROM + 19,
        },
        effect: Effect::Ignored,
    },
    Step {
        minute: 20,
        intent: Intent::Start {
            job: 0,
            at: FROM + 20,
        },
        next: Some(20),
        entry: Entry::Start {
            job: 0,
            at: FROM + 20,
            now: FROM + 21,
        },
        effect: Effect::Opened,
    },
];

// What the steps leave.
const FIRST: JobRow = JobRow {
    job: 0,
    cursor: Some(FROM + 20),
    open_now: Some(FROM + 21),
    last: Some(FROM),
    launched: 1,
    voided: 0,
};

const SECOND: JobRow = JobRow {
    job: 1,
    cursor: Some(FROM),
    open_now: None,
    last: None,
    launched: 0,
    voided: 1,
};

// The table's own row.
const OWN: JobRow = JobRow {
    job: 2,
    cursor: None,
    open_now: None,
    last: None,
    launched: 0,
    voided: 0,
};

// A table of an hour, at no grace, with a job at minutes 0, 20 and 40 and a job at minute 0.
fn table_of_hour(alloc: Global) -> Result<JobTable, Fail> {
    two_jobs(alloc, HOUR, 0, When::At("0,20,40"), When::At("0"))
}

#[test]
fn starts_and_ends_launches_in_turn(rt: HostRuntime) -> Result<(), Fail> {
    let table = table_of_hour(rt.alloc())?;
    let mut machine = Machine::new(rt.alloc(), &table)?;
    assert_eq!(rt; first_difference(&mut machine, &table, STEPS), None);
    let rows = machine.copy()?.copy_rows(rt.alloc())?;
    assert_eq!(rt; rows.items.as_slice(), [FIRST, SECOND, OWN].as_slice());
    Ok(())
}

// Whether the row has a cursor, where it is open.
fn has_cursor(row: JobRow) -> bool
    ensures { IsTrue result → OpenHasCursor row }
{
    row.open_now.is_none() || row.cursor.is_some()
}

// What a leader does at a minute of the hour, of a machine of these rows, where they stand for the table.
fn chosen_of(
    alloc: Global,
    table: &JobTable,
    rows: &[JobRow],
    minute: i64,
) -> Result<Option<Intent>, Fail> {
    let mut items = Vec::new(alloc);
    for row in rows {
        if !has_cursor(*row) {
            return Err(Fail::from("no cursor"));
        }
        items.push(*row)?;
    }
    match Machine::from_rows(alloc, table, RowList { items })? {
        Some(machine) => Ok(chosen(&machine, table, minute)),
        None => Ok(None),
    }
}

// The first row, with its launch ended.
const IDLE: JobRow = JobRow {
    job: 0,
    cursor: Some(FROM + 20),
    open_now: None,
    last: Some(FROM),
    launched: 1,
    voided: 0,
};

/// What a leader does at a minute, of rows; nothing where they don't stand for the table.
struct Resumed {
    rows: &'static [JobRow],
    minute: i64,
    intent: Option<Intent>,
}

const RESUMED: &[Resumed] = &[
    Resumed {
        rows: &[FIRST, SECOND, OWN],
        minute: 20,
        intent: Some(Intent::Call {
            job: 0,
            at: FROM + 20,
            kind: Kind::Launch,
        }),
    },
    Resumed {
        rows: &[IDLE, SECOND, OWN],
        minute: 40,
        intent: Some(Intent::Start {
            job: 0,
            at: FROM + 40,
        }),
    },
    Resumed {
        rows: &[IDLE, SECOND, OWN],
        minute: 39,
        intent: Some(Intent::Rest),
    },
    Resumed {
        rows: &[SECOND, FIRST, OWN],
        minute: 20,
        intent: None,
    },
    Resumed {
        rows: &[FIRST, SECOND],
        minute: 20,
        intent: None,
    },
    Resumed {
        rows: &[FIRST, OWN],
        minute: 20,
        intent: None,
    },
    Resumed {
        rows: &[
            FIRST,
            SECOND,
            JobRow {
                cursor: Some(FROM),
                launched: 1,
                ..OWN
            },
        ],
        minute: 20,
        intent: None,
    },
];

#[test]
fn goes_on_from_rows(rt: HostRuntime) -> Result<(), Fail> {
    let table = table_of_hour(rt.alloc())?;
    for row in RESUMED {
        let found = chosen_of(rt.alloc(), &table, row.rows, row.minute)?;
        assert_eq!(rt; found, row.intent, "{}", row.minute);
    }
    Ok(())
}
