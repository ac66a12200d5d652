//! Calls of a ledger by their fates, and arrivals.
use Act::{Arm, Arrive, Call, Create, Look, Reserve};
use Answer::{Done, Failed, Free, NoMemory, Row, Stands};
use cluster_sched::{CallFault, Fate, Ledger, Name, SchedRow, Scheduler, call_by_name};
use cron_io::OutOfMemory;
use paxos_base::Kind;
use std::alloc::Global;
use std::test::Fail;
use zone_minutes::Minute;

const NAME: Name = Name {
    job: 0,
    at: 28_530_780,
};

const OTHER_NAME: Name = Name {
    job: 1,
    at: 28_530_780,
};

// A launch and a void under one name, and a void under another.
const LAUNCH: SchedRow = SchedRow {
    name: NAME,
    kind: Kind::Launch,
    now: Minute(28_530_780),
    by: 1,
};

const VOID: SchedRow = SchedRow {
    name: NAME,
    kind: Kind::Void,
    now: Minute(28_530_800),
    by: 2,
};

const OTHER: SchedRow = SchedRow {
    name: OTHER_NAME,
    kind: Kind::Void,
    now: Minute(28_530_800),
    by: 2,
};

/// What is done with a ledger.
#[derive(Clone, Copy)]
enum Act {
    Arm(Fate),
    Look(Name),
    Create(SchedRow),
    Call(SchedRow),
    Arrive(u32),
    Reserve,
}

/// What a ledger answers.
#[derive(Clone, Copy, Debug, PartialEq, Eq)]
enum Answer {
    Done,
    Free,
    Row(SchedRow),
    Stands(bool),
    Failed,
    NoMemory,
}

struct Step(Act, Answer);

/// What is done in turn with an empty ledger, and the rows that are held and late then.
struct Scenario {
    name: &'static str,
    steps: &'static [Step],
    held: &'static [SchedRow],
    late: &'static [SchedRow],
}

const SCENARIOS: &[Scenario] = &[
    Scenario {
        name: "Done, on a free name",
        steps: &[
            Step(Arm(Fate::Done), Done),
            Step(Look(NAME), Free),
            Step(Arm(Fate::Done), Done),
            Step(Create(LAUNCH), Row(LAUNCH)),
        ],
        held: &[LAUNCH],
        late: &[],
    },
    Scenario {
        name: "Done, on a held name",
        steps: &[
            Step(Create(LAUNCH), Row(LAUNCH)),
            Step(Arm(Fate::Done), Done),
            Step(Look(NAME), Row(LAUNCH)),
            Step(Look(NAME), Row(LAUNCH)),
            Step(Arm(Fate::Done), Done),
            Step(Create(VOID), Row(LAUNCH)),
            Step(Call(VOID), Row(LAUNCH)),
            Step(Arm(Fate::Done), Done),
            Step(Call(VOID), Row(LAUNCH)),
        ],
        held: &[LAUNCH],
        late: &[],
    },
    Scenario {
        name: "LostBefore, on a free name",
        steps: &[
            Step(Arm(Fate::LostBefore), Done),
            Step(Look(NAME), Failed),
            Step(Arm(Fate::LostBefore), Done),
            Step(Create(LAUNCH), Failed),
        ],
        held: &[],
        late: &[],
    },
    Scenario {
        name: "LostBefore, on a held name",
        steps: &[
            Step(Create(LAUNCH), Row(LAUNCH)),
            Step(Arm(Fate::LostBefore), Done),
            Step(Look(NAME), Failed),
            Step(Look(NAME), Row(LAUNCH)),
            Step(Arm(Fate::LostBefore), Done),
            Step(Create(VOID), Failed),
            Step(Call(VOID), Row(LAUNCH)),
            Step(Arm(Fate::LostBefore), Done),
            Step(Call(VOID), Failed),
        ],
        held: &[LAUNCH],
        late: &[],
    },
    Scenario {
        name: "LostAfter, on a free name",
        steps: &[
            Step(Arm(Fate::LostAfter), Done),
            Step(Look(NAME), Free),
            Step(Arm(Fate::LostAfter), Done),
            Step(Create(LAUNCH), Failed),
        ],
        held: &[LAUNCH],
        late: &[],
    },
    Scenario {
        name: "LostAfter, on a held name",
        steps: &[
            Step(Create(LAUNCH), Row(LAUNCH)),
            Step(Arm(Fate::LostAfter), Done),
            Step(Look(NAME), Failed),
            Step(Look(NAME), Row(LAUNCH)),
            Step(Arm(Fate::LostAfter), Done),
            Step(Create(VOID), Failed),
            Step(Call(VOID), Row(LAUNCH)),
            Step(Arm(Fate::LostAfter), Done),
            Step(Call(VOID), Failed),
        ],
        held: &[LAUNCH],
        late: &[],
    },
    Scenario {
        name: "Late, on a free name",
        steps: &[
            Step(Arm(Fate::Late), Done),
            Step(Look(NAME), Free),
            Step(Arm(Fate::Late), Done),
            Step(Create(LAUNCH), Failed),
        ],
        held: &[],
        late: &[LAUNCH],
    },
    Scenario {
        name: "Late, on a held name",
        steps: &[
            Step(Create(LAUNCH), Row(LAUNCH)),
            Step(Arm(Fate::Late), Done),
            Step(Look(NAME), Row(LAUNCH)),
            Step(Look(NAME), Row(LAUNCH)),
            Step(Arm(Fate::Late), Done),
            Step(Create(VOID), Failed),
            Step(Call(VOID), Row(LAUNCH)),
            Step(Arm(Fate::Late), Done),
            Step(Call(VOID), Row(LAUNCH)),
        ],
        held: &[LAUNCH],
        late: &[],
    },
    Scenario {
        name: "a look that finds nothing spends nothing",
        steps: &[
            Step(Create(OTHER), Row(OTHER)),
            Step(Arm(Fate::Late), Done),
            Step(Look(NAME), Free),
            Step(Create(LAUNCH), Failed),
            Step(Arm(Fate::Late), Done),
            Step(Look(OTHER_NAME), Row(OTHER)),
            Step(Create(LAUNCH), Row(LAUNCH)),
        ],
        held: &[OTHER, LAUNCH],
        late: &[LAUNCH],
    },
    Scenario {
        name: "the first row is held for good",
        steps: &[
            Step(Look(NAME), Free),
            Step(Call(LAUNCH), Row(LAUNCH)),
            Step(Call(VOID), Row(LAUNCH)),
            Step(Create(VOID), Row(LAUNCH)),
            Step(Call(OTHER), Row(OTHER)),
            Step(Look(NAME), Row(LAUNCH)),
        ],
        held: &[LAUNCH, OTHER],
        late: &[],
    },
    Scenario {
        name: "a lost answer leaves the launch",
        steps: &[
            Step(Arm(Fate::LostAfter), Done),
            Step(Call(LAUNCH), Failed),
            Step(Call(VOID), Row(LAUNCH)),
        ],
        held: &[LAUNCH],
        late: &[],
    },
    Scenario {
        name: "a lost call leaves the name free",
        steps: &[
            Step(Arm(Fate::LostBefore), Done),
            Step(Call(LAUNCH), Failed),
            Step(Call(VOID), Row(VOID)),
        ],
        held: &[VOID],
        late: &[],
    },
    Scenario {
        name: "a late launch finds a void",
        steps: &[
            Step(Arm(Fate::Late), Done),
            Step(Call(LAUNCH), Failed),
            Step(Call(VOID), Row(VOID)),
            Step(Reserve, Done),
            Step(Arrive(0), Stands(false)),
        ],
        held: &[VOID],
        late: &[LAUNCH],
    },
    Scenario {
        name: "late calls arrive by their numbers, and the fate waits for the next call",
        steps: &[
            Step(Arm(Fate::Late), Done),
            Step(Call(VOID), Failed),
            Step(Arm(Fate::Late), Done),
            Step(Call(LAUNCH), Failed),
            Step(Arm(Fate::Late), Done),
            Step(Call(OTHER), Failed),
            Step(Arm(Fate::LostBefore), Done),
            Step(Arrive(1), Stands(true)),
            Step(Arrive(1), Stands(true)),
            Step(Arrive(0), Stands(false)),
            Step(Arrive(3), Stands(false)),
            Step(Arrive(u32::MAX), Stands(false)),
            Step(Arrive(2), Stands(true)),
            Step(Look(NAME), Failed),
            Step(Look(NAME), Row(LAUNCH)),
        ],
        held: &[LAUNCH, OTHER],
        late: &[VOID, LAUNCH, OTHER],
    },
];

fn fault_answer(fault: CallFault) -> Answer {
    match fault {
        CallFault::Failed => Failed,
        CallFault::OutOfMemory => NoMemory,
    }
}

fn look_answer(found: Result<Option<SchedRow>, CallFault>) -> Answer {
    match found {
        Ok(Some(row)) => Row(row),
        Ok(None) => Free,
        Err(fault) => fault_answer(fault),
    }
}

fn call_answer(first: Result<SchedRow, CallFault>) -> Answer {
    match first {
        Ok(row) => Row(row),
        Err(fault) => fault_answer(fault),
    }
}

fn arrival_answer(stands: Result<bool, OutOfMemory>) -> Answer {
    match stands {
        Ok(stands) => Stands(stands),
        Err(OutOfMemory) => NoMemory,
    }
}

fn play(ledger: &mut Ledger, act: Act) -> Answer {
    match act {
        Arm(fate) => {
            ledger.arm(fate);
            Done
        }
        Look(name) => look_answer(ledger.look(name)),
        Create(row) => call_answer(ledger.create(row)),
        Call(row) => call_answer(call_by_name(ledger, row)),
        Arrive(late) => arrival_answer(ledger.arrive(late)),
        Reserve => match ledger.reserve() {
            Ok(()) => Done,
            Err(OutOfMemory) => NoMemory,
        },
    }
}

// The first of the steps that goes otherwise.
fn first_difference(ledger: &mut Ledger, steps: &[Step]) -> Option<usize> {
    for (place, step) in steps.iter().enumerate() {
        if play(ledger, step.0) != step.1 {
            return Some(place);
        }
    }
    None
}

#[test]
fn calls_go_by_their_fates(rt: HostRuntime) {
    for scenario in SCENARIOS {
        let mut ledger = Ledger::new(rt.alloc());
        let difference = first_difference(&mut ledger, scenario.steps);
        assert_eq!(rt; difference, None, "{}", scenario.name);
        let left = ledger.held() == scenario.held && ledger.late() == scenario.late;
        assert!(rt; left, "{}", scenario.name);
    }
}
