//! The lines of commands, in a run of three replicas over an hour, and the limits of a script.
use script_text::{Command, FateWord, Limits, read_command};
use std::test::Fail;
use zone_minutes::{Minute, Window};

// 2024-03-31T00:00Z, and an hour later.
const WINDOW: Window = Window {
    from: Minute(28_530_720),
    until: Minute(28_530_780),
};

struct Row {
    line: &'static str,
    command: Command,
}

const COMMANDS: &[Row] = &[
    Row {
        line: "round 2024-03-31T00:00Z 1",
        command: Command::Round {
            at: Minute(28_530_720),
            rounds: 1,
        },
    },
    Row {
        line: "round 2024-03-31T00:59Z 10000",
        command: Command::Round {
            at: Minute(28_530_779),
            rounds: 10_000,
        },
    },
    Row {
        line: "campaign 0",
        command: Command::Campaign { member: 0 },
    },
    Row {
        line: "stop 2",
        command: Command::Stop { member: 2 },
    },
    Row {
        line: "break 1 2 0",
        command: Command::Break {
            member: 1,
            pass: 2,
            image: 0,
        },
    },
    Row {
        line: "break 2 0 4294967295",
        command: Command::Break {
            member: 2,
            pass: 0,
            image: 4_294_967_295,
        },
    },
    Row {
        line: "break 0 4294967295 10",
        command: Command::Break {
            member: 0,
            pass: 4_294_967_295,
            image: 10,
        },
    },
    Row {
        line: "restart 1",
        command: Command::Restart { member: 1 },
    },
    Row {
        line: "cut 0 2",
        command: Command::Cut { from: 0, to: 2 },
    },
    Row {
        line: "cut 1 1",
        command: Command::Cut { from: 1, to: 1 },
    },
    Row {
        line: "heal",
        command: Command::Heal,
    },
    Row {
        line: "drop 2 0",
        command: Command::Drop { from: 2, to: 0 },
    },
    Row {
        line: "repeat 1 2",
        command: Command::Repeat { from: 1, to: 2 },
    },
    Row {
        line: "reverse 2",
        command: Command::Reverse { member: 2 },
    },
    Row {
        line: "again 0",
        command: Command::Again { letter: 0 },
    },
    Row {
        line: "again 4294967295",
        command: Command::Again {
            letter: 4_294_967_295,
        },
    },
    Row {
        line: "skew 0 0",
        command: Command::Skew {
            member: 0,
            minutes: 0,
        },
    },
    Row {
        line: "skew 1 10000",
        command: Command::Skew {
            member: 1,
            minutes: 10_000,
        },
    },
    Row {
        line: "skew 2 -10000",
        command: Command::Skew {
            member: 2,
            minutes: -10_000,
        },
    },
    Row {
        line: "fate 0 done",
        command: Command::Fate {
            member: 0,
            fate: FateWord::Done,
        },
    },
    Row {
        line: "fate 1 lost-before",
        command: Command::Fate {
            member: 1,
            fate: FateWord::LostBefore,
        },
    },
    Row {
        line: "fate 2 lost-after",
        command: Command::Fate {
            member: 2,
            fate: FateWord::LostAfter,
        },
    },
    Row {
        line: "fate 0 late",
        command: Command::Fate {
            member: 0,
            fate: FateWord::Late,
        },
    },
    Row {
        line: "arrive 0",
        command: Command::Arrive { late: 0 },
    },
    Row {
        line: "arrive 4294967295",
        command: Command::Arrive {
            late: 4_294_967_295,
        },
    },
    Row {
        line: "settle 2024-03-31T00:59Z",
        command: Command::Settle {
            at: Minute(28_530_779),
        },
    },
    Row {
        line: "walk 2024-03-31T00:00Z",
        command: Command::Walk {
            to: Minute(28_530_720),
        },
    },
    Row {
        line: "free 2024-03-31T00:30Z 1",
        command: Command::Free {
            at: Minute(28_530_750),
            turns: 1,
        },
    },
    Row {
        line: "free 2024-03-31T00:00Z 20000",
        command: Command::Free {
            at: Minute(28_530_720),
            turns: 20_000,
        },
    },
];

#[test]
fn lines_of_commands(rt: HostRuntime) -> Result<(), Fail> {
    for row in COMMANDS {
        let read = read_command(row.line, 3, &WINDOW);
        assert_eq!(rt; read, Some(row.command), "{}", row.line);
    }
    Ok(())
}

// Lines of no command of such a run.
const REFUSED: &[&str] = &[
    "",
    " ",
    "end",
    "echo 0",
    "round",
    "round ",
    "round 2024-03-31T00:00Z",
    "round 2024-03-31T00:00Z ",
    "round 2024-03-31T00:00Z 0",
    "round 2024-03-31T00:00Z 01",
    "round 2024-03-31T00:00Z +1",
    "round 2024-03-31T00:00Z -1",
    "round 2024-03-31T00:00Z 10001",
    "round 2024-03-31T00:00Z  1",
    "round 2024-03-31T00:00Z 1 ",
    "round 2024-03-31T00:00Z 1 1",
    "round 1 2024-03-31T00:00Z",
    "round 2024-03-30T23:59Z 1",
    "round 2024-03-31T01:00Z 1",
    "round 2024-03-31T00:60Z 1",
    "round 20240331T0000Z 1",
    "Round 2024-03-31T00:00Z 1",
    "campaign",
    "campaign ",
    "campaign 3",
    "campaign 00",
    "campaign 01",
    "campaign +1",
    "campaign -0",
    "campaign 1 ",
    "campaign  1",
    "campaign 1 2",
    "campaign 256",
    " campaign 1",
    "CAMPAIGN 1",
    "stop",
    "stop 3",
    "stop 1 1",
    "Stop 1",
    "break 0 0",
    "break 0 0 0 0",
    "break 3 0 0",
    "break 0 4294967296 0",
    "break 0 0 4294967296",
    "break 0 00 0",
    "break 0  0 0",
    "break 0 0 0 ",
    "restart",
    "restart 3",
    "restart all",
    "cut 0",
    "cut 0 3",
    "cut 3 0",
    "cut 0 1 2",
    "cut 0  1",
    "cut 0 1 ",
    "cut 0,1",
    "heal ",
    "heal 0",
    "Heal",
    "heals",
    "drop 0",
    "drop 0 3",
    "drop 01 1",
    "repeat 0",
    "repeat 3 0",
    "repeat 0 1 1",
    "reverse",
    "reverse 3",
    "reverse 0 1",
    "again",
    "again 4294967296",
    "again 00",
    "again 1 2",
    "skew 0",
    "skew 0 -0",
    "skew 0 +1",
    "skew 0 01",
    "skew 0 -01",
    "skew 0 --1",
    "skew 0 -",
    "skew 0 10001",
    "skew 0 -10001",
    "skew 3 1",
    "skew 0 1 ",
    "fate 0",
    "fate 0 lost",
    "fate 0 lost_before",
    "fate 0 Done",
    "fate 3 done",
    "fate 0 done ",
    "fate done 0",
    "arrive",
    "arrive 4294967296",
    "arrive -1",
    "arrive 0 ",
    "settle",
    "settle 2024-03-31T01:00Z",
    "settle 2024-03-31T00:00Z 1",
    "settle 2024-03-31",
    "walk 2024-03-30T23:59Z",
    "walk  2024-03-31T00:00Z",
    "walk 2024-03-31t00:00z",
    "free 2024-03-31T00:00Z",
    "free 2024-03-31T00:00Z 0",
    "free 2024-03-31T00:00Z 20001",
    "free 2024-03-31T01:00Z 1",
    "free 2024-03-31T00:00Z 1 1",
];

#[test]
fn lines_of_no_command(rt: HostRuntime) -> Result<(), Fail> {
    for line in REFUSED {
        assert_eq!(rt; read_command(line, 3, &WINDOW), None, "{line}");
    }
    Ok(())
}

struct InRun {
    line: &'static str,
    members: u8,
    is_command: bool,
}

const IN_RUNS: &[InRun] = &[
    InRun {
        line: "stop 0",
        members: 1,
        is_command: true,
    },
    InRun {
        line: "stop 1",
        members: 1,
        is_command: false,
    },
    InRun {
        line: "cut 6 0",
        members: 7,
        is_command: true,
    },
    InRun {
        line: "cut 0 7",
        members: 7,
        is_command: false,
    },
    InRun {
        line: "heal",
        members: 1,
        is_command: true,
    },
];

#[test]
fn replicas_of_a_run(rt: HostRuntime) -> Result<(), Fail> {
    for row in IN_RUNS {
        let is_command = read_command(row.line, row.members, &WINDOW).is_some();
        assert_eq!(rt; is_command, row.is_command, "{}", row.line);
    }
    Ok(())
}

struct Spent {
    command: Command,
    // How often it may stand in a script, and what is left then.
    times: u32,
    left: Limits,
}

const SPENT: &[Spent] = &[
    Spent {
        command: Command::Heal,
        times: 1_000,
        left: Limits {
            commands: 0,
            rounds: 100_000,
            free_turns: 100_000,
        },
    },
    Spent {
        command: Command::Round {
            at: Minute(28_530_720),
            rounds: 10_000,
        },
        times: 10,
        left: Limits {
            commands: 990,
            rounds: 0,
            free_turns: 100_000,
        },
    },
    Spent {
        command: Command::Free {
            at: Minute(28_530_720),
            turns: 20_000,
        },
        times: 5,
        left: Limits {
            commands: 995,
            rounds: 100_000,
            free_turns: 0,
        },
    },
];

// What is left behind so many times the command.
fn left_after(command: &Command, times: u32) -> Option<Limits> {
    let mut left = Limits::whole();
    for _ in 0..times {
        left = left.after(command)?;
    }
    Some(left)
}

#[test]
fn limits_of_a_script(rt: HostRuntime) -> Result<(), Fail> {
    for spent in SPENT {
        assert_eq!(rt; left_after(&spent.command, spent.times), Some(spent.left));
        assert_eq!(rt; left_after(&spent.command, spent.times + 1), None);
    }
    Ok(())
}
