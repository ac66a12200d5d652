//! Disks that stop within a call that saves a change, and what becomes of the change.
use crate::worlds::told_of;
use std::alloc::Global;
use std::sync::Wait;
use std::test::*;
use std::thread::Threads;

// A run of so many replicas, in which a disk is armed in front of a turn that saves a change. The numbers of `break` stand between the
// two parts of its script.
struct Save {
    members: u8,
    head: &'static str,
    before: &'static str,
    behind: &'static str,
    // The turn's number, and its replica; and what it does.
    turn: &'static str,
    cause: &'static str,
    // Which of the ends in a row of ENDS is its change's.
    column: usize,
    // The report's line of the job.
    job: &'static str,
}

// One job, at 01:00.
const AT_ONE: &str = "\
window 2024-03-31T00:00Z 2024-03-31T04:00Z
grace 0
crontab alice UTC 1
0 1 * * * true
";

const ONCE: &str = "\njob alice:1 launched 1 void 0\n";

// One job, in each minute. A replica alone has two entries in three turns, and keeps its launch table in place of each 64 of them.
const EACH_MINUTE: &str = "\
window 2024-03-31T00:00Z 2024-03-31T02:00Z
grace 120
crontab alice UTC 1
* * * * * true
";

const EACH_ONCE: &str = "\njob alice:1 launched 120 void 0\n";

const SAVES: &[Save] = &[
    // A ballot is tried.
    Save {
        members: 1,
        head: AT_ONE,
        before: "break 0",
        behind: "campaign 0\n",
        turn: "0 0",
        cause: "campaign",
        column: 0,
        job: ONCE,
    },
    // A promise.
    Save {
        members: 3,
        head: AT_ONE,
        before: "campaign 0\nbreak 1",
        behind: "round 2024-03-31T01:00Z 1\n",
        turn: "2 1",
        cause: "hear 0",
        column: 0,
        job: ONCE,
    },
    // A leader's vote for the start of a launch, a follower's, and a vote for the end of a launch.
    Save {
        members: 3,
        head: AT_ONE,
        before: "campaign 0\nround 2024-03-31T01:00Z 1\nbreak 0",
        behind: "round 2024-03-31T01:00Z 1\n",
        turn: "8 0",
        cause: "tick 2024-03-31T01:00Z",
        column: 0,
        job: ONCE,
    },
    Save {
        members: 3,
        head: AT_ONE,
        before: "campaign 0\nround 2024-03-31T01:00Z 2\nbreak 1",
        behind: "round 2024-03-31T01:00Z 1\n",
        turn: "12 1",
        cause: "hear 4",
        column: 0,
        job: ONCE,
    },
    Save {
        members: 1,
        head: AT_ONE,
        before: "campaign 0\nround 2024-03-31T01:00Z 2\nbreak 0",
        behind: "round 2024-03-31T01:00Z 1\n",
        turn: "3 0",
        cause: "answer",
        column: 0,
        job: ONCE,
    },
    // A first table: a replica's own, the same again behind a stop in which it was lost, and one that was sent.
    Save {
        members: 1,
        head: EACH_MINUTE,
        before: "campaign 0\nround 2024-03-31T01:59Z 64\nfree 2024-03-31T01:59Z 1\nbreak 0",
        behind: "free 2024-03-31T01:59Z 1\n",
        turn: "97 0",
        cause: "tick 2024-03-31T01:59Z",
        column: 1,
        job: EACH_ONCE,
    },
    Save {
        members: 1,
        head: EACH_MINUTE,
        before: "campaign 0\nround 2024-03-31T01:59Z 64\nbreak 0 7 0\nround 2024-03-31T01:59Z 1\nrestart 0\n\
            campaign 0\nround 2024-03-31T01:59Z 64\nbreak 0",
        behind: "round 2024-03-31T01:59Z 1\n",
        turn: "164 0",
        cause: "tick 2024-03-31T01:59Z",
        column: 1,
        job: EACH_ONCE,
    },
    Save {
        members: 3,
        head: EACH_MINUTE,
        before: "stop 2\ncampaign 0\nround 2024-03-31T01:59Z 164\nrestart 2\nround 2024-03-31T01:59Z 3\nbreak 2",
        behind: "round 2024-03-31T01:59Z 1\n",
        turn: "578 2",
        cause: "hear 331",
        column: 1,
        job: EACH_ONCE,
    },
    // A second table, behind one that was kept, or that was kept in a stop.
    Save {
        members: 1,
        head: EACH_MINUTE,
        before: "campaign 0\nround 2024-03-31T01:59Z 129\nfree 2024-03-31T01:59Z 1\nbreak 0",
        behind: "free 2024-03-31T01:59Z 1\n",
        turn: "194 0",
        cause: "tick 2024-03-31T01:59Z",
        column: 2,
        job: EACH_ONCE,
    },
    Save {
        members: 1,
        head: EACH_MINUTE,
        before: "campaign 0\nround 2024-03-31T01:59Z 64\nbreak 0 7 1\nround 2024-03-31T01:59Z 1\nrestart 0\n\
            campaign 0\nround 2024-03-31T01:59Z 64\nfree 2024-03-31T01:59Z 1\nbreak 0",
        behind: "free 2024-03-31T01:59Z 1\n",
        turn: "196 0",
        cause: "tick 2024-03-31T01:59Z",
        column: 2,
        job: EACH_ONCE,
    },
];

// After how many calls the disk stops, and the number of the image that it leaves; and what becomes then of a record, of a first table, and
// of a second one.
//
// A record takes four calls, and the last two write and sync the byte that opens its gate. A table takes five, and the last two write and
// sync the byte whose low bit selects its area. Image 1 of each three has the stopped call done. Image 2 has a third of its number in each
// byte that was written and not synced: 1 opens a gate, an odd byte selects the area of a first table, and an even one that of a second.
const ENDS: &str = "\
0 0 => lost lost lost
0 1 => lost lost lost
0 2 => lost lost lost
0 5 => lost lost lost
1 0 => lost lost lost
1 1 => lost lost lost
1 2 => lost lost lost
1 5 => lost lost lost
2 0 => lost lost lost
2 1 => kept lost lost
2 2 => lost lost lost
2 5 => kept lost lost
2 8 => lost lost lost
3 0 => lost lost lost
3 1 => kept kept kept
3 2 => lost lost kept
3 5 => kept kept lost
3 8 => lost lost kept
3 767 => lost kept lost
3 770 => lost lost kept
3 773 => kept kept lost
3 4294967295 => lost lost lost
4 0 => done lost lost
4 1 => done kept kept
4 2 => done lost kept
4 5 => done kept lost
5 1 => done done done
4294967295 1 => done done done
";

// The journal's line of the turn, which is done, or whose change is kept or lost.
fn line_of(alloc: Global, save: &Save, end: &str) -> Result<String, Fail> {
    let (turn, cause) = (save.turn, save.cause);
    if end == "done" {
        Ok(format!(in alloc; "\n{turn} {cause}\n")?)
    } else {
        Ok(format!(in alloc; "\n{turn} stop {end} {cause}\n")?)
    }
}

// Whether the change ends as a row of ENDS says, and each launch is made all the same.
fn ends_so<R: Threads + Wait + Sync>(
    rt: &R,
    alloc: Global,
    save: &Save,
    row: &str,
) -> Result<bool, Fail> {
    let (numbers, ends) = row.split_once(" => ").ok_or("a row without ends")?;
    let end = ends.split(' ').nth(save.column).ok_or("too few ends")?;
    let line = line_of(alloc, save, end)?;
    let text = format!(in alloc;
        "cronrun 1\nreplicas {}\n{}script\n{} {numbers}\n{}end\n",
        save.members, save.head, save.before, save.behind
    )?;
    let told = told_of(rt, alloc, &text, 1)?;
    Ok(told.contains(line.as_str()) && told.contains(save.job))
}

#[test]
fn each_call_of_a_save(rt: HostRuntime) -> Result<(), Fail> {
    for save in SAVES {
        for row in ENDS.lines() {
            let so = ends_so(&rt, rt.alloc(), save, row)?;
            assert!(rt; so, "{} {row}", save.before);
        }
    }
    Ok(())
}
