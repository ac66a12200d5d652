//! Free turns through the whole program: the same launches whatever order the threads take, and threads that run at once.
use crate::program::{args_of, play_past};
use std::alloc::Global;
use std::fmt::Write;
use std::sync::atomic::{AtomicU64, Ordering};
use std::test::Fail;
use std::thread;
use world_free::{OpenGate, TurnGate};

// Five replicas, each with 2,000 turns of its own at one instant.
const FIVE_FREE: &str = "cronrun 1
replicas 5
window 2024-03-31T00:00Z 2024-03-31T04:00Z
grace 240
crontab alice UTC 1
*/10 * * * * true
script
free 2024-03-31T01:00Z 2000
end
";

// Their report: each due instant is launched.
fn five_free_report(alloc: Global) -> Result<String, Fail> {
    let mut text = format!(in alloc;
        "cron report 1\nwindow 2024-03-31T00:00Z 2024-03-31T04:00Z\nreplicas 5\njobs 1\n\
        job alice:1 launched 24 void 0\n"
    )?;
    for hour in 0..4_u8 {
        for ten in 0..6_u8 {
            write!(text, "launch alice:1@20240331T0{hour}{ten}0Z\n")?;
        }
    }
    text.push_str("end\n")?;
    Ok(text)
}

#[test]
fn each_order_makes_the_same_launches(rt: HostRuntime) -> Result<(), Fail> {
    let report = five_free_report(rt.alloc())?;
    for _run in 0..10_u8 {
        let args = args_of(rt.alloc(), &[])?;
        let left = play_past(&rt, rt.alloc(), Ok(args), FIVE_FREE, &[], &OpenGate)?;
        assert_eq!(rt; left.status, 0);
        assert!(rt; left.report.bytes() == report.as_bytes(), "another report");
    }
    Ok(())
}

// How often a thread looks whether the other has come. Where they don't run at once, this ends the wait.
const LOOKS: u32 = 100_000_000;

// How often a replica has come to its first turn, and to its second.
#[derive(Drop)]
struct Passes {
    first: AtomicU64,
    second: AtomicU64,
}

impl Passes {
    fn none() -> Passes {
        Passes {
            first: AtomicU64::new(0),
            second: AtomicU64::new(0),
        }
    }

    fn counts(&self) -> (u64, u64) {
        (
            self.first.load(Ordering::SeqCst),
            self.second.load(Ordering::SeqCst),
        )
    }
}

// A gate of two replicas at whose second turn each waits for the other.
#[derive(Drop)]
struct MeetingGate {
    zero: Passes,
    one: Passes,
    // How many passes were of another replica, or of a third turn.
    beyond: AtomicU64,
    // How many waits ended since the other had come, and how many by the limit.
    met: AtomicU64,
    missed: AtomicU64,
}

impl MeetingGate {
    fn new() -> MeetingGate {
        MeetingGate {
            zero: Passes::none(),
            one: Passes::none(),
            beyond: AtomicU64::new(0),
            met: AtomicU64::new(0),
            missed: AtomicU64::new(0),
        }
    }

    // Comes to the second turn, and waits for the other replica.
    fn meet(&self, own: &Passes, other: &Passes) {
        own.second.fetch_add(1, Ordering::SeqCst);
        'looks: for _look in 0..LOOKS {
            if other.second.load(Ordering::SeqCst) > 0 {
                self.met.fetch_add(1, Ordering::SeqCst);
                return;
            }
            thread::yield_now();
        }
        self.missed.fetch_add(1, Ordering::SeqCst);
    }
}

impl TurnGate for MeetingGate {
    fn pass(&self, member: u8, turn: u32) {
        match (member, turn) {
            (0, 0) => {
                self.zero.first.fetch_add(1, Ordering::SeqCst);
            }
            (1, 0) => {
                self.one.first.fetch_add(1, Ordering::SeqCst);
            }
            (0, 1) => self.meet(&self.zero, &self.one),
            (1, 1) => self.meet(&self.one, &self.zero),
            _ => {
                self.beyond.fetch_add(1, Ordering::SeqCst);
            }
        }
    }
}

// Two replicas with two turns each.
const TWO_FREE: &str = "cronrun 1
replicas 2
window 2024-03-31T00:00Z 2024-03-31T01:00Z
grace 0
crontab alice UTC 1
0,20,40 * * * * echo hi
script
free 2024-03-31T00:00Z 2
end
";

#[test]
fn threads_wait_for_each_other(rt: HostRuntime) -> Result<(), Fail> {
    let gate = MeetingGate::new();
    let args = args_of(rt.alloc(), &[])?;
    let left = play_past(&rt, rt.alloc(), Ok(args), TWO_FREE, &[], &gate)?;
    assert_eq!(rt; left.status, 0);
    assert_eq!(rt; gate.met.load(Ordering::SeqCst), 2);
    assert_eq!(rt; gate.missed.load(Ordering::SeqCst), 0);
    assert_eq!(rt; gate.zero.counts(), (1, 1));
    assert_eq!(rt; gate.one.counts(), (1, 1));
    assert_eq!(rt; gate.beyond.load(Ordering::SeqCst), 0);
    Ok(())
}
