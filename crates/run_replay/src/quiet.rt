//! Who has nothing left to do in a replay, and the next minute at which there is something.
ghost use Rattle.std.specs.Prelude.{◌≡◌, ◌⊎◌, ◌↔◌, ◌-◌, ◌<◌, ◌≤◌, ◌≤ℤ◌, ◌+ℤ◌, pos, ℕ, IsTrue, true, IfNone, IfSome, List, Some, length, nat_lt, if◌then◌else◌, slice_get};
ghost use Rattle.zone_minutes.specs.Window.{IsInWindow, IsWithinLimits};
ghost use Rattle.step_spec.specs.State.{State, prefix_of};
ghost use Rattle.replica_core.specs.Step.{IsOfTable};
ghost use Rattle.history.specs.Book.{Row};
ghost use Rattle.script_semantics.specs.Settling.{AsksNothing, AsksNothingUntil, IsFreeTerm, IsNextMinute, IsQuiet, coordinator, furthest};
ghost use Rattle.script_semantics.specs.Situation.{Situation};
ghost use Rattle.run_replay.specs.Quiet.{SaysWhether, HaveLearnedAs, prefix_in, runs_by_seat};
ghost use Rattle.run_replay.specs.Replay.{IsInSituation, IsReplayAt};
ghost use Rattle.run_replay.specs.declared.replay.Seat.{Seat as Place};

use crate::replay::{Replay, Seat};
use due_set::JobTable;
use launch_machine::Intent;
use paxos_base::place_of;
use replica_core::Replica;
use term_core::Term;
use zone_minutes::Minute;

// Whether a term leads without a flight, and no vote binds it at this slot or after it.
fn is_free(term: &Term, prefix: u64) -> bool
    ensures { IsTrue result ↔ IsFreeTerm prefix term.now }
{
    match term {
        Term::Leader { best, flight, .. } => match flight {
            Some(_) => false,
            None => place_of(&best.items, prefix) == best.items.len(),
        },
        _ => false,
    }
}

// Whether a replica's launch table asks for nothing at an instant.
fn asks_nothing(replica: &Replica, table: &JobTable, at: Minute) -> bool
    requires of_table { IsOfTable table.now replica.now }
    requires inside { IsInWindow table.now.window at.0 }
    ensures { IsTrue result ↔ AsksNothing table.now at.0 replica.now.state }
{
    match replica.machine().choose(table, at) {
        Intent::Rest => true,
        _ => false,
    }
}

// Whether a replica leads and has nothing left to do at an instant.
fn is_idle(replica: &Replica, table: &JobTable, at: Minute) -> bool
    requires of_table { IsOfTable table.now replica.now }
    requires inside { IsInWindow table.now.window at.0 }
    ensures { IsTrue result
        ↔ (IsFreeTerm (prefix_of replica.now.state) replica.now.state.term × AsksNothing table.now at.0 replica.now.state) }
{
    is_free(replica.term(), replica.prefix()) && asks_nothing(replica, table, at)
}

// The number of the minute after another.
fn number_after(minute: Minute) -> u32
    requires low { pos 0 ≤ℤ minute.0 }
    requires high { minute.0 ≤ℤ pos 120_968_640 }
    ensures { pos result ≡ minute.0 +ℤ pos 1 }
{
    minute.0 as u32 + 1
}

// The first minute above one, and at most another, at which the launch table of a replica asks for something.
fn next_minute_of(replica: &Replica, table: &JobTable, above: Minute, to: Minute) -> Option<Minute>
    requires of_table { IsOfTable table.now replica.now }
    requires limits { IsWithinLimits table.now.window }
    requires inside { IsInWindow table.now.window above.0 }
    requires within { IsInWindow table.now.window to.0 }
    ensures found { IfSome result (λ minute. IsNextMinute table.now replica.now.state above.0 to.0 minute.0) }
    ensures none { IfNone result (AsksNothingUntil table.now above.0 to.0 replica.now.state) }
{
    let first = number_after(above);
    let end = number_after(to);
    'minutes: for minute in first..end {
        let minute = Minute(i64::from(minute));
        if !asks_nothing(replica, table, minute) {
            return Some(minute);
        }
    }
    None
}

impl Seat {
    // The first slot that the replica has not learned.
    fn prefix(&self) -> u64
        ensures { result ≡ prefix_in self.now }
    {
        match &self.replica {
            Some(replica) => replica.prefix(),
            None => self.kept.base,
        }
    }
}

// Whether all replicas have learned just the entries below this slot.
fn are_caught_up(seats: &[Seat], prefix: u64) -> bool
    ensures { IsTrue result ↔ ((who : ℕ) (seat : Place) → slice_get seats.now who ≡ Some seat → prefix_in seat ≡ prefix) }
{
    'seats: for seat in seats {
        if seat.prefix() != prefix {
            return false;
        }
    }
    true
}

// The one of two replicas that has learned more, or the first where both have learned as much.
fn further(seats: &[Seat], one: u8, other: u8) -> u8
    requires one { one < length seats.now }
    requires other { other < length seats.now }
    ensures one_of { (result ≡ one) ⊎ (result ≡ other) }
    ensures more { (replicas : ℕ → State) → HaveLearnedAs replicas seats.now
        → result ≡ (if nat_lt (prefix_of (replicas one)) (prefix_of (replicas other)) then other else one) }
{
    if seats[one as usize].prefix() < seats[other as usize].prefix() {
        other
    } else {
        one
    }
}

// The replica that has learned the most; of those that have learned as much, the one of the lowest number.
fn furthest(seats: &[Seat]) -> u8
    requires some { 0 < length seats.now }
    requires few { length seats.now ≤ 7 }
    ensures is { (replicas : ℕ → State) → HaveLearnedAs replicas seats.now → result ≡ furthest replicas (length seats.now - 1) }
    ensures member { result < length seats.now }
{
    let mut best = 0u8;
    'others: for other in 1..seats.len() as u8 {
        best = further(seats, best, other);
    }
    best
}

impl Replay {
    /// The replica that is to lead. One that is stopped counts too.
    pub fn coordinator(&self, table: &JobTable) -> u8
        requires ready { IsInSituation table.now self.now }
        ensures is { (rows : List Row) (situation : Situation) → IsReplayAt table.now rows self.now situation
            → result ≡ coordinator self.now.book.members situation }
        ensures member { result < self.now.book.members }
    {
        furthest(&self.seats)
    }

    /// Whether it is quiet: the replica leads and has nothing left to do, no answer waits for it, and all have learned as much.
    pub fn is_quiet(&self, table: &JobTable, who: u8, at: Minute) -> bool
        requires ready { IsInSituation table.now self.now }
        requires member { who < self.now.book.members }
        requires inside { IsInWindow table.now.window at.0 }
        ensures { SaysWhether table.now (IsQuiet self.now.book.members table.now who at.0) self.now result }
    {
        match &self.seats[who as usize].replica {
            None => false,
            Some(replica) => {
                if self.settings[who as usize].waits.is_some() {
                    return false;
                }
                is_idle(replica, table, at) && are_caught_up(&self.seats, replica.prefix())
            }
        }
    }

    /// The first minute above one, and at most another, at which the launch table of a replica that runs asks for something.
    pub fn next_minute(
        &self,
        table: &JobTable,
        who: u8,
        above: Minute,
        to: Minute,
    ) -> Option<Minute>
        requires ready { IsInSituation table.now self.now }
        requires member { who < self.now.book.members }
        requires runs { (seat : Place) → slice_get self.now.seats.items who ≡ Some seat → runs_by_seat seat ≡ true }
        requires inside { IsInWindow table.now.window above.0 }
        requires within { IsInWindow table.now.window to.0 }
        ensures found { (rows : List Row) (situation : Situation) → IsReplayAt table.now rows self.now situation
            → IfSome result (λ minute. IsNextMinute table.now (situation.standing.replicas who) above.0 to.0 minute.0) }
        ensures none { (rows : List Row) (situation : Situation) → IsReplayAt table.now rows self.now situation
            → IfNone result (AsksNothingUntil table.now above.0 to.0 (situation.standing.replicas who)) }
    {
        match &self.seats[who as usize].replica {
            Some(replica) => next_minute_of(replica, table, above, to),
            None => unreachable!(),
        }
    }
}
