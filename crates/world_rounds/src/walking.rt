//! Walking: from one minute at which there is something to do to the next.
ghost use Rattle.std.specs.Prelude.{◌≡◌, ◌⊎◌, ◌+◌, ◌<◌, ◌≤◌, ◌^◌, ◌≤ℤ◌, ◌+ℤ◌, pos, false, IfNone, IfSome, OnOk, OnErr, length};
ghost use Rattle.std.specs.Int.{int_min};
ghost use Rattle.zone_minutes.specs.Window.{IsInWindow};
ghost use Rattle.due_set.specs.Table.{Table};
ghost use Rattle.launch_machine.specs.Machine.{StandsFor};
ghost use Rattle.script_semantics.specs.Settling.{AsksNothingUntil, IsNextMinute, Walks, WalksOn};
ghost use Rattle.script_semantics.specs.Situation.{Situation};
ghost use Rattle.replica_core.specs.Step.{IsOfTable};
ghost use Rattle.settling.specs.Settles.{LeadsNow};
ghost use Rattle.world_rounds.specs.Bounds.{IsBookBounded, IsFaultlessIn};
ghost use Rattle.world_law.specs.Book.{IsLegalBook};
ghost use Rattle.world_rounds.specs.Quiet.{AllRun, IsIn};
ghost use Rattle.world_rounds.specs.Walking.{AsksNothingIn, IsNoneOpen, NoStartIn, NoTableIn};
ghost use Rattle.world_rounds.specs.World.{GoesOnBy, IsWorld, book_of};

use crate::world::World;
use cron_io::OutOfMemory;
use disk_model::Disk;
use due_set::JobTable;
use replica_core::Replica;
use zone_minutes::Minute;

// The number of the minute behind another.
fn number_behind(minute: Minute) -> u32
    requires low { pos 0 ≤ℤ minute.0 }
    requires high { minute.0 ≤ℤ pos 120_968_640 }
    ensures { pos result ≡ minute.0 +ℤ pos 1 }
{
    minute.0 as u32 + 1
}

// The earlier of two minutes.
fn earlier_of(one: Minute, other: Minute) -> Minute
    ensures { result.0 ≡ int_min one.0 other.0 }
{
    one.min(other)
}

// The number of a minute where that is later than this number, as far as 32 bits go.
fn later_number(number: u32, minute: Minute) -> u32
    ensures least { number ≤ result }
    ensures most { (result ≤ number) ⊎ (pos result ≤ℤ minute.0) }
{
    minute.0.clamp(i64::from(number), i64::from(u32::MAX)) as u32
}

// Whether a launch is open.
fn is_any_open(replica: &Replica, table: &JobTable) -> bool
    requires of_table { IsOfTable table.now replica.now }
    ensures { result ≡ false → IsNoneOpen table.now replica.now.machine.rows }
{
    'jobs: for job in 0..table.jobs() {
        if replica.machine().row(job).open_now.is_some() {
            return true;
        }
    }
    false
}

// The number of the minute of the next start, or this number where that is later, as far as 32 bits go.
fn start_number(replica: &Replica, number: u32) -> u32
    ensures least { number ≤ result }
    ensures none { (table : Table) → StandsFor table replica.now.machine → NoStartIn table number result replica.now.machine.rows }
{
    match replica.machine().next_start() {
        Some(first) => later_number(number, first),
        None => u32::MAX,
    }
}

// The number of the minute from which on the next version of the table may be adopted, or this number where that is later, as
// far as 32 bits go.
fn version_number(replica: &Replica, table: &JobTable, number: u32) -> u32
    requires of_table { IsOfTable table.now replica.now }
    ensures least { number ≤ result }
    ensures none { NoTableIn table.now number result replica.now.machine.rows }
{
    match replica.machine().next_version_from(table) {
        Some(from) => later_number(number, from),
        None => u32::MAX,
    }
}

// The number of a later minute than this one, between which and it the launch table asks for nothing: that of the next
// start, or that from which on the next version may be adopted where it is sooner, where no launch is open.
fn next_to_look_at(replica: &Replica, table: &JobTable, minute: u32) -> u32
    requires of_table { IsOfTable table.now replica.now }
    requires low { minute < 2 ^ 31 }
    ensures later { minute < result }
    ensures none { AsksNothingIn table.now (minute + 1) result replica.now.state }
{
    let later = minute + 1;
    if is_any_open(replica, table) {
        return later;
    }
    let start = start_number(replica, later);
    let version = version_number(replica, table, later);
    start.min(version)
}

impl<D: Disk> World<D> {
    // The number of a later minute than this one, between which and it the launch table of a replica asks for nothing.
    fn next_to_look_at(&self, table: &JobTable, who: u8, minute: u32) -> u32
        requires world { IsWorld D.view table.now self.now }
        requires run { AllRun self.now }
        requires member { who < length self.now.members.items }
        requires low { minute < 2 ^ 31 }
        ensures later { minute < result }
        ensures none { (situation : Situation) → IsIn D.view table.now self.now situation
            → AsksNothingIn table.now (minute + 1) result (situation.standing.replicas who) }
    {
        next_to_look_at(self.members[who as usize].node.replica(), table, minute)
    }

    // The first minute above one, and at most another, at which the launch table of a replica asks for something.
    fn next_minute(&self, table: &JobTable, who: u8, above: Minute, to: Minute) -> Option<Minute>
        requires world { IsWorld D.view table.now self.now }
        requires run { AllRun self.now }
        requires member { who < length self.now.members.items }
        requires inside { IsInWindow table.now.window above.0 }
        requires within { IsInWindow table.now.window to.0 }
        ensures found { (situation : Situation) → IsIn D.view table.now self.now situation
            → IfSome result (λ minute. IsNextMinute table.now (situation.standing.replicas who) above.0 to.0 minute.0) }
        ensures none { (situation : Situation) → IsIn D.view table.now self.now situation
            → IfNone result (AsksNothingUntil table.now above.0 to.0 (situation.standing.replicas who)) }
    {
        let first = number_behind(above);
        let end = number_behind(to);
        let mut number = first;
        'minutes: while number < end {
            let minute = Minute(i64::from(number));
            if !self.asks_nothing(table, who, minute) {
                return Some(minute);
            }
            number = self.next_to_look_at(table, who, number);
        }
        None
    }

    // From one minute at which there is something to do to the next, each drained.
    fn walk_on(
        &mut self,
        table: &JobTable,
        who: u8,
        at: Minute,
        to: Minute,
    ) -> Result<(), OutOfMemory>
        requires world { IsWorld D.view table.now self.old }
        requires given { IsFaultlessIn D.view table.now (λ members situation. LeadsNow members table.now who situation) self.old }
        requires run { AllRun self.old }
        requires member { who < length self.old.members.items }
        requires inside { IsInWindow table.now.window at.0 }
        requires within { IsInWindow table.now.window to.0 }
        ensures goes { OnOk result (GoesOnBy D.view table.now (WalksOn (book_of self.old).members table.now who at.0 to.0) self.old self.new) }
        ensures bounded { OnOk result (IsBookBounded (book_of self.new)) }
        ensures members { OnOk result ((book_of self.new).members ≡ (book_of self.old).members) }
        ensures legal { OnErr result (IsLegalBook table.now (book_of self.new)) }
    {
        let mut above = at;
        'minutes: while let Some(minute) = self.next_minute(table, who, above, to) {
            self.drain(table, who, minute)?;
            above = minute;
        }
        Ok(())
    }

    /// Walks to an instant: settles at the latest clock reading so far, or at this instant where that is later, and then drains
    /// each later minute up to this one at which there is something to do.
    ///
    /// # Errors
    ///
    /// Those of [`World::settle`], of each of the drains.
    pub fn walk(&mut self, table: &JobTable, to: Minute) -> Result<(), OutOfMemory>
        requires world { IsWorld D.view table.now self.old }
        requires some { 0 < (book_of self.old).members }
        requires inside { IsInWindow table.now.window to.0 }
        ensures goes { OnOk result (GoesOnBy D.view table.now (Walks (book_of self.old).members table.now to.0) self.old self.new) }
        ensures bounded { OnOk result (IsBookBounded (book_of self.new)) }
        ensures members { OnOk result ((book_of self.new).members ≡ (book_of self.old).members) }
        ensures legal { OnErr result (IsLegalBook table.now (book_of self.new)) }
    {
        let at = earlier_of(self.latest, to);
        let who = self.settle_led(table, at)?;
        self.walk_on(table, who, at, to)
    }
}
