//! Settling: the replica that has learned the most comes to lead, and rounds follow until it is quiet.
ghost use Rattle.std.specs.Prelude.{◌≡◌, ◌<◌, ◌∷◌, [], IfOk, OnOk, OnErr, length};
ghost use Rattle.zone_minutes.specs.Window.{IsInWindow};
ghost use Rattle.history.specs.declared.turn.Cause.TheVariants.{Campaign};
ghost use Rattle.script_semantics.specs.Parts.{Plays};
ghost use Rattle.script_semantics.specs.Situation.{Do, Situation};
ghost use Rattle.script_semantics.specs.Settling.{Drains, IsDrainRound, Settles, coordinator};
ghost use Rattle.settling.specs.Settles.{HasBeenIdleFor, LeadsNow, LeadsSoon};
ghost use Rattle.world_law.specs.Book.{IsLegalBook};
ghost use Rattle.world_rounds.specs.Bounds.{IsBookBounded, IsFaultlessIn};
ghost use Rattle.world_rounds.specs.Drains.{DrainsOn};
ghost use Rattle.world_rounds.specs.Quiet.{AllRun, IsIn};
ghost use Rattle.world_rounds.specs.World.{GoesOnBy, IsWorld, book_of};

use crate::bounds::check_bounds;
use crate::world::World;
use cron_io::OutOfMemory;
use disk_model::Disk;
use due_set::JobTable;
use zone_minutes::Minute;

impl<D: Disk> World<D> {
    // The replica stands for leader.
    fn lead(&mut self, table: &JobTable, who: u8) -> Result<(), OutOfMemory>
        requires world { IsWorld D.view table.now self.old }
        requires run { AllRun self.old }
        requires member { who < length self.old.members.items }
        ensures goes { OnOk result (GoesOnBy D.view table.now (Plays (book_of self.old).members (λ situation. Do who Campaign ∷ [])) self.old self.new) }
        ensures run { OnOk result (AllRun self.new) }
        ensures members { OnOk result ((book_of self.new).members ≡ (book_of self.old).members) }
        ensures legal { OnErr result (IsLegalBook table.now (book_of self.new)) }
    {
        self.stand(table, who)
    }

    // The replica stands for leader where it follows, and a round comes after that.
    fn lead_round(&mut self, table: &JobTable, who: u8, at: Minute) -> Result<(), OutOfMemory>
        requires world { IsWorld D.view table.now self.old }
        requires run { AllRun self.old }
        requires member { who < length self.old.members.items }
        requires inside { IsInWindow table.now.window at.0 }
        ensures goes { OnOk result (GoesOnBy D.view table.now (IsDrainRound (book_of self.old).members table.now who at.0) self.old self.new) }
        ensures members { OnOk result ((book_of self.new).members ≡ (book_of self.old).members) }
        ensures legal { OnErr result (IsLegalBook table.now (book_of self.new)) }
    {
        if self.follows(table, who) {
            self.lead(table, who)?;
        }
        self.round_once(table, at)
    }

    // A round of a drain, within the bounds in which letters are heard whole.
    fn drain_round(&mut self, table: &JobTable, who: u8, at: Minute) -> Result<(), OutOfMemory>
        requires world { IsWorld D.view table.now self.old }
        requires run { AllRun self.old }
        requires member { who < length self.old.members.items }
        requires inside { IsInWindow table.now.window at.0 }
        ensures goes { OnOk result (GoesOnBy D.view table.now (IsDrainRound (book_of self.old).members table.now who at.0) self.old self.new) }
        ensures bounded { OnOk result (IsBookBounded (book_of self.new)) }
        ensures run { OnOk result (AllRun self.new) }
        ensures members { OnOk result ((book_of self.new).members ≡ (book_of self.old).members) }
        ensures legal { OnErr result (IsLegalBook table.now (book_of self.new)) }
    {
        self.lead_round(table, who, at)?;
        check_bounds(&self.book)
    }

    // Rounds of a drain until one leads, four at most.
    fn drain_until_led(&mut self, table: &JobTable, who: u8, at: Minute) -> Result<(), OutOfMemory>
        requires given { IsFaultlessIn D.view table.now (λ members situation. LeadsSoon 4 members table.now who situation) self.old }
        requires run { AllRun self.old }
        requires member { who < length self.old.members.items }
        requires inside { IsInWindow table.now.window at.0 }
        ensures goes { OnOk result (GoesOnBy D.view table.now (DrainsOn (book_of self.old).members table.now who at.0) self.old self.new) }
        ensures given { OnOk result (IsFaultlessIn D.view table.now (λ members situation. LeadsNow members table.now who situation) self.new) }
        ensures run { OnOk result (AllRun self.new) }
        ensures members { OnOk result ((book_of self.new).members ≡ (book_of self.old).members) }
        ensures legal { OnErr result (IsLegalBook table.now (book_of self.new)) }
    {
        'rounds: for _round in 0..4u8 {
            if self.is_quiet(table, who, at) {
                return Ok(());
            }
            self.drain_round(table, who, at)?;
        }
        Ok(())
    }

    // Rounds of a drain until the one that leads is idle.
    fn drain_until_idle(&mut self, table: &JobTable, who: u8, at: Minute) -> Result<(), OutOfMemory>
        requires given { IsFaultlessIn D.view table.now (λ members situation. LeadsNow members table.now who situation) self.old }
        requires run { AllRun self.old }
        requires member { who < length self.old.members.items }
        requires inside { IsInWindow table.now.window at.0 }
        ensures goes { OnOk result (GoesOnBy D.view table.now (DrainsOn (book_of self.old).members table.now who at.0) self.old self.new) }
        ensures given { OnOk result (IsFaultlessIn D.view table.now (λ members situation. HasBeenIdleFor 0 members table.now who at.0 situation) self.new) }
        ensures run { OnOk result (AllRun self.new) }
        ensures members { OnOk result ((book_of self.new).members ≡ (book_of self.old).members) }
        ensures legal { OnErr result (IsLegalBook table.now (book_of self.new)) }
    {
        'rounds: while !self.is_idle(table, who, at) {
            self.drain_round(table, who, at)?;
        }
        Ok(())
    }

    // Rounds of a drain until all have caught up with the one that leads and is idle: five at most.
    fn drain_until_caught_up(
        &mut self,
        table: &JobTable,
        who: u8,
        at: Minute,
    ) -> Result<(), OutOfMemory>
        requires given { IsFaultlessIn D.view table.now (λ members situation. HasBeenIdleFor 0 members table.now who at.0 situation) self.old }
        requires run { AllRun self.old }
        requires member { who < length self.old.members.items }
        requires inside { IsInWindow table.now.window at.0 }
        ensures goes { OnOk result (GoesOnBy D.view table.now (Drains (book_of self.old).members table.now who at.0) self.old self.new) }
        ensures given { OnOk result (IsFaultlessIn D.view table.now (λ members situation. LeadsNow members table.now who situation) self.new) }
        ensures run { OnOk result (AllRun self.new) }
        ensures members { OnOk result ((book_of self.new).members ≡ (book_of self.old).members) }
        ensures legal { OnErr result (IsLegalBook table.now (book_of self.new)) }
    {
        'rounds: for _round in 0..6u8 {
            if self.is_quiet(table, who, at) {
                return Ok(());
            }
            self.drain_round(table, who, at)?;
        }
        unreachable!()
    }

    // Rounds of a drain until it is quiet, where the replica leads.
    pub(crate) fn drain(&mut self, table: &JobTable, who: u8, at: Minute) -> Result<(), OutOfMemory>
        requires given { IsFaultlessIn D.view table.now (λ members situation. LeadsNow members table.now who situation) self.old }
        requires run { AllRun self.old }
        requires member { who < length self.old.members.items }
        requires inside { IsInWindow table.now.window at.0 }
        ensures goes { OnOk result (GoesOnBy D.view table.now (Drains (book_of self.old).members table.now who at.0) self.old self.new) }
        ensures given { OnOk result (IsFaultlessIn D.view table.now (λ members situation. LeadsNow members table.now who situation) self.new) }
        ensures run { OnOk result (AllRun self.new) }
        ensures members { OnOk result ((book_of self.new).members ≡ (book_of self.old).members) }
        ensures legal { OnErr result (IsLegalBook table.now (book_of self.new)) }
    {
        self.drain_until_idle(table, who, at)?;
        self.drain_until_caught_up(table, who, at)
    }

    // Settles, and tells which replica leads.
    pub(crate) fn settle_led(&mut self, table: &JobTable, at: Minute) -> Result<u8, OutOfMemory>
        requires world { IsWorld D.view table.now self.old }
        requires some { 0 < (book_of self.old).members }
        requires inside { IsInWindow table.now.window at.0 }
        ensures goes { OnOk result (GoesOnBy D.view table.now (Settles (book_of self.old).members table.now at.0) self.old self.new) }
        ensures leads { IfOk result (λ who. (situation : Situation) → IsIn D.view table.now self.old situation
            → who ≡ coordinator (book_of self.old).members situation) }
        ensures given { IfOk result (λ who. IsFaultlessIn D.view table.now (λ members situation. LeadsNow members table.now who situation) self.new) }
        ensures member { IfOk result (λ who. who < length self.new.members.items) }
        ensures run { OnOk result (AllRun self.new) }
        ensures members { OnOk result ((book_of self.new).members ≡ (book_of self.old).members) }
        ensures legal { OnErr result (IsLegalBook table.now (book_of self.new)) }
    {
        self.start_over(table)?;
        let who = self.coordinator(table);
        self.lead(table, who)?;
        check_bounds(&self.book)?;
        self.drain_until_led(table, who, at)?;
        self.drain(table, who, at)?;
        Ok(who)
    }

    /// Settles at an instant: all start that are stopped, faults end, the replica that has learned the most stands for leader,
    /// and rounds follow until it is quiet.
    ///
    /// # Errors
    ///
    /// Want of memory. The world takes no more calls then, and its book is legal.
    pub fn settle(&mut self, table: &JobTable, at: Minute) -> Result<(), OutOfMemory>
        requires world { IsWorld D.view table.now self.old }
        requires some { 0 < (book_of self.old).members }
        requires inside { IsInWindow table.now.window at.0 }
        ensures goes { OnOk result (GoesOnBy D.view table.now (Settles (book_of self.old).members table.now at.0) self.old self.new) }
        ensures bounded { OnOk result (IsBookBounded (book_of self.new)) }
        ensures members { OnOk result ((book_of self.new).members ≡ (book_of self.old).members) }
        ensures legal { OnErr result (IsLegalBook table.now (book_of self.new)) }
    {
        self.settle_led(table, at)?;
        Ok(())
    }
}
