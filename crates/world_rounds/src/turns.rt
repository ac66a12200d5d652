//! Turns join a book.
ghost use Rattle.std.specs.Prelude.{◌≡◌, ◌<◌, ◌∷◌, List, [], OnOk, OnErr, length};
ghost use Rattle.world_law.specs.Book.{IsLegalBook};
ghost use Rattle.world_steps.specs.declared.steps.Taken.{Taken as Step};
ghost use Rattle.world_rounds.specs.Taking.{TakesTurns, CommitsOwn, KeepsSteps, MayCommit, MayCommitOwn, PutsDown};
ghost use Rattle.world_rounds.specs.World.{book_of};

use crate::world::World;
use cron_io::OutOfMemory;
use disk_model::Disk;
use due_set::JobTable;
use std::mem;
use world_steps::{Taken, calls_to_save, commit_step, note_step, reading_with};

impl<D: Disk> World<D> {
    // The turn of a replica's step joins the book.
    #[inline(always)]
    pub(crate) fn commit_taken(
        &mut self,
        table: &JobTable,
        who: u8,
        taken: Taken,
    ) -> Result<(), OutOfMemory>
        requires may { (more : List Step) × MayCommit D.view table.now self.old who (taken ∷ more) }
        ensures did { OnOk result ((more : List Step) → TakesTurns D.view table.now who (taken ∷ []) more self.old self.new) }
        ensures steps { OnOk result (KeepsSteps self.old self.new) }
        ensures legal { OnErr result (IsLegalBook table.now (book_of self.new)) }
    {
        let cause = taken.cause;
        let fate = self.members[who as usize].mail.fate;
        let calls = calls_to_save(&taken.out.delta);
        let call = commit_step(&mut self.book, table, who, taken, fate)?;
        note_step(&mut self.members[who as usize].mail, call, calls);
        self.latest = reading_with(cause, self.latest);
        Ok(())
    }

    // The turns of some steps of a replica join the book.
    fn commit_list(
        &mut self,
        table: &JobTable,
        who: u8,
        steps: Vec<Taken>,
    ) -> Result<(), OutOfMemory>
        requires may { MayCommit D.view table.now self.old who steps.items }
        ensures did { OnOk result (TakesTurns D.view table.now who steps.items [] self.old self.new) }
        ensures steps { OnOk result (KeepsSteps self.old self.new) }
        ensures legal { OnErr result (IsLegalBook table.now (book_of self.new)) }
    {
        'steps: for taken in steps {
            self.commit_taken(table, who, taken)?;
        }
        Ok(())
    }

    // The turns of the steps that a replica has taken join the book.
    pub(crate) fn commit_steps(&mut self, table: &JobTable, who: u8) -> Result<(), OutOfMemory>
        requires may { MayCommitOwn D.view table.now self.old }
        requires member { who < length self.old.members.items }
        ensures did { OnOk result (CommitsOwn D.view table.now who self.old self.new) }
        ensures puts { OnOk result (PutsDown who self.old self.new) }
        ensures legal { OnErr result (IsLegalBook table.now (book_of self.new)) }
    {
        let steps = mem::replace(&mut self.members[who as usize].steps, Vec::new(self.alloc));
        self.commit_list(table, who, steps)?;
        Ok(())
    }
}
