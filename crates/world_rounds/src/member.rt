//! A replica of a world.
ghost use Rattle.std.specs.Prelude.{◌≡◌, true, OnOk};
ghost use Rattle.step_spec.specs.State.{prefix_of};
ghost use Rattle.replica_node.specs.Node.{replica_of};
ghost use Rattle.zone_minutes.specs.Window.{IsInWindow};
ghost use Rattle.world_rounds.specs.Campaigns.{TakesCampaign};
ghost use Rattle.world_rounds.specs.Rounds.{MayTakeRound, RunsRound, TakesRound};

use crate::steps::{hear_letters, keep_step, take_answer};
use cron_io::OutOfMemory;
use disk_model::Disk;
use due_set::JobTable;
use history::Cause;
use replica_core::Input;
use replica_node::Node;
use world_law::Book;
use world_steps::{MemberMail, Taken, reading_of};
use zone_minutes::Minute;

/// A replica: its node, also while it is stopped, its mail, the steps that it has taken since its last turn, and whether want
/// of memory has ended its steps in lanes.
#[derive(Debug, Drop)]
pub(crate) struct Member<D> {
    pub(crate) node: Node<D>,
    pub(crate) mail: MemberMail,
    pub(crate) steps: Vec<Taken>,
    pub(crate) short: bool,
}

impl<D: Disk> Member<D> {
    // The first slot whose entry it has not learned.
    pub(crate) fn prefix(&self) -> u64
        ensures { result ≡ prefix_of (replica_of self.now.node).state }
    {
        self.node.replica().prefix()
    }

    // It stands for leader.
    pub(crate) fn take_campaign(&mut self, table: &JobTable, book: &Book) -> Result<(), OutOfMemory>
        requires runs { self.old.mail.runs ≡ true }
        requires may { MayTakeRound D.view table.now book.now self.old }
        ensures takes { OnOk result (TakesCampaign D.view table.now book.now self.old self.new) }
    {
        keep_step(
            &mut self.node,
            &mut self.steps,
            table,
            book,
            Cause::Campaign,
            Input::Campaign,
        )?;
        Ok(())
    }

    // Where it runs, takes its steps of a round: it takes the answer that waits for it, hears its mail, and its clock ticks.
    pub(crate) fn take_round(
        &mut self,
        table: &JobTable,
        book: &Book,
        at: Minute,
    ) -> Result<(), OutOfMemory>
        requires inside { IsInWindow table.now.window at.0 }
        requires may { MayTakeRound D.view table.now book.now self.old }
        ensures takes { OnOk result (TakesRound D.view table.now book.now at.0 self.old self.new) }
    {
        if !self.mail.runs {
            return Ok(());
        }
        take_answer(
            &mut self.node,
            &mut self.steps,
            table,
            book,
            self.mail.waits,
        )?;
        hear_letters(
            &mut self.node,
            &mut self.steps,
            table,
            book,
            self.mail.letters.make_contiguous(),
        )?;
        self.mail.letters.clear();
        let now = reading_of(&self.mail, table.window(), at);
        keep_step(
            &mut self.node,
            &mut self.steps,
            table,
            book,
            Cause::Tick { now },
            Input::Tick { now },
        )?;
        Ok(())
    }

    // Takes its steps of a round, and notes whether want of memory ends them.
    pub(crate) fn run_round(&mut self, table: &JobTable, book: &Book, at: Minute)
        requires inside { IsInWindow table.now.window at.0 }
        requires may { MayTakeRound D.view table.now book.now self.old }
        ensures runs { RunsRound D.view table.now book.now at.0 self.old self.new }
    {
        match self.take_round(table, book, at) {
            Ok(()) => self.short = false,
            Err(_) => self.short = true,
        }
    }
}
