//! The turns that a replay has to take next, as lists.
ghost use Rattle.std.specs.Prelude.{◌≡◌, ◌<◌, ◌++◌, ◌∷◌, ◌&&◌, [], IfOk, OnOk, if◌then◌else◌, length, nat_lt, not};
ghost use Rattle.due_set.specs.Table.{Table};
ghost use Rattle.zone_minutes.specs.Window.{IsInWindow, IsWithinLimits};
ghost use Rattle.history.specs.declared.turn.Cause.TheVariants as cause;
ghost use Rattle.script_text.specs.Command.{IsInRange};
ghost use Rattle.script_semantics.specs.Commands.{has_number, tasks_for};
ghost use Rattle.script_semantics.specs.Round.{answer_tasks, clock_reading, hear_tasks, round_tasks, tasks_of};
ghost use Rattle.script_semantics.specs.Settling.{restart_tasks};
ghost use Rattle.script_semantics.specs.Situation.{Do, Restart};
ghost use Rattle.run_replay.specs.Tasks.{standing_tasks, AreAsked, JoinAsked, follows_in, is_follower, tasks_in};
ghost use Rattle.run_replay.specs.Replay.{IsInSituation};

use crate::replay::{Replay, Seat};
use cluster_sched::SchedRow;
use cron_io::OutOfMemory;
use due_set::JobTable;
use history::Cause;
use script_text::Command;
use std::alloc::Global;
use std::collections::VecDeque;
use term_core::Term;
use world_law::Book;
use zone_minutes::{Minute, Window};

/// A turn that is to be taken, but for what comes of it.
#[derive(Clone, Copy, Debug, PartialEq, Eq)]
pub enum Task {
    Do { who: u8, cause: Cause },
    Stop { who: u8 },
    Restart { who: u8 },
    Arrive { late: u32 },
}

// The task alone, where it is asked for.
fn one_if(alloc: Global, asked: bool, task: Task) -> Result<Vec<Task>, OutOfMemory>
    ensures { IfOk result (λ tasks. tasks.items ≡ (if asked then task ∷ [] else [])) }
{
    let mut tasks = Vec::new(alloc);
    if !asked {
        return Ok(tasks);
    }
    tasks.push(task)?;
    Ok(tasks)
}

/// What a clock reads that is so many minutes ahead, held within the window.
pub fn reading_of(skew: i64, window: Window, at: Minute) -> Minute
    requires limits { IsWithinLimits window }
    requires inside { IsInWindow window at.0 }
    ensures { result ≡ clock_reading window at.0 skew }
{
    let last = window.until.0 - 1;
    Minute(at.0.saturating_add(skew).min(last).max(window.from.0))
}

// An answer that waits for a replica is taken.
fn add_answer(tasks: &mut Vec<Task>, who: u8, waits: Option<SchedRow>) -> Result<(), OutOfMemory>
    ensures { OnOk result (tasks_in tasks.new.items ≡ tasks_in tasks.old.items ++ answer_tasks who waits) }
{
    match waits {
        None => Ok(()),
        Some(_) => {
            tasks.push(Task::Do {
                who,
                cause: Cause::Answer,
            })?;
            Ok(())
        }
    }
}

// The letters of a mail are heard, in order.
fn add_letters(tasks: &mut Vec<Task>, who: u8, mail: &VecDeque<u64>) -> Result<(), OutOfMemory>
    ensures { OnOk result (tasks_in tasks.new.items ≡ tasks_in tasks.old.items ++ hear_tasks who mail.now.items) }
{
    'letters: for place in 0..mail.len() {
        let cause = Cause::Hear {
            letter: mail[place],
        };
        tasks.push(Task::Do { who, cause })?;
    }
    Ok(())
}

// Whether a late call of this number has not arrived.
fn may_arrive(book: &Book, late: u32) -> bool
    ensures { result ≡ (nat_lt late (length book.now.ledger.late) && not (has_number late book.now.arrived)) }
{
    (late as usize) < book.ledger().late().len() && !book.arrived().contains(&late)
}

// Whether a term is none.
fn is_follower(term: &Term) -> bool
    ensures { result ≡ is_follower term.now }
{
    match term {
        Term::Follower { .. } => true,
        Term::Candidate { .. } => false,
        Term::Leader { .. } => false,
    }
}

impl Seat {
    // Whether the replica follows. One that is stopped follows as it starts.
    fn follows(&self) -> bool
        ensures { result ≡ follows_in self.now }
    {
        match &self.replica {
            None => true,
            Some(replica) => is_follower(replica.term()),
        }
    }
}

impl Replay {
    // What a replica does in a round, where it runs, behind other tasks.
    fn add_round(
        &self,
        tasks: &mut Vec<Task>,
        window: Window,
        at: Minute,
        who: u8,
    ) -> Result<(), OutOfMemory>
        requires limits { IsWithinLimits window }
        requires inside { IsInWindow window at.0 }
        requires seat { who < length self.now.seats.items }
        requires setting { who < length self.now.settings.items }
        ensures { OnOk result (JoinAsked (λ situation. tasks_of window at.0 situation who) self.now tasks.old.items tasks.new.items) }
    {
        if !self.seats[who as usize].runs() {
            return Ok(());
        }
        let setting = &self.settings[who as usize];
        add_answer(tasks, who, setting.waits)?;
        add_letters(tasks, who, &setting.mail)?;
        let now = reading_of(setting.skew, window, at);
        tasks.push(Task::Do {
            who,
            cause: Cause::Tick { now },
        })?;
        Ok(())
    }

    // A replica that is stopped starts again, behind other tasks.
    fn add_restart(&self, tasks: &mut Vec<Task>, who: u8) -> Result<(), OutOfMemory>
        requires seat { who < length self.now.seats.items }
        ensures { OnOk result (JoinAsked (λ situation. if situation.standing.runs who then [] else Restart who ∷ []) self.now tasks.old.items tasks.new.items) }
    {
        if self.seats[who as usize].runs() {
            return Ok(());
        }
        tasks.push(Task::Restart { who })?;
        Ok(())
    }

    /// What all do in a round at an instant.
    ///
    /// # Errors
    ///
    /// Want of memory.
    pub fn round_tasks(&self, table: &JobTable, at: Minute) -> Result<Vec<Task>, OutOfMemory>
        requires ready { IsInSituation table.now self.now }
        requires inside { IsInWindow table.now.window at.0 }
        ensures { IfOk result (λ tasks. AreAsked (round_tasks self.now.book.members table.now.window at.0) self.now tasks.items) }
    {
        let window = table.window();
        let mut tasks: Vec<Task> = Vec::new(self.alloc);
        'members: for who in 0..self.seats.len() as u8 {
            self.add_round(&mut tasks, window, at, who)?;
        }
        Ok(tasks)
    }

    /// All that are stopped start again.
    ///
    /// # Errors
    ///
    /// Want of memory.
    pub fn restart_tasks(&self) -> Result<Vec<Task>, OutOfMemory>
        requires ready { (table : Table) × IsInSituation table self.now }
        ensures { IfOk result (λ tasks. AreAsked (restart_tasks self.now.book.members) self.now tasks.items) }
    {
        let mut tasks: Vec<Task> = Vec::new(self.alloc);
        'members: for who in 0..self.seats.len() as u8 {
            self.add_restart(&mut tasks, who)?;
        }
        Ok(tasks)
    }

    /// A replica stands for leader where it follows.
    ///
    /// # Errors
    ///
    /// Want of memory.
    pub fn standing_tasks(&self, who: u8) -> Result<Vec<Task>, OutOfMemory>
        requires member { who < length self.now.seats.items }
        ensures { IfOk result (λ tasks. AreAsked (standing_tasks who) self.now tasks.items) }
    {
        let cause = Cause::Campaign;
        let follows = self.seats[who as usize].follows();
        one_if(self.alloc, follows, Task::Do { who, cause })
    }

    /// A replica stands for leader.
    ///
    /// # Errors
    ///
    /// Want of memory.
    pub fn campaign_task(&self, who: u8) -> Result<Vec<Task>, OutOfMemory>
        ensures { IfOk result (λ tasks. AreAsked (λ situation. Do who cause.Campaign ∷ []) self.now tasks.items) }
    {
        let cause = Cause::Campaign;
        one_if(self.alloc, true, Task::Do { who, cause })
    }

    /// The turn that a command asks for, where it asks for one.
    ///
    /// # Errors
    ///
    /// Want of memory.
    pub fn tasks_for(&self, table: &JobTable, command: &Command) -> Result<Vec<Task>, OutOfMemory>
        requires ready { IsInSituation table.now self.now }
        requires range { IsInRange self.now.book.members table.now.window command.now }
        ensures { IfOk result (λ tasks. AreAsked (tasks_for command.now) self.now tasks.items) }
    {
        match *command {
            Command::Campaign { member } => {
                let runs = self.seats[member as usize].runs();
                let cause = Cause::Campaign;
                one_if(self.alloc, runs, Task::Do { who: member, cause })
            }
            Command::Stop { member } => {
                let runs = self.seats[member as usize].runs();
                one_if(self.alloc, runs, Task::Stop { who: member })
            }
            Command::Restart { member } => {
                let runs = self.seats[member as usize].runs();
                one_if(self.alloc, !runs, Task::Restart { who: member })
            }
            Command::Arrive { late } => {
                let may = may_arrive(&self.book, late);
                one_if(self.alloc, may, Task::Arrive { late })
            }
            _ => Ok(Vec::new(self.alloc)),
        }
    }
}
