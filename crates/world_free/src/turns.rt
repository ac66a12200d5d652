//! The turns of one thread.
ghost use Rattle.std.specs.Prelude.{◌≡◌, ◌+◌, ◌<◌, ◌≤◌, ℕ, false, IfOk, OnOk, Option, is_some};
ghost use Rattle.script_semantics.specs.Situation.{Situation as Here};
ghost use Rattle.status_board.specs.Writing.{Writing};
ghost use Rattle.world_free.specs.Board.{HasShown, MayShowOn, OnBoard, TakesOneTurn};
ghost use Rattle.world_free.specs.Jobs.{HasTried, IsBroken, IsJobAt, IsRunner, IsStepper, IsStopper};
ghost use Rattle.world_free.specs.Mails.{IsToldHere};
ghost use Rattle.world_free.specs.Plan.{SharedBook, plan_of};
ghost use Rattle.zone_minutes.specs.Window.{IsInWindow};

use crate::gate::TurnGate;
use crate::job::{FreeJob, FreeMail, Setting};
use crate::next::next_cause;
use crate::ready::{MOST_TURNS, make_ready};
use crate::show::show_on;
use cron_io::OutOfMemory;
use disk_model::ArmedDisk;
use due_set::JobTable;
use history::{Cause, Turn};
use paxos_base::Delta;
use replica_core::Input;
use status_board::BoardWriter;
use std::sync::Wait;
use turn_book::TurnBook;
use world_law::{Book, BookRow};
use world_steps::{Outcome, Taken, calls_to_save, change_alone, note_step, note_stop, take_by_arm};

// By which input a replica is told of a cause.
fn input_for(mail: &FreeMail, cause: Cause) -> Input<'_>
    ensures told { IsToldHere mail.entry.now cause result }
{
    match cause {
        Cause::Campaign => Input::Campaign,
        Cause::Tick { now } => Input::Tick { now },
        Cause::Hear { .. } => Input::Hear {
            bytes: mail.bytes.as_slice(),
        },
        Cause::Answer => match mail.mail.waits {
            Some(row) => Input::Answer {
                job: row.name.job,
                at: row.name.at,
                kind: row.kind,
            },
            None => Input::Campaign,
        },
    }
}

impl<D: ArmedDisk> FreeJob<D> {
    // The replica takes the step of its next turn, beside the book: it decodes, and its change is saved, or its disk stops within that.
    fn step(
        &mut self,
        table: &JobTable,
        setting: &Setting,
        who: u8,
        turn: u32,
    ) -> Result<(Cause, Outcome), OutOfMemory>
        requires inside { IsInWindow table.now.window setting.now.at.0 }
        requires may { (book : SharedBook) × (situation : Here)
            × IsRunner D.view (plan_of table.now book situation setting.now) book who turn self.old }
        requires left { turn < setting.now.turns }
        ensures steps { IfOk result (λ tried. (book : SharedBook) (situation : Here)
            → IsRunner D.view (plan_of table.now book situation setting.now) book who turn self.old
            → HasTried D.view (plan_of table.now book situation setting.now) book who turn tried.0 tried.1 self.new) }
        ensures seat { self.new.seat ≡ self.old.seat }
    {
        let cause = next_cause(
            &self.mail.mail,
            self.node.replica().term(),
            table.window(),
            setting.at,
            who,
            turn,
        );
        let arm = self.mail.mail.arm;
        let input = input_for(&self.mail, cause);
        let ended = take_by_arm(
            &mut self.node,
            setting.alloc,
            table,
            who,
            setting.members,
            arm,
            MOST_TURNS,
            cause,
            input,
        )?;
        Ok((cause, ended))
    }

    // The step becomes a turn in a turn of the seat, with the call that the step asks for.
    fn commit<R: Wait>(
        &mut self,
        rt: &R,
        book: &TurnBook<Book>,
        table: &JobTable,
        setting: &Setting,
        who: u8,
        taken: Taken,
    ) -> Result<(), OutOfMemory>
        requires may { (situation : Here) × (turn : ℕ)
            × IsStepper D.view (plan_of table.now book.now situation setting.now) book.now who turn taken self.old }
        ensures goes { OnOk result ((situation : Here) (turn : ℕ)
            → IsStepper D.view (plan_of table.now book.now situation setting.now) book.now who turn taken self.old
            → IsRunner D.view (plan_of table.now book.now situation setting.now) book.now who (turn + 1) self.new) }
        ensures one { OnOk result (TakesOneTurn book.now who self.old.seat self.new.seat) }
    {
        let mut turn = book.enter(rt, &mut self.seat);
        match make_ready(
            turn.state(),
            table,
            &setting.cuts,
            who,
            &taken,
            &mut self.mail,
        ) {
            Ok(call) => {
                let Taken { cause, out } = taken;
                let calls = calls_to_save(&out.delta);
                let did = Turn::Did { who, cause, call };
                turn.commit(table, BookRow { turn: did, out });
                note_step(&mut self.mail.mail, call, calls);
                Ok(())
            }
            Err(full) => {
                turn.leave();
                Err(full)
            }
        }
    }

    // The stop becomes a turn in a turn of the seat, with the change that was kept. It posts no letter.
    fn commit_stop<R: Wait>(
        &mut self,
        rt: &R,
        book: &TurnBook<Book>,
        table: &JobTable,
        setting: &Setting,
        who: u8,
        cause: Cause,
        change: Option<Delta>,
    ) -> Result<(), OutOfMemory>
        requires may { (situation : Here) × (turn : ℕ)
            × IsStopper D.view (plan_of table.now book.now situation setting.now)
            book.now who turn cause change self.old }
        ensures stops { OnOk result ((situation : Here) (turn : ℕ)
            → IsStopper D.view (plan_of table.now book.now situation setting.now) book.now who turn cause change self.old
            → IsBroken D.view (plan_of table.now book.now situation setting.now) book.now who self.new) }
        ensures one { OnOk result (TakesOneTurn book.now who self.old.seat self.new.seat) }
    {
        let kept = change.is_some();
        let out = change_alone(setting.alloc, change);
        let mut turn = book.enter(rt, &mut self.seat);
        match turn.state().reserve(&out) {
            Ok(()) => {
                let stopped = Turn::Stopped {
                    who,
                    cause: Some(cause),
                    kept,
                };
                turn.commit(table, BookRow { turn: stopped, out });
                note_stop(&mut self.mail.mail);
                Ok(())
            }
            Err(full) => {
                turn.leave();
                Err(full)
            }
        }
    }

    // Takes its next turn: the step beside the book, and then its turn, or that of the stop within the step.
    fn take_turn<R: Wait>(
        &mut self,
        rt: &R,
        book: &TurnBook<Book>,
        table: &JobTable,
        setting: &Setting,
        who: u8,
        turn: u32,
    ) -> Result<(), OutOfMemory>
        requires inside { IsInWindow table.now.window setting.now.at.0 }
        requires may { (situation : Here)
            × IsRunner D.view (plan_of table.now book.now situation setting.now) book.now who turn self.old }
        requires left { turn < setting.now.turns }
        ensures goes { OnOk result ((situation : Here)
            → IsRunner D.view (plan_of table.now book.now situation setting.now) book.now who turn self.old
            → IsJobAt D.view (plan_of table.now book.now situation setting.now) book.now who (turn + 1) self.new) }
        ensures one { OnOk result (TakesOneTurn book.now who self.old.seat self.new.seat) }
    {
        let (cause, ended) = self.step(table, setting, who, turn)?;
        match ended {
            Outcome::Taken(taken) => self.commit(rt, book, table, setting, who, taken),
            Outcome::Stopped(change) => {
                self.commit_stop(rt, book, table, setting, who, cause, change)
            }
        }
    }

    // And then shows what the replica has learned by it, where there is a board.
    fn take_and_show<R: Wait>(
        &mut self,
        rt: &R,
        book: &TurnBook<Book>,
        table: &JobTable,
        setting: &Setting,
        who: u8,
        turn: u32,
        board: &mut Option<BoardWriter>,
    ) -> Result<(), OutOfMemory>
        requires inside { IsInWindow table.now.window setting.now.at.0 }
        requires may { (situation : Here)
            × IsRunner D.view (plan_of table.now book.now situation setting.now) book.now who turn self.old }
        requires left { turn < setting.now.turns }
        requires may_show { MayShowOn table.now board.old }
        ensures goes { OnOk result ((situation : Here)
            → IsRunner D.view (plan_of table.now book.now situation setting.now) book.now who turn self.old
            → IsJobAt D.view (plan_of table.now book.now situation setting.now) book.now who (turn + 1) self.new) }
        ensures may_show { OnOk result (MayShowOn table.now board.new) }
        ensures shows { OnOk result ((situation : Here) (first : Option Writing)
            → IsRunner D.view (plan_of table.now book.now situation setting.now) book.now who turn self.old
            → OnBoard (HasShown (plan_of table.now book.now situation setting.now) book.now who self.old.seat) first board.old
            → OnBoard (HasShown (plan_of table.now book.now situation setting.now) book.now who self.new.seat) first board.new) }
        ensures stays { is_some board.new ≡ is_some board.old }
    {
        self.take_turn(rt, book, table, setting, who, turn)?;
        show_on(rt, setting.alloc, table, self.node.replica(), board)
    }

    // Takes its turns one after another, as long as it runs and there is memory.
    pub(crate) fn run<R: Wait, G: TurnGate>(
        &mut self,
        rt: &R,
        book: &TurnBook<Book>,
        gate: &G,
        table: &JobTable,
        setting: &Setting,
        who: usize,
        board: &mut Option<BoardWriter>,
    )
        requires small { who < 7 }
        requires inside { IsInWindow table.now.window setting.now.at.0 }
        requires may { (situation : Here)
            × IsJobAt D.view (plan_of table.now book.now situation setting.now) book.now who 0 self.old }
        requires has_memory { self.old.short ≡ false }
        requires may_show { MayShowOn table.now board.old }
        ensures runs { self.new.short ≡ false → (situation : Here)
            → IsJobAt D.view (plan_of table.now book.now situation setting.now) book.now who 0 self.old
            → IsJobAt D.view (plan_of table.now book.now situation setting.now) book.now who setting.now.turns self.new }
        ensures may_show { self.new.short ≡ false → MayShowOn table.now board.new }
        ensures shows { self.new.short ≡ false → (situation : Here) (first : Option Writing)
            → IsJobAt D.view (plan_of table.now book.now situation setting.now) book.now who 0 self.old
            → OnBoard (HasShown (plan_of table.now book.now situation setting.now) book.now who self.old.seat) first board.old
            → OnBoard (HasShown (plan_of table.now book.now situation setting.now) book.now who self.new.seat) first board.new }
        ensures stays { is_some board.new ≡ is_some board.old }
    {
        'turns: for turn in 0..setting.turns {
            if !self.mail.mail.runs {
                return;
            }
            gate.pass(who as u8, turn);
            match self.take_and_show(rt, book, table, setting, who as u8, turn, board) {
                Ok(()) => {}
                Err(_) => {
                    self.short = true;
                    return;
                }
            }
        }
    }

    // So does one behind the first, for which there is no board.
    pub(crate) fn run_behind<R: Wait, G: TurnGate>(
        &mut self,
        rt: &R,
        book: &TurnBook<Book>,
        gate: &G,
        table: &JobTable,
        setting: &Setting,
        place: usize,
    )
        requires small { place < 6 }
        requires inside { IsInWindow table.now.window setting.now.at.0 }
        requires may { (situation : Here)
            × IsJobAt D.view (plan_of table.now book.now situation setting.now) book.now (place + 1) 0 self.old }
        requires has_memory { self.old.short ≡ false }
        ensures runs { self.new.short ≡ false → (situation : Here)
            → IsJobAt D.view (plan_of table.now book.now situation setting.now) book.now (place + 1) 0 self.old
            → IsJobAt D.view (plan_of table.now book.now situation setting.now) book.now (place + 1) setting.now.turns self.new }
    {
        let mut none = None;
        self.run(rt, book, gate, table, setting, place + 1, &mut none);
        let None = none else { unreachable!() };
    }
}
