//! Which turn a line tells, and whether it may come next: its replica takes it, and its call is made. So a replay is spoilt where the
//! line is refused.
ghost use Rattle.std.specs.Prelude.{◌≡◌, ◌⊎◌, ◌<◌, ◌≤◌, List, IfSome, IfNone, IfOk, length, not};
ghost use Rattle.std.specs.Option.{option_to_list};
ghost use Rattle.history.specs.Book.{Row};
ghost use Rattle.history.specs.Legal.{IsEventOfCause};
ghost use Rattle.journal_line.specs.Told.{ArrivalLine, TurnLine, CallTurn, DidTurn, RestartTurn, StopTurn, StopWithinTurn, told_call, told_line, told_turn};
ghost use Rattle.journal_line.specs.declared.line.Count.TheVariants.{Number};
ghost use Rattle.journal_text.specs.Line.{told_cause};
ghost use Rattle.replica_core.specs.Commit.{kept_after};
ghost use Rattle.step_spec.specs.State.{started};
ghost use Rattle.step_spec.specs.Step.{Event};
ghost use Rattle.world_law.specs.Book.{StandsBehind, standing_behind};
ghost use Rattle.world_law.specs.Replicas.{IsInputOf, change_alone};
ghost use Rattle.replica_core.specs.Step.{IsInputInside, IsOfTable, Steps};
ghost use Rattle.run_replay.specs.Judged.{ChangesNothing, IsFaulty, Judges, MayHaveStepped, WouldChange, changes_with, kept_change};
ghost use Rattle.run_replay.specs.Replay.{IsInSituation};

use crate::copies::{copy_of, copy_of_kept};
use crate::replay::Replay;
use crate::words::{cause_of, fate_told, is_answer_told, member_of};
use cluster_sched::SchedRow;
use cron_io::OutOfMemory;
use due_set::JobTable;
use history::{Cause, Turn};
use journal_line::{CallWords, Count, JournalLine, TurnWords};
use launch_machine::table_size;
use paxos_base::{Delta, Durable};
use replica_core::{Input, LearntList, LetterList, Replica, StepFault, StepOut};
use std::alloc::Global;
use world_law::Book;
use zone_minutes::Minute;

/// A turn that may come next, and what comes of it.
#[derive(Debug, Drop)]
pub struct Judged {
    pub turn: Turn,
    pub out: StepOut,
    /// The change that a stop within the step has lost, where it has.
    pub lost: Option<Delta>,
}

// What comes of a turn that is no step: the change that was kept, where one was. It takes no memory.
fn change_alone(alloc: Global, change: Option<Delta>) -> StepOut
    ensures { result ≡ change_alone change }
{
    StepOut {
        delta: change,
        letters: LetterList {
            items: Vec::new(alloc),
        },
        learnt: LearntList {
            items: Vec::new(alloc),
        },
        call: None,
    }
}

// What a replica is told of a cause, where it may have a turn for that: the answer that waits for it is this.
fn input_of<'a>(
    book: &'a Book,
    table: &JobTable,
    waits: Option<SchedRow>,
    who: u8,
    cause: Cause,
) -> Option<Input<'a>>
    ensures inside { IfSome result (IsInputInside table.now) }
    ensures is { (rows : List Row) → StandsBehind table.now rows book.now → waits ≡ (standing_behind table.now rows book.now).waits who
        → IfSome result (IsInputOf (standing_behind table.now rows book.now) book.now who cause) }
    ensures none { (rows : List Row) → StandsBehind table.now rows book.now → waits ≡ (standing_behind table.now rows book.now).waits who
        → IfNone result ((event : Event) → IsEventOfCause book.now.members table.now (standing_behind table.now rows book.now) who cause event → ⊥) }
{
    match cause {
        Cause::Campaign => Some(Input::Campaign),
        Cause::Tick { now } => {
            if table.window().contains(now) {
                Some(Input::Tick { now })
            } else {
                None
            }
        }
        Cause::Hear { letter } => match book.letters().get(letter as usize) {
            Some(row) if row.to == who => Some(Input::Hear {
                bytes: row.bytes.bytes(),
            }),
            _ => None,
        },
        Cause::Answer => match waits {
            Some(row) => Some(Input::Answer {
                job: row.name.job,
                at: row.name.at,
                kind: row.kind,
            }),
            None => None,
        },
    }
}

// Lets a replica take its step, and keeps what it keeps. None where the bytes that it is told are no letter.
fn step_replica(
    replica: &mut Replica,
    kept: &mut Durable,
    table: &JobTable,
    input: Input<'_>,
) -> Result<Option<StepOut>, OutOfMemory>
    requires of_table { IsOfTable table.now replica.old }
    requires inside { IsInputInside table.now input }
    requires keeps { kept.old ≡ replica.old.state.kept }
    ensures steps { IfOk result (λ found. IfSome found (λ out. Steps table.now input.entry replica.old replica.new out)) }
    ensures keeps { IfOk result (λ found. IfSome found (λ out. kept.new ≡ replica.new.state.kept)) }
    ensures none { IfOk result (λ found. IfNone found (IsFaulty replica.old.identity.members input.entry)) }
{
    // No replica of fewer than 2^31 turns is larger.
    if !replica.is_small() {
        return Err(OutOfMemory);
    }
    let out = match replica.step(table, input) {
        Ok(out) => out,
        Err(StepFault::Letter(_)) => return Ok(None),
        Err(StepFault::OutOfMemory) => return Err(OutOfMemory),
    };
    match &out.delta {
        Some(change) => kept.apply(copy_of(change)?)?,
        None => {}
    }
    Ok(Some(out))
}

// What a step would change of what a replica keeps. None where it changes nothing, or the bytes that it is told are no letter.
fn change_of(
    replica: &mut Replica,
    table: &JobTable,
    input: Input<'_>,
) -> Result<Option<Delta>, OutOfMemory>
    requires of_table { IsOfTable table.now replica.old }
    requires inside { IsInputInside table.now input }
    ensures some { IfOk result (λ found. IfSome found (WouldChange table.now input.entry replica.old)) }
    ensures none { IfOk result (λ found. IfNone found (ChangesNothing table.now input.entry replica.old ⊎ IsFaulty replica.old.identity.members input.entry)) }
{
    if !replica.is_small() {
        return Err(OutOfMemory);
    }
    let mut planned = replica.begin();
    match replica.plan(table, input, &mut planned) {
        Ok(()) => {}
        Err(StepFault::Letter(_)) => return Ok(None),
        Err(StepFault::OutOfMemory) => return Err(OutOfMemory),
    }
    match planned.delta() {
        Some(change) => Ok(Some(copy_of(change)?)),
        None => Ok(None),
    }
}

// What comes of a stop within a step that makes this change, which is kept or lost; and the change, where it is lost.
fn stopped_with(
    alloc: Global,
    kept: &mut Durable,
    change: Delta,
    keeps: bool,
) -> Result<(StepOut, Option<Delta>), OutOfMemory>
    ensures is { IfOk result (λ left. left.0 ≡ change_alone (kept_change keeps change)) }
    ensures kept { IfOk result (λ left. kept.new ≡ kept_after left.0.delta kept.old) }
    ensures lost { IfOk result (λ left. left.1 ≡ kept_change (not keeps) change) }
{
    if !keeps {
        return Ok((change_alone(alloc, None), Some(change)));
    }
    kept.apply(copy_of(&change)?)?;
    Ok((change_alone(alloc, Some(change)), None))
}

// A replica that starts again with what it kept.
fn restarted(table: &JobTable, who: u8, members: u8, kept: &Durable) -> Result<Replica, OutOfMemory>
    requires me { who < members }
    requires few { members ≤ 7 }
    ensures identity { IfOk result (λ replica. replica.identity ≡ record { me = who; members = members }) }
    ensures state { IfOk result (λ replica. replica.state ≡ started who kept.now) }
    ensures of_table { IfOk result (λ replica. IsOfTable table.now replica) }
{
    // A replica of fewer than 2^31 turns keeps the rows of its table, and has tried fewer ballots.
    if !kept.rows.stand_for(table_size(table)) || kept.tried >= 1 << 60 {
        return Err(OutOfMemory);
    }
    Ok(Replica::start(who, members, table, copy_of_kept(kept)?)?)
}

impl Judged {
    /// The change of the step, which was kept or lost, where there is one.
    pub fn change(&self) -> &Option<Delta>
        ensures { option_to_list result.now ≡ changes_with self.now.out.delta self.now.lost }
    {
        match &self.out.delta {
            Some(_) => &self.out.delta,
            None => &self.lost,
        }
    }
}

impl Replay {
    // A late call arrives that hasn't arrived yet.
    fn judge_arrival(
        &mut self,
        table: &JobTable,
        late: Count,
    ) -> Result<Option<Judged>, OutOfMemory>
        requires ready { IsInSituation table.now self.old }
        ensures { IfOk result (Judges table.now (ArrivalLine (Number (length self.old.book.turns)) late) self.old self.new) }
    {
        let late = match late {
            Count::Number(number) => number,
            Count::Larger => return Ok(None),
        };
        if late >= self.book.ledger().late().len() as u64 {
            return Ok(None);
        }
        // No book has that many late calls.
        let late = match u32::try_from(late) {
            Ok(late) => late,
            Err(_) => return Err(OutOfMemory),
        };
        if self.book.arrived().contains(&late) {
            return Ok(None);
        }
        let out = change_alone(self.alloc, None);
        self.book.reserve(&out)?;
        Ok(Some(Judged {
            turn: Turn::Arrived { late },
            out,
            lost: None,
        }))
    }

    // A replica that runs stops between two turns.
    fn judge_stop(&mut self, table: &JobTable, who: u8) -> Result<Option<Judged>, OutOfMemory>
        requires ready { IsInSituation table.now self.old }
        requires member { who < self.old.book.members }
        ensures { IfOk result (Judges table.now (TurnLine (Number (length self.old.book.turns)) (Number who) StopTurn) self.old self.new) }
    {
        if !self.seats[who as usize].runs() {
            return Ok(None);
        }
        let out = change_alone(self.alloc, None);
        self.book.reserve(&out)?;
        self.seats[who as usize].replica = None;
        Ok(Some(Judged {
            turn: Turn::Stopped {
                who,
                cause: None,
                kept: false,
            },
            out,
            lost: None,
        }))
    }

    // A replica that is stopped starts again, with what it kept.
    fn judge_restart(&mut self, table: &JobTable, who: u8) -> Result<Option<Judged>, OutOfMemory>
        requires ready { IsInSituation table.now self.old }
        requires member { who < self.old.book.members }
        ensures { IfOk result (Judges table.now (TurnLine (Number (length self.old.book.turns)) (Number who) RestartTurn) self.old self.new) }
    {
        if self.seats[who as usize].runs() {
            return Ok(None);
        }
        let members = self.seats.len() as u8;
        let replica = restarted(table, who, members, &self.seats[who as usize].kept)?;
        let out = change_alone(self.alloc, None);
        self.book.reserve(&out)?;
        self.seats[who as usize].replica = Some(replica);
        Ok(Some(Judged {
            turn: Turn::Restarted { who },
            out,
            lost: None,
        }))
    }

    // Lets a replica take its step for a cause, and makes room for its turn. None where it may have no turn for that.
    fn take_step(
        &mut self,
        table: &JobTable,
        who: u8,
        cause: Cause,
    ) -> Result<Option<StepOut>, OutOfMemory>
        requires ready { IsInSituation table.now self.old }
        requires member { who < self.old.book.members }
        ensures { IfOk result (MayHaveStepped table.now who cause self.old self.new) }
    {
        let waits = self.settings[who as usize].waits;
        let input = match input_of(&self.book, table, waits, who, cause) {
            Some(input) => input,
            None => return Ok(None),
        };
        let seat = &mut self.seats[who as usize];
        let replica = match &mut seat.replica {
            Some(replica) => replica,
            None => return Ok(None),
        };
        let out = match step_replica(replica, &mut seat.kept, table, input)? {
            Some(out) => out,
            None => return Ok(None),
        };
        self.book.reserve(&out)?;
        Ok(Some(out))
    }

    // A replica that runs takes its step for a cause, and makes no call.
    fn judge_step(
        &mut self,
        table: &JobTable,
        who: u8,
        cause: Cause,
    ) -> Result<Option<Judged>, OutOfMemory>
        requires ready { IsInSituation table.now self.old }
        requires member { who < self.old.book.members }
        ensures { IfOk result (Judges table.now (TurnLine (Number (length self.old.book.turns)) (Number who) (DidTurn (told_cause cause))) self.old self.new) }
    {
        match self.take_step(table, who, cause)? {
            Some(out) => {
                if out.call.is_some() {
                    return Ok(None);
                }
                Ok(Some(Judged {
                    turn: Turn::Did {
                        who,
                        cause,
                        call: None,
                    },
                    out,
                    lost: None,
                }))
            }
            None => Ok(None),
        }
    }

    // A replica's clock ticks, and it makes the call that these words tell.
    fn judge_call(
        &mut self,
        table: &JobTable,
        who: u8,
        now: Minute,
        words: CallWords<'_>,
    ) -> Result<Option<Judged>, OutOfMemory>
        requires ready { IsInSituation table.now self.old }
        requires member { who < self.old.book.members }
        ensures { IfOk result (Judges table.now (TurnLine (Number (length self.old.book.turns)) (Number who)
            (CallTurn now (told_call words.entry))) self.old self.new) }
    {
        let cause = Cause::Tick { now };
        let out = match self.take_step(table, who, cause)? {
            Some(out) => out,
            None => return Ok(None),
        };
        let row = match out.call {
            Some(row) => row,
            None => return Ok(None),
        };
        let made = self.book.call(table, row, fate_told(words.fate))?;
        if !is_answer_told(table, made.answer, words.answer) {
            return Ok(None);
        }
        Ok(Some(Judged {
            turn: Turn::Did {
                who,
                cause,
                call: Some(made),
            },
            out,
            lost: None,
        }))
    }

    // A replica that runs stops within its step for a cause, and its change is kept or lost.
    fn judge_stop_within(
        &mut self,
        table: &JobTable,
        who: u8,
        cause: Cause,
        kept: bool,
    ) -> Result<Option<Judged>, OutOfMemory>
        requires ready { IsInSituation table.now self.old }
        requires member { who < self.old.book.members }
        ensures { IfOk result (Judges table.now (TurnLine (Number (length self.old.book.turns)) (Number who)
            (StopWithinTurn kept (told_cause cause))) self.old self.new) }
    {
        let waits = self.settings[who as usize].waits;
        let input = match input_of(&self.book, table, waits, who, cause) {
            Some(input) => input,
            None => return Ok(None),
        };
        let seat = &mut self.seats[who as usize];
        let replica = match &mut seat.replica {
            Some(replica) => replica,
            None => return Ok(None),
        };
        let change = match change_of(replica, table, input)? {
            Some(change) => change,
            None => return Ok(None),
        };
        let left = stopped_with(self.alloc, &mut seat.kept, change, kept)?;
        seat.replica = None;
        self.book.reserve(&left.0)?;
        Ok(Some(Judged {
            turn: Turn::Stopped {
                who,
                cause: Some(cause),
                kept,
            },
            out: left.0,
            lost: left.1,
        }))
    }

    // The turn of a replica that these words tell.
    fn judge_turn(
        &mut self,
        table: &JobTable,
        who: u8,
        words: TurnWords<'_>,
    ) -> Result<Option<Judged>, OutOfMemory>
        requires ready { IsInSituation table.now self.old }
        requires member { who < self.old.book.members }
        ensures { IfOk result (Judges table.now (TurnLine (Number (length self.old.book.turns)) (Number who) (told_turn words.entry)) self.old self.new) }
    {
        match words {
            TurnWords::Did { cause } => match cause_of(cause) {
                Some(cause) => self.judge_step(table, who, cause),
                None => Ok(None),
            },
            TurnWords::Called { now, call } => self.judge_call(table, who, now, call),
            TurnWords::Stopped => self.judge_stop(table, who),
            TurnWords::StoppedWithin { kept, cause } => match cause_of(cause) {
                Some(cause) => self.judge_stop_within(table, who, cause, kept),
                None => Ok(None),
            },
            TurnWords::Restarted => self.judge_restart(table, who),
        }
    }

    /// The turn that a line tells, where it may come next: its replica has taken it then, its call is pending, and there is room for it
    /// in the book.
    ///
    /// # Errors
    ///
    /// Want of memory.
    pub fn judge(
        &mut self,
        table: &JobTable,
        line: JournalLine<'_>,
    ) -> Result<Option<Judged>, OutOfMemory>
        requires ready { IsInSituation table.now self.old }
        ensures { IfOk result (Judges table.now (told_line line.entry) self.old self.new) }
    {
        let next = Count::Number(self.book.turns().len() as u64);
        match line {
            JournalLine::Turn {
                number,
                replica,
                words,
            } => {
                if number != next {
                    return Ok(None);
                }
                match member_of(replica, self.seats.len() as u8) {
                    Some(who) => self.judge_turn(table, who, words),
                    None => Ok(None),
                }
            }
            JournalLine::Arrival { number, late } => {
                if number != next {
                    return Ok(None);
                }
                self.judge_arrival(table, late)
            }
            JournalLine::Head
            | JournalLine::Command { .. }
            | JournalLine::Walk
            | JournalLine::End => Ok(None),
        }
    }
}
