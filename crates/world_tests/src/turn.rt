//! A turn of a replica, which the book gains.
ghost use Rattle.std.specs.Prelude.{◌≡◌, ℕ, List, [], ◌∷◌, None, Some, IfOk, OnOk};
ghost use Rattle.std.specs.Option.{option_to_list};
ghost use Rattle.zone_minutes.specs.declared.minute.Minute.{Minute};
ghost use Rattle.history.specs.declared.turn.Cause.TheVariants as told;
ghost use Rattle.history.specs.Book.{Row, Standing, answer_to, late_call};
ghost use Rattle.history.specs.Legal.{IsMade};
ghost use Rattle.replica_core.specs.Step.{IsInputInside};
ghost use Rattle.world_law.specs.Book.{HasRoom, MayTickFor, StandsBehind, standing_behind};
ghost use Rattle.world_law.specs.Replicas.{IsInputOf, IsToldLetter};
ghost use Rattle.world_tests.specs.Scene.{HasArrived};
ghost use Rattle.world_tests.specs.Seat.{GoesOnByTurn, HasTakenStep, IsBookAtRest, IsInBook, IsNothing, IsSeated};

use crate::seat::{Seat, start, step_seat};
use cluster_sched::{Fate, SchedRow};
use due_set::JobTable;
use history::{CallRow, Cause, Turn};
use replica_core::{Input, LearntList, LetterList, StepOut};
use std::alloc::Global;
use std::process::Abort;
use std::test::*;
use world_law::Book;

// The letter of a number, which goes to the replica.
fn letter_to<'b>(rt: &impl Abort, book: &'b Book, who: u8, number: u64) -> Result<Input<'b>, Fail>
    ensures { IfOk result (λ input. IsToldLetter book.now who number input) }
{
    let letter = book.letters().get(number as usize).ok_or("no such letter")?;
    assert!(rt; letter.to == who);
    Ok(Input::Hear {
        bytes: letter.bytes.bytes(),
    })
}

// What the replica is told, for which this answer waits.
fn input_of<'b>(
    rt: &impl Abort,
    table: &JobTable,
    book: &'b Book,
    who: u8,
    waits: Option<SchedRow>,
    cause: Cause,
) -> Result<Input<'b>, Fail>
    ensures told { IfOk result (λ input. (standing : Standing) → standing.waits who ≡ waits → IsInputOf standing book.now who cause input) }
    ensures inside { IfOk result (λ input. IsInputInside table.now input) }
{
    match cause {
        Cause::Campaign => Ok(Input::Campaign),
        Cause::Tick { now } => {
            assert!(rt; table.window().contains(now));
            Ok(Input::Tick { now })
        }
        Cause::Hear { letter } => letter_to(rt, book, who, letter),
        Cause::Answer => {
            let row = waits.ok_or("no answer waits")?;
            Ok(Input::Answer {
                job: row.name.job,
                at: row.name.at,
                kind: row.kind,
            })
        }
    }
}

// The step of the replica at the cause of its turn.
fn take(
    rt: &impl Abort,
    table: &JobTable,
    book: &Book,
    seat: &mut Seat,
    who: u8,
    cause: Cause,
) -> Result<StepOut, Fail>
    requires { IsInBook table.now book.now who seat.old }
    ensures { IfOk result (λ out. HasTakenStep table.now book.now who cause seat.old seat.new out) }
{
    let input = input_of(rt, table, book, who, seat.waits, cause)?;
    step_seat(rt, table, seat, input)
}

// Calls the scheduler as part of a tick, and lets this become of the call.
fn call_at(
    table: &JobTable,
    book: &mut Book,
    cause: Cause,
    row: SchedRow,
    fate: Fate,
) -> Result<CallRow, Fail>
    requires rest { book.old.pending ≡ None }
    requires asks { (now : Minute) → cause ≡ told.Tick now → MayTickFor table.now book.old row }
    ensures pending { IfOk result (λ made. book.new.pending ≡ Some made) }
    ensures made { IfOk result (λ made. (rows : List Row) → StandsBehind table.now rows book.old
        → IsMade (standing_behind table.now rows book.old).held (row ∷ []) (Some made)) }
    ensures stands { (rows : List Row) → StandsBehind table.now rows book.old → StandsBehind table.now rows book.new }
    ensures room { (letters : ℕ) → HasRoom letters book.old → HasRoom letters book.new }
    ensures members { OnOk result (book.new.members ≡ book.old.members) }
{
    match cause {
        Cause::Tick { .. } => Ok(book.call(table, row, fate)?),
        _ => Err("only a tick asks for a call")?,
    }
}

// Makes the call that a step asks for, where it asks for one, and lets this become of it.
fn call_for(
    table: &JobTable,
    book: &mut Book,
    cause: Cause,
    call: Option<SchedRow>,
    fate: Fate,
) -> Result<Option<CallRow>, Fail>
    requires rest { book.old.pending ≡ None }
    requires asks { (row : SchedRow) (now : Minute) → call ≡ Some row → cause ≡ told.Tick now → MayTickFor table.now book.old row }
    ensures pending { IfOk result (λ made. book.new.pending ≡ made) }
    ensures made { IfOk result (λ made. (rows : List Row) → StandsBehind table.now rows book.old
        → IsMade (standing_behind table.now rows book.old).held (option_to_list call) made) }
    ensures stands { (rows : List Row) → StandsBehind table.now rows book.old → StandsBehind table.now rows book.new }
    ensures room { (letters : ℕ) → HasRoom letters book.old → HasRoom letters book.new }
    ensures members { OnOk result (book.new.members ≡ book.old.members) }
{
    match call {
        None => Ok(None),
        Some(row) => Ok(Some(call_at(table, book, cause, row, fate)?)),
    }
}

// The row that answered a call, where one did.
fn answer_of(made: Option<CallRow>) -> Option<SchedRow>
    ensures { result ≡ answer_to made }
{
    made?.answer
}

// The replica takes a step, and this becomes of the call that it asks for, where it asks for one.
fn step(
    rt: &impl Abort,
    table: &JobTable,
    book: &mut Book,
    seat: &mut Seat,
    who: u8,
    cause: Cause,
    fate: Fate,
) -> Result<(), Fail>
    requires { IsInBook table.now book.old who seat.old }
    ensures { OnOk result ((rows : List Row) → IsBookAtRest table.now rows book.old → IsSeated table.now rows book.old who seat.old
        → GoesOnByTurn table.now rows book.old book.new who seat.new) }
{
    let out = take(rt, table, book, seat, who, cause)?;
    book.reserve(&out)?;
    let call = call_for(table, book, cause, out.call, fate)?;
    seat.waits = answer_of(call);
    book.commit(table, Turn::Did { who, cause, call }, out);
    Ok(())
}

// What comes of a turn that is no step.
fn nothing(alloc: Global) -> StepOut
    ensures { IsNothing result }
{
    StepOut {
        delta: None,
        letters: LetterList {
            items: Vec::new(alloc),
        },
        learnt: LearntList {
            items: Vec::new(alloc),
        },
        call: None,
    }
}

// The replica stops, between two steps.
fn stop(
    rt: &impl Abort,
    alloc: Global,
    table: &JobTable,
    book: &mut Book,
    seat: &mut Seat,
    who: u8,
) -> Result<(), Fail>
    requires { IsInBook table.now book.old who seat.old }
    ensures { OnOk result ((rows : List Row) → IsBookAtRest table.now rows book.old → IsSeated table.now rows book.old who seat.old
        → GoesOnByTurn table.now rows book.old book.new who seat.new) }
{
    assert!(rt; seat.running.is_some());
    seat.running = None;
    seat.waits = None;
    seat.learned.clear();
    let out = nothing(alloc);
    book.reserve(&out)?;
    let turn = Turn::Stopped {
        who,
        cause: None,
        kept: false,
    };
    book.commit(table, turn, out);
    Ok(())
}

// The replica starts again.
fn restart(
    rt: &impl Abort,
    alloc: Global,
    table: &JobTable,
    book: &mut Book,
    seat: &mut Seat,
    who: u8,
) -> Result<(), Fail>
    requires { IsInBook table.now book.old who seat.old }
    ensures { OnOk result ((rows : List Row) → IsBookAtRest table.now rows book.old → IsSeated table.now rows book.old who seat.old
        → GoesOnByTurn table.now rows book.old book.new who seat.new) }
{
    assert!(rt; seat.running.is_none());
    seat.running = Some(start(rt, table, who, seat.members, &seat.durable)?);
    let out = nothing(alloc);
    book.reserve(&out)?;
    book.commit(table, Turn::Restarted { who }, out);
    Ok(())
}

// The late call of a number.
fn late_call(book: &Book, number: u32) -> Option<SchedRow>
    ensures { result ≡ late_call number book.now.ledger.late }
{
    book.ledger().late().get(number as usize).copied()
}

/// A late call arrives.
pub fn arrive(
    rt: &impl Abort,
    alloc: Global,
    table: &JobTable,
    book: &mut Book,
    late: u32,
) -> Result<(), Fail>
    requires { (rows : List Row) × IsBookAtRest table.now rows book.old }
    ensures { OnOk result ((rows : List Row) → IsBookAtRest table.now rows book.old → HasArrived table.now rows book.old book.new late) }
{
    assert!(rt; late_call(book, late).is_some());
    assert!(rt; !book.arrived().contains(&late));
    let out = nothing(alloc);
    book.reserve(&out)?;
    book.commit(table, Turn::Arrived { late }, out);
    Ok(())
}

// What becomes of a call that a turn is to make.
fn fate_of(call: Option<CallRow>) -> Fate {
    call.map_or(Fate::Done, |made| made.fate)
}

/// The replica takes its turn; where it stops, it does so between two steps. Of a call the fate alone is taken from the turn: its row
/// and its answer come of the step.
pub fn take_turn(
    rt: &impl Abort,
    alloc: Global,
    table: &JobTable,
    book: &mut Book,
    seat: &mut Seat,
    who: u8,
    turn: Turn,
) -> Result<(), Fail>
    requires { IsInBook table.now book.old who seat.old }
    ensures { OnOk result ((rows : List Row) → IsBookAtRest table.now rows book.old → IsSeated table.now rows book.old who seat.old
        → GoesOnByTurn table.now rows book.old book.new who seat.new) }
{
    match turn {
        Turn::Did { cause, call, .. } => step(rt, table, book, seat, who, cause, fate_of(call)),
        Turn::Stopped { .. } => stop(rt, alloc, table, book, seat, who),
        Turn::Restarted { .. } => restart(rt, alloc, table, book, seat, who),
        Turn::Arrived { .. } => Err("an arrival is nobody's turn")?,
    }
}
