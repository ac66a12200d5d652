//! A step becomes a turn of a book.
ghost use Rattle.std.specs.Prelude.{◌≡◌, ℕ, List, None, IfOk, IfSome, OnOk, OnErr};
ghost use Rattle.std.specs.Option.{option_to_list};
ghost use Rattle.history.specs.Book.{Row};
ghost use Rattle.history.specs.Legal.{IsMade};
ghost use Rattle.replica_core.specs.Replica.{ReplicaState};
ghost use Rattle.script_semantics.specs.Situation.{latest_with};
ghost use Rattle.world_law.specs.Book.{HasRoom, IsSameBook, IsLegalBook, MayTickFor, StandsBehind, standing_behind};
ghost use Rattle.world_law.specs.Replicas.{change_alone};
ghost use Rattle.world_steps.specs.Turns.{HasJoinedAt, IsNextStep, MayJoin};

use crate::steps::Taken;
use cluster_sched::{Fate, SchedRow};
use cron_io::OutOfMemory;
use due_set::JobTable;
use history::{CallRow, Cause, Turn};
use paxos_base::Delta;
use replica_core::{LearntList, StepOut};
use replica_draft::LetterList;
use std::alloc::Global;
use world_law::Book;
use zone_minutes::Minute;

/// Makes the call that a step asks for, where it asks for one: from then on it is pending until the step's turn is added.
///
/// # Errors
///
/// Want of memory. The book stays as it is then.
#[inline(always)]
pub fn call_for(
    book: &mut Book,
    table: &JobTable,
    call: Option<SchedRow>,
    fate: Fate,
) -> Result<Option<CallRow>, OutOfMemory>
    requires rest { book.old.pending ≡ None }
    requires asks { IfSome call (λ row. MayTickFor table.now book.old row) }
    ensures pending { IfOk result (λ made. book.new.pending ≡ made) }
    ensures fate { IfOk result (λ made. IfSome made (λ call. call.fate ≡ fate)) }
    ensures made { IfOk result (λ made. (rows : List Row) → StandsBehind table.now rows book.old
        → IsMade (standing_behind table.now rows book.old).held (option_to_list call) made) }
    ensures stands { (rows : List Row) → StandsBehind table.now rows book.old → StandsBehind table.now rows book.new }
    ensures room { (letters : ℕ) → HasRoom letters book.old → HasRoom letters book.new }
    ensures members { OnOk result (book.new.members ≡ book.old.members) }
    ensures letters { OnOk result (book.new.letters ≡ book.old.letters) }
    ensures err { OnErr result (IsSameBook book.new book.old) }
{
    match call {
        None => Ok(None),
        Some(row) => Ok(Some(book.call(table, row, fate)?)),
    }
}

/// A step's turn joins the book, with the call that it asks for.
///
/// # Errors
///
/// Want of memory. The book has no turn more then, and is legal.
#[inline(always)]
pub fn commit_step(
    book: &mut Book,
    table: &JobTable,
    who: u8,
    taken: Taken,
    fate: Fate,
) -> Result<Option<CallRow>, OutOfMemory>
    requires may { MayJoin table.now book.old who taken }
    ensures joined { IfOk result (λ made. (rows : List Row) (old new : ReplicaState) → IsNextStep table.now rows book.old who taken old new
        → HasJoinedAt table.now rows book.old book.new who taken made new) }
    ensures fate { IfOk result (λ made. IfSome made (λ call. call.fate ≡ fate)) }
    ensures legal { OnErr result (IsLegalBook table.now book.new) }
{
    book.reserve(&taken.out)?;
    let call = call_for(book, table, taken.out.call, fate)?;
    let turn = Turn::Did {
        who,
        cause: taken.cause,
        call,
    };
    book.commit(table, turn, taken.out);
    Ok(call)
}

/// What comes of a turn that is no step: the change that was kept, where one was. It takes no memory.
pub fn change_alone(alloc: Global, change: Option<Delta>) -> StepOut
    ensures alone { result ≡ change_alone change }
{
    StepOut {
        delta: change,
        letters: LetterList {
            items: Vec::new(alloc),
        },
        learnt: LearntList {
            items: Vec::new(alloc),
        },
        call: None,
    }
}

/// The latest clock reading, with that of a cause.
pub fn reading_with(cause: Cause, latest: Minute) -> Minute
    ensures latest { result.0 ≡ latest_with cause latest.0 }
{
    match cause {
        Cause::Tick { now } => latest.max(now),
        Cause::Campaign | Cause::Hear { .. } | Cause::Answer => latest,
    }
}
