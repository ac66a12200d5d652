//! The steps that a replica takes of a round, before their turns join the book.
ghost use Rattle.std.specs.Prelude.{◌≡◌, ◌++◌, ◌∷◌, [], ℕ, List, OnOk};
ghost use Rattle.history.specs.Book.{Row};
ghost use Rattle.world_steps.specs.Steps.{IsBeside, WasToldOf, causes_of};
ghost use Rattle.world_rounds.specs.Hearing.{MayHear, MayTakeAnswer, answer_causes, hear_causes};

use cluster_sched::SchedRow;
use cron_io::OutOfMemory;
use disk_model::Disk;
use due_set::JobTable;
use history::Cause;
use replica_core::Input;
use replica_node::Node;
use world_law::Book;
use world_steps::{Taken, letter_at, take_step};

// The steps that a replica has beside a book at most.
const MOST_STEPS: usize = 1 << 31;

// Lets a node take its step for a cause, and keeps what comes of it.
pub(crate) fn keep_step<D: Disk>(
    node: &mut Node<D>,
    steps: &mut Vec<Taken>,
    table: &JobTable,
    book: &Book,
    cause: Cause,
    input: Input<'_>,
) -> Result<(), OutOfMemory>
    requires told { (rows : List Row) × (who : ℕ) × IsBeside D.view table.now rows book.now who steps.old.items node.old
        × WasToldOf table.now rows book.now who steps.old.items cause input }
    ensures causes { OnOk result (causes_of steps.new.items ≡ causes_of steps.old.items ++ cause ∷ []) }
    ensures beside { (rows : List Row) (who : ℕ) → IsBeside D.view table.now rows book.now who steps.old.items node.old
        → WasToldOf table.now rows book.now who steps.old.items cause input.entry
        → OnOk result (IsBeside D.view table.now rows book.now who steps.new.items node.new) }
{
    if steps.len() >= MOST_STEPS {
        return Err(OutOfMemory);
    }
    let taken = take_step(node, table, book.turns().len(), cause, input)?;
    steps.push(taken)?;
    Ok(())
}

// Lets it take the answer that waits for it, where one does.
pub(crate) fn take_answer<D: Disk>(
    node: &mut Node<D>,
    steps: &mut Vec<Taken>,
    table: &JobTable,
    book: &Book,
    waits: Option<SchedRow>,
) -> Result<(), OutOfMemory>
    requires none { steps.old.items ≡ [] }
    requires may { (rows : List Row) × (who : ℕ) × MayTakeAnswer D.view table.now rows book.now who waits node.old }
    ensures causes { OnOk result (causes_of steps.new.items ≡ answer_causes waits) }
    ensures beside { (rows : List Row) (who : ℕ) → MayTakeAnswer D.view table.now rows book.now who waits node.old
        → OnOk result (IsBeside D.view table.now rows book.now who steps.new.items node.new) }
{
    let Some(row) = waits else {
        return Ok(());
    };
    let input = Input::Answer {
        job: row.name.job,
        at: row.name.at,
        kind: row.kind,
    };
    keep_step(node, steps, table, book, Cause::Answer, input)
}

// Lets it hear letters that go to it.
pub(crate) fn hear_letters<D: Disk>(
    node: &mut Node<D>,
    steps: &mut Vec<Taken>,
    table: &JobTable,
    book: &Book,
    letters: &[u64],
) -> Result<(), OutOfMemory>
    requires may { (rows : List Row) × (who : ℕ) × MayHear D.view table.now rows book.now who steps.old.items node.old letters.now }
    ensures causes { OnOk result (causes_of steps.new.items ≡ causes_of steps.old.items ++ hear_causes letters.now) }
    ensures beside { (rows : List Row) (who : ℕ) → MayHear D.view table.now rows book.now who steps.old.items node.old letters.now
        → OnOk result (IsBeside D.view table.now rows book.now who steps.new.items node.new) }
{
    'letters: for letter in letters {
        let letter = *letter;
        let bytes = letter_at(book, letter).bytes.bytes();
        keep_step(
            node,
            steps,
            table,
            book,
            Cause::Hear { letter },
            Input::Hear { bytes },
        )?;
    }
    Ok(())
}
