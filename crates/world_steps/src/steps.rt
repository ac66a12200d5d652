//! A step that a node takes beside a book, before its turn joins it.
ghost use Rattle.std.specs.Prelude.{◌≡◌, ◌++◌, ◌∷◌, [], ℕ, List, IfOk};
ghost use Rattle.history.specs.Book.{Row};
ghost use Rattle.world_law.specs.Book.{BookState};
ghost use Rattle.world_steps.specs.Steps.{IsBeside, MayStep, WasToldOf};
ghost use Rattle.world_steps.specs.declared.steps.Taken.{Taken as Step};

use crate::fault::memory_of;
use cron_io::OutOfMemory;
use disk_model::Disk;
use due_set::JobTable;
use history::Cause;
use replica_core::{Input, StepOut};
use replica_node::Node;

// The turns that a book has at most, where a step is taken beside it.
pub(crate) const MOST_TURNS: usize = 1 << 31;

/// A step that was taken, and what it was taken for.
#[derive(Debug, Drop)]
pub struct Taken {
    pub cause: Cause,
    pub out: StepOut,
}

/// Lets a node take its step for a cause, beside a book of so many turns. It doesn't look at the book, which others may have
/// meanwhile.
///
/// # Errors
///
/// Want of memory, and a book of 2^31 turns.
pub fn take_step<D: Disk>(
    node: &mut Node<D>,
    table: &JobTable,
    turns: usize,
    cause: Cause,
    input: Input<'_>,
) -> Result<Taken, OutOfMemory>
    requires may { MayStep D.view table.now turns node.old cause input }
    ensures cause { IfOk result (λ taken. taken.cause ≡ cause) }
    ensures beside { IfOk result (λ taken. (rows : List Row) (book : BookState) (who : ℕ) (steps : List Step)
        → IsBeside D.view table.now rows book who steps node.old → WasToldOf table.now rows book who steps cause input.entry
        → IsBeside D.view table.now rows book who (steps ++ taken ∷ []) node.new) }
{
    if turns >= MOST_TURNS {
        return Err(OutOfMemory);
    }
    let out = match node.handle(table, input) {
        Ok(out) => out,
        Err(fault) => return Err(memory_of(fault)),
    };
    Ok(Taken { cause, out })
}
