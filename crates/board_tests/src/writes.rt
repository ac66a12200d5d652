//! What a writer is told of the log.
ghost use Rattle.std.specs.Prelude.{◌≡◌, ◌<◌, ◌^◌, IsTrue, true};
ghost use Rattle.launch_machine.specs.Machine.{CountsBelow, StandsFor};

use due_set::JobTable;
use learner_core::Learnt;
use paxos_base::{Entry, JobRow};
use status_board::BoardWriter;

/// An entry of a slot, and what comes of it.
pub struct Told {
    pub slot: u64,
    pub entry: Entry,
    pub learnt: Learnt,
}

// Whether the row can count one more end.
fn is_small(row: JobRow) -> bool
    ensures { IsTrue result → (row.launched < 2 ^ 31) × (row.voided < 2 ^ 31) }
{
    row.launched < 1 << 31 && row.voided < 1 << 31
}

// Whether the writer can learn one more entry.
fn has_room(writer: &BoardWriter, table: &JobTable) -> bool
    requires table { StandsFor table.now writer.now.machine }
    requires ready { writer.now.ready ≡ true }
    ensures counts { IsTrue result → CountsBelow (2 ^ 31) writer.now.machine.rows }
    ensures prefix { IsTrue result → writer.now.prefix < 2 ^ 62 }
{
    if writer.prefix() >= 1 << 62 {
        return false;
    }
    'jobs: for job in 0..table.jobs() {
        if !is_small(writer.row(job)) {
            return false;
        }
    }
    // The table's own row stands behind those of the jobs.
    is_small(writer.row(table.jobs()))
}

/// Tells the writer these entries, and says whether it answered as it should.
pub fn learn_all(writer: &mut BoardWriter, table: &JobTable, told: &[Told]) -> bool
    requires table { StandsFor table.now writer.old.machine }
    requires ready { writer.old.ready ≡ true }
    ensures board { writer.new.board ≡ writer.old.board }
    ensures table { StandsFor table.now writer.new.machine }
    ensures ready { IsTrue result → writer.new.ready ≡ true }
{
    'told: for one in told {
        if !has_room(writer, table) {
            return false;
        }
        match writer.learn(table, one.slot, one.entry) {
            Ok(learnt) if learnt == one.learnt => {}
            Ok(_) | Err(_) => return false,
        }
    }
    true
}
