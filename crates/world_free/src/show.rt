//! What a replica has learned is shown on a board.
ghost use Rattle.std.specs.Prelude.{◌≡◌, OnOk, is_some, true};
ghost use Rattle.replica_core.specs.Step.{IsOfTable};
ghost use Rattle.world_free.specs.Board.{MayShow, MayShowOn, OnBoard, ShowsReplica};

use cron_io::OutOfMemory;
use due_set::JobTable;
use replica_core::Replica;
use status_board::BoardWriter;
use std::alloc::Global;
use std::sync::Wait;

// The launch table of a replica is published, where the replica has learned more than the board shows. Says whether there was memory
// for that; where there was not, the writer can only be ended.
fn show<R: Wait>(
    rt: &R,
    alloc: Global,
    table: &JobTable,
    replica: &Replica,
    mut writer: BoardWriter,
) -> (BoardWriter, bool)
    requires of_table { IsOfTable table.now replica.now }
    requires may { MayShow table.now writer }
    ensures may { result.1 ≡ true → MayShow table.now result.0 }
    ensures shows { result.1 ≡ true → ShowsReplica replica.now writer result.0 }
{
    let prefix = replica.prefix();
    if prefix <= writer.prefix() {
        return (writer, true);
    }
    let Ok(rows) = replica.machine().copy_rows(alloc) else {
        return (writer, false);
    };
    match writer.install(table, prefix, &rows) {
        Ok(_) => (writer.publish(rt).0, true),
        Err(_) => (writer, false),
    }
}

/// So it is where there is a board.
pub(crate) fn show_on<R: Wait>(
    rt: &R,
    alloc: Global,
    table: &JobTable,
    replica: &Replica,
    board: &mut Option<BoardWriter>,
) -> Result<(), OutOfMemory>
    requires of_table { IsOfTable table.now replica.now }
    requires may { MayShowOn table.now board.old }
    ensures may { OnOk result (MayShowOn table.now board.new) }
    ensures shows { OnOk result (OnBoard (ShowsReplica replica.now) board.old board.new) }
    ensures stays { is_some board.new ≡ is_some board.old }
{
    let Some(writer) = board.take() else {
        return Ok(());
    };
    let (writer, shown) = show(rt, alloc, table, replica, writer);
    let none = board.replace(writer);
    let None = none else { unreachable!() };
    if shown { Ok(()) } else { Err(OutOfMemory) }
}
