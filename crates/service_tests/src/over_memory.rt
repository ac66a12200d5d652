// A caller over memory, where only want of memory can stand between a run and its report.
ghost use Rattle.std.specs.Prelude.{◌≡◌, ◌⊎◌, IfOk, false};
ghost use Rattle.due_set.specs.Table.{Table};
ghost use Rattle.run_text.specs.Run.{Run};
ghost use Rattle.run_input.specs.Input.{IsRunWithTable};
ghost use Rattle.service_tests.specs.OverMemory.{FitsRoom, IsBeyondRoom};
ghost use Rattle.cron_serve.specs.Input.{Suits};
ghost use Rattle.program_options.specs.declared.words.Output.{Output};

use cron_io::{MemSink, MemSource, OutOfMemory};
use cron_serve::cron_cluster;
use std::alloc::Global;
use std::sync::Wait;
use std::test::Fail;
use std::thread::Threads;
use world_free::OpenGate;

// The status of a run in memory, with so much room for its report.
fn status_in_memory<R: Threads + Wait + Sync>(
    rt: &R,
    alloc: Global,
    bytes: Vec<u8>,
    room: u32,
    notes: &mut MemSink,
) -> Result<u8, OutOfMemory>
    ensures fits { IfOk result (λ status. (run : Run) (table : Table) → IsRunWithTable bytes.items run table → FitsRoom bytes.items room
        → (status ≡ 0) ⊎ (status ≡ 5)) }
    ensures exceeds { IfOk result (λ status. (run : Run) (table : Table) → IsRunWithTable bytes.items run table → IsBeyondRoom bytes.items room
        → (status ≡ 4) ⊎ (status ≡ 5)) }
    ensures refused { IfOk result (λ status. (Suits (Output.Report false false) bytes.items → ⊥) → (status ≡ 2) ⊎ (status ≡ 5)) }
{
    let mut source = MemSource::new(bytes, Vec::new(alloc));
    let mut sink = MemSink::new(alloc, room, Vec::new(alloc))?;
    let words = Vec::new(alloc).into_iter();
    let end = cron_cluster(rt, alloc, words, &mut source, &mut sink, notes, &OpenGate);
    Ok(end.status)
}

const RUN: &str =
    "cronrun 1\nreplicas 1\nwindow 2026-01-01T00:00Z 2026-01-01T00:02Z\ngrace 0\nscript\nend\n";

// The status of the run with so much room for its report.
fn status_with_room<R: Threads + Wait + Sync>(
    rt: &R,
    alloc: Global,
    room: u32,
) -> Result<u8, Fail> {
    let mut notes = MemSink::new(alloc, 200, Vec::new(alloc))?;
    let bytes = Vec::from_slice(alloc, RUN.as_bytes())?;
    Ok(status_in_memory(rt, alloc, bytes, room, &mut notes)?)
}

// The report has 79 bytes.
#[test]
fn the_room_of_the_sink_decides(rt: HostRuntime) -> Result<(), Fail> {
    assert_eq!(rt; status_with_room(&rt, rt.alloc(), 79)?, 0);
    assert_eq!(rt; status_with_room(&rt, rt.alloc(), 78)?, 4);
    Ok(())
}
