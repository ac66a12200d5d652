//! A node of the first of three replicas, with an hour without jobs.
ghost use Rattle.due_set.specs.Table.{Table};
ghost use Rattle.replica_core.specs.Step.{IsInputInside};
ghost use Rattle.replica_node.specs.Node.{IsNodeAtRest};

use disk_model::{Disk, MemDisk};
use due_set::JobTable;
use paxos_base::{Durable, TableSize};
use replica_core::Input;
use replica_node::Node;
use replica_store::{Store, StoreFault};
use std::alloc::Global;
use std::process::Abort;
use std::test::*;
use zone_minutes::{Minute, Window};

// An hour of 2024.
pub const HOUR: Window = Window {
    from: Minute(28_530_720),
    until: Minute(28_530_780),
};

pub fn empty_table(alloc: Global) -> Result<JobTable, Fail> {
    Ok(JobTable::in_utc(alloc, HOUR, 10, Vec::new(alloc))?)
}

/// An empty disk, on which the calls of these numbers fail.
pub fn empty_disk(alloc: Global, fails: &[u64]) -> Result<MemDisk, Fail> {
    Ok(MemDisk::new(alloc, Vec::from_slice(alloc, fails)?))
}

/// What a node is told. Letters come from replica 1, those of a ballot in its own of round 1, and are
/// of slot 0 where none is named.
#[derive(Clone, Copy, Debug)]
pub enum Told {
    Campaign,
    Prepare,
    /// A no-op is to be voted for.
    Accept,
    /// The launch table, which has the table's own row alone, as it is at this slot.
    Snap(u8),
    /// A packet of no kind.
    NoLetter,
}

/// The bytes of a letter that tells it. Of all but a launch table they are the first packet alone.
pub fn letter_of(told: Told) -> [u8; 112] {
    let mut bytes = [0; 112];
    bytes[0] = match told {
        Told::Prepare => 1,
        Told::Accept => 4,
        Told::Snap(_) => 9,
        Told::Campaign | Told::NoLetter => 0,
    };
    bytes[1] = 1;
    match told {
        Told::Snap(slot) => {
            bytes[23] = slot;
            bytes[31] = 1;
            bytes[56] = 10;
            bytes[57] = 1;
            bytes[79] = slot;
        }
        _ => bytes[15] = 9,
    }
    bytes
}

/// The same as an input, with the bytes of its letter.
pub fn input_of(told: Told, letter: &[u8]) -> Input<'_>
    ensures { (table : Table) → IsInputInside table result }
{
    match told {
        Told::Campaign => Input::Campaign,
        Told::Snap(_) => Input::Hear { bytes: letter },
        _ => Input::Hear {
            bytes: &letter[..letter.len().min(56)],
        },
    }
}

/// How far a node came.
#[derive(Clone, Copy, Debug, PartialEq, Eq)]
pub enum End {
    /// It wasn't recovered.
    NotRecovered,
    /// It doesn't run any more.
    Ended,
    /// Its disk stopped within its step, and it was reopened with the step's change.
    Kept,
    /// Its disk stopped within its step, and it was reopened without the step's change.
    Lost,
    /// Its step was refused, and it runs.
    Refused,
    /// It has done its step, and handed out so many letters.
    Done(usize),
}

/// The node does a step, and gives back its disk.
pub fn end_with<D: Disk>(
    rt: &impl Abort,
    table: &JobTable,
    mut node: Node<D>,
    input: Input<'_>,
) -> (D, End)
    requires at_rest { IsNodeAtRest D.view table.now node }
    requires inside { IsInputInside table.now input }
{
    assert!(rt; node.replica().is_small());
    let end = match node.handle(table, input) {
        Ok(out) => End::Done(out.letters.items.len()),
        Err(_) if node.is_running() => End::Refused,
        Err(_) => End::Ended,
    };
    (node.into_disk(), end)
}

/// A node is recovered from a disk and does a step, and gives back its disk.
pub fn play<D: Disk>(
    rt: &impl Abort,
    alloc: Global,
    table: &JobTable,
    disk: D,
    input: Input<'_>,
) -> (D, End)
    requires { IsInputInside table.now input }
{
    match Node::recover(alloc, 0, 3, table, disk) {
        Ok(node) => end_with(rt, table, node, input),
        Err((disk, _)) => (disk, End::NotRecovered),
    }
}

// The size of a table without jobs.
const NO_JOBS: TableSize = TableSize {
    jobs: 0,
    last_version: 0,
};

/// What the files of a disk stand for.
pub fn found_on(alloc: Global, disk: &mut MemDisk) -> Result<Durable, StoreFault> {
    let (_, durable) = Store::attach(alloc, disk, NO_JOBS)?;
    Ok(durable)
}
