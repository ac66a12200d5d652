ghost use Rattle.std.specs.Prelude.{◌≡◌};
ghost use Rattle.cron_serve.specs.Serve.{LeavesNoRun};
ghost use Rattle.cron_serve.specs.Stop.{refusal_of, status_of};

use crate::stop::Stop;
use disk_model::MemDisk;
use replica_node::Node;
use run_text::Refusal;
use std::alloc::Global;
use world_law::Book;

/// How the program ended, and what it leaves.
#[derive(Drop)]
pub struct RunEnd {
    /// The exit status: 0 for a text that was written whole, or an audit that passed, 1 for a faulty command line, 2 for an
    /// input that was refused, 3 for a read fault, 4 for a write fault, 5 for want of memory, 6 for an audit that failed.
    pub status: u8,
    /// Why the input was refused, at status 2.
    pub refusal: Option<Refusal>,
    /// The book of the run, where a text of it was written or begun, and that of the journal that passed an audit. Otherwise
    /// it is empty.
    pub book: Book,
    /// The nodes of the run's replicas after it, in order of number, where a text of it was written or begun. Otherwise
    /// there are none.
    pub nodes: Vec<Node<MemDisk>>,
}

impl RunEnd {
    /// The end of a program that stopped, and leaves no run.
    pub fn stopped(alloc: Global, stop: Stop) -> RunEnd
        ensures status { result.status ≡ status_of stop }
        ensures refusal { result.refusal ≡ refusal_of stop }
        ensures no_run { LeavesNoRun result.book result.nodes.items }
    {
        let (status, refusal) = match stop {
            Stop::Usage => (1, None),
            Stop::Refused(refusal) => (2, Some(refusal)),
            Stop::ReadFault => (3, None),
            Stop::OutOfMemory => (5, None),
        };
        RunEnd::without_run(alloc, status, refusal)
    }

    /// The end of a program that leaves no run.
    pub fn without_run(alloc: Global, status: u8, refusal: Option<Refusal>) -> RunEnd
        ensures status { result.status ≡ status }
        ensures refusal { result.refusal ≡ refusal }
        ensures no_run { LeavesNoRun result.book result.nodes.items }
    {
        RunEnd {
            status,
            refusal,
            book: Book::new(alloc, 0),
            nodes: Vec::new(alloc),
        }
    }
}
