//! The report of a book.
ghost use Rattle.std.specs.Prelude.{◌≡◌, ◌≤◌, ℕ, List, None};
ghost use Rattle.report_text.specs.Book.{IsBookReport};
ghost use Rattle.report_text.specs.Writes.{Writes};
ghost use Rattle.world_law.specs.Book.{IsLegalBook};

use crate::fault::ReportFault;
use crate::report::write_report;
use cron_io::Sink;
use due_set::JobTable;
use std::alloc::Global;
use world_law::Book;

/// Writes the report of the book of so many replicas, in which no call is pending, each line by one write.
///
/// # Errors
///
/// `WriteFault` only where a write failed, and `OutOfMemory`. Some front of the report may be written then.
pub fn write_book_report<K: Sink>(
    alloc: Global,
    sink: &mut K,
    table: &JobTable,
    members: u8,
    book: &Book,
) -> Result<(), ReportFault>
    requires few { members ≤ 7 }
    requires members { book.now.members ≡ members }
    requires legal { IsLegalBook table.now book.now }
    requires rest { book.now.pending ≡ None }
    ensures { (text : List ℕ) × IsBookReport table.now book.now text × Writes (K.seen sink.old) (K.seen sink.new) result text }
{
    // What holds of each table makes each name that is held one of its launches.
    let _ = table.window();
    write_report(alloc, sink, table, members, book.ledger().held())
}
