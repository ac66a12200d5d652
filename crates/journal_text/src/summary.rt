//! The summary of a book.
ghost use Rattle.std.specs.Prelude.{◌≡◌, ◌++◌, ◌∷◌, [], ℕ, List, None, decimal};
ghost use Rattle.report_text.specs.Writes.{Writes};
ghost use Rattle.journal_text.specs.Summary.{IsBookSummary, total_of};
ghost use Rattle.world_law.specs.Book.{IsLegalBook};

use cluster_sched::SchedRow;
use cron_io::Sink;
use due_set::JobTable;
use paxos_base::Kind;
use report_text::{ReportFault, write_line, write_text};
use std::alloc::Global;
use std::fmt::Write;
use world_law::Book;

// How many of the rows are of a kind.
fn total(held: &[SchedRow], kind: Kind) -> usize
    ensures { result ≡ total_of held.now kind }
{
    held.iter().filter(|row| row.kind == kind).count()
}

// Writes a word and a number as a line.
fn write_number<K: Sink>(
    sink: &mut K,
    line: &mut String,
    word: &str,
    number: u64,
) -> Result<(), ReportFault>
    ensures { Writes (K.seen sink.old) (K.seen sink.new) result ((word.now ++ decimal number) ++ 10 ∷ []) }
{
    line.clear();
    write!(line, "{word}{number}")?;
    write_line(sink, line)
}

/// Writes the summary of the book of a run that was made from a seed, in which no call is pending, each line by one write.
///
/// # Errors
///
/// `WriteFault` only where a write failed, and `OutOfMemory`. Some front of the summary may be written then.
pub fn write_summary<K: Sink>(
    alloc: Global,
    sink: &mut K,
    table: &JobTable,
    book: &Book,
    seed: u32,
) -> Result<(), ReportFault>
    requires legal { IsLegalBook table.now book.now }
    requires rest { book.now.pending ≡ None }
    ensures { (text : List ℕ) × IsBookSummary table.now seed book.now text
        × Writes (K.seen sink.old) (K.seen sink.new) result text }
{
    let held = book.ledger().held();
    let mut line = String::new(alloc);
    write_text(sink, &mut line, "cron make 1")?;
    write_number(sink, &mut line, "seed ", seed as u64)?;
    write_number(sink, &mut line, "jobs ", table.jobs() as u64)?;
    write_number(
        sink,
        &mut line,
        "launched ",
        total(held, Kind::Launch) as u64,
    )?;
    write_number(sink, &mut line, "void ", total(held, Kind::Void) as u64)?;
    write_text(sink, &mut line, "end")
}
