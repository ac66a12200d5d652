//! A report beside that of a book.
ghost use Rattle.std.specs.Prelude.{◌≡◌, ◌≤◌, ℕ, List, None, length, IfOk};
ghost use Rattle.report_text.specs.Book.{IsBookReport};
ghost use Rattle.run_text.specs.Reading.{IsReadRun};
ghost use Rattle.run_text.specs.Run.{run_of};
ghost use Rattle.run_audit.specs.Audit.{IsJournalOf};
ghost use Rattle.world_law.specs.Book.{IsLegalBook};
ghost use Rattle.audit_finding.specs.Finding.{IsFoundOf};

use crate::finding::{Fault, Finding};
use crate::text_sink::TextSink;
use audit_text::first_other_line;
use cron_io::OutOfMemory;
use due_set::JobTable;
use report_text::write_book_report;
use run_text::RunFile;
use std::alloc::Global;
use world_law::Book;

/// Compares a report with that of the book of a journal.
///
/// # Errors
///
/// Want of memory.
pub fn compare_report(
    alloc: Global,
    run: &RunFile<'_>,
    table: &JobTable,
    report: &str,
    book: Book,
) -> Result<Finding, OutOfMemory>
    requires run { IsReadRun run.now }
    requires short { length report.now ≤ 67_108_864 }
    requires legal { IsLegalBook table.now book }
    requires rest { book.pending ≡ None }
    requires members { book.members ≡ (run_of run.now).members }
    ensures { (journal : List ℕ) → IsJournalOf (run_of run.now) table.now journal book
        → IfOk result (IsFoundOf (run_of run.now) table.now report.now journal) }
{
    let expected = report_of(alloc, table, run.members, &book)?;
    match first_other_line(report.as_bytes(), &expected) {
        None => Ok(Finding::Passes { book }),
        Some(line) => Ok(Finding::Fails {
            line,
            fault: Fault::Report,
        }),
    }
}

// The report of a book.
fn report_of(
    alloc: Global,
    table: &JobTable,
    members: u8,
    book: &Book,
) -> Result<Vec<u8>, OutOfMemory>
    requires few { members ≤ 7 }
    requires members { book.now.members ≡ members }
    requires legal { IsLegalBook table.now book.now }
    requires rest { book.now.pending ≡ None }
    ensures { IfOk result (λ text. IsBookReport table.now book.now text.items) }
{
    let mut sink = TextSink::new(alloc);
    match write_book_report(alloc, &mut sink, table, members, book) {
        Ok(()) => Ok(sink.bytes),
        // A write to memory fails for want of it alone.
        Err(_) => Err(OutOfMemory),
    }
}
