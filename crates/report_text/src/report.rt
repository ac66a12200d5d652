ghost use Rattle.std.specs.Prelude.{◌≡◌, ℕ, List, length, map, All};
ghost use Rattle.std.specs.List.{range_with_len};
ghost use Rattle.cluster_sched.specs.Names.{IsNameIn};
ghost use Rattle.cluster_sched.specs.declared.row.SchedRow.{SchedRow};
ghost use Rattle.report_text.specs.Counts.{counts_of_job};
ghost use Rattle.cron_io.specs.Lines.{text_of_lines};
ghost use Rattle.report_text.specs.Report.{IsReport, count_line, head_lines, row_line};
ghost use Rattle.report_text.specs.Writes.{Writes};

use crate::count::{Counts, counts_by_job};
use crate::fault::ReportFault;
use crate::order::rows_in_order;
use crate::write::{
    write_count, write_job_number, write_members, write_row, write_text, write_window,
};
use cluster_sched::SchedRow;
use cron_io::Sink;
use due_set::JobTable;
use std::alloc::Global;

fn write_head<K: Sink>(
    sink: &mut K,
    line: &mut String,
    table: &JobTable,
    members: u8,
) -> Result<(), ReportFault>
    ensures { Writes (K.seen sink.old) (K.seen sink.new) result (text_of_lines (head_lines table.now members)) }
{
    write_text(sink, line, "cron report 1")?;
    write_window(sink, line, table.window())?;
    write_members(sink, line, members)?;
    write_job_number(sink, line, table.jobs())
}

fn write_counts<K: Sink>(
    sink: &mut K,
    line: &mut String,
    table: &JobTable,
    counts: &[Counts],
) -> Result<(), ReportFault>
    requires { length counts.now ≡ length table.now.jobs }
    ensures { (held : List SchedRow) → counts.now ≡ map (counts_of_job held) (range_with_len 0 (length table.now.jobs))
        → Writes (K.seen sink.old) (K.seen sink.new) result
        (text_of_lines (map (count_line table.now held) (range_with_len 0 (length table.now.jobs)))) }
{
    for job in 0..table.jobs() {
        write_count(sink, line, table, job, counts[job as usize])?;
    }
    Ok(())
}

fn write_rows<K: Sink>(
    sink: &mut K,
    line: &mut String,
    table: &JobTable,
    rows: &[SchedRow],
) -> Result<(), ReportFault>
    requires { All (λ row. IsNameIn table.now row.name) rows.now }
    ensures { Writes (K.seen sink.old) (K.seen sink.new) result (text_of_lines (map (row_line table.now) rows.now)) }
{
    for row in rows {
        write_row(sink, line, table, *row)?;
    }
    Ok(())
}

/// Writes the report of a run of so many replicas over the rows that are held, each line by one write.
///
/// # Errors
///
/// `WriteFault` only where a write failed, and `OutOfMemory`. Some front of the report may be written then.
pub fn write_report<K: Sink>(
    alloc: Global,
    sink: &mut K,
    table: &JobTable,
    members: u8,
    held: &[SchedRow],
) -> Result<(), ReportFault>
    requires { All (λ row. IsNameIn table.now row.name) held.now }
    ensures { (text : List ℕ) × IsReport table.now members held.now text
        × Writes (K.seen sink.old) (K.seen sink.new) result text }
{
    let rows = rows_in_order(alloc, held)?;
    let counts = counts_by_job(alloc, table.jobs(), held)?;
    let mut line = String::new(alloc);
    write_head(sink, &mut line, table, members)?;
    write_counts(sink, &mut line, table, &counts)?;
    write_rows(sink, &mut line, table, &rows)?;
    write_text(sink, &mut line, "end")
}
