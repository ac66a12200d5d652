ghost use Rattle.std.specs.Prelude.{IfOk};
ghost use Rattle.report_text.specs.Report.{IsInOrder};

use cluster_sched::SchedRow;
use std::alloc::{AllocError, Global};

/// The rows by job, and those of a job by instant.
pub fn rows_in_order(alloc: Global, held: &[SchedRow]) -> Result<Vec<SchedRow>, AllocError>
    ensures { IfOk result (λ rows. IsInOrder held.now rows.items) }
{
    let mut rows = Vec::from_slice(alloc, held)?;
    rows.sort_by_key(|row| row.name)?;
    Ok(rows)
}
