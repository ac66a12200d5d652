ghost use Rattle.std.specs.Prelude.{◌<◌, length, IfOk};
ghost use Rattle.due_set.specs.Table.{IsJobDueList, version_count};
ghost use Rattle.due_list.specs.Parts.{numbers_of_instants};

use cron_io::OutOfMemory;
use due_set::JobTable;
use std::alloc::Global;
use zone_minutes::Minute;

/// The job's due instants in a version, in order.
pub fn dues_of(
    alloc: Global,
    table: &JobTable,
    version: u32,
    job: u32,
) -> Result<Vec<Minute>, OutOfMemory>
    requires version { version < version_count table.now }
    requires job { job < length table.now.jobs }
    ensures { IfOk result (λ dues. IsJobDueList table.now version job (numbers_of_instants dues.items)) }
{
    let mut dues = Vec::new(alloc);
    let mut last = None;
    'dues: while let Some(due) = table.next_due(version, job, last) {
        dues.push(due)?;
        last = Some(due);
    }
    Ok(dues)
}
