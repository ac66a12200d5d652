ghost use Rattle.std.specs.Prelude.{◌≡◌, ◌≤◌, ◌<◌, ◌+◌, ℕ, IfSome, IfNone};
ghost use Rattle.due_set.specs.Table.{version_count};
ghost use Rattle.job_table.specs.Table.{IsDueCount, IsVersionCount};

use due_set::JobTable;

/// The limit on the due instants of a run.
const MOST_DUE: u32 = 20_000;

/// How much the table's jobs take of the limit on due instants over all versions; `None` for more than 20,000.
pub fn count_due(table: &JobTable) -> Option<u32>
    ensures counted { IfSome result (λ count. IsDueCount table.now count) }
    ensures few { IfSome result (λ count. count ≤ 20_000) }
    ensures many { IfNone result ((count : ℕ) → IsDueCount table.now count → 20_000 < count) }
{
    let mut total = 0;
    for version in 0..table.versions() {
        total = add_version(table, version, total)?;
    }
    Some(total)
}

// How much the jobs take in a version, beside so much; `None` for more than 20,000 together.
fn add_version(table: &JobTable, version: u32, before: u32) -> Option<u32>
    requires version { version < version_count table.now }
    requires before { before ≤ 20_000 }
    ensures counted { IfSome result (λ total. (count : ℕ) × IsVersionCount table.now version count × (total ≡ before + count)) }
    ensures few { IfSome result (λ total. total ≤ 20_000) }
    ensures many { IfNone result ((count : ℕ) → IsVersionCount table.now version count → 20_000 < before + count) }
{
    let mut total = before;
    for job in 0..table.jobs() {
        let share = table.count_due(version, job);
        if share > MOST_DUE - total {
            return None;
        }
        total += share;
    }
    Some(total)
}
