ghost use Rattle.std.specs.Prelude.{◌≡◌, ◌+◌, ◌<◌, ◌^◌, map, All, IfOk};
ghost use Rattle.std.specs.List.{range_with_len};
ghost use Rattle.report_text.specs.Counts.{counted, counts_of_job};

use cluster_sched::SchedRow;
use paxos_base::Kind;
use std::alloc::{AllocError, Global};

/// How many rows of a job there are, of each kind.
#[derive(Clone, Copy, Debug, PartialEq, Eq)]
pub struct Counts {
    pub launched: usize,
    pub voided: usize,
}

// The counts with one more of the kind.
fn with_one_more(counts: Counts, kind: Kind) -> Counts
    requires launched { counts.launched + 1 < 2 ^ 64 }
    requires voided { counts.voided + 1 < 2 ^ 64 }
    ensures { result ≡ counted kind counts }
{
    match kind {
        Kind::Launch => Counts {
            launched: counts.launched + 1,
            ..counts
        },
        Kind::Void => Counts {
            voided: counts.voided + 1,
            ..counts
        },
    }
}

/// The counts of so many jobs, in one pass over the rows.
pub fn counts_by_job(alloc: Global, jobs: u32, held: &[SchedRow]) -> Result<Vec<Counts>, AllocError>
    requires { All (λ row. row.name.job < jobs) held.now }
    ensures { IfOk result (λ counts. counts.items ≡ map (counts_of_job held.now) (range_with_len 0 jobs)) }
{
    let none = Counts {
        launched: 0,
        voided: 0,
    };
    let mut counts = vec![in alloc; none; jobs as usize]?;
    for row in held {
        let job = row.name.job as usize;
        counts[job] = with_one_more(counts[job], row.kind);
    }
    Ok(counts)
}
