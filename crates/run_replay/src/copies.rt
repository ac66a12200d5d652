//! Copies of what replicas keep.
ghost use Rattle.std.specs.Prelude.{◌≡◌, IfOk};

use cron_io::OutOfMemory;
use paxos_base::{Delta, Durable};

/// An equal change.
pub(crate) fn copy_of(change: &Delta) -> Result<Delta, OutOfMemory>
    ensures { IfOk result (λ copy. copy ≡ change.now) }
{
    match change {
        Delta::Tried(ballot) => Ok(Delta::Tried(*ballot)),
        Delta::Promised(ballot) => Ok(Delta::Promised(*ballot)),
        Delta::Voted(vote) => Ok(Delta::Voted(*vote)),
        Delta::Base { slot, rows } => {
            let rows = rows.clone()?;
            Ok(Delta::Base { slot: *slot, rows })
        }
    }
}

/// The same, of what a replica keeps.
pub(crate) fn copy_of_kept(kept: &Durable) -> Result<Durable, OutOfMemory>
    ensures { IfOk result (λ copy. copy ≡ kept.now) }
{
    let votes = kept.votes.clone()?;
    let rows = kept.rows.clone()?;
    Ok(Durable {
        tried: kept.tried,
        promised: kept.promised,
        votes,
        base: kept.base,
        rows,
    })
}
