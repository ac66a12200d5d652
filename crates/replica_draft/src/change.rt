ghost use Rattle.std.specs.Prelude.{◌≡◌, Some, IfOk, OnOk};
ghost use Rattle.replica_draft.specs.Draft.{delta_of, with_learned};

use cron_io::OutOfMemory;
use launch_machine::Machine;
use paxos_base::{Ballot, Delta, Entry, EntryList, RowList, Vote};
use std::alloc::Global;
use std::marker::Model;

/// A launch table that comes in the place of all entries below a slot.
#[derive(Debug, Drop)]
pub struct Rebased {
    /// The new base.
    pub slot: u64,
    /// The launch table there.
    pub rows: RowList,
    /// What was learned from the new base on.
    pub since: EntryList,
    /// The machine of the launch table, or none where that is the replica's own.
    pub machine: Option<Machine>,
}

/// Such a table on the heap, so that the drafts without one stay small. Contracts see the table.
#[derive(Debug, Drop)]
pub struct RebasedBox {
    pub table: Box<Rebased>,
}

impl Model for RebasedBox {
    ghost use Rattle.replica_draft.specs.declared.change.Rebased.{Rebased};

    ghost Value = { Rebased };

    ghost view = { λ boxed. boxed.table.value };
}

impl RebasedBox {
    /// Puts a table there.
    pub fn new(alloc: Global, rebased: Rebased) -> Result<RebasedBox, OutOfMemory>
        ensures { IfOk result (λ boxed. boxed ≡ rebased) }
    {
        Ok(RebasedBox {
            table: Box::new(alloc, rebased)?,
        })
    }
}

/// What a step changes on the disk.
#[derive(Debug, Drop)]
pub enum Change {
    /// A ballot of its own was taken up.
    Tried(Ballot),
    /// A ballot was promised.
    Promised(Ballot),
    /// A vote was cast.
    Voted(Vote),
    /// A launch table came in the place of entries.
    Rebased(RebasedBox),
}

impl Change {
    /// The change of what is on the disk that it is, with a copy of the rows where it has some.
    ///
    /// # Errors
    ///
    /// There is no memory for the rows.
    pub fn delta(&self) -> Result<Delta, OutOfMemory>
        ensures { IfOk result (λ delta. delta ≡ delta_of self.now) }
    {
        match self {
            Change::Tried(ballot) => Ok(Delta::Tried(*ballot)),
            Change::Promised(ballot) => Ok(Delta::Promised(*ballot)),
            Change::Voted(vote) => Ok(Delta::Voted(*vote)),
            Change::Rebased(rebased) => Ok(Delta::Base {
                slot: rebased.table.slot,
                rows: rebased.table.rows.clone()?,
            }),
        }
    }

    // Notes an entry that was learned, where it is behind a new base.
    pub(crate) fn learn(&mut self, entry: Entry) -> Result<(), OutOfMemory>
        ensures { OnOk result (Some self.new ≡ with_learned entry (Some self.old)) }
    {
        if let Change::Rebased(rebased) = self {
            rebased.table.since.items.push(entry)?;
        }
        Ok(())
    }
}
