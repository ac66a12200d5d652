//! Writing the records of a base.
ghost use Rattle.std.specs.Prelude.{◌≡◌, ℕ, [], ◌∷◌, ◌++◌, map, IfOk, OnOk};
ghost use Rattle.paxos_base.specs.declared.rows.TableSize.{TableSize};
ghost use Rattle.paxos_base.specs.declared.durable.Delta.TheVariants.{Base};
ghost use Rattle.paxos_base.specs.Durable.{after_delta};
ghost use Rattle.paxos_base.specs.Rows.{OpenHaveCursors, RowsStand};
ghost use Rattle.paxos_base.specs.Vote.{votes_from};
ghost use Rattle.store_format.specs.Area.{BeginsInFormat1, StandFor, base_records, promise_above, group_of, tried_records, promised_records};
ghost use Rattle.store_format.specs.Order.{IsKeptSound};
ghost use Rattle.store_format.specs.Records.{record_bytes, AreRecords, RowHasCursor};
ghost use Rattle.store_format.specs.Written.{AddsRecords};

use crate::body::{Record, record_bytes};
use crate::order::is_above;
use cron_io::OutOfMemory;
use gate_file::Body56;
use paxos_base::{Ballot, Durable, JobRow, RowList, Vote, VoteList, place_of};
use std::alloc::Global;

// The bodies of an area.
type Bodies = Vec<Body56>;

fn put(item: Record, bodies: &mut Bodies) -> Result<(), OutOfMemory>
    requires { RowHasCursor item }
    ensures { OnOk result (AddsRecords (item ∷ []) bodies.old.items bodies.new.items) }
{
    bodies.push(Body56 {
        bytes: record_bytes(&item),
    })?;
    Ok(())
}

fn put_rows(slot: u64, rows: &[JobRow], bodies: &mut Bodies) -> Result<(), OutOfMemory>
    requires { OpenHaveCursors rows.now }
    ensures { OnOk result (AddsRecords (map (λ row. Record.Row slot row) rows.now) bodies.old.items bodies.new.items) }
{
    for row in rows {
        put(Record::Row { slot, row: *row }, bodies)?;
    }
    Ok(())
}

fn put_group(slot: u64, rows: &RowList, bodies: &mut Bodies) -> Result<(), OutOfMemory>
    ensures { OnOk result (AddsRecords (group_of slot rows.now) bodies.old.items bodies.new.items) }
{
    let count = rows.items.len() as u64;
    put(Record::Base { slot, count }, bodies)?;
    put_rows(slot, &rows.items, bodies)
}

// The promise is written where it is above the replica's own ballot.
fn put_ballots(
    own: Option<Ballot>,
    promised: Option<Ballot>,
    bodies: &mut Bodies,
) -> Result<(), OutOfMemory>
    ensures { OnOk result (AddsRecords (tried_records own ++ promised_records (promise_above own promised)) bodies.old.items bodies.new.items) }
{
    if let Some(ballot) = own {
        put(Record::Tried(ballot), bodies)?;
    }
    match promised {
        Some(promised) if is_above(promised, own) => put(Record::Promised(promised), bodies),
        _ => Ok(()),
    }
}

fn put_votes(votes: &[Vote], bodies: &mut Bodies) -> Result<(), OutOfMemory>
    ensures { OnOk result (AddsRecords (map (λ vote. Record.Voted vote) votes.now) bodies.old.items bodies.new.items) }
{
    for vote in votes {
        put(Record::Voted(*vote), bodies)?;
    }
    Ok(())
}

fn put_votes_from(slot: u64, votes: &VoteList, bodies: &mut Bodies) -> Result<(), OutOfMemory>
    ensures { OnOk result (AddsRecords (map (λ vote. Record.Voted vote) (votes_from slot votes.now)) bodies.old.items bodies.new.items) }
{
    let votes = &votes.items;
    put_votes(&votes[place_of(votes, slot)..], bodies)
}

// How many records a base takes at most: beside the rows and the votes the group's first one and two ballots.
fn most_records(votes: &VoteList, rows: &RowList) -> usize {
    let beside = votes.items.len().saturating_add(3);
    rows.items.len().saturating_add(beside)
}

/// The bodies of what is kept after a base: its group, the replica's own ballot, the promise where it is above that, and
/// each vote from the base on.
pub fn write_base(
    alloc: Global,
    kept: &Durable,
    own: Option<Ballot>,
    slot: u64,
    rows: &RowList,
) -> Result<Vec<Body56>, OutOfMemory>
    ensures bodies { IfOk result (λ bodies. bodies.items ≡ map record_bytes (base_records kept.now own slot rows.now)) }
    ensures records { IfOk result (λ bodies. AreRecords bodies.items (base_records kept.now own slot rows.now)) }
    ensures stand { (size : TableSize) → IsKeptSound kept.now own → RowsStand rows.now size
        → IfOk result (λ bodies. StandFor size bodies.items (after_delta (Base slot rows.now) kept.now) own) }
    ensures format { (size : TableSize) → RowsStand rows.now size → IfOk result (λ bodies. BeginsInFormat1 size bodies.items → ⊥) }
{
    let mut bodies = Vec::with_capacity(alloc, most_records(&kept.votes, rows))?;
    put_group(slot, rows, &mut bodies)?;
    put_ballots(own, kept.promised, &mut bodies)?;
    put_votes_from(slot, &kept.votes, &mut bodies)?;
    Ok(bodies)
}
