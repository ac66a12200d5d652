//! Reading the records of an area.
ghost use Rattle.std.specs.Prelude.{◌≡◌, ◌↔◌, ℕ, Option, Ok, Err, IfOk, IfSome, IsTrue, MatchResult};
ghost use Rattle.paxos_base.specs.declared.rows.TableSize.{TableSize};
ghost use Rattle.paxos_base.specs.declared.durable.Durable.{Durable};
ghost use Rattle.store_format.specs.Area.{BeginsInFormat1, StandFor, IsFirstRecordAtFault};
ghost use Rattle.store_format.specs.Beside.{beside, IsBehindGroup};
ghost use Rattle.store_format.specs.Order.{IsKeptSound};

use crate::body::{Record, record_in};
use crate::fault::ReadFault;
use crate::reader::Reader;
use gate_file::Body56;
use paxos_base::{Ballot, Durable, TableSize};
use std::alloc::Global;

/// Whether the bodies begin with a base of format 1, whose group has a row for each job and none of the table's own.
pub fn begins_in_format_1(size: TableSize, bodies: &[Body56]) -> bool
    ensures { IsTrue result ↔ BeginsInFormat1 size bodies.now }
{
    let Some(body) = bodies.first() else {
        return false;
    };
    match record_in(&body.bytes) {
        Some(Record::Base { count, .. }) => count == u64::from(size.jobs),
        _ => false,
    }
}

/// What the bodies of an area stand for: what is kept, of a table of that size, and the replica's own ballot, that of the
/// last Tried. Takes constant time for each body but for a vote below an earlier vote's slot.
///
/// # Errors
///
/// `Damaged` where the bodies stand for nothing, with the first one at fault, or want of memory.
pub fn read_records(
    alloc: Global,
    size: TableSize,
    bodies: &[Body56],
) -> Result<(Durable, Option<Ballot>), ReadFault>
    ensures found { IfOk result (λ state. StandFor size bodies.now state.0 state.1) }
    ensures sound { IfOk result (λ state. IsKeptSound state.0 state.1) }
    // Bodies that stand for a state are read, unless memory runs out.
    ensures only { (kept : Durable) (own : Option ℕ) → StandFor size bodies.now kept own
        → MatchResult result (λ state. (state.0 ≡ kept) × (state.1 ≡ own)) (λ fault. fault ≡ ReadFault.OutOfMemory) }
    ensures damaged { (k : ℕ) → result ≡ Err (ReadFault.Damaged k) → IsFirstRecordAtFault size bodies.now k }
{
    let mut reader = Reader::new(alloc, size)?;
    for (number, body) in bodies.iter().enumerate() {
        let record = number as u64;
        let Some(item) = record_in(&body.bytes) else {
            return Err(ReadFault::Damaged { record });
        };
        let Some(place) = reader.place.next(size, &reader.kept, &item) else {
            return Err(ReadFault::Damaged { record });
        };
        reader.take(size, place, &item)?;
    }
    if reader.place.is_in_group() {
        let record = bodies.len() as u64;
        return Err(ReadFault::Damaged { record });
    }
    Ok((reader.kept, reader.own))
}

// The slot of the base that the bodies begin with, and those behind its group, where they begin with a whole one.
fn behind_group(bodies: &[Body56]) -> Option<(u64, &[Body56])>
    ensures { IfSome result (λ found. IsBehindGroup bodies.now found.0 found.1.now) }
{
    let (first, tail) = bodies.split_first()?;
    match record_in(&first.bytes) {
        Some(Record::Base { slot, count }) if count <= tail.len() as u64 => {
            Some((slot, &tail[count as usize..]))
        }
        _ => None,
    }
}

/// What the bodies of an area stand for, as [`read_records`] answers it, but with other rows where they begin with a base:
/// those of its group are passed over unread. So its time goes by the bodies behind the group.
///
/// # Errors
///
/// Want of memory, and any where the bodies stand for nothing.
pub fn read_beside_rows(
    alloc: Global,
    size: TableSize,
    bodies: &[Body56],
) -> Result<(Durable, Option<Ballot>), ReadFault>
    ensures only { (kept : Durable) (own : Option ℕ) → StandFor size bodies.now kept own
        → MatchResult result (λ state. (state.0 ≡ beside state.0.rows kept) × (state.1 ≡ own)) (λ fault. fault ≡ ReadFault.OutOfMemory) }
    ensures sound { (kept : Durable) (own : Option ℕ) → StandFor size bodies.now kept own
        → IfOk result (λ state. IsKeptSound state.0 state.1) }
{
    let Some((slot, rest)) = behind_group(bodies) else {
        return read_records(alloc, size, bodies);
    };
    let mut reader = Reader::behind_group(alloc, slot);
    for body in rest {
        let Some(item) = record_in(&body.bytes) else {
            return read_records(alloc, size, bodies);
        };
        let Some(place) = reader.place.next(size, &reader.kept, &item) else {
            return read_records(alloc, size, bodies);
        };
        reader.take(size, place, &item)?;
    }
    Ok((reader.kept, reader.own))
}
