ghost use Rattle.paxos_base.specs.declared.entry.Entry.{Entry};
ghost use Rattle.std.specs.Prelude.{◌≡◌, ◌<◌, ◌↔◌, IfOk};
ghost use Rattle.paxos_base.specs.Packet.{Field, field_of};
ghost use Rattle.paxos_base.specs.EntryFields.{entry_numbers, numbers_of, FitEntryFields, entry_bytes, entry_fields, IsEntryField, tag_of, HasStrayBytes, HasStrayNumbers};

use crate::entry::{Entry, Kind};
use crate::layout::{AT, JOB, NOW, PACKET_BYTES, TAG, minute_at, put_bytes, put_minute, u32_at};

/// Why a packet's bytes are no entry.
#[derive(Clone, Copy, Debug, PartialEq, Eq)]
pub enum EntryFault {
    /// The tag is above 4.
    Tag,
    /// A field that the entry has no use for is not 0.
    NotZero,
}

/// The tag, the job and the two minutes of an entry's fields.
pub fn numbers_of(entry: Entry) -> (u8, u32, i64, i64)
    ensures { numbers_of entry ≡ entry_numbers result.0 result.1 result.2 result.3 }
{
    match entry {
        Entry::Noop => (0, 0, 0, 0),
        Entry::Start { job, at, now } => (1, job, at, now),
        Entry::End { job, at, kind } => match kind {
            Kind::Launch => (2, job, at, 0),
            Kind::Void => (3, job, at, 0),
        },
        Entry::Table { version, now } => (4, version, 0, now),
    }
}

/// The entry that has these in its fields. A tag above 4 is reported as such, whatever the other fields are.
pub fn entry_of(tag: u8, job: u32, at: i64, now: i64) -> Result<Entry, EntryFault>
    ensures found { IfOk result (λ entry. numbers_of entry ≡ entry_numbers tag job at now) }
    ensures only { (entry : Entry) → numbers_of entry ≡ entry_numbers tag job at now → result ≡ Ok entry }
    ensures tag { (result ≡ Err EntryFault.Tag) ↔ (4 < tag) }
    ensures not_zero { (result ≡ Err EntryFault.NotZero) ↔ HasStrayNumbers (entry_numbers tag job at now) }
{
    match tag {
        0 if job != 0 || at != 0 || now != 0 => Err(EntryFault::NotZero),
        0 => Ok(Entry::Noop),
        1 => Ok(Entry::Start { job, at, now }),
        2 | 3 if now != 0 => Err(EntryFault::NotZero),
        2 => Ok(Entry::End {
            job,
            at,
            kind: Kind::Launch,
        }),
        3 => Ok(Entry::End {
            job,
            at,
            kind: Kind::Void,
        }),
        4 if at != 0 => Err(EntryFault::NotZero),
        4 => Ok(Entry::Table { version: job, now }),
        _ => Err(EntryFault::Tag),
    }
}

/// Writes an entry into the fields of a packet that are an entry's: tag, job, at and now. The other bytes stay.
pub fn put_entry(entry: Entry, into: &mut [u8; PACKET_BYTES])
    ensures fields { entry_fields into.new ≡ entry_bytes entry }
    ensures fits { FitEntryFields (numbers_of entry) }
    ensures others { (field : Field) → ¬ IsEntryField field → field_of into.new field ≡ field_of into.old field }
{
    let (tag, job, at, now) = numbers_of(entry);
    put_bytes(into, TAG, &[tag]);
    put_bytes(into, JOB, &job.to_be_bytes());
    put_minute(into, AT, at);
    put_minute(into, NOW, now);
}

/// The entry in a packet's fields tag, job, at and now. A tag above 4 is reported as such, whatever the other fields
/// are.
pub fn get_entry(from: &[u8; PACKET_BYTES]) -> Result<Entry, EntryFault>
    // What is read is spelled so.
    ensures found { IfOk result (λ entry. entry_fields from.now ≡ entry_bytes entry) }
    ensures fits { IfOk result (λ entry. FitEntryFields (numbers_of entry)) }
    // What is spelled so is read.
    ensures only { (entry : Entry) → FitEntryFields (numbers_of entry) → entry_fields from.now ≡ entry_bytes entry → result ≡ Ok entry }
    ensures tag { (result ≡ Err EntryFault.Tag) ↔ (4 < tag_of from.now) }
    ensures not_zero { (result ≡ Err EntryFault.NotZero) ↔ HasStrayBytes from.now }
{
    entry_of(
        from[TAG],
        u32_at(from, JOB),
        minute_at(from, AT),
        minute_at(from, NOW),
    )
}
