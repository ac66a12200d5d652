//! What a replica is told of many: entries that were chosen, and the rows of a launch table.
ghost use Rattle.std.specs.Prelude.{◌≡◌, ◌+◌, ◌^◌, ◌<◌, [], ◌∷◌, OnOk, length};
ghost use Rattle.step_spec.specs.Act.{Send};
ghost use Rattle.step_spec.specs.Hear.{known_from, send_all};
ghost use Rattle.step_spec.specs.Message.{Only, Snap};
ghost use Rattle.replica_draft.specs.Draft.{HasSent, entries_in};

use crate::draft::{SendList, Sent, Target};
use cron_io::OutOfMemory;
use paxos_base::{Entry, JobRow};
use paxos_letter::Packet;
use step_spec::LearntRow;

/// Tells a replica entries of the slots from one on.
pub fn tell_entries(
    sends: &mut SendList,
    to: u8,
    first: u64,
    entries: &[Entry],
) -> Result<(), OutOfMemory>
    requires { first + length entries.now < 2 ^ 64 }
    ensures { OnOk result (HasSent sends.old.items sends.new.items (send_all to (known_from first entries.now))) }
{
    let mut slot = first;
    for entry in entries {
        let packet = Packet::Known {
            slot,
            entry: *entry,
        };
        sends.push(Sent {
            target: Target::Only(to),
            packet,
        })?;
        slot += 1;
    }
    Ok(())
}

/// Tells a replica the entries of rows that a step has learned, of the slots from one on.
pub fn tell_learnt(
    sends: &mut SendList,
    to: u8,
    first: u64,
    rows: &[LearntRow],
) -> Result<(), OutOfMemory>
    requires { first + length rows.now < 2 ^ 64 }
    ensures { OnOk result (HasSent sends.old.items sends.new.items (send_all to (known_from first (entries_in rows.now)))) }
{
    let mut slot = first;
    for row in rows {
        let packet = Packet::Known {
            slot,
            entry: row.entry,
        };
        sends.push(Sent {
            target: Target::Only(to),
            packet,
        })?;
        slot += 1;
    }
    Ok(())
}

/// Sends a replica a launch table: the rows after the entries below a slot.
pub fn tell_rows(
    sends: &mut SendList,
    to: u8,
    slot: u64,
    rows: &[JobRow],
) -> Result<(), OutOfMemory>
    ensures { OnOk result (HasSent sends.old.items sends.new.items (Send (Only to) (Snap slot rows.now) ∷ [])) }
{
    let count = rows.len() as u64;
    sends.push(Sent {
        target: Target::Only(to),
        packet: Packet::Snap { slot, count },
    })?;
    for row in rows {
        sends.push(Sent {
            target: Target::Only(to),
            packet: Packet::SnapRow { slot, row: *row },
        })?;
    }
    Ok(())
}
