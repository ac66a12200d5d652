//! Long letters: want of memory is answered only where there is none.
ghost use Rattle.std.specs.Prelude.{OnOk};
ghost use Rattle.replica_core.specs.Step.{IsOfTable};

use crate::builders::{empty_table, first_of_three, hear};
use due_set::JobTable;
use paxos_base::Entry;
use paxos_letter::{Packet, packet_bytes};
use replica_core::Replica;
use std::alloc::{AllocError, Global};
use std::process::Abort;
use std::test::*;

// How many entries a long letter tells.
const ENTRIES: u64 = 2_000;

// A letter of replica 1 that tells so many entries.
fn long_letter(alloc: Global) -> Result<Vec<u8>, AllocError> {
    let mut bytes = Vec::new(alloc);
    for slot in 0..ENTRIES {
        let entry = Entry::Noop;
        bytes.extend_from_slice(&packet_bytes(1, &Packet::Known { slot, entry }))?;
    }
    Ok(bytes)
}

// The entries are learned.
fn learns(
    rt: &impl Abort,
    table: &JobTable,
    replica: &mut Replica,
    bytes: &[u8],
) -> Result<(), Fail>
    requires { IsOfTable table.now replica.old }
    ensures { OnOk result (IsOfTable table.now replica.new) }
{
    let out = hear(rt, table, replica, bytes)?;
    assert_eq!(rt; out.learnt.items.len(), 2_000);
    Ok(())
}

// They are told to replica 1, in one letter.
fn tells(rt: &impl Abort, table: &JobTable, replica: &mut Replica) -> Result<(), Fail>
    requires { IsOfTable table.now replica.old }
{
    let ask = packet_bytes(1, &Packet::AskFrom { slot: 0 });
    let out = hear(rt, table, replica, &ask)?;
    let letter = out.letters.items.first().ok_or("no letter")?;
    assert_eq!(rt; letter.bytes.bytes().len(), 2_000 * 56);
    Ok(())
}

#[test]
fn a_long_letter_is_heard_and_told(rt: HostRuntime) -> Result<(), Fail> {
    let table = empty_table(rt.alloc())?;
    let mut replica = first_of_three(rt.alloc(), &table)?;
    let bytes = long_letter(rt.alloc())?;
    learns(&rt, &table, &mut replica, &bytes)?;
    tells(&rt, &table, &mut replica)
}
