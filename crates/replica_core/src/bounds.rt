//! The bounds that a replica counts with: a letter beyond them is heard as one without packets.
ghost use Rattle.std.specs.Prelude.{◌≡◌, ◌↔◌, ◌^◌, IsTrue};
ghost use Rattle.paxos_base.specs.declared.rows.TableSize.{TableSize};
ghost use Rattle.step_spec.specs.Letters.{are_small, is_small, is_small_ballot, is_small_letter, is_small_row, is_small_slot};
ghost use Rattle.replica_core.specs.Counts.{highest_count};
ghost use Rattle.replica_core.specs.Replica.{IsSmall, IsWhole, state_of};
ghost use Rattle.launch_machine.specs.Machine.{CountsBelow};

use crate::parts::Core;
use paxos_base::{Ballot, JobRow, TableSize};
use paxos_letter::{Letter, Packet, Packets};

fn is_small_ballot(ballot: &Ballot) -> bool
    ensures { result ≡ is_small_ballot ballot.now }
{
    ballot.round() < 1 << 59
}

fn is_small_slot(slot: u64) -> bool
    ensures { result ≡ is_small_slot slot }
{
    slot < 1 << 62
}

fn is_small_row(row: &JobRow) -> bool
    ensures { result ≡ is_small_row row.now }
{
    row.launched < 1 << 31 && row.voided < 1 << 31
}

// Whether what a packet carries is within the bounds, a copy of rows has as many as the table's size asks, and its rows fit.
fn is_small(size: TableSize, packet: &Packet) -> bool
    ensures { result ≡ is_small size packet.now }
{
    match packet {
        Packet::Prepare { ballot, slot }
        | Packet::Promise { ballot, slot, .. }
        | Packet::Accept { ballot, slot, .. }
        | Packet::Accepted { ballot, slot }
        | Packet::Lead { ballot, slot } => is_small_ballot(ballot) && is_small_slot(*slot),
        Packet::OldVote {
            ballot,
            slot,
            cast,
            ..
        } => is_small_ballot(ballot) && is_small_slot(*slot) && is_small_ballot(cast),
        Packet::Nack { ballot, promised } => is_small_ballot(ballot) && is_small_ballot(promised),
        Packet::Known { slot, .. } | Packet::AskFrom { slot } => is_small_slot(*slot),
        Packet::Snap { slot, count } => is_small_slot(*slot) && *count == size.row_count(),
        Packet::SnapRow { slot, row } => {
            is_small_slot(*slot) && is_small_row(row) && row.fits_table(size)
        }
    }
}

// Whether each packet is.
fn are_small(size: TableSize, packets: Packets<'_>) -> bool
    ensures { result ≡ are_small size packets.entry }
{
    for packet in packets {
        if !is_small(size, &packet) {
            return false;
        }
    }
    true
}

/// Whether a letter has fewer than 2^31 packets, each of them within the bounds.
pub fn is_small_letter(size: TableSize, letter: &Letter<'_>) -> bool
    ensures { result ≡ is_small_letter size letter.now.packets }
{
    letter.count() < 1 << 31 && are_small(size, letter.packets())
}

impl Core {
    /// Whether the numbers of the replica are within the bounds that a step needs.
    pub fn is_small(&self) -> bool
        requires { IsWhole self.now }
        ensures { IsTrue result ↔ IsSmall (state_of self.now) self.now.machine.rows }
    {
        self.tried < 1 << 59
            && self.seen / 8 < 1 << 59
            && self.learner.prefix() < 1 << 62
            && self.has_small_counts()
    }

    // Whether each count of the launch table is.
    fn has_small_counts(&self) -> bool
        requires { self.now.high_count ≡ highest_count self.now.machine.rows }
        ensures { IsTrue result ↔ CountsBelow (2 ^ 31) self.now.machine.rows }
    {
        self.high_count < 1 << 31
    }
}
