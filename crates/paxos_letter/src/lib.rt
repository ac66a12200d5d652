//! The letters between replicas. A list of packets has one spelling, which `write_letter` appends (`spelling`).
//! `Letter::read` takes exactly the bytes that are the spelling of a letter, with that letter's sender and packets
//! (clauses `found`, `only`); otherwise it names the first rule that is broken, and the packet that breaks it
//! (clause `fault`, `letter_fault_of`). `Letter::packets` gives the packets in their order, each decoded in place as it is
//! asked for (`Packets`, `next_gives`), and `copy` looks ahead of them. None of these calls takes memory. Letters
//! differ in their bytes (`letters_differ_in_their_bytes`), a letter has a packet or more of 56 bytes each
//! (`letters_have_packets`), and packets are a letter exactly if their spelling breaks no rule
//! (`letters_break_no_rule`). `packet_bytes` and `packet_in` write and read one packet by itself. `kinds`, `fields`,
//! `encoding` and `decoding` have the packets as fields, `rules`, `group` and `checking` the rules, `writing`,
//! `letter` and `single` the calls.
//!
//! A packet has the fields that `paxos_base` lays out, and numbers are big endian. Beside its kind and the replica that
//! it is from, it uses these; a field that it does not use is 0:
//!
//! | Kind | Packet | Fields |
//! |---|---|---|
//! | 1 | `Prepare` | ballot, slot |
//! | 2 | `Promise` | ballot, slot, old = how many `OldVote` follow directly |
//! | 3 | `OldVote` | ballot, slot, old = the ballot that the vote was cast in, entry |
//! | 4 | `Accept` | ballot, slot, entry |
//! | 5 | `Accepted` | ballot, slot |
//! | 6 | `Nack` | ballot, old = the ballot promised |
//! | 7 | `Known` | slot, entry |
//! | 8 | `AskFrom` | slot |
//! | 9 | `Snap` | slot, old = how many `SnapRow` follow directly |
//! | 10 | `SnapRow` | slot, tag, job, ballot = launched, old = voided, at = cursor, now = open_now, last |
//! | 11 | `Lead` | ballot, slot |
//!
//! An entry fills tag, job, at and now. In a row's tag bit 0 says that there is a cursor, bit 1 that the job is open,
//! which needs a cursor, and bit 2 that there is a last; a value that is not there is 0. Rows stand in the order of
//! their jobs, from 0. Of `Prepare`, `Accept` and `Snap` a letter has at most one packet. `LetterFault` says in which
//! order the rules are tested.
#![tactic(auto)]

mod checking;
mod decoding;
mod encoding;
mod fault;
mod fields;
mod group;
mod kinds;
mod laws;
mod letter;
mod packet;
mod rules;
mod single;
mod writing;

pub use fault::LetterFault;
pub use laws::{
    copies_are_letters, letters_break_no_rule, letters_differ_in_their_bytes, letters_have_packets,
};
pub use letter::{Letter, Packets};
pub use packet::{LetterBytes, Packet};
pub use single::{packet_bytes, packet_in};
pub use writing::write_letter;
