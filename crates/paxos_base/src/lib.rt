//! The words of Paxos, each call its definition. Ballots are ordered as their numbers (`Ballot`). Two majorities of
//! the same replicas share one (`majorities_meet`). A list of votes has one vote at a slot at most
//! (`slots_have_one_vote`), and is looked up and changed by slot (`vote_at`, `put_vote`, `a_vote_takes_its_slot`).
//! An entry is written into a packet and read back exactly (`put_entry`, `get_entry`). `after_delta` says what a
//! change does to what a replica keeps on its disk (`a_change_brings_what_it_names`); `Durable::apply` does it, or
//! nothing changes when memory runs out (clauses `changed`, `unchanged`); `fresh_rows` says with which rows a
//! replica begins. `layout` has the places of a packet's fields, for entries, letters and the store.
#![tactic(auto)]

mod ballot;
mod durable;
mod entry;
mod laws;
pub mod layout;
mod members;
mod rows;
mod votes;
mod wire;

pub use ballot::Ballot;
pub use durable::{Delta, Durable};
pub use entry::{Entry, EntryList, Kind, Vote, VoteList};
pub use laws::{
    a_change_brings_what_it_names, a_vote_takes_its_slot, majorities_meet, slots_have_one_vote,
    votes_stay_from_a_slot_on,
};
pub use layout::PACKET_BYTES;
pub use members::{Members, majority};
pub use rows::{JobRow, RowList, TableSize, rows_stand};
pub use votes::{place_of, put_vote, vote_at};
pub use wire::{EntryFault, entry_of, get_entry, numbers_of, put_entry};
