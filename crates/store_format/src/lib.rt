//! What the records of a disk area stand for. The bodies stand for one state at most (`records_stand_for_one_state`),
//! which `read_records` answers, with the ballot of the last `Tried`; if they stand for none it names the first record
//! at fault (clause `damaged`: `IsFirstRecordAtFault`; `bodies_have_a_first_fault`). `read_beside_rows` answers that
//! state but for its rows, which a base replaces. A change that may follow (`may_follow`: `ChangeMayFollow`), appended
//! as its record, brings the state after it (`a_record_brings_its_change`), and the records of a new base stand for the
//! state after that base (`write_base`, `the_records_of_a_base_stand`). A record is written and read exactly
//! (`record_bytes`, `record_in`, `records_differ_in_their_bytes`). `body` has a record by itself, over paxos_letter's
//! packets, `place` and `reader` go from one record to the next, `reading` and `base` are the two calls.
//!
//! A record has the layout of a packet, with from 0 and a kind of its own:
//!
//! | Kind | Record | Fields |
//! |---|---|---|
//! | 1 | `Tried` | ballot |
//! | 2 | `Promised` | ballot |
//! | 3 | `Voted` | slot, ballot, entry |
//! | 4 | `Base` | slot, old = how many `Row` follow directly |
//! | 5 | `Row` | slot, tag, job, ballot = launched, old = voided, at = cursor, now = open_now, last |
//!
//! An area is a log of changes, `Tried`, `Promised` and `Voted`, from the fresh state on, or begins with the group of a
//! `Base` and its rows. In format 2, in which bases are written, these are one for each job and the table's own behind
//! them. In format 1 (`begins_in_format_1`) the table's own is lacking, and is added to what the records stand for, with
//! nothing in it. Then the records directly after the group are a copy of what was kept beside the rows: the longest run
//! there that is at most one `Tried`, at most one `Promised` above it, and `Voted` records at rising slots from the base
//! on. After the copy the greatest ballot in it is promised, and the log goes on from there.
#![tactic(auto)]

mod base;
mod body;
mod fault;
mod laws;
mod order;
mod place;
mod reader;
mod reading;

pub use base::write_base;
pub use body::{Record, record_bytes, record_in};
pub use fault::ReadFault;
pub use laws::{
    a_record_brings_its_change, bodies_have_a_first_fault, no_records_stand_for_the_fresh_state,
    records_differ_in_their_bytes, records_stand_for_one_state, states_are_sound,
    the_records_of_a_base_stand, the_rows_of_a_group_stand,
};
pub use order::{delta_record, may_follow};
pub use reading::{begins_in_format_1, read_beside_rows, read_records};
