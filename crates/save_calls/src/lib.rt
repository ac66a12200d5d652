//! Numbers alone: a change but a base is saved by four calls of a disk, and a base by five
//! (`a_change_is_saved_in_four_calls`); and whether a stop within them keeps the change, by how many calls were left
//! and by the number of the image that the stop leaves (`a_stopped_change_is_kept_by_two_numbers`). The stop has to
//! come within the last two calls, and the image shows the stopped call done, or the byte of the state after the
//! change: 1 at the gate of a record; of a base a low bit of 1 if an even number of bases was kept before, and else
//! 0. A base that is kept is one more (`a_kept_base_counts`). That a node's disk does so is replica_node's.
#![tactic(auto)]

mod laws;

pub use laws::{
    a_change_is_saved_in_four_calls, a_kept_base_counts, a_stopped_change_is_kept_by_two_numbers,
};
