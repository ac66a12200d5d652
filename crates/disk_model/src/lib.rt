//! What a stop may leave of a disk. Of an honest disk each call of `Disk` says which images a stop may leave after
//! it and at each moment within it (clauses `images`, `time`); a sync that answers `Ok` leaves one image of its
//! file, which is what a read gives (`durable`). A stop or a fault is answered only if its count rose, and no count
//! rises at another answer (`counts`, `counts_rise_where_that_is_told`). `MemDisk` is such a disk, whose images are
//! exactly those that its writes may leave (`a_memory_disk_leaves_what_may_be_left`); `ArmedDisk` lets it stop
//! within a chosen call, and leave the image of the number that it was armed with (clauses `told`;
//! `an_armed_disk_stops_after_so_many_calls`). Which of its calls fail is tested only: the contract says that a call
//! fails only if some call is listed. That a real disk is an honest one isn't proved. `disk` and `armed` have the
//! traits, `mem_file`, `mem_files` and `calls` the disk in memory, `span` the places that were written since a sync,
//! `whole` a write that is synced and the reading of a whole file. The history of a `MemDisk` is a log that only
//! proofs read.
//!
//! Between two syncs of a file each byte that was written, and each past the old end, may be any byte after a stop; the
//! length may be the old one, the new one or one between; all other bytes stay. A sync that answers Ok puts an end to
//! that: from then on a stop leaves what a read gives. [`Disk`] says so of each call, at each moment within it too.
//! [`MemDisk`] is such a disk in memory. It can be told to fail at chosen calls ([`MemDisk::new`]), and to stop within a
//! chosen one and to leave a chosen image ([`ArmedDisk`]).
#![tactic(auto)]

mod armed;
mod calls;
mod disk;
mod fault;
mod laws;
mod mem_disk;
mod mem_file;
mod mem_files;
mod span;
mod whole;

pub use armed::{Arm, ArmedDisk};
pub use disk::Disk;
pub use fault::{DiskFault, FileNo};
pub use laws::{
    a_cut_leaves_a_front, a_memory_disk_leaves_what_may_be_left,
    an_armed_disk_stops_after_so_many_calls, counts_rise_where_that_is_told,
    time_keeps_what_was_left,
};
pub use mem_disk::MemDisk;
pub use whole::{read_file, write_synced};
