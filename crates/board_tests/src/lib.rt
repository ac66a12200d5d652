//! A board of one job: a launch that is learned is seen once it is published, also by a reader that knows its mark,
//! and entries below and above the prefix change nothing; a snapshot is seen, and an older one is refused. A writer
//! in a thread learns and publishes while two readers in threads of their own look again and again: the prefixes
//! that each sees never fall, and the first is at least that of the mark.
#![tactic(auto)]

#[cfg(test)]
mod hour;
mod job;
#[cfg(test)]
mod shows;
#[cfg(test)]
mod threads;
#[cfg(test)]
mod writes;

pub use job::{Job, Looks};
