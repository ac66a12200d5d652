//! Run files, each read, played by a world of replicas on disks in memory, walked to the window's last minute and
//! reported by its book: a job that is launched, given up after its grace, launched late before and after the void
//! of another leader, called again after its first call was lost; and one whole report, in one lane and in three.
//! The counts were worked out by hand. Whole journals of such worlds are those that tools/small_world makes; so are
//! the turns of scripts that arm disks (`breaks`). A ballot, a promise, three votes, a launch table of a replica's
//! own and one that was sent each stop within each of the calls that save them, and leave one image or another
//! (`saves`). Sinks that fail, or have too little room, keep a prefix of the text. What is seen of a board after each
//! command `free` was worked out by hand too (`watches`).
#![tactic(auto)]

#[cfg(test)]
mod breaks;
#[cfg(test)]
mod journals;
#[cfg(test)]
mod saves;
#[cfg(test)]
mod scripts;
#[cfg(test)]
mod walks;
#[cfg(test)]
mod watches;
#[cfg(test)]
mod worlds;
