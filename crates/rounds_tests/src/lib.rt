//! Worlds of replicas over disks in memory, which take commands one after another. From command to command it is
//! proved that the world is one still, so a test has to show of its commands alone that they are taken (`AreTaken`).
//! Turns and letters are compared with counts made by hand; turns, letters and rows are the same in one lane, in
//! three and in eight, with armed disks, and if a world is taken apart and put together again before, between or
//! after its commands (`parts`). That three lanes run at once is tested on disks that wait in each sync for one
//! another (`meets`). Parts of free turns: a gate brings about both orders of two replicas (`orders`), three
//! replicas and seven take 200 turns each, one is armed to stop (`after_free`), and threads wait for each other at a
//! gate and in a sync, so that they run at once (`threads`). While five run, each looks at a board before each of its
//! 2,000 turns: each view comes, and the prefixes never fall (`views`). A walk goes on over
//! the adoption of a version (`versions`).
#![tactic(auto)]

#[cfg(test)]
mod after_free;
#[cfg(test)]
mod free;
#[cfg(test)]
mod gates;
#[cfg(test)]
mod hour;
#[cfg(test)]
mod lanes;
#[cfg(test)]
mod meeting;
#[cfg(test)]
mod meets;
#[cfg(test)]
mod orders;
#[cfg(test)]
mod parts;
#[cfg(test)]
mod rounds;
#[cfg(test)]
mod settles;
#[cfg(test)]
mod threads;
#[cfg(test)]
mod versions;
#[cfg(test)]
mod views;
#[cfg(test)]
mod worlds;
