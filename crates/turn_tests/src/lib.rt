//! Turns at two small states: a tally, to which any seat may add a row at any time, and a rota, to which the seats
//! add in turn and which has a row under way before it is added. Each is used at two seats and at seven, with no
//! rows at first and with some. Seven threads add 20,000 rows each: each row is there once, in its seat's order.
#![tactic(auto)]

mod job;
#[cfg(test)]
mod jobs;
#[cfg(test)]
mod rota;
#[cfg(test)]
mod rota_turns;
#[cfg(test)]
mod tally;
#[cfg(test)]
mod tally_turns;

pub use job::Job;
