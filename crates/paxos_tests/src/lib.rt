//! Ballots, letters, rows and votes, compared with bytes and numbers from outside, and protocols played step by step.
#![tactic(auto)]

#[cfg(test)]
mod acceptor;
#[cfg(test)]
mod ballot;
#[cfg(test)]
mod base;
#[cfg(test)]
mod builders;
#[cfg(test)]
mod durable;
#[cfg(test)]
mod fault_rows;
#[cfg(test)]
mod learner;
#[cfg(test)]
mod letter;
#[cfg(test)]
mod letter_rows;
#[cfg(test)]
mod rows;
#[cfg(test)]
mod term;
#[cfg(test)]
mod term_rows;
#[cfg(test)]
mod votes;
