//! The entries that are known to be chosen, without a gap. An entry is learned exactly if its slot is the next one
//! (`Learner::learn`, clauses `old`, `gap`, `new`); a later base drops the entries below it, and never lowers the
//! prefix (`rebase`: `IsRebased`).
#![tactic(auto)]

mod learner;

pub use learner::{Learner, Learnt};
