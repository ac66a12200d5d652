//! A proposer's term. Each call's effect on a follower, a candidate or a leader is a definition, a case a line, and
//! a refusal changes nothing. A candidate leads once a majority has promised, each replica counted once (`campaign`,
//! `on_promise`: `candidacy`, `after_promise`), and has at each slot the vote of the highest ballot that the
//! promises brought (`the_best_vote_is_the_highest`, `slots_are_merged_apart`). A leader has one proposal under way
//! (`propose`), whose entry is chosen once a majority has accepted it (`on_accepted`: `chosen_by`). A higher ballot
//! ends both (`on_ballot`: `after_ballot`). `best` merges a promise's votes into the best ones, in one pass over
//! both lists if the promise's slots rise.
//!
//! The proposer of Paxos as a pure core: a replica's term, from a follower's over a candidate's to a leader's
//! ("Paxos Made Simple", sections 2.2 to 2.4 and 3). It has no clock, no disk and no net: a call takes what was heard
//! and says what has become of the term.
#![tactic(auto)]

mod best;
mod fault;
mod flight;
mod laws;
mod term;

pub use best::best_of;
pub use fault::ProposeFault;
pub use flight::Flight;
pub use laws::{slots_are_merged_apart, the_best_vote_is_the_highest};
pub use term::Term;
