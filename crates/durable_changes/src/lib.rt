//! What a replica keeps, whatever it hears: nothing is asked of a letter, whoever wrote it, nor of an answer. It
//! stays coherent (`a_replica_stays_coherent_whatever_it_hears`). So the change of a step may follow what it keeps,
//! as a store asks for (`a_change_may_follow_what_is_kept`); a base has to be above the one before it and to have
//! the rows of the table of jobs. The change alters what is kept (`a_change_alters_what_is_kept`), if a replica that
//! may propose has not voted at its prefix in the ballot that it leads in (`ProposesAnew`). Each of one to seven
//! replicas is so that hear only what was said (`replicas_that_hear_what_was_said_propose_anew`). A replica that
//! another asks to vote in its own ballot needn't be: it may cast that vote again as its proposal, and what it keeps
//! stays the same (`a_vote_may_be_cast_again`).
#![tactic(auto)]

mod laws;

pub use laws::{
    a_change_alters_what_is_kept, a_change_may_follow_what_is_kept,
    a_replica_stays_coherent_whatever_it_hears, a_vote_may_be_cast_again,
    replicas_that_hear_what_was_said_propose_anew,
};
