//! One replica's step, as a definition: nothing here promises anything at run time. A step is the list of what the
//! replica does at a campaign, a tick, a letter or an answer (`step`), one act a change of the protocol; the state
//! after it, what is kept, sent and learned and the scheduler's call are folds of that list. Each act has its guard
//! (`May`) as it is done, whatever was said before (`each_act_may_be_done`); guarded acts leave a coherent replica
//! (`replicas_stay_coherent`: `IsCoherent`); a step changes what is kept once at most
//! (`a_step_has_one_delta_at_most`). Messages that are spelled in packets are heard as they were meant
//! (`messages_are_heard_as_they_are_spelled`), letters carry what acts send to whom it is for
//! (`letters_carry_what_is_sent`, `a_message_reaches_whom_it_is_for`), and what acts learn and call for is what they
//! name (`acts_bring_what_they_name`). `State`, `Message`, `Act` and `Folds` have the words, `Propose` and `Hear`
//! the lines of the step, `Heard` how messages are spelled in packets, `May` and `Coherent` the guards and what they
//! keep.
#![tactic(auto)]

mod laws;
mod out;

pub use laws::{
    a_candidate_begins_with_its_own_votes, a_message_reaches_whom_it_is_for,
    a_step_has_one_delta_at_most, a_step_sends_one_snapshot_at_most, acts_bring_what_they_name,
    each_act_may_be_done, letters_are_heard_within_bounds, letters_carry_what_is_sent,
    messages_are_heard_as_they_are_spelled, replicas_stay_coherent, rows_that_are_heard_stand,
};
pub use out::{LearntRow, OutLetter};
