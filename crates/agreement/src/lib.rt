//! Replicas agree. Over each list of turns that one to seven replicas may take by the definition of a step, with
//! letters heard late, twice or never, stops within a step, and restarts: no two entries are chosen for one slot
//! (`a_slot_has_one_value`), each learned entry was chosen (`learned_entries_are_chosen`), and no two are learned
//! for one slot (`replicas_agree_on_each_slot`); there is one log (`transitions_have_one_log`), each replica has
//! learned a prefix of it, and its launch table is that of these entries (`a_replicas_table_is_the_clerks`). From
//! the guards alone a replica stands for leader only at a campaign (`a_replica_stands_at_a_campaign_alone`), and an
//! answer of the scheduler is to a call (`each_answer_is_to_a_call`). The argument stands at the head of
//! `proofs/Lib.antt`.
#![tactic(auto)]

mod laws;

pub use laws::{
    a_replica_stands_at_a_campaign_alone, a_replicas_table_is_the_clerks, a_slot_has_one_value,
    each_answer_is_to_a_call, learned_entries_are_chosen, replicas_agree_on_each_slot,
    transitions_have_one_log,
};
