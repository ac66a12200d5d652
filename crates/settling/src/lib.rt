//! How a legal book settles, for each number of replicas from one to seven. A round of it in which all run, no
//! letter is lost, each clock is right and each call is answered is a synchronous round of synchronous_rounds
//! (`a_round_is_synchronous`). The next ballot of a replica is new (`a_ballot_is_tried_by_its_own_replica`). If no letter
//! waits and the coordinator campaigns, it leads after four rounds of a drain at most, and after each round then
//! (`one_comes_to_lead`); one replica alone leads at its campaign (`one_leads_at_its_campaign`). Once it leads, it
//! was idle before a round, or fewer rounds are left to it after it (`one_becomes_idle`); after five idle
//! rounds it is quiet (`one_idle_is_quiet_soon`), and the whole log is settled, and learned by all
//! (`caught_up_and_idle_is_quiet`, `quiet_says_it_of_the_whole_log`, `the_whole_log_is_settled`). No fault comes of the
//! campaign or of the rounds (`settling_leaves_no_fault`). The limits, fewer than 2^59 turns and letters of fewer
//! than 2^31 packets, are part of the premises (`IsWithinBounds`). There are such books (`a_cluster_may_settle`).
#![tactic(auto)]

mod alone;
mod campaign;
mod drain;
mod quiet;
mod rounds;
mod settle;

pub use alone::{
    each_drain_round_brings_one_nearer, its_drain_round_is_a_round, one_idle_is_quiet,
    one_leads_at_its_campaign, one_may_lead_itself,
};
pub use campaign::{
    a_ballot_is_tried_by_its_own_replica, a_campaign_in_a_book_is_a_campaign,
    a_drain_leaves_no_fault, one_comes_to_lead_alone, one_may_come_to_lead,
};
pub use drain::{
    a_drain_round_is_a_round, a_leader_becomes_idle, a_leader_may_become_idle, one_idle_stays_so,
    quiet_is_idle_and_caught_up, the_end_is_quiet,
};
pub use quiet::{
    a_book_may_end_quietly, caught_up_and_idle_is_quiet, quiet_says_it_of_the_whole_log,
};
pub use rounds::{a_round_is_synchronous, a_round_may_come, a_situation_stands_for_one};
pub use settle::{
    a_cluster_may_settle, one_becomes_idle, one_comes_to_lead, one_idle_is_quiet_soon,
    settling_leaves_no_fault, the_whole_log_is_settled,
};
