//! Rounds in which all of two to seven replicas run and no letter is lost (`cluster_round`). Nothing is asked of a
//! letter, whoever wrote it; each replica is coherent, and what it knows of its launch table is so (`IsAdvised`). If
//! one leads alone it does so after each round (`one_leads_on`), its proposal is learned in two (`a_flight_lands`),
//! and each round brings it nearer to being idle, by a number of its replica, or finds it idle
//! (`each_round_brings_a_leader_nearer`). A campaign of one that has learned no less than any other is answered by
//! all (`a_campaign_is_answered`); it leads in the next round, or yields and wins its second campaign
//! (`one_that_yields_campaigns_again`, `a_second_campaign_wins`). Without a campaign the greatest promise stands
//! still (`no_promise_rises_without_a_campaign`). Once a leader is idle it stays so (`an_idle_leader_stays_idle`)
//! and after five rounds all others have learned as much (`the_others_catch_up`). That the rounds of a book are such
//! rounds is settling's.
#![tactic(auto)]

mod catch_up;
mod election;
mod leader;

pub use catch_up::{an_idle_leader_may_be_ahead, an_idle_leader_stays_idle, the_others_catch_up};
pub use election::{
    a_campaign_asks_all, a_campaign_is_answered, a_campaign_leaves_bounds, a_campaign_may_be_made,
    a_second_campaign_wins, no_promise_rises_without_a_campaign, one_that_yields_campaigns_again,
};
pub use leader::{
    a_flight_lands, a_free_leader_begins, a_leader_begins_at_its_tick, a_leader_may_be_free,
    a_proposal_may_be_under_way, an_answer_is_proposed, each_round_brings_a_leader_nearer,
    one_leads_on, what_a_round_tells,
};
