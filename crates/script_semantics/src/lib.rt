//! What each command of a script does to replicas that take turns, and which turns obey a script (`Obeys`):
//! definitions and laws, nothing at run time. A command acts on a situation (`Situation`): what stands after the
//! turns so far, and beside it mails, cuts, skews, fates, the latest clock reading, how disks are armed and how many
//! bases each replica has kept. The laws take the commands one by one: a round hears what waited at its start
//! (`a_round_hears_what_waited_at_its_start`), a stop loses the mail of its replica alone
//! (`a_stop_loses_the_mail_of_its_replica_alone`), a disk that is armed stops exactly if too few calls are left
//! (`a_disk_stops_where_too_few_calls_are_left`), settling starts all that are stopped
//! (`settling_starts_all_that_are_stopped`), and a walk leaves nothing to do (`a_walk_leaves_nothing_to_do`). In a
//! part of free turns each replica goes on by itself (`IsFreePart`): what it does in a turn is settled by what it
//! saw directly after its turn before (`what_a_replica_saw_last_still_stands`). Some turns obey a script
//! (`some_turns_obey_a_script`); that each script has turns that obey it isn't proved here.
#![tactic(auto)]

mod commands;
mod free;

pub use free::{
    a_free_part_shows_its_end, a_replica_hears_its_mail_in_order, a_replica_takes_what_waits_first,
    a_replica_that_stops_has_no_later_turn, each_replica_has_all_its_turns,
    letters_come_while_others_take_turns, turns_of_one_are_put_together,
    turns_of_others_leave_a_replica, what_a_replica_saw_last_still_stands,
    which_turn_comes_first_is_free,
};
