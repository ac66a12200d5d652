//! A script played in a world, rounds in a number of lanes, and free turns in threads that pass a gate; so it may wait.
//! `play` does what some commands say, one after another: from whichever situation, the turns that it adds are those
//! of the parts of these commands, in order, and it gives the numbers of turns at which these parts begin (clause
//! `goes`: `ArePartsFrom`). It takes what a world takes, and free turns (`IsPlayable`). `empty_world` is a world
//! before any turn, each replica on an empty disk in memory; `play_run` is one that has played a script and walked
//! to the window's last minute (`HasRun`), with the numbers at which its parts begin (`HasStarts`): the turns of its
//! book obey the script, within the limits in which each letter is heard whole. `play_run_watched` plays it while a
//! board shows what the first replica has learned, and tells what a reader saw there after each command `free`: the
//! highest prefix that this replica had, and how many jobs are open in the clerk's launch table of so many entries
//! (`IsWatched`). Its book is legal and at rest
//! (`a_played_run_obeys_its_script`); what each disk has, and whatever a stop would leave of it, stands for what its
//! replica keeps (`a_played_run_leaves_its_nodes`); and each command of a run that run_text reads is one that is
//! played (`a_world_takes_each_command_that_is_read`). A world that has settled or walked leaves a log with nothing
//! left to do (`a_world_that_settles_ends_quietly`).
#![tactic(auto)]

mod laws;
mod script;
mod seen;
mod start;
mod watch;

pub use laws::{
    a_played_run_leaves_its_nodes, a_played_run_obeys_its_script,
    a_world_takes_each_command_that_is_read, a_world_that_settles_ends_quietly,
};
pub use script::{play, play_run, play_run_watched};
pub use seen::Seen;
pub use start::empty_world;
pub use watch::Watch;
