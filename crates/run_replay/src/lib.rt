//! A run that is played again by the lines of its journal, which trusts nobody: each replica takes its turns anew, as the
//! lines tell. A `Replay` holds a legal book and the situation after its turns (`IsReplayAt`), from `Replay::start` on.
//! `Replay::judge` says of a line which turn it tells that may come next, or that it tells none (`Judges`),
//! `Replay::take` lets that turn join the book, and `Replay::go_on` does both (`GoesOn`); a `Judged` turn has the change of
//! its step, also where a stop has lost it. `Replay::set_by`, `arm`, `clear` and `deliver` change what a script sets
//! (`ChangesReplay`), and `Replay::tasks_for`, `round_tasks`, `restart_tasks`, `standing_tasks` and `campaign_task` give
//! the turns that a command asks for (`AreAsked`); `coordinator` says who is to lead (`coordinator` of script_semantics),
//! `is_quiet` and `next_minute` where settling and walking end. Lines come one at a time: nothing is known of a text here.
#![tactic(auto)]

mod copies;
mod deliver;
mod judge;
mod quiet;
mod replay;
mod setting;
mod start;
mod take;
mod tasks;
mod turns;
mod words;

pub use judge::Judged;
pub use replay::{Arm, Replay, Seat, Setting};
pub use take::calls_to_save;
pub use tasks::{Task, reading_of};
