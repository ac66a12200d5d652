//! The parts of a world in which each replica that runs takes its turns in a thread of its own, at one book that the
//! threads share by turn_book. `run_free` takes the parts of a world and gives such parts back: from whichever
//! situation they were in, some turns are added that are a part of `free` (clause `goes`:
//! `script_semantics::IsFreePart`), and the new parts are those of a world in the situation after them. Nothing is
//! said of the order that the threads take, and nothing depends on it. Before each turn a thread passes a
//! `TurnGate`, so that a test can hold it until another has taken a turn; `OpenGate` holds nobody. A disk may be
//! armed, and is so for the length of each step alone; a thread whose disk stops adds the turn of the stop and ends.
//! `run_free_shown` shows the part on a board too: the first replica's thread publishes the launch table after each of
//! its turns after which the replica has learned more than the board shows, so each state there is one of the log
//! (`ShowsPart`, `each_state_of_a_board_is_one_of_the_log`). If memory runs out nothing comes back, and so it is of a book of 2^31 turns. That threads run at
//! once, and that the call returns, isn't claimed. `next` has what a replica does next, `mails` the look at the book,
//! `ready` what is done in a turn before it is added, `turns` the turns of a thread, `show` what it shows, `jobs` what
//! threads are handed, `ends` what is left at the end.
#![tactic(auto)]

mod ends;
mod free;
mod gate;
mod job;
mod jobs;
mod laws;
mod mails;
mod next;
mod ready;
mod show;
mod turns;

pub use free::{run_free, run_free_shown};
pub use gate::{OpenGate, TurnGate};
pub use laws::each_state_of_a_board_is_one_of_the_log;
