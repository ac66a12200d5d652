//! The run that a seed makes. `make_run` gives its text (clause `made`: `made_text`), which depends on the seed
//! alone: a head of three replicas over ten days, a crontab with 40 jobs of each hour and 160 of each day at times
//! that are drawn (`draw`), and a script of twenty half days, in each of which a replica that is drawn stops, one
//! that is drawn stands for leader, and all run again. Each such text is short enough to be read and says the run
//! that the seed makes (`a_made_text_is_a_run`: `made_run`), and that run has a table (`each_made_run_has_a_table`).
//! `draws` has the generator, `make` writes the text.
#![tactic(auto)]

mod draws;
mod laws;
mod make;

pub use laws::{a_made_text_is_a_run, each_made_run_has_a_table};
pub use make::make_run;
