//! What a table says: fields, crontabs, anacrontabs, run files, and the jobs that these name. What a script says:
//! the lines of its commands, at the ends of their ranges and one beyond, lines of none, and its limits. The runs
//! that seeds make, compared with what Python makes of the same seeds. Due lists and checks of run files, and sinks
//! that fail or have no room. The parts of what an audit reads.
#![tactic(auto)]

#[cfg(test)]
mod anacrontab_rows;
#[cfg(test)]
mod anacrontab_tests;
#[cfg(test)]
mod check_tests;
#[cfg(test)]
mod command_tests;
#[cfg(test)]
mod crontab_rows;
#[cfg(test)]
mod crontab_tests;
#[cfg(test)]
mod due_tests;
#[cfg(test)]
mod field_tests;
#[cfg(test)]
mod frame_tests;
#[cfg(test)]
mod job_tests;
#[cfg(test)]
mod list_rows;
#[cfg(test)]
mod list_tests;
#[cfg(test)]
mod made_tests;
#[cfg(test)]
mod match_tests;
#[cfg(test)]
mod refused_tests;
#[cfg(test)]
mod round_tests;
#[cfg(test)]
mod rows;
#[cfg(test)]
mod run_file_tests;
#[cfg(test)]
mod script_tests;
#[cfg(test)]
mod split_tests;
