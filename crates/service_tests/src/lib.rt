//! Whole runs, from the bytes of a run file to the report and the note, and options for due lists, checks, seeds and
//! audits, with what an audit says of a changed report and of a changed journal; a run file that breaks off after any
//! of its bytes, and each write of its report that fails; reports with their journals, one of disks that stop, and with
//! what was seen of the board; the summary of a generated run, in one lane and in three; a leader that stops within
//! each of the calls that save a vote, with the same report. Five replicas with 2,000 free turns each, ten times: the
//! same launches. The threads of two replicas wait for each other before their second turn. One function is proved over
//! memory (`status_in_memory`): a run file that is taken ends with status 0 or 5 if its report fits the sink's room, and
//! with 4 or 5 if it is longer; any other input ends with 2 or 5.
#![tactic(auto)]

#[cfg(test)]
mod anacron_runs;
#[cfg(test)]
mod audit_tests;
#[cfg(test)]
mod bytewise;
#[cfg(test)]
mod bytewise_tests;
#[cfg(test)]
mod free_tests;
#[cfg(test)]
mod journal_tests;
#[cfg(test)]
mod kept;
#[cfg(test)]
mod limit_tests;
#[cfg(test)]
mod made_tests;
#[cfg(test)]
mod over_memory;
#[cfg(test)]
mod play;
#[cfg(test)]
mod program;
#[cfg(test)]
mod program_tests;
#[cfg(test)]
mod run_tests;
#[cfg(test)]
mod runs;
#[cfg(test)]
mod script_tests;
#[cfg(test)]
mod watch_tests;
#[cfg(test)]
mod words_tests;
