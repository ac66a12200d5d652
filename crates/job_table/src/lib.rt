//! The table of a run's jobs. `build_table` answers with it (`IsTableOf`), or refuses the run (`IsRefusedRun`): for
//! the first zone that `jiff` refuses, else for the first line that names no zone of the run or brings a job whose
//! name is there in its version, else for more than 1,000 names of jobs over all versions, else for more than 20,000
//! due instants. The table has UTC and each zone of the run, read as `jiff` reads it; jobs of one zone share it.
//! Each version has the jobs of its own sections, and for each name that it lacks a job that never runs
//! (`table_of`). Each entry of a crontab runs by the zone in force at its line, and each job of an anacrontab by
//! that of its section, with the period and the minutes of the day that its line and the variables above it say
//! (`AreMarks`). A run has one table at most or one refusal at most, never both, and one of the two if `jiff` reads
//! or refuses each of its zones (`a_run_has_one_verdict`). Each job's name is one word
//! (`each_job_has_a_word_for_its_name`). `zones` builds and numbers the zones, `collect` goes through the sections
//! once, `jobs` has the jobs by their names, `versions` brings them under the names of all.
#![tactic(auto)]

mod anacrontab;
mod build;
mod collect;
mod crontab;
mod due;
mod jobs;
mod laws;
mod versions;
mod zones;

pub use build::build_table;
pub use laws::{a_run_has_one_verdict, each_job_has_a_word_for_its_name};
