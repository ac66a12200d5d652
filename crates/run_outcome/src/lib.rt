//! What a legal book of one to seven replicas ends with that has obeyed a script and walked to the window's last
//! minute. Each due instant of a crontab's job, by the versions in force then, has been started and has ended; one
//! that no clock reading of the script's turns is later than is held as launched, and was called at that instant; and
//! each is held as launched if grace lasts as long as the window (`a_walk_launches_each_due_instant`). It ends
//! quietly: each replica has learned the whole log, no launch may be called, none is to start, and no version is to be
//! adopted (`settling_ends_quietly`, `a_walk_ends_quietly`, `an_obeyed_script_ends_quietly`). All of it as one
//! definition is `IsWholeRun` (`an_obeyed_script_is_whole`, `what_a_whole_run_says`). Where no version is adopted, a
//! date on which an anacrontab's job may open is launched unless it is barred
//! (`a_date_is_launched_where_a_job_may_open`), and then the job's zone showed a later date before
//! (`a_barred_date_was_passed`). Of a script without commands each due instant and each such date is launched, and
//! nothing else is held (`a_walk_without_a_script_launches_each_due_instant`). There are such books
//! (`a_walk_may_launch`, `a_whole_run_may_be`, `a_date_may_be_launched`).
#![tactic(auto)]

mod dates;
mod quiet;
mod walk;
mod whole;

pub use dates::{
    a_barred_date_was_passed, a_date_is_launched_where_a_job_may_open, a_date_may_be_launched,
    a_table_of_one_version_adopts_none, a_walk_without_a_script_launches_each_due_instant,
};
pub use quiet::{
    a_book_may_obey_a_script, a_walk_ends_quietly, an_obeyed_script_ends_quietly,
    settling_ends_quietly,
};
pub use walk::{
    a_walk_launches_each_due_instant, a_walk_may_launch, the_latest_reading_bounds_the_script,
};
pub use whole::{a_whole_run_may_be, an_obeyed_script_is_whole, what_a_whole_run_says};
