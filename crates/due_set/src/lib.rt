//! Which instants are due, and on which dates a job may open. A table of jobs is assembled once, of one version
//! (`JobTable::assemble`) or of up to 8 (`assemble_versions`), and read from then on. Each version has the same jobs by
//! their names, with kinds and zones of its own, and a job's calls name the version. An entry is due exactly if the
//! definition says so (`is_due`: `IsJobDue`, `IsDue`); `next_due` is the least later due instant of the window, `None`
//! exactly if there is none. A job of an anacrontab may open on its zone's date, or not at all, exactly as the
//! definition says (`anacron_open`: `IsJobOpen`); `first_opening` is the first instant of the window at which it may.
//! `count_due` is how much a job takes of the limit (`IsShare`), `may_call` and `call_kind` say whether a launch's
//! instant or date has come, and whether it is on time (`HasCome`, `IsOnTime`). What holds of each table, its limits,
//! names, zones and versions, is a clause of these calls (`sound`: `IsSound`). Each job of a version has one list of due
//! instants (`each_job_has_a_due_list`), and at each instant one date on which it may open or none
//! (`a_job_may_open_or_not`); whether it runs by its period is said by its name (`a_name_says_how_a_job_runs`).
//! No version comes before an earlier one (`versions_come_in_order`). Due instants are defined by the local time that `jiff` gives for the rules and files of a run. `scan` finds due
//! instants, `matching` the next civil minute of an entry, `anacron` the dates of a job that runs by its period.
#![tactic(auto)]

mod anacron;
mod call;
mod due;
mod job;
mod laws;
mod matching;
mod scan;
mod sound;
mod table;

pub use call::Kind2;
pub use job::{JobKind, JobName, JobSpec, Period, VersionSpec};
pub use laws::{
    a_due_front_is_a_prefix, a_job_has_a_next_instant_or_none, a_job_has_one_due_list,
    a_job_has_one_next_instant, a_job_is_due_or_not, each_job_has_a_due_list,
};
pub use sound::{
    a_job_may_open_or_not, a_job_opens_on_its_date, a_name_says_how_a_job_runs,
    a_name_says_one_job, each_job_has_a_zone, launches_come_at_their_instants,
    periods_are_over_since_each_launch, versions_come_in_order,
};
pub use table::JobTable;
