//! At most once, and none passed over. `Fits` says what has to hold between a log and the rows that are held, over
//! any list of entries and of rows: a launch is held once (`a_launch_is_held_once`), was started
//! (`a_held_launch_was_started`) and had come (`a_held_launch_had_come`), an end says the kind that is held
//! (`an_end_says_what_is_held`), no due instant is passed over (`no_due_instant_is_passed_over`), and two launches
//! of a job that runs by its period are a period apart (`launches_are_a_period_apart`), each by the version of the
//! table that was in force when it was started (`IsStartedUnder`). In every legal book of one to seven replicas what
//! the scheduler holds fits the log, after each turn (`every_legal_book_fits`); nothing is asked of the table of
//! jobs. Versions are adopted one after another (`a_log_adopts_versions_in_turn`); where none is, the first stays in
//! force (`a_log_may_stay_by_the_first_version`). Each vote for a start goes back to a turn whose clock read the
//! start's instant (`each_start_was_read`), and so do those for adoptions (`each_adoption_was_read`) and each call
//! (`each_call_was_read`); if no clock has passed an instant, no start of the log is of a later one
//! (`no_start_is_ahead`). `LaunchesEachDue` says that every due instant was launched, and each date on which a job
//! may open by what was called before (`OpensBy`), at the instant at which it may, and nothing else. There are legal
//! books with each part at work (`a_launch_may_end_in_time`, `a_takeover_holds_its_launch`,
//! `a_job_may_be_launched_on_two_dates`, `a_legal_log_may_adopt_a_version`).
#![tactic(auto)]

mod histories;
mod logs;
mod readings;

pub use histories::{
    a_job_may_be_launched_on_two_dates, a_late_call_may_arrive_behind_a_void, a_launch_ends_once,
    a_launch_may_end_in_time, a_legal_log_may_adopt_a_version, a_log_goes_on, a_log_leaves_a_table,
    a_log_may_stay_by_the_first_version, a_takeover_holds_its_launch, an_answer_that_waits_is_held,
    each_call_was_started, each_end_says_what_is_held, each_entry_takes_effect,
    every_legal_book_fits,
};
pub use logs::{
    a_held_launch_had_come, a_held_launch_was_started, a_job_has_one_latest_launch,
    a_job_opens_a_period_after_each_launch, a_launch_is_held_once, a_log_adopts_versions_in_turn,
    a_settled_log_has_each_due_instant, a_start_comes_a_period_after_a_launch,
    a_start_stands_before_its_end, a_void_fits_its_log, a_void_of_a_date_fits_its_log,
    an_end_says_what_is_held, each_due_instant_is_launched, launches_are_a_period_apart,
    no_due_instant_is_passed_over, what_is_effective_stays, what_is_in_the_log_is_effective,
    what_is_named_once_and_backed_fits, what_was_started_is_a_period_apart,
};
pub use readings::{
    each_adoption_was_read, each_call_was_read, each_start_was_read, no_start_is_ahead,
};
