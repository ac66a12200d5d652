//! The program's answer: `run`, its one call, and `cron_cluster` within it. The options ask for one text at most
//! (program_options: `Asks`): without one for the report, by `--watch` for what was seen of a board after it
//! and by `--journal` for the journal after these (`IsReportOf`), by `--list` or `--check` for the due list or the
//! check, by `--make` for the summary of the run of a seed; or for an audit of what the input has behind a run, by
//! `--audit` (`EndsAudit`, `a_status_tells_of_an_audit`). Status, text and note are those of one end (`run`, clause
//! `ends`: `EndsProgram`). At status 0 the sink gained exactly the text that was asked for, of the input that was read
//! to its end or of the seed (`Ends`, `WritesText`). What a report promises is said in bytes and text alone (`run`,
//! clause `report`: `ReportsInput`, `ReportsLaunches`; `a_report_tells_of_each_launch`). The book is that of the
//! input's run (`IsRunOf`): no launch is held twice (`a_run_holds_each_launch_once`), each due instant has ended
//! (`a_run_ends_each_due_instant`), launches of an anacrontab's job are a period apart (`a_run_keeps_dates_apart`), and
//! without commands each due instant is launched and nothing else (`a_run_without_commands_launches_each_due_instant`).
//! Each replica's node keeps what the replica keeps, and its launch table is the clerk's (`a_run_leaves_its_nodes`).
//! What each exit status means says `a_status_tells_the_end`: at 1, 2 and 3 nothing is written
//! (`an_early_end_leaves_nothing`), at 4 and 5 at most a prefix of the text (`a_late_end_leaves_a_front`). An input has
//! one verdict (`an_input_has_one_verdict`), and over a source that shows its bytes, these decide the end and its
//! status unless a call failed or memory ran out (`the_bytes_decide_the_end`, `the_bytes_decide_the_status`). A
//! generated run launches each of its due instants (`a_made_run_is_played`). No clause depends on the number of lanes
//! or on the gate that threads pass: `run` may wait for them, and its clauses hold if it returns.
#![tactic(auto)]

mod answer;
mod auditing;
mod laws;
mod made;
mod note;
mod program;
mod run_end;
mod serve;
mod stop;
mod watch;

pub use laws::{
    a_book_has_one_text, a_late_end_leaves_a_front, a_listing_leaves_no_run, a_made_run_is_played,
    a_note_is_whole_unless_it_fails, a_refusal_is_that_of_the_bytes, a_report_tells_of_each_launch,
    a_run_ends_each_due_instant, a_run_holds_each_launch_once, a_run_keeps_dates_apart,
    a_run_leaves_its_nodes, a_run_without_commands_launches_each_due_instant,
    a_status_tells_of_an_audit, a_status_tells_the_end, an_early_end_leaves_nothing,
    an_input_has_one_verdict, no_end_takes_back, the_bytes_decide_an_audit,
    the_bytes_decide_the_end, the_bytes_decide_the_status,
};
pub use program::run;
pub use run_end::RunEnd;
pub use run_text::Refusal;
pub use serve::cron_cluster;
