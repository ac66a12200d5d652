//! What the log does to the launch table. An entry does to it exactly what the definition says, or nothing
//! (`Machine::apply`: `Applies`). The next version of the table is adopted once its instant has come, where no launch
//! is open and none may be started then, and no sooner than the version before it and each launch of a job that runs
//! by its due instants (`TakesTable`); from then on jobs are started by it, at due instants that are later than its
//! adoption, and their launches are called by it. `choose` gives the first open launch that may be called, or else
//! the first start that would take effect, or else the next version if it may be adopted, or else rests (`IsIntent`).
//! `next_start` is the first instant at which a start takes effect (`IsNextStart`), and `next_version_from` that from
//! which the next version may be adopted.
//!
//! Each list of entries leaves one launch table (`entries_leave_one_table`), adopts one list of versions, each the one
//! after that in force (`entries_adopt_one_list_of_versions`), and has of each job one list of starts and one count of
//! ends of a kind (`a_job_has_one_list_of_starts`, `a_job_has_one_count_of_ends`). The starts that take effect of a
//! job that runs by its due instants are the first of these by the versions in force then, none left out and none
//! twice, and those of a job of an anacrontab are of rising dates (`starts_come_in_order`); a job without a `/` in its
//! name runs by its due instants (`a_name_without_a_slash_runs_by_instants`). A row counts its launches and its voids
//! (`ends_are_counted`). Beside each row a machine keeps the first instant at which its job may be started and one
//! before which its open launch isn't called (`StandsFor`), in two trees of least instants; so `choose` looks at no
//! row that has nothing to do, which no contract says.
#![tactic(auto)]

mod adoption;
mod choice;
mod force;
mod laws;
mod machine;
mod next;
mod row;

pub use force::InForce;
pub use laws::{
    a_job_has_one_count_of_ends, a_job_has_one_list_of_starts,
    a_name_without_a_slash_runs_by_instants, a_version_may_be_adopted, cursors_rise,
    each_job_has_due_instants_under, ends_are_counted, entries_adopt_one_list_of_versions,
    entries_leave_one_table, one_entry_is_one_step, one_launch_may_be_started,
    starts_come_in_order,
};
pub use machine::{Effect, Intent, Machine};
pub use row::table_size;
