//! What tables will do, and each of their lines at fault, as texts. `write_due` writes the due list of a table
//! (`IsDueText`): of each version, in order, and in it of each job, in order, its name, how many due instants it has,
//! and each of these once, by time, with what the clock of the job's zone shows then; of a job that runs by its
//! period its name alone. `write_check` writes the check of a frame (`IsCheckText`): each line of its tables that
//! breaks a rule once, in order, with its number in the file, the cause and the place, and how many these are. The
//! sink gained all of the text, or a prefix of it if a write failed, or nothing if memory ran out (`WritesListing`).
//! Each table has one due list (`a_table_has_one_due_list`), which has a line for each due instant of each job in
//! each version (`a_due_list_has_each_due_instant`); each frame has one check (`a_frame_has_one_check`), and if that
//! has no fault, the frame is a run (`a_frame_without_a_fault_is_a_run`). `dues` gathers the due instants of a job,
//! `due` writes their lines, `table` gathers the faults of a frame, `check` writes theirs, `write` hands a text to
//! the sink.
#![tactic(auto)]

mod check;
mod due;
mod dues;
mod fault;
mod laws;
mod table;
mod write;

pub use check::write_check;
pub use due::write_due;
pub use fault::ListFault;
pub use laws::{
    a_due_list_has_each_due_instant, a_frame_has_one_check, a_frame_without_a_fault_is_a_run,
    a_table_has_one_due_list,
};
