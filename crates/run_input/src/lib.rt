//! The run of bytes that anybody may have written. `take_table` takes bytes of at most 1,048,576 as a run, with the
//! table of its jobs (`IsRunWithTable`), or tells for what they are refused: for their first line that is no text
//! (`IsNotText`), else for what is at fault in the run file, else in its tables (`IsRefusedAsRun`). `take_frame` takes
//! them as a run whose tables may have lines at fault (`IsTakenFrame`, `IsRefusedAsFrame`).
#![tactic(auto)]

mod input;
mod text;

pub use input::{take_frame, take_table};
