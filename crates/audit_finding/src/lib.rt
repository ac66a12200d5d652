//! What an audit finds of an input that anybody may have written: a run, the report of it, and its journal. `judge_input`
//! cuts the input into the three, takes the run with its table, and judges the journal as run_audit does. The input passes
//! where the journal is one of the run, and the report has the lines of that of the journal's book; otherwise it fails, and
//! the first line at fault is told, counted from the report's first line, with what is at fault (`IsFindingOf`); or it is
//! refused for its run (`IsRefusedToAudit`). An input has one finding, and none where it is refused
//! (`an_input_has_one_finding`). The report of one that passes is that of its book (`a_report_that_passes_is_its_books`).
#![tactic(auto)]

mod finding;
mod judge;
mod laws;
mod report;
mod text_sink;

pub use finding::{Fault, Finding};
pub use judge::judge_input;
pub use laws::{a_report_that_passes_is_its_books, an_input_has_one_finding};
