//! What the text of an anacrontab says, logical line by logical line, in slices of the text. A logical line may go
//! on over several lines; `AnaLines::next` reads it to what it says, with the hours and the added minutes that the
//! variables above it set, or to the first rule that it breaks and the place of the byte (`ReadsAnacronLine`,
//! `IsAnacronAnswer`, `SetsVariable`). The lines come in order (`answers_come_in_order`), and `None` comes exactly at the
//! end of the text. Each line has one answer (`a_line_has_one_reading`), each table one list of them
//! (`a_table_has_one_list_of_answers`), and each text is its logical lines (`a_text_is_its_logical_lines`). The
//! numbers of a job are within their limits (clause `within`: `IsBodyWithin`; `a_jobs_hours_are_of_one_day`). A line
//! is read with a space for each byte that joins two lines, and its parts are handed out as they are written
//! (`IsPartWithin`). `logical` finds the lines, `blank` the words, `setting` and `settings` the variables, `job` the
//! jobs.
#![tactic(auto)]

mod answer;
mod blank;
mod job;
mod law;
mod logical;
mod reader;
mod setting;
mod settings;

pub use answer::{AnaBody, AnaLine, PeriodWord};
pub use law::{
    a_jobs_hours_are_of_one_day, a_line_has_one_reading, a_span_is_that_of_its_line,
    a_table_has_one_list_of_answers, a_text_is_its_logical_lines, answers_come_in_order,
};
pub use reader::AnaLines;
