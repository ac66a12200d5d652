//! The text of a report. The sink gained exactly the report of the rows that are held, by job and then by instant,
//! or a prefix of it (`write_report`: `IsReport`); rows with different names have one report
//! (`a_report_says_one_text`). If each due instant is launched once and nothing else is held, a job's launch lines
//! are its due instants in rising order (`a_report_lists_each_due_instant`), its first count is how many these are,
//! and its second is 0 (`a_report_counts_what_it_lists`); of a job that runs by its period, they are the dates on
//! which it may open (`a_report_lists_each_date`). `write_book_report` writes the report of a legal book in which no
//! call is pending, over what the scheduler holds after its turns (`IsBookReport`); whichever rows stand for the
//! book, that is one text (`a_book_has_one_report`), and a book that is kept so agrees and fits
//! (`a_legal_book_agrees_and_fits`). Other crates write lines of their own by `write_line` and `write_text`, with
//! the same faults (`Writes`). `report` has the report over rows, `book` that of a book, `order` the order of the
//! rows, `count` their counts, `write` the lines.
#![tactic(auto)]

mod book;
mod count;
mod fault;
mod laws;
mod order;
mod report;
mod write;

pub use book::write_book_report;
pub use fault::ReportFault;
pub use laws::{
    a_book_has_one_report, a_legal_book_agrees_and_fits, a_report_counts_what_it_lists,
    a_report_lists_each_date, a_report_lists_each_due_instant, a_report_says_one_text,
};
pub use report::write_report;
pub use write::{write_line, write_text};
