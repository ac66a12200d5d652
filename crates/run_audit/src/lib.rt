//! An audit of a run and its journal, which trusts nobody: laws of which lines can begin a journal of the run, and how a
//! text is read by them in a replay of the run (run_replay). `audit` says of a text whether it is a journal of the run, with
//! the book of its turns, or which of its lines is the first that can't be one of a journal, and why (`IsVerdict`).
//!
//! `Rest::read` reads a text line by line. `play_tasks` takes the turns of tasks by the lines of a text, one after another,
//! or stops at the first other line and says why (`ComesOf`), and `play_by_arms` does so on disks that may stop. `play_part`
//! plays the part of each command so: rounds, settling and walking, turns in no order (`play_free`), and the turn that a
//! command asks for. A text that stops within a part stops within each part that has the same turns (`StopsIn`).
//!
//! Each relation of script_semantics between two situations has one of its first turns (`BeginsPart`, `BeginsWalk`), which
//! a whole part has too and behind which nothing comes (`a_part_begins_with_its_turns`,
//! `nothing_comes_after_a_whole_part`). So lines can begin a journal one by one (`CanBegin`,
//! `a_journal_is_judged_line_by_line`). A text that is a journal of a run is that of the book whose turns it tells
//! (`IsJournal`, `a_journal_is_that_of_its_book`), and the text that is written of such a book is one
//! (`the_journal_of_a_book_is_a_journal`); no such text has a first line at fault, and no text has two
//! (`IsAtFault`, `a_text_has_one_verdict`).
#![tactic(auto)]

mod arms;
mod free;
mod heading;
mod journal;
mod laws;
mod lines;
mod parts;
mod play;
mod script;
mod settle;
mod verdict;

pub use journal::{Verdict, audit};
pub use laws::{
    a_journal_is_judged_line_by_line, a_journal_is_that_of_its_book, a_part_begins_with_its_turns,
    a_text_has_one_verdict, nothing_comes_after_a_whole_part, the_journal_of_a_book_is_a_journal,
};
pub use lines::{Next, Rest};
pub use verdict::Why;
