//! The journal of a book, and the summary of a run that was generated from a seed. `write_journal` writes a line for
//! each turn of a legal book of at most seven replicas, and a line before the turns of each part of its script
//! (`journal_text`); each turn is there once, in order and with its number (`a_journal_has_each_turn_once`). If the
//! turns of a book obey a script, there is one list of numbers at which the script's parts begin (`BeginAt`,
//! `a_script_begins_its_parts_once`), and the book has one journal, whichever rows stand for it (`IsBookJournal`,
//! `a_book_has_one_journal`). The turns below a command's line are the part of that command; those below the last
//! line are the walk to the window's last minute (`a_part_has_its_commands_turns`). Two turns have two lines: legal
//! books with the same lines have the same turns (`two_turns_have_two_lines`). Each of these lines is one of
//! journal_line's grammar, read as its turn or its part, and no other line is read so (`Tells`, `told_head`,
//! `a_turn_is_told_by_its_line`). `write_summary` writes the summary of a legal book in which no call is pending; its
//! counts are over all that the scheduler holds after the turns (`IsBookSummary`, `a_summary_counts_all_that_is_held`).
//! What the sink gained is said of both as of a report (`report_text::Writes`); in how many writes, no clause says.
//! `journal` has the parts and their lines, `words` the words of a turn, `summary` the summary.
#![tactic(auto)]

mod journal;
mod laws;
mod summary;
mod words;

pub use journal::write_journal;
pub use laws::{
    a_book_has_one_journal, a_journal_has_each_turn_once, a_part_has_its_commands_turns,
    a_script_begins_its_parts_once, a_summary_counts_all_that_is_held, a_turn_is_told_by_its_line,
    two_turns_have_two_lines,
};
pub use summary::write_summary;
