//! The lines of a journal, each by its exact text, without memory. `read_line` reads a line as what it tells
//! (`IsJournalLine`, `told_line`), and answers with `None` exactly if it has none of the forms: a journal's first and
//! last line, the line before the turns of a command or of the last walk, a turn's, and an arrival's. Numbers may have
//! any length, and a name may be any word without a blank; which replicas, letters and launches there are is no
//! matter of this crate. A line has one reading (`a_line_has_one_reading`). Each form has a line, whatever minute has
//! a stamp and whatever word is a name (`each_form_has_a_line`); a number below 2^64 has one text
//! (`a_number_has_one_text`). `line` has what lines tell, `read` their first words, `turn` the words of a turn, `words`
//! and `count` single words.
#![tactic(auto)]

mod count;
mod laws;
mod line;
mod read;
mod turn;
mod words;

pub use laws::{a_line_has_one_reading, a_number_has_one_text, each_form_has_a_line};
pub use line::{AnswerWords, CallWords, CauseWords, Count, JournalLine, TurnWords};
pub use read::read_line;
