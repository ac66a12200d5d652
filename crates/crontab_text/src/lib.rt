//! What the text of a crontab says, line by line, in slices of the text and without memory. `Lines::next` reads the
//! line at its place to what it says, or to the first rule that it breaks and the place of the byte (`ReadsLine`,
//! `IsAnswer`); lines come in order, with their numbers and spans (`answers_come_in_order`,
//! `a_span_is_that_of_its_line`), and `None` comes exactly at the end of the text (clauses `end`, `none`). Each line
//! has one answer (`a_line_has_one_reading`), each table one list of them (`a_table_has_one_list_of_answers`), and
//! each text is its lines (`a_text_is_its_lines`). `split_percent` and `Pieces::next` give the pieces of a command,
//! its texts and its line ends (`ArePieces`), of which there is one list (`a_command_has_one_list_of_pieces`), and
//! which say the command with its unescaped `%` as newlines (`pieces_say_what_the_command_says`). The program reads
//! its tables by this crate; it doesn't split commands.
#![tactic(auto)]

mod answer;
mod assignment;
mod blank;
mod entry;
mod fault;
mod law;
mod nickname;
mod percent;
mod reader;
mod tail;

pub use answer::{Body, Line, LineFault, Span, Style};
pub use assignment::{cut_behind_name, is_name, unquote};
pub use blank::is_blank;
pub use fault::Fault;
pub use law::{
    a_command_has_one_list_of_pieces, a_line_has_one_reading, a_span_is_that_of_its_line,
    a_table_has_one_list_of_answers, a_text_is_its_lines, answers_come_in_order,
    pieces_say_what_the_command_says,
};
pub use percent::{Piece, Pieces, split_percent};
pub use reader::{Lines, first_line};
pub use tail::{Word, check_command};
