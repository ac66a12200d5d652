//! The text that an audit reads: a run, the report of it, and its journal, which anybody may have written. `split_input`
//! cuts it into the three (`IsOfParts`), in one way alone (`an_input_has_one_split`). `read_text` reads the bytes of a
//! report or a journal as text, with `?` for each line that is none (`IsReadText`), `first_other_line` finds the first
//! line at which a text differs from the one that was expected (`IsFirstDifference`), and `lines_in` counts lines. What a
//! line says is no matter here.
#![tactic(auto)]

mod difference;
mod laws;
mod line;
mod parts;
mod readable;

pub use difference::{first_other_line, lines_in};
pub use laws::an_input_has_one_split;
pub use parts::{InputParts, split_input};
pub use readable::read_text;
