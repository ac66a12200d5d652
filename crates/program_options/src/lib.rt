//! The options of the command line. `read_words` reads them: it finds what the words behind the program's name ask for
//! (clause `asks`: `Asks`), and answers none exactly where they are the words of no options (`HasNoOptions`): a word is
//! none, or two stand there that may not stand together (`MayStandTogether`). An option is spelled as `IsSpelledBy`
//! says, its value in a word of its own or behind `=`. Words ask for one text at most, or for an audit, on one to eight
//! lanes (`words_ask_for_one_text`). What is done then is no matter here.
#![tactic(auto)]

mod laws;
mod words;

pub use laws::words_ask_for_one_text;
pub use words::{Asked, Choice, Output, Request, read_words};
