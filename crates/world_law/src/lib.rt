//! The book that a program keeps while replicas run: the turns, the letters with the numbers of the turns that
//! posted them, the ledger, which late calls have arrived, and the call that the next turn carries. Rows of history
//! stand for it (`StandsBehind`): they are legal, and turns, letters, held rows, late calls and arrivals are theirs.
//! A turn that may come next is added with what came of its step (`Book::commit`, clauses `stands` and `legal`),
//! without memory once `Book::reserve` has made room; `Book::call` asks the ledger before the turn of a tick that
//! asks for just this row. Whichever rows stand for it, votes, learned entries and standing are the same
//! (`a_book_settles_what_it_does_not_keep`); that what is kept agrees and fits is report_text's law. A step that a
//! replica takes beside a book is the row of a turn that may come next (`a_step_is_the_next_turn`), and so is a stop
//! (`a_stop_is_the_next_turn`) and a restart (`a_restart_is_the_next_turn`). Threads may share a book: `Book`
//! implements `turn_book::Law`, over rows that are a turn with what came of it (`BookRow`;
//! `rows_of_a_book_settle_what_may_come_next`).
#![tactic(auto)]

mod book;
mod laws;
mod letter;
mod row;
mod turn_row;
mod turns;

pub use book::Book;
pub use laws::{
    a_book_settles_what_it_does_not_keep, a_book_tells_which_turn_posted_a_letter,
    a_legal_book_has_lawful_rows, a_pending_call_is_carried_by_a_step, a_restart_is_the_next_turn,
    a_step_is_the_next_turn, a_stop_is_the_next_turn, a_tick_may_be_called_for,
    an_arrival_alone_is_nobodys_turn, other_replicas_stand_where_they_did,
    rows_of_a_book_settle_what_may_come_next,
};
pub use letter::LetterRow;
pub use row::BookRow;
pub use turn_row::TurnRow;
