//! What one to seven replicas did, turn by turn, and that they agree. A turn is judged by what stands after those
//! before it (`IsLegal`). Every legal book of one to seven replicas agrees, after each of its turns
//! (`every_legal_book_agrees`, `a_cut_is_legal`): what was learned was chosen, no two entries were learned for one
//! slot, and each replica that runs has the launch table of a prefix of the log, of which there is one
//! (`a_book_has_one_log`, `what_agreement_says`). There are such books (`some_books_are_legal`,
//! `a_takeover_is_legal`, `a_book_with_snapshots_is_legal`), and turns that break a rule are not legal
//! (`some_turns_are_not_legal`). Whatever turn comes, a name that is held stays held and gains no second row
//! (`a_held_name_stays`), and a late call arrives once (`a_late_call_arrives_once`). No number of a legal book is
//! above the number of its turns (`a_legal_book_counts_its_turns`), so replicas of one of fewer than 2^59 turns are
//! small enough to take a step (`replicas_of_a_legal_book_are_small`), and a posted letter of fewer than 2^31
//! packets is heard whole (`posted_letters_are_heard_whole`). A book is kept turn by turn (`a_legal_book_goes_on`,
//! `a_step_goes_on_a_legal_book`).
#![tactic(auto)]

mod books;
mod bounds;
mod turn;

pub use books::{
    a_book_has_one_log, a_book_with_snapshots_is_legal, a_call_is_what_the_step_asks_for,
    a_cut_is_legal, a_held_name_stays, a_late_call_arrives_once, a_stop_leaves_what_is_outside,
    a_takeover_is_legal, an_answer_waits_after_an_answered_call, every_legal_book_agrees,
    some_books_are_legal, some_turns_are_not_legal, what_agreement_says,
};
pub use bounds::{
    a_cause_has_one_event, a_ledger_does_what_turns_do, a_legal_book_counts_its_turns,
    a_legal_book_goes_on, a_posted_letter_is_a_letter_of_its_poster, a_step_goes_on_a_legal_book,
    a_step_keeps_the_launch_table, letters_of_seven_are_letters_of_the_members,
    posted_letters_are_heard_whole, replicas_of_a_legal_book_are_small,
    votes_are_those_of_the_changes,
};
pub use turn::{CallRow, Cause, Turn};
