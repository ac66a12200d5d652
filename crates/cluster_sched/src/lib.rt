//! A launch is known by its name alone. A name has one text, two launches of a table have two
//! (`names_differ_in_their_texts`), and a text is read as a name exactly if it is the text of one (`write_name`,
//! `read_name`, `is_name_in`). A scheduler holds the first row under a name for good (`held_rows_stay`,
//! `answers_stay`), and a call answers with it (`call_by_name`, clause `first`); a call that fails may go late, and
//! then joins the late rows at their end (clause `late`); a call on a name that is held changes no row and creates
//! nothing (clause `known`). All this is asked of every `Scheduler`, and proved of `Ledger`, a scheduler in memory.
//! A call of the ledger goes by the fate that is set for it: it is answered, or lost on the way there or back, or
//! late (`calls_go_by_their_fates`); there is one such answer (`ledgers_answer_alike`), and always one
//! (`ledgers_always_answer`), unless memory runs out, which only a new name needs
//! (`memory_is_wanted_for_new_names`). A late call that arrives (`Ledger::arrive`) is held only if its name is free.
#![tactic(auto)]

mod call;
mod fate;
mod fault;
mod laws;
mod ledger;
mod name;
mod row;
mod scheduler;

pub use call::call_by_name;
pub use fate::Fate;
pub use fault::CallFault;
pub use laws::{
    a_look_has_one_answer, answers_stay, calls_go_by_their_fates, calls_leave_their_room,
    held_rows_stay, late_rows_stay, ledgers_always_answer, ledgers_answer_alike,
    memory_is_wanted_for_new_names, names_differ_in_their_texts, rows_named_once_are_first,
};
pub use ledger::Ledger;
pub use name::{is_name_in, read_name, write_name};
pub use row::{Name, SchedRow};
pub use scheduler::Scheduler;
