//! The steps that a node takes beside a book, and how they become turns of it; and the parts of a world: its nodes,
//! the book of their turns, and what is on its way to each and set for it (`Bundle`; `ArePartsAt` says in which
//! situation of a script they are). `take_step` lets a node take its step for a cause without a look at the book,
//! which others may have meanwhile: it is one step more ahead of whichever book it was beside (clause `beside`:
//! `IsBeside`). `commit_step` makes the next step of a replica (`IsNextStep`) a turn of the book, with the call that
//! it asks for (clause `joined`: `HasJoinedAt`). `take_by_arm` takes a step on a disk that is armed: if the calls
//! left are too few, the disk stops within the save, and the node is attached again with the change exactly if it
//! was kept (clause `ended`: `HasOutcome`). Running out of memory is the only fault (`memory_of`). A replica of a
//! legal book that is stopped has what it keeps and nothing else (`a_stopped_replica_has_what_it_keeps`), and one
//! that may propose has not voted at its prefix in the ballot that it leads in
//! (`a_replica_of_a_legal_book_proposes_anew`). `steps` and `armed` have the step, `turns` how it becomes a turn,
//! `mails` what is set for a replica, `bundle` the parts.
#![tactic(auto)]

mod armed;
mod bundle;
mod fault;
mod laws;
mod mail;
mod mails;
mod steps;
mod turns;

pub use armed::{Outcome, take_by_arm};
pub use bundle::Bundle;
pub use fault::memory_of;
pub use laws::{a_replica_of_a_legal_book_proposes_anew, a_stopped_replica_has_what_it_keeps};
pub use mail::{MailState, MemberMail};
pub use mails::{calls_to_save, is_cut, letter_at, note_step, note_stop, reading_of};
pub use steps::{Taken, take_step};
pub use turns::{call_for, change_alone, commit_step, reading_with};
