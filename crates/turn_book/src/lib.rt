//! A state that threads share, each at a seat of its own, and whose rows are a history. A type that has one
//! implements `Law`: which lists are the rows of a state, which seat a row names, which rows may follow, when the
//! state is at rest, and which rows it takes. `TurnBook::new` makes a book with one to seven seats, and `enter`
//! waits until the seat's ticket is served. The turn shows the whole history so far (`ShowsHistory`), and a state at
//! rest (`ShowsRest`); `state` lends the state, `reserve` makes room, and `commit` adds one row, which names the
//! seat, or `leave` none (`LeavesSeat`). A row may follow by what the turn shows: no other turn has to be known.
//! `close` takes all seats back and gives the state with the whole history (`HasHistory`): the rows that name a seat
//! are those that it committed, each once, in its order. All this is proved for every `Law`, by the atomic steps of
//! the kit's `atomic_table`, as that crate states them. `enter` may wait, and nothing else does; that a ticket is
//! ever served isn't claimed. `plays` has the steps, `view` what a seat knows.
#![tactic(auto)]

mod book;
mod close;
mod law;
mod lend;
mod make;
mod plays;
mod turn;
mod view;

pub use book::{TurnBook, TurnSeat};
pub use law::Law;
pub use turn::Turn;
pub use view::{Opening, Past, View};
