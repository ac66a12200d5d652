//! The work of a thread: a seat, and how many rows it has added.
use turn_book::{Law, TurnSeat};

#[derive(Drop)]
pub struct Job<L: Law> {
    pub seat: TurnSeat<L>,
    pub done: u32,
}
