//! How a book is closed.
ghost use Rattle.std.specs.Prelude.{◌≡◌, ◌<◌, ◌∷◌, length, map};

use crate::book::{TurnBook, TurnSeat};
use crate::law::Law;
use crate::plays::{Place, Seats};

// Takes the first seat out.
fn take_first<L: Law>(seats: &mut Vec<TurnSeat<L>>) -> TurnSeat<L>
    requires { 0 < length seats.old.items }
    ensures { seats.old.items ≡ result ∷ seats.new.items }
{
    seats.remove(0)
}

impl<L: Law> TurnBook<L> {
    ghost use Rattle.turn_book.specs.Rested.{Rests};
    ghost use Rattle.turn_book.specs.Turns.{AreAllSeats, AreSeatsOf, HasHistory, past_by};
    ghost use Rattle.turn_book.specs.Views.{with_pasts};

    // Joins the other seats to the first, the last of them first.
    fn take_back(&self, first: &mut Place<L>, mut others: Vec<TurnSeat<L>>)
        requires own { first.old.table_id ≡ self.now.table.shared.table_id }
        requires rests { Rests first.old.me.0 }
        requires first { first.old.me.0.number ≡ 0 }
        requires others { AreSeatsOf self.now others.items }
        ensures table { first.new.table_id ≡ first.old.table_id }
        ensures id { first.new.id ≡ first.old.id }
        ensures view { first.new.me ≡ (with_pasts (map past_by others.items) first.old.me.0, first.old.me.1) }
    {
        let shared = &self.table.shared;
        'others: while let Some(seat) = others.pop() {
            let TurnSeat { badge } = seat;
            shared.join_seat::<Seats>(first, badge.into_seat());
        }
    }

    /// Ends a book, whose seats all come back, and gives its state, whose rows are the history.
    pub fn close(self, mut seats: Vec<TurnSeat<L>>) -> L
        requires { AreAllSeats self seats.items }
        ensures { HasHistory L.Law self seats.items result }
    {
        let TurnSeat { badge } = take_first(&mut seats);
        let mut first = badge.into_seat();
        self.take_back(&mut first, seats);
        let TurnBook { table } = self;
        let mut closed = table.close_with(first);
        let state = closed.take(0);
        closed.free();
        state.unwrap()
    }
}
