//! How a book is made, and its seats.
ghost use Rattle.std.specs.Prelude.{◌≡◌, ◌+◌, ◌<◌, ◌≤◌, ◌∷◌, ◌++◌, [], Some, length, IfOk, vec_len, vec_capacity};

use crate::book::{TurnBook, TurnSeat};
use crate::law::Law;
use crate::plays::{Place, Seats};
use crate::view::Opening;
use atomic_table::{Refused, Table};
use cron_io::OutOfMemory;
use std::alloc::Global;
use std::snapshot::Snapshot;

// Puts the first seat before the others, for which there is room.
fn put_first<L: Law>(seats: &mut Vec<TurnSeat<L>>, seat: TurnSeat<L>)
    requires { vec_len seats.old < vec_capacity seats.old }
    ensures { seats.new.items ≡ seat ∷ seats.old.items }
{
    match seats.insert(0, seat) {
        Ok(()) => {}
        Err(_) => unreachable!(),
    }
}

impl<L: Law> TurnBook<L> {
    ghost use Rattle.turn_book.specs.Rested.{Rests};
    ghost use Rattle.turn_book.specs.Rows.{HasLawful};
    ghost use Rattle.turn_book.specs.Turns.{AreNewSeats, BeganWith, opening_of, seats_of};
    ghost use Rattle.turn_book.specs.Views.{counting, first_view, newcomer, with_seat};

    // The table of a book, and its first seat.
    fn lay(
        alloc: Global,
        key: &L::Key,
        state: L,
        seats: u8,
    ) -> Result<(TurnBook<L>, Place<L>), OutOfMemory>
        requires seats { (0 < seats) × (seats ≤ 7) }
        requires rows { HasLawful (L.has_rows key.now state) (L.follows key.now (L.number state)) }
        requires rest { L.at_rest state }
        ensures began { IfOk result (λ made. BeganWith key.now state seats made.0) }
        ensures table { IfOk result (λ made. made.1.table_id ≡ made.0.table.shared.table_id) }
        ensures view { IfOk result (λ made. made.1.me ≡ (first_view (opening_of made.0), [])) }
    {
        let opening = Opening {
            key: Snapshot::of(key),
            state: Snapshot::of(&state),
            seats,
        };
        let mut slots = Vec::with_capacity(alloc, 1)?;
        slots.push_reserved(Some(state));
        match Table::new(alloc, &[0, 0, 0], slots, &opening) {
            Ok((table, first)) => Ok((TurnBook { table }, first)),
            Err(Refused { slots: _ }) => Err(OutOfMemory),
        }
    }

    // Makes one more seat.
    fn split_off(&self, first: &mut Place<L>) -> TurnSeat<L>
        requires own { first.old.table_id ≡ self.now.table.shared.table_id }
        requires rests { Rests first.old.me.0 }
        requires first { first.old.me.0.number ≡ 0 }
        requires opened { first.old.me.0.opening ≡ Some (opening_of self.now) }
        requires room { first.old.me.0.made < seats_of self.now }
        ensures table { first.new.table_id ≡ first.old.table_id }
        ensures view { first.new.me ≡ (with_seat first.old.me.0, first.old.me.1) }
        ensures made { result.badge.table_id ≡ first.old.table_id }
        ensures new { result.badge.views ≡ newcomer first.old.me.0 ∷ [] }
    {
        let seat = self.table.shared.split_seat::<Seats>(first);
        TurnSeat {
            badge: seat.into_badge(),
        }
    }

    // Makes the seats after the first.
    fn make_others(&self, first: &mut Place<L>, others: &mut Vec<TurnSeat<L>>, count: u8)
        requires own { first.old.table_id ≡ self.now.table.shared.table_id }
        requires view { first.old.me ≡ (first_view (opening_of self.now), []) }
        requires count { count ≡ seats_of self.now }
        requires none { others.old.items ≡ [] }
        requires room { count ≤ vec_capacity others.old }
        ensures table { first.new.table_id ≡ first.old.table_id }
        ensures view { first.new.me ≡ (counting count (first_view (opening_of self.now)), []) }
        ensures others { AreNewSeats self.now 1 others.new.items }
        ensures len { vec_len others.new + 1 ≡ count }
        ensures capacity { vec_capacity others.old ≤ vec_capacity others.new }
    {
        'others: for _made in 1..count {
            others.push_reserved(self.split_off(first));
        }
    }

    /// A book of this state, and so many seats, each at the place of its number. It keeps no reference to the key; what
    /// is lawful is from here on said under it.
    pub fn new(
        alloc: Global,
        key: &L::Key,
        state: L,
        seats: u8,
    ) -> Result<(TurnBook<L>, Vec<TurnSeat<L>>), OutOfMemory>
        requires seats { (0 < seats) × (seats ≤ 7) }
        requires rows { HasLawful (L.has_rows key.now state) (L.follows key.now (L.number state)) }
        requires rest { L.at_rest state }
        ensures began { IfOk result (λ made. BeganWith key.now state seats made.0) }
        ensures count { IfOk result (λ made. length made.1.items ≡ seats) }
        ensures seats { IfOk result (λ made. AreNewSeats made.0 0 made.1.items) }
    {
        let mut made = Vec::with_capacity(alloc, seats as usize)?;
        let (book, mut first) = TurnBook::lay(alloc, key, state, seats)?;
        book.make_others(&mut first, &mut made, seats);
        put_first(
            &mut made,
            TurnSeat {
                badge: first.into_badge(),
            },
        );
        Ok((book, made))
    }
}
