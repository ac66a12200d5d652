//! A turn of a seat.
ghost use Rattle.std.specs.Prelude.{◌≡◌, true, false, [], ◌∷◌, ◌++◌, Some, None, OnOk};

use crate::book::{TurnBook, TurnSeat};
use crate::law::Law;
use crate::plays::Place;
use atomic_table::Badge;
use cron_io::OutOfMemory;
use std::mem;
use std::sync::Wait;

/// The turn of a seat, with the state. It ends by `commit` or `leave`.
pub struct Turn<'a, L: Law> {
    pub(crate) book: &'a TurnBook<L>,
    pub(crate) seat: &'a mut TurnSeat<L>,
    pub(crate) inner: Place<L>,
    pub(crate) state: L,
    ghost table: { inner.table_id ≡ book.now.table.shared.table_id },
    ghost slot: { inner.me.1 ≡ (0, None) ∷ [] },
    ghost opened: { inner.me.0.opening ≡ Some book.now.table.shared.key },
    ghost turn: { inner.me.0.turn ≡ true },
    ghost lives: { inner.me.0.spent ≡ false },
    ghost counts: { inner.me.0.number ≡ 0 → inner.me.0.made ≡ book.now.table.shared.key.seats },
}

impl<L: Law> TurnBook<L> {
    ghost use Rattle.turn_book.specs.Turns.{IsLentTo, IsSeatOf, IsTurnAt, ShowsHistory, ShowsRest};

    /// Draws a ticket for the seat, and waits until it is served. There is no refusal.
    pub fn enter<'a, R: Wait>(&'a self, rt: &R, seat: &'a mut TurnSeat<L>) -> Turn<'a, L>
        requires { IsSeatOf self.now seat.old }
        ensures lent { IsLentTo seat.entry result }
        ensures turn { IsTurnAt self.now seat.old result }
        ensures history { ShowsHistory L.Law seat.old result }
        ensures rest { ShowsRest L.Law result }
    {
        let mut inner = mem::replace(&mut seat.badge, Badge::blank()).into_seat();
        let ticket = self.draw(&mut inner);
        self.wait_for(rt, &mut inner, ticket);
        let state = self.take_state(&mut inner);
        Turn {
            book: self,
            seat,
            inner,
            state,
        }
    }
}

impl<'a, L: Law> Turn<'a, L> {
    ghost use Rattle.turn_book.specs.Turns.{IsSameTurn, KeepsState, LeavesSeat, ShowsRest, number_at, opening_at, own_at, shown_at, state_at};

    /// Makes room for a row. Otherwise the state stays as it is, also without memory.
    pub fn reserve(&mut self, room: &L::Room) -> Result<(), OutOfMemory>
        ensures room { OnOk result ((row : L.Row) → L.is_room_for room.now row → L.has_room (state_at self.new) row) }
        ensures keeps { KeepsState L.Law (state_at self.old) (state_at self.new) }
        ensures same { IsSameTurn self.old self.new }
    {
        self.state.reserve(room)
    }

    /// Adds the row to the history, as one of the seat's, and hands the turn on. This takes no memory.
    pub fn commit(self, key: &L::Key, row: L::Row)
        requires key { key.now ≡ (opening_at self).key.value }
        requires room { L.has_room (state_at self) row }
        requires seat { L.seat row ≡ Some (number_at self) }
        requires follows { L.follows key.now (L.number (opening_at self).state.value) (shown_at self) row }
        requires rows { L.has_rows key.now (state_at self) (shown_at self) }
        requires number { L.number (state_at self) ≡ L.number (opening_at self).state.value }
        requires takes { L.takes (state_at self) row }
        ensures { LeavesSeat self.entry (own_at self.entry ++ row ∷ []) (shown_at self.entry ++ row ∷ []) self.exit.1.0.now }
    {
        let Turn {
            book,
            seat,
            mut inner,
            mut state,
        } = self;
        book.count_row(&mut inner, &row);
        state.add(key, row);
        *seat = book.hand_on(inner, state);
    }

    /// Hands the turn on with no row added. This takes no memory.
    pub fn leave(self)
        requires { ShowsRest L.Law self }
        ensures { LeavesSeat self.entry (own_at self.entry) (shown_at self.entry) self.exit.1.0.now }
    {
        let Turn {
            book,
            seat,
            inner,
            state,
        } = self;
        *seat = book.hand_on(inner, state);
    }
}
