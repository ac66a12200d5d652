//! A book, and the steps of its seats.
ghost use Rattle.std.specs.Prelude.{◌≡◌, ◌%◌, ◌^◌, ◌<◌, ◌≤◌, [], ◌∷◌, Some, None, MatchBool};

use crate::law::Law;
use crate::plays::{Chosen, Count, Draw, HandOn, Look, Place, ViewOf, Words};
use atomic_table::Badge;
use std::marker::Brand;
use std::sync::Wait;
use std::{mem, thread};

/// A state that threads share, whose rows are a history. Each thread has a seat, and takes turns by tickets.
#[derive(Drop)]
pub struct TurnBook<L: Law> {
    pub(crate) table: Words<L>,
    ghost sized: { (table.shared.table_id.words ≡ 3) × (table.shared.table_id.slots ≡ 1) },
    ghost seated: { (0 < table.shared.key.seats) × (table.shared.key.seats ≤ 7) },
}

/// A seat at a book. It has no bytes.
#[derive(Drop)]
pub struct TurnSeat<L: Law> {
    pub(crate) badge: Badge<ViewOf<L>>,
}

impl<L: Law> TurnBook<L> {
    ghost use Rattle.turn_book.specs.Steps.{IsServed, drew};
    ghost use Rattle.turn_book.specs.Rested.{IsInLine, MayCommit, MayHandOn, Rests};
    ghost use Rattle.turn_book.specs.Views.{out_of_line, with_rows};

    // Draws a ticket, and gives its number modulo 2^64.
    pub(crate) fn draw(&self, inner: &mut Place<L>) -> u64
        requires own { inner.old.table_id ≡ self.now.table.shared.table_id }
        requires rests { Rests inner.old.me.0 }
        ensures table { inner.new.table_id ≡ inner.old.table_id }
        ensures id { inner.new.id ≡ inner.old.id }
        ensures drew { drew inner.old.me result inner.new.me }
    {
        self.table.shared.fetch_add::<Draw>(inner, 0, 1)
    }

    // Whether the ticket is served: then the seat has the turn.
    fn is_served(&self, inner: &mut Place<L>, ticket: u64) -> bool
        requires own { inner.old.table_id ≡ self.now.table.shared.table_id }
        requires queued { IsInLine inner.old.me }
        requires ticket { ticket ≡ inner.old.me.0.ticket % 2 ^ 64 }
        ensures table { inner.new.table_id ≡ inner.old.table_id }
        ensures id { inner.new.id ≡ inner.old.id }
        ensures served { MatchBool result (IsServed L.Law inner.old.me inner.new.me) (inner.new.me ≡ inner.old.me) }
    {
        self.table.shared.load::<Look<L>>(inner, 1) == ticket
    }

    // Waits until the ticket is served.
    pub(crate) fn wait_for<R: Wait>(&self, rt: &R, inner: &mut Place<L>, ticket: u64)
        requires own { inner.old.table_id ≡ self.now.table.shared.table_id }
        requires queued { IsInLine inner.old.me }
        requires ticket { ticket ≡ inner.old.me.0.ticket % 2 ^ 64 }
        ensures table { inner.new.table_id ≡ inner.old.table_id }
        ensures id { inner.new.id ≡ inner.old.id }
        ensures served { IsServed L.Law inner.old.me inner.new.me }
    {
        'looks: for _ in rt.forever() {
            if self.is_served(inner, ticket) {
                return;
            }
            thread::yield_now();
        }
        unreachable!()
    }

    // Takes the state out of the slot.
    pub(crate) fn take_state(&self, inner: &mut Place<L>) -> L
        requires own { inner.old.table_id ≡ self.now.table.shared.table_id }
        requires there { (state : L) × (inner.old.me.1 ≡ (0, Some state) ∷ []) }
        ensures table { inner.new.table_id ≡ inner.old.table_id }
        ensures id { inner.new.id ≡ inner.old.id }
        ensures state { inner.old.me.1 ≡ (0, Some result) ∷ [] }
        ensures view { inner.new.me ≡ (inner.old.me.0, (0, None) ∷ []) }
    {
        self.table.shared.exchange(inner, 0, None).unwrap()
    }

    // Puts the state back into the slot.
    fn put_state(&self, inner: &mut Place<L>, state: L)
        requires own { inner.old.table_id ≡ self.now.table.shared.table_id }
        requires empty { inner.old.me.1 ≡ (0, None) ∷ [] }
        ensures table { inner.new.table_id ≡ inner.old.table_id }
        ensures id { inner.new.id ≡ inner.old.id }
        ensures view { inner.new.me ≡ (inner.old.me.0, (0, Some state) ∷ []) }
    {
        let none = self.table.shared.exchange(inner, 0, Some(state));
        let None = none else { unreachable!() };
    }

    // Counts a row that joins the history.
    fn count<C: Chosen<L::Row>>(&self, inner: &mut Place<L>, row: &L::Row)
        requires own { inner.old.table_id ≡ self.now.table.shared.table_id }
        requires added { C.added ≡ row.now ∷ [] }
        requires may { MayCommit L.Law inner.old.me.0 row.now }
        ensures table { inner.new.table_id ≡ inner.old.table_id }
        ensures id { inner.new.id ≡ inner.old.id }
        ensures view { inner.new.me ≡ (with_rows (row.now ∷ []) inner.old.me.0, inner.old.me.1) }
    {
        let _ = row;
        self.table.shared.fetch_add::<Count<C>>(inner, 2, 1);
    }

    // The same, and the proof picks the row.
    pub(crate) fn count_row(&self, inner: &mut Place<L>, row: &L::Row)
        requires own { inner.old.table_id ≡ self.now.table.shared.table_id }
        requires may { MayCommit L.Law inner.old.me.0 row.now }
        ensures table { inner.new.table_id ≡ inner.old.table_id }
        ensures id { inner.new.id ≡ inner.old.id }
        ensures view { inner.new.me ≡ (with_rows (row.now ∷ []) inner.old.me.0, inner.old.me.1) }
    {
        self.count::<Brand>(inner, row);
    }

    // Puts the state back, and hands the turn on.
    pub(crate) fn hand_on(&self, mut inner: Place<L>, state: L) -> TurnSeat<L>
        requires own { inner.table_id ≡ self.now.table.shared.table_id }
        requires empty { inner.me.1 ≡ (0, None) ∷ [] }
        requires may { MayHandOn L.Law inner.me.0 state }
        ensures table { result.badge.table_id ≡ inner.table_id }
        ensures id { result.badge.id ≡ inner.id }
        ensures view { result.badge.views ≡ out_of_line inner.me.0 ∷ [] }
    {
        self.put_state(&mut inner, state);
        self.table.shared.fetch_add::<HandOn>(&mut inner, 1, 1);
        TurnSeat {
            badge: inner.into_badge(),
        }
    }
}
