//! The steps of a seat at the table of a book.
ghost use Rattle.std.specs.Prelude.{List};
ghost use Rattle.turn_book.specs.Steps.{committed, drew, handed_on, looked};
ghost use Rattle.turn_book.specs.Views.{first_view, newcomer, spent_view, with_past, with_seat};
ghost use Rattle.turn_book.specs.Rule.{Fair};

use crate::law::Law;
use crate::view::{Opening, View};
use atomic_table::{Join, Play, Seat, Split, Table, TableRule};
use std::alloc::Global;
use std::marker::{Brand, PhantomData};

pub type ViewOf<L> = View<L, <L as Law>::Key, <L as Law>::Row>;

pub type OpeningOf<L> = Opening<L, <L as Law>::Key>;

pub type Place<L> = Seat<Option<L>, ViewOf<L>>;

pub type Words<L> = Table<Option<L>, ViewOf<L>, OpeningOf<L>, Fairly<L>, Global>;

pub struct Fairly<L> {
    law: PhantomData<L>,
}

impl<L: Law> TableRule<Option<L>, ViewOf<L>, OpeningOf<L>> for Fairly<L> {
    ghost holds = { λ opening. Fair L.Law opening };

    ghost first = { first_view };
}

/// Draws a ticket.
pub struct Draw;

impl<L, K, R> Play<Option<L>, View<L, K, R>> for Draw {
    ghost then = { λ _ m drawn n. drew m drawn n };
}

/// Looks whether its ticket is served.
pub struct Look<L> {
    law: PhantomData<L>,
}

impl<L: Law> Play<Option<L>, ViewOf<L>> for Look<L> {
    ghost then = { λ _ m serving n. looked L.Law m serving n };
}

/// The rows that a step adds, which the proof of its call picks.
pub trait Chosen<R> {
    ghost added: { List R };
}

impl<R> Chosen<R> for Brand {
    ghost use Rattle.std.specs.Prelude.{[]};

    ghost added = { [] };
}

/// Counts the rows that were committed.
pub struct Count<C> {
    rows: PhantomData<C>,
}

impl<L, K, R, C: Chosen<R>> Play<Option<L>, View<L, K, R>> for Count<C> {
    ghost then = { λ _ m _ n. committed C.added m n };
}

/// Hands the turn on.
pub struct HandOn;

impl<L, K, R> Play<Option<L>, View<L, K, R>> for HandOn {
    ghost then = { λ _ m _ n. handed_on m n };
}

/// Makes seats, and takes them back.
pub struct Seats;

impl<L, K, R> Split<View<L, K, R>> for Seats {
    ghost left = { with_seat };

    ghost right = { newcomer };
}

impl<L, K, R> Join<View<L, K, R>> for Seats {
    ghost both = { with_past };

    ghost spent = { spent_view };
}
