//! The state of a turn, which is lent while the turn lasts.
ghost use Rattle.std.specs.Borrow.{sem};
ghost use Rattle.std.specs.Prelude.{◌≡◌};
ghost use Rattle.turn_book.specs.Lending.{LendsState};
ghost use Rattle.turn_book.specs.Turns.{state_at};

use crate::law::Law;
use crate::turn::Turn;

impl<'a, L: Law> Turn<'a, L> {
    /// The state, which may change in its turn.
    pub fn state(&mut self) -> &mut L
        ensures* lends { sem 𝓛 (LendsState L.row L.Key.row L.Row.row L.Room.row L.Law self.entry result) }
        ensures state { result.now ≡ state_at self.old }
    {
        &mut self.state
    }
}
