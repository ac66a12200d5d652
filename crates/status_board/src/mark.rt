use crate::past::Past;
use std::marker::Model;

/// A place in the published states of a board, of which its readers may be told.
#[derive(Drop)]
pub struct Mark {
    pub(crate) past: Past,
    pub(crate) prefix: u64,
}

impl Model for Mark {
    ghost use Rattle.std.specs.Prelude.{◌≡◌};
    ghost use Rattle.status_board.specs.Sight.{HasLastPrefix, Marked};

    ghost Value = { Marked };

    ghost view = { λ mark. record { board = mark.past.book; states = mark.past.log } };

    ghost invariant = { λ mark. HasLastPrefix mark.past.log mark.prefix };
}
