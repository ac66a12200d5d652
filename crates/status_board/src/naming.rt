//! The rule under which readers are shown states.
use crate::name::Name;
use crate::sheet::Sheet;
use atomic_table::{Join, Split};
use crossbeam_utils::rule::{Outcome, Protocol};

/// What is shown is the last of its states, and who has a board's name has that board's.
pub struct Naming;

impl Protocol<Sheet, Option<Name>> for Naming {
    ghost use Rattle.std.specs.Prelude.{None};
    ghost use Rattle.status_board.specs.Naming.{Keeps};

    ghost holds = { λ sheet names. Keeps sheet names };

    ghost first = { None };
}

/// A reader is let in.
pub(crate) struct LetIn;

impl Outcome<Sheet, Option<Name>> for LetIn {
    ghost use Rattle.status_board.specs.Naming.{Sees};

    ghost then = { Sees };
}

/// The writer shows a state.
pub(crate) struct Show;

impl Outcome<Sheet, Option<Name>> for Show {
    ghost use Rattle.status_board.specs.Naming.{ShowsIt};

    ghost then = { ShowsIt };
}

/// The writer tells a reader the board's name.
pub(crate) struct Tell;

impl Split<Option<Name>> for Tell {
    ghost left = { λ name. name };

    ghost right = { λ name. name };
}

impl Join<Option<Name>> for Tell {
    ghost use Rattle.std.specs.Prelude.{None};
    ghost use Rattle.status_board.specs.Naming.{told_name};

    ghost both = { told_name };

    ghost spent = { None };
}
