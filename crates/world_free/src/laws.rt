//! A law of what a board shows of a part. It is the contract of a function that does nothing.
ghost use Rattle.std.specs.Prelude.{◌++◌, ℕ, List, Contains, drop, length};
ghost use Rattle.due_set.specs.Table.{Table};
ghost use Rattle.history.specs.Book.{Row};
ghost use Rattle.script_semantics.specs.Situation.{Situation};
ghost use Rattle.status_board.specs.Writing.{Writing};
ghost use Rattle.status_board.specs.declared.shown.Shown.{Shown};
ghost use Rattle.world_free.specs.Board.{IsOfBook, ShowsPart};

/// Each state that a board has got in a part is one of the log at the part's end: it has the launch table of the clerk who has gone over
/// as many entries as its prefix says. So readers never see rows of two prefixes, nor what was not chosen.
pub fn each_state_of_a_board_is_one_of_the_log()
    ensures { (members who : ℕ) (table : Table) (situation : Situation) (begun more : List Row) (old new : Writing) (state : Shown)
        → ShowsPart members who table situation begun more old new → Contains (drop (length old.states) new.states) state
        → IsOfBook members table (begun ++ more) state.prefix state.rows }
{}
