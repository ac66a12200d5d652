//! The states of a board in order, as a log that only grows. It exists in the proofs alone, but for a word: the prefix of its
//! last state.
ghost use Rattle.std.specs.Prelude.{◌≡◌, ◌<◌, ◌∷◌, ◌++◌, [], IsTrue, ℕ, length};
ghost use mathlib.Core.List.{IsPrefix};
ghost use Rattle.due_set.specs.Table.{Table};
ghost use Rattle.launch_machine.specs.Clerk.{first_rows, table_size};
ghost use Rattle.paxos_base.specs.Rows.{AreNumbered, RowsStand, row_count};
ghost use Rattle.status_board.specs.History.{AreOfBoard, word_of};
ghost use Rattle.status_board.specs.Shown.{IsHistory, shown_state_of};
ghost use Rattle.status_board.specs.Sight.{HasLastPrefix};

use crate::latest::Latest;
use crate::shown::Shown;
use due_set::JobTable;
use logbook::{Gain, Offer, Opening, Plain, Play, Rule, Seen, Start, Word};

/// The rule of the log.
pub struct History;

impl Rule<Shown, u64> for History {
    ghost use Rattle.std.specs.Prelude.{[]};
    ghost use base.Fml.{ftrue};
    ghost use Rattle.status_board.specs.History.{IsKept};

    ghost holds = { λ cells states. IsKept cells states };

    ghost first = { [] };

    ghost hinted = { λ _ _. Unit {0} };

    ghost shows = { λ _. [] };

    ghost keeps = { λ _ _. ftrue };

    ghost moves = { λ _ _ _ _. Unit {0} };
}

/// The states up to one of them. It has no bytes.
pub(crate) type Past = Seen<Shown, u64, History>;

/// The word that is the prefix of the last state.
pub(crate) type Head = Word<Shown, u64, History>;

impl Opening<Latest, Shown> for History {
    ghost use Rattle.std.specs.Prelude.{◌∷◌, []};
    ghost use Rattle.status_board.specs.Shown.{shown_state_of};

    ghost log = { λ _ latest. shown_state_of latest.prefix latest.machine.rows ∷ [] };
}

// The step trades nothing.
struct Nothing;

impl Gain<Shown, u64> for Nothing {
    ghost use base.Fml.{ftrue};

    ghost after = { λ _ _ _. ftrue };
}

// The step that adds a state.
struct Adding;

impl Play<Shown, u64> for Adding {
    ghost use Rattle.status_board.specs.History.{AddsState};

    ghost then = { AddsState };
}

impl Plain<Latest, Shown, u64> for Adding {
    ghost use Rattle.std.specs.Prelude.{None};
    ghost use Rattle.status_board.specs.Shown.{shown_state_of};

    ghost ask = { λ latest. shown_state_of latest.prefix latest.machine.rows };

    ghost state = { λ _. None };
}

/// A log that begins with a state before the log of entries.
pub(crate) fn begin(latest: &Latest, table: &JobTable) -> (Past, Head)
    requires prefix { latest.now.prefix ≡ 0 }
    requires rows { latest.now.machine.rows ≡ first_rows table.now }
    requires stand { RowsStand latest.now.machine.rows (table_size table.now) }
    ensures states { result.0.log ≡ shown_state_of latest.now.prefix latest.now.machine.rows ∷ [] }
    ensures history { IsHistory (row_count (table_size table.now)) result.0.log }
    ensures word { result.1 ≡ word_of result.0.book }
{
    let (past, mut pens) = Seen::open_row::<Latest, History>(latest, Start::alone(), 1);
    let head = Word::tracked(0, &mut pens.take());
    (past, head)
}

/// Adds the latest state after all others, and says whether it did. It does, since one writer alone steps the word; but no
/// clause of the word can say so.
pub(crate) fn add(head: &Head, past: &mut Past, before: u64, latest: &Latest) -> bool
    requires word { head.now ≡ word_of past.old.book }
    requires history { AreOfBoard past.old.log }
    requires last { HasLastPrefix past.old.log before }
    requires rises { before < latest.now.prefix }
    requires rows { (total : ℕ) → IsHistory total past.old.log → AreNumbered latest.now.machine.rows total }
    ensures book { past.new.book ≡ past.old.book }
    ensures longer { IsPrefix past.old.log past.new.log }
    ensures history { (total : ℕ) → IsHistory total past.old.log → IsHistory total past.new.log }
    ensures added { IsTrue result → past.new.log ≡ past.old.log ++ shown_state_of latest.now.prefix latest.now.machine.rows ∷ [] }
{
    let mut offer: Offer<Shown, u64, History, Nothing> = past.plain::<Nothing, Latest, Adding>(
        latest,
    );
    let mut pen = past.no_pen();
    let found = head.compare_exchange::<Adding, Nothing>(
        before,
        latest.prefix,
        past,
        &mut offer,
        &mut pen,
    );
    found == before
}
