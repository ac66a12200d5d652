//! What a book of turns asks of its state.
ghost use Rattle.std.specs.Prelude.{◌≡◌, ◌↔◌, ℕ, List, [], ◌∷◌, ◌++◌, Option, OnOk};
ghost use Rattle.turn_book.specs.Rows.{MayAdd};

use cron_io::OutOfMemory;

/// What a book of turns needs of its state: a history of rows, each of which may follow those before it.
pub trait Law: Drop {
    /// What the law is judged by.
    type Key;

    /// One row of the history.
    type Row: Drop;

    /// What tells how much room a row takes.
    type Room;

    /// The list of rows of a state, under a key. Of a state that doesn't keep all that its rows had, more than one list may
    /// be one.
    ghost has_rows: { Self.Key → Self → List Self.Row → Type 0 };

    /// The number of the seat that a row names, where it names one.
    ghost seat: { Self.Row → Option ℕ };

    /// A number of the state, which stays.
    ghost number: { Self → ℕ };

    /// Under a key and a number, a row may follow the rows of a list.
    ghost follows: { Self.Key → ℕ → List Self.Row → Self.Row → Type 0 };

    /// No row is under way.
    ghost at_rest: { Self → Type 0 };

    /// The state takes this row next, by what is under way.
    ghost takes: { Self → Self.Row → Type 0 };

    /// There is room for the row, so that adding it takes no memory.
    ghost has_room: { Self → Self.Row → Type 0 };

    /// The room that is asked for is room for the row.
    ghost is_room_for: { Self.Room → Self.Row → Type 0 };

    /// Makes room. Otherwise the state stays as it is, also without memory.
    fn reserve(&mut self, room: &Self::Room) -> Result<(), OutOfMemory>
        ensures room { OnOk result ((row : Self.Row) → is_room_for room.now row → has_room self.new row) }
        ensures had_room { (row : Self.Row) → has_room self.old row → has_room self.new row }
        ensures rows { (key : Self.Key) (rows : List Self.Row) → has_rows key self.old rows → has_rows key self.new rows }
        ensures number { number self.new ≡ number self.old }
        ensures rest { at_rest self.new ↔ at_rest self.old }
        ensures takes { (row : Self.Row) → takes self.new row ↔ takes self.old row };

    /// Adds the row that comes next. This takes no memory.
    fn add(&mut self, key: &Self::Key, row: Self::Row)
        requires room { has_room self.old row }
        requires takes { takes self.old row }
        requires follows { MayAdd (has_rows key.now self.old) (follows key.now (number self.old)) row }
        ensures rows { (before : List Self.Row) → has_rows key.now self.old before → follows key.now (number self.old) before row
            → has_rows key.now self.new (before ++ row ∷ []) }
        ensures number { number self.new ≡ number self.old }
        ensures rest { at_rest self.new };
}
