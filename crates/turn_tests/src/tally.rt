//! A list of rows of which each seat may add one at any time.
ghost use Rattle.std.specs.Prelude.{◌≡◌, []};

use cron_io::OutOfMemory;
use std::alloc::Global;
use turn_book::Law;

/// A row: the seat that adds it, and its number among that seat's.
#[derive(Clone, Copy, Debug, PartialEq, Eq)]
pub struct Entry {
    pub seat: u8,
    pub number: u32,
}

/// The rows so far.
#[derive(Drop)]
pub struct Tally {
    pub rows: Vec<Entry>,
}

impl Tally {
    /// No rows.
    pub fn new(alloc: Global) -> Tally
        ensures { result.rows.items ≡ [] }
    {
        Tally {
            rows: Vec::new(alloc),
        }
    }
}

impl Law for Tally {
    type Key = ();

    type Row = Entry;

    type Room = ();

    ghost use Rattle.std.specs.Prelude.{◌≡◌, ◌<◌, Some, vec_len, vec_capacity};

    ghost has_rows = { λ _ tally rows. tally.rows.items ≡ rows };

    ghost seat = { λ row. Some row.seat };

    ghost number = { λ _. 0 };

    ghost follows = { λ _ _ _ _. Unit {0} };

    ghost at_rest = { λ _. Unit {0} };

    ghost takes = { λ _ _. Unit {0} };

    ghost has_room = { λ tally _. vec_len tally.rows < vec_capacity tally.rows };

    ghost is_room_for = { λ _ _. Unit {0} };

    fn reserve(&mut self, _room: &()) -> Result<(), OutOfMemory> {
        self.rows.reserve(1)?;
        Ok(())
    }

    fn add(&mut self, _key: &(), row: Entry) {
        self.rows.push_reserved(row);
    }
}
