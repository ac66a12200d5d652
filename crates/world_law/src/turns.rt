//! A book whose replicas take their turns in threads of their own.
use crate::book::Book;
use crate::row::BookRow;
use cron_io::OutOfMemory;
use due_set::JobTable;
use replica_core::StepOut;
use turn_book::Law;

impl Law for Book {
    type Key = JobTable;

    type Row = BookRow;

    type Room = StepOut;

    ghost use Rattle.std.specs.Prelude.{◌≡◌, ◌≤◌, None, length};
    ghost use Rattle.history.specs.Book.{turn_of};
    ghost use Rattle.world_law.specs.Book.{HasRoom, call_of};
    ghost use Rattle.world_law.specs.Rows.{HasRows, MayComeNext};

    ghost has_rows = { λ table book rows. HasRows table rows book };

    ghost seat = { λ row. turn_of row.turn };

    ghost number = { λ book. book.members };

    ghost follows = { λ table members before row. MayComeNext members table before row };

    ghost at_rest = { λ book. book.pending ≡ None };

    ghost takes = { λ book row. book.pending ≡ call_of row.turn };

    ghost has_room = { λ book row. HasRoom (length row.out.letters) book };

    ghost is_room_for = { λ out row. length row.out.letters ≤ length out.letters };

    fn reserve(&mut self, room: &StepOut) -> Result<(), OutOfMemory> {
        Book::reserve(self, room)?;
        Ok(())
    }

    fn add(&mut self, key: &JobTable, row: BookRow) {
        let BookRow { turn, out } = row;
        self.commit(key, turn, out);
    }
}
