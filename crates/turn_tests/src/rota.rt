//! A list of shifts that the seats take in turn. Whose shift it is next is called out before it is added.
ghost use Rattle.std.specs.Prelude.{◌≡◌, ◌%◌, ◌<◌, IsTrue, MatchBool, Some, length};

use cron_io::OutOfMemory;
use turn_book::Law;

/// A shift of a seat.
#[derive(Clone, Copy, Debug, PartialEq, Eq)]
pub struct Shift {
    pub seat: u8,
}

/// The shifts so far, of so many seats, and whose shift was called out.
#[derive(Drop)]
pub struct Rota {
    pub seats: u8,
    pub shifts: Vec<Shift>,
    pub called: Option<u8>,
}

/// Calls the next shift out where it is the seat's, and says whether it is.
pub fn call_next(rota: &mut Rota, seat: u8) -> bool
    requires { 0 < rota.old.seats }
    ensures shifts { rota.new.shifts ≡ rota.old.shifts }
    ensures seats { rota.new.seats ≡ rota.old.seats }
    ensures called { MatchBool result (rota.new.called ≡ Some seat) (rota.new.called ≡ rota.old.called) }
    ensures next { IsTrue result → length rota.old.shifts.items % rota.old.seats ≡ seat }
{
    if rota.shifts.len() % rota.seats as usize != seat as usize {
        return false;
    }
    rota.called = Some(seat);
    true
}

impl Law for Rota {
    type Key = ();

    type Row = Shift;

    type Room = ();

    ghost use Rattle.std.specs.Prelude.{◌≡◌, ◌%◌, ◌<◌, Some, None, length, vec_len, vec_capacity};

    ghost has_rows = { λ _ rota rows. rota.shifts.items ≡ rows };

    ghost seat = { λ row. Some row.seat };

    ghost number = { λ rota. rota.seats };

    ghost follows = { λ _ seats before row. length before % seats ≡ row.seat };

    ghost at_rest = { λ rota. rota.called ≡ None };

    ghost takes = { λ rota row. rota.called ≡ Some row.seat };

    ghost has_room = { λ rota _. vec_len rota.shifts < vec_capacity rota.shifts };

    ghost is_room_for = { λ _ _. Unit {0} };

    fn reserve(&mut self, _room: &()) -> Result<(), OutOfMemory> {
        self.shifts.reserve(1)?;
        Ok(())
    }

    fn add(&mut self, _key: &(), row: Shift) {
        self.shifts.push_reserved(row);
        self.called = None;
    }
}
