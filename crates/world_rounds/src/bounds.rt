//! The bounds in which letters are heard whole.
ghost use Rattle.std.specs.Prelude.{OnOk};
ghost use Rattle.world_rounds.specs.Bounds.{IsBookBounded};

use cron_io::OutOfMemory;
use world_law::Book;

// The turns of a book stay below this number.
const MOST_TURNS: usize = 1 << 59;

// The bytes of 2^31 packets: a letter of so many is heard as none.
const MOST_BYTES: usize = 56 << 31;

// Want of memory where a book has too many turns, or too long a letter.
pub(crate) fn check_bounds(book: &Book) -> Result<(), OutOfMemory>
    ensures { OnOk result (IsBookBounded book.now) }
{
    if book.turns().len() >= MOST_TURNS {
        return Err(OutOfMemory);
    }
    if book.longest() >= MOST_BYTES {
        return Err(OutOfMemory);
    }
    Ok(())
}
