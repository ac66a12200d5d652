//! A book is made ready for the turn of a step.
ghost use Rattle.std.specs.Prelude.{◌≡◌, ◌+◌, ◌<◌, ◌≤◌, ◌^◌, ℕ, List, None, IfOk, IfSome, OnOk, OnErr, length};
ghost use Rattle.std.specs.Option.{option_to_list};
ghost use Rattle.history.specs.Book.{Row};
ghost use Rattle.history.specs.Legal.{IsMade};
ghost use Rattle.world_free.specs.Mails.{HasLooked};
ghost use Rattle.world_free.specs.Ready.{row_of_step};
ghost use Rattle.world_law.specs.Book.{HasRoom, IsSameBook, StandsBehind, standing_behind};
ghost use Rattle.world_law.specs.Rows.{HasRows, MayComeNext};
ghost use Rattle.world_law.specs.declared.row.BookRow.{BookRow as Added};
ghost use Rattle.world_steps.specs.Turns.{MayJoin};

use crate::job::FreeMail;
use cron_io::OutOfMemory;
use due_set::JobTable;
use history::CallRow;
use world_law::Book;
use world_steps::{Taken, call_for};

/// The turns that a book has at most in a part of threads: then a step may be taken beside it.
pub(crate) const MOST_TURNS: usize = (1 << 31) - 1;

// The replica looks at the book, into which its step is to come, there is room for the step's turn, and the call is made that the step
// asks for. The call is last: while it is pending nothing else may want memory. Without memory the book stays as it is.
pub(crate) fn make_ready(
    book: &mut Book,
    table: &JobTable,
    cuts: &[(u8, u8)],
    who: u8,
    taken: &Taken,
    mail: &mut FreeMail,
) -> Result<Option<CallRow>, OutOfMemory>
    requires may { MayJoin table.now book.old who taken.now }
    requires looked { mail.old.looked ≤ length book.old.letters }
    ensures next { IfOk result (λ made. (rows : List Added) → HasRows table.now rows book.old
        → MayComeNext book.old.members table.now rows (row_of_step who taken.now made)) }
    ensures rows { OnOk result ((rows : List Added) → HasRows table.now rows book.old → HasRows table.now rows book.new) }
    ensures made { IfOk result (λ made. (rows : List Row) → StandsBehind table.now rows book.old
        → IsMade (standing_behind table.now rows book.old).held (option_to_list taken.now.out.call) made) }
    ensures stands { OnOk result ((rows : List Row) → StandsBehind table.now rows book.old → StandsBehind table.now rows book.new) }
    ensures pending { IfOk result (λ made. book.new.pending ≡ made) }
    ensures fate { IfOk result (λ made. IfSome made (λ call. call.fate ≡ mail.old.mail.fate)) }
    ensures room { OnOk result (HasRoom (length taken.now.out.letters) book.new) }
    ensures members { OnOk result (book.new.members ≡ book.old.members) }
    ensures few { OnOk result (length book.old.turns + 1 < 2 ^ 31) }
    ensures looks { OnOk result (HasLooked cuts.now book.old.letters who taken.now mail.old mail.new) }
    ensures err { OnErr result (IsSameBook book.new book.old) }
{
    if book.turns().len() >= MOST_TURNS {
        return Err(OutOfMemory);
    }
    mail.look(book.letters(), cuts, who, taken)?;
    book.reserve(&taken.out)?;
    let made = call_for(book, table, taken.out.call, mail.mail.fate)?;
    Ok(made)
}
