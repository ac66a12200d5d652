//! Readers of a board.
ghost use Rattle.std.specs.Prelude.{◌≡◌, ◌<◌, ◌⊎◌, Some, MatchResult, length, slice_get};
ghost use mathlib.Core.List.{IsPrefix};
ghost use Rattle.status_board.specs.Sight.{ViewsOn};

use crate::mark::Mark;
use crate::name::Name;
use crate::naming::{LetIn, Naming};
use crate::past::Past;
use crate::sheet::Sheet;
use left_right::reader::{Reader, Reading};
use paxos_base::JobRow;
use std::marker::Model;
use std::sync::Wait;
use std::thread;

/// A reader of a board. It may be sent to another thread.
#[derive(Drop)]
pub struct BoardReader {
    pub(crate) reader: Reader<Sheet, Option<Name>, Naming>,
    // The states that it has seen or was told of, and the prefix of their last.
    pub(crate) past: Past,
    pub(crate) prefix: u64,
    pub(crate) total: u64,
}

impl Model for BoardReader {
    ghost use Rattle.std.specs.Prelude.{◌≡◌, Some};
    ghost use Rattle.left_right.specs.Sides.{view as name_at};
    ghost use Rattle.status_board.specs.Naming.{board_name_of};
    ghost use Rattle.status_board.specs.Shown.{IsHistory};
    ghost use Rattle.status_board.specs.Sight.{HasLastPrefix, Sight};

    ghost Value = { Sight };

    ghost view = { λ r. record { board = r.past.book; total = r.total; states = r.past.log } };

    ghost invariant = { λ r.
        (name_at r.reader.place ≡ Some (board_name_of r.past.book)) × HasLastPrefix r.past.log r.prefix
        × IsHistory r.total r.past.log };
}

impl BoardReader {
    /// The reader, told of a mark: what it views from now on is that state of the board, or a later one.
    pub fn told(self, mark: &Mark) -> BoardReader
        requires { mark.now.board ≡ self.board }
        ensures board { result.board ≡ self.board }
        ensures total { result.total ≡ self.total }
        ensures begins { IsPrefix self.states result.states }
        ensures told { IsPrefix mark.now.states result.states }
        ensures either { (result.states ≡ self.states) ⊎ (result.states ≡ mark.now.states) }
    {
        let mut both = self.past.again();
        both.learn(&mark.past);
        if mark.prefix <= self.prefix {
            return self;
        }
        BoardReader {
            past: mark.past.again(),
            prefix: mark.prefix,
            ..self
        }
    }

    // Looks at what is shown, where it is let in and that is no older than what it knows of.
    fn look(self) -> Result<BoardView, BoardReader>
        ensures { MatchResult result (λ view. ViewsOn self view) (λ reader. reader ≡ self) }
    {
        let BoardReader {
            reader,
            past,
            prefix,
            total,
        } = self;
        let reading = match reader.enter_as::<LetIn>() {
            Ok(reading) => reading,
            Err(reader) => {
                return Err(BoardReader {
                    reader,
                    past,
                    prefix,
                    total,
                });
            }
        };
        if reading.get().prefix() < prefix {
            return Err(BoardReader {
                reader: reading.leave(),
                past,
                prefix,
                total,
            });
        }
        let mut both = past;
        both.learn(&reading.get().past());
        Ok(BoardView { reading, total })
    }

    /// The state of the board that was published last, which stays as it is until the view is left. It waits for the board
    /// to let it in, and so it may never return once the writer has ended.
    pub fn view<R: Wait>(self, rt: &R) -> BoardView
        ensures { ViewsOn self result }
    {
        let mut reader = self;
        'looks: for _ in rt.forever() {
            match reader.look() {
                Ok(view) => return view,
                Err(back) => reader = back,
            }
            thread::yield_now();
        }
        unreachable!()
    }
}

/// A state of a board, as a reader sees it. It isn't dropped: `leave` ends it.
pub struct BoardView {
    reading: Reading<Sheet, Option<Name>, Naming>,
    total: u64,
}

impl Model for BoardView {
    ghost use Rattle.std.specs.Prelude.{◌≡◌, Some};
    ghost use Rattle.left_right.specs.Sides.{view as name_at};
    ghost use Rattle.status_board.specs.Naming.{IsShown, board_name_of};
    ghost use Rattle.status_board.specs.Shown.{IsHistory};
    ghost use Rattle.status_board.specs.Sight.{Viewed};

    ghost Value = { Viewed };

    ghost view = { λ v. record {
      board = v.reading.part.value.board;
      total = v.total;
      states = v.reading.part.value.states;
      prefix = v.reading.part.value.prefix;
      rows = v.reading.part.value.rows;
    } };

    ghost invariant = { λ v.
        (name_at v.reading.place ≡ Some (board_name_of v.reading.part.value.board)) × IsShown v.reading.part.value
        × IsHistory v.total v.reading.part.value.states };
}

impl BoardView {
    /// How many entries of the log are in the rows.
    pub fn prefix(&self) -> u64
        ensures { result ≡ self.now.prefix }
    {
        self.reading.get().prefix()
    }

    /// The row of a job, by its number in the board's table.
    pub fn row(&self, job: u32) -> JobRow
        requires { job < self.now.total }
        ensures { slice_get self.now.rows job ≡ Some result }
    {
        self.reading.get().row(job)
    }

    /// Ends the view.
    pub fn leave(self) -> BoardReader
        ensures board { result.board ≡ self.board }
        ensures total { result.total ≡ self.total }
        ensures states { result.states ≡ self.states }
    {
        let BoardView { reading, total } = self;
        let past = reading.get().past();
        let prefix = reading.get().prefix();
        BoardReader {
            reader: reading.leave(),
            past,
            prefix,
            total,
        }
    }
}
