//! A turn as a book keeps it.
ghost use Rattle.std.specs.Prelude.{◌≡◌, IfOk};
ghost use Rattle.world_law.specs.Book.{call_of};

use cron_io::OutOfMemory;
use history::{CallRow, Cause, Turn};
use std::alloc::Global;
use std::marker::Model;

// A call on the heap, so that the turns without one, which most are, stay small. Contracts see the call.
#[derive(Debug, Drop)]
pub(crate) struct CallBox {
    row: Box<CallRow>,
}

impl Model for CallBox {
    ghost use Rattle.history.specs.declared.turn.CallRow.{CallRow};

    ghost Value = { CallRow };

    ghost view = { λ boxed. boxed.row.value };
}

impl CallBox {
    // Puts a call there.
    pub(crate) fn new(alloc: Global, row: CallRow) -> Result<CallBox, OutOfMemory>
        ensures { IfOk result (λ boxed. boxed ≡ row) }
    {
        Ok(CallBox {
            row: Box::new(alloc, row)?,
        })
    }

    // Puts another call in its place.
    pub(crate) fn set(&mut self, row: CallRow)
        ensures { self.new ≡ row }
    {
        *self.row = row;
    }

    // The call.
    fn row(&self) -> CallRow
        ensures { result ≡ self.now }
    {
        *self.row
    }
}

// A turn, and its call on the heap.
#[derive(Debug, Drop)]
enum KeptTurn {
    Did {
        who: u8,
        cause: Cause,
        call: Option<CallBox>,
    },
    Stopped {
        who: u8,
        cause: Option<Cause>,
        kept: bool,
    },
    Restarted {
        who: u8,
    },
    Arrived {
        late: u32,
    },
}

/// A turn as a book keeps it, in 40 bytes in place of 128. Contracts see the turn.
#[derive(Debug, Drop)]
pub struct TurnRow {
    kept: KeptTurn,
}

impl Model for TurnRow {
    ghost use Rattle.history.specs.declared.turn.Turn.{Turn};
    ghost use Rattle.world_law.specs.Kept.{turn_kept};

    ghost Value = { Turn };

    ghost view = { λ row. turn_kept row.kept };
}

// The call that is kept, where there is one.
fn row_in(call: &Option<CallBox>) -> Option<CallRow>
    ensures { result ≡ call.now }
{
    match call {
        Some(boxed) => Some(boxed.row()),
        None => None,
    }
}

impl TurnRow {
    // Keeps a turn, whose call is this.
    pub(crate) fn new(turn: Turn, call: Option<CallBox>) -> TurnRow
        requires { call ≡ call_of turn }
        ensures { result ≡ turn }
    {
        let kept = match turn {
            Turn::Did { who, cause, .. } => KeptTurn::Did { who, cause, call },
            Turn::Stopped { who, cause, kept } => KeptTurn::Stopped { who, cause, kept },
            Turn::Restarted { who } => KeptTurn::Restarted { who },
            Turn::Arrived { late } => KeptTurn::Arrived { late },
        };
        TurnRow { kept }
    }

    /// The turn.
    pub fn turn(&self) -> Turn
        ensures { result ≡ self.now }
    {
        match &self.kept {
            KeptTurn::Did { who, cause, call } => Turn::Did {
                who: *who,
                cause: *cause,
                call: row_in(call),
            },
            KeptTurn::Stopped { who, cause, kept } => Turn::Stopped {
                who: *who,
                cause: *cause,
                kept: *kept,
            },
            KeptTurn::Restarted { who } => Turn::Restarted { who: *who },
            KeptTurn::Arrived { late } => Turn::Arrived { late: *late },
        }
    }
}
