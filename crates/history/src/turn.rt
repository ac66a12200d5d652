use cluster_sched::{Fate, SchedRow};
use zone_minutes::Minute;

/// What a replica does its turn for.
#[derive(Clone, Copy, Debug, PartialEq, Eq)]
pub enum Cause {
    /// It stands for leader.
    Campaign,
    /// Its clock ticks, at this reading.
    Tick { now: Minute },
    /// It hears the letter of that number.
    Hear { letter: u64 },
    /// It takes the answer that waits for it.
    Answer,
}

/// A call of the scheduler: its row, what became of it, and the row that answered it.
#[derive(Clone, Copy, Debug, PartialEq, Eq)]
pub struct CallRow {
    pub row: SchedRow,
    pub fate: Fate,
    pub answer: Option<SchedRow>,
}

/// A turn of a book.
#[derive(Clone, Copy, Debug, PartialEq, Eq)]
pub enum Turn {
    /// A replica took its step, and perhaps called the scheduler.
    Did {
        who: u8,
        cause: Cause,
        call: Option<CallRow>,
    },
    /// A replica stopped, perhaps within a step: then what the step was to keep may have been kept.
    Stopped {
        who: u8,
        cause: Option<Cause>,
        kept: bool,
    },
    /// A replica started again.
    Restarted {
        who: u8,
    },
    /// The late call of that number arrived at the scheduler.
    Arrived {
        late: u32,
    },
}
