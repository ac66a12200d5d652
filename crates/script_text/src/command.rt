use zone_minutes::Minute;

/// What becomes of a replica's next call of the scheduler.
#[derive(Clone, Copy, Debug, PartialEq, Eq)]
pub enum FateWord {
    /// `done`: it is answered.
    Done,
    /// `lost-before`: it is lost before it comes to the rows.
    LostBefore,
    /// `lost-after`: it comes to the rows, and its answer is lost.
    LostAfter,
    /// `late`: it arrives later.
    Late,
}

/// A line of a script, of which it is the exact text.
///
/// Replicas are named by their number, from 0; letters and late calls by theirs, each from 0 in the order of turns. An
/// instant is in the window.
#[derive(Clone, Copy, Debug, PartialEq, Eq)]
pub enum Command {
    /// `round STAMP K`: so many rounds at an instant, from 1 to 10,000.
    Round { at: Minute, rounds: u32 },
    /// `campaign R`: a replica stands for leader, if it runs.
    Campaign { member: u8 },
    /// `stop R`: a replica stops between two turns, if it runs.
    Stop { member: u8 },
    /// `break R C I`: a replica's disk stops within the call behind so many more, and keeps the image of that number; if
    /// the replica runs.
    Break { member: u8, pass: u32, image: u32 },
    /// `restart R`: a replica that is stopped starts again.
    Restart { member: u8 },
    /// `cut A B`: letters from the one replica to the other are lost from now on.
    Cut { from: u8, to: u8 },
    /// `heal`: no letter is lost from now on.
    Heal,
    /// `drop A B`: the letters from the one replica leave the other's mail.
    Drop { from: u8, to: u8 },
    /// `repeat A B`: each letter from the one replica in the other's mail joins that mail once more.
    Repeat { from: u8, to: u8 },
    /// `reverse R`: a replica's mail is in the opposite order.
    Reverse { member: u8 },
    /// `again K`: a letter joins its addressee's mail once more, if that runs.
    Again { letter: u32 },
    /// `skew R S`: a replica's clock is so many minutes ahead, or behind where they are below 0; from -10,000 to 10,000.
    Skew { member: u8, minutes: i64 },
    /// `fate R F`: what becomes of a replica's next call.
    Fate { member: u8, fate: FateWord },
    /// `arrive K`: a late call arrives.
    Arrive { late: u32 },
    /// `settle STAMP`: all replicas run, no letter is lost, and rounds follow until nothing is left to do at an instant.
    Settle { at: Minute },
    /// `walk STAMP`: settles, and then goes on to each later instant, up to this one, at which there is something to do.
    Walk { to: Minute },
    /// `free STAMP T`: each replica that runs has so many turns at an instant, from 1 to 20,000, in no order among them.
    Free { at: Minute, turns: u32 },
}
