//! A turn that was judged joins the book, and what is set for its replica is what it is after the turn.
ghost use Rattle.std.specs.Prelude.{◌≡◌, ◌<◌, ◌∷◌, ◌++◌, [], List, IfSome, length};
ghost use Rattle.std.specs.Option.{option_to_list};
ghost use Rattle.history.specs.Book.{Row, turn_of};
ghost use Rattle.journal_line.specs.Told.{ToldLine};
ghost use Rattle.script_semantics.specs.Situation.{Situation, after_turn, calls_for, latest_after, latest_with};
ghost use Rattle.run_replay.specs.Judged.{IsJudged};
ghost use Rattle.run_replay.specs.Replay.{IsReplayAt};
ghost use Rattle.run_replay.specs.Taken.{HasNoted, HasNotedStop, Notes, WasJudged, area_with};
ghost use Rattle.run_replay.specs.declared.replay.Replay.{Replay as Whole};

use crate::judge::Judged;
use crate::replay::{Arm, Replay, Setting};
use cluster_sched::Fate;
use due_set::JobTable;
use history::{CallRow, Cause, Turn};
use paxos_base::Delta;
use zone_minutes::Minute;

/// How many calls of a disk save the change of a step, where it has one.
pub fn calls_to_save(change: &Option<Delta>) -> u32
    ensures { result ≡ calls_for (option_to_list change.now) }
{
    match change {
        None => 0,
        Some(Delta::Base { .. }) => 5,
        Some(Delta::Tried { .. } | Delta::Promised { .. } | Delta::Voted { .. }) => 4,
    }
}

// Which area of a disk is in use with a change that is kept, where there is one: each base goes to the other one.
fn area_with(change: &Option<Delta>, second_area: bool) -> bool
    ensures { result ≡ area_with change.now second_area }
{
    match change {
        Some(Delta::Base { .. }) => !second_area,
        None | Some(Delta::Tried { .. } | Delta::Promised { .. } | Delta::Voted { .. }) =>
            second_area,
    }
}

// What is set for a replica after its step.
fn note_step(setting: &mut Setting, cause: Cause, call: Option<CallRow>, change: &Option<Delta>)
    ensures { HasNoted cause call change.now setting.old setting.new }
{
    if let Cause::Hear { .. } = cause {
        setting.mail.pop_front();
    }
    setting.waits = None;
    if let Some(made) = call {
        setting.waits = made.answer;
        setting.fate = Fate::Done;
    }
    if let Some(arm) = setting.arm {
        setting.arm = Some(Arm {
            left: arm.left.saturating_sub(calls_to_save(change)),
            image: arm.image,
        });
    }
    setting.second_area = area_with(change, setting.second_area);
}

// What is set for a replica that has stopped.
fn note_stop(setting: &mut Setting, change: &Option<Delta>)
    ensures { HasNotedStop change.now setting.old setting.new }
{
    setting.mail.clear();
    setting.waits = None;
    setting.arm = None;
    setting.second_area = area_with(change, setting.second_area);
}

// The latest clock reading, with that of a cause.
fn reading_with(cause: Cause, latest: Minute) -> Minute
    ensures { result.0 ≡ latest_with cause latest.0 }
{
    match cause {
        Cause::Tick { now } => latest.max(now),
        Cause::Campaign | Cause::Hear { .. } | Cause::Answer => latest,
    }
}

// The latest clock reading after a turn.
fn reading_after(turn: Turn, latest: Minute) -> Minute
    ensures { result.0 ≡ latest_after turn latest.0 }
{
    match turn {
        Turn::Did { cause, .. } => reading_with(cause, latest),
        Turn::Stopped { cause, .. } => match cause {
            Some(cause) => reading_with(cause, latest),
            None => latest,
        },
        Turn::Restarted { .. } => latest,
        Turn::Arrived { .. } => latest,
    }
}

impl Replay {
    // What is set for the replica of a turn, and the latest clock reading.
    fn note(&mut self, turn: Turn, change: &Option<Delta>)
        requires member { IfSome (turn_of turn) (λ who. who < length self.old.settings.items) }
        ensures { Notes turn change.now self.old self.new }
    {
        self.latest = reading_after(turn, self.latest);
        match turn {
            Turn::Did { who, cause, call } => {
                note_step(&mut self.settings[who as usize], cause, call, change);
            }
            Turn::Stopped { who, .. } => {
                note_stop(&mut self.settings[who as usize], change);
            }
            Turn::Restarted { .. } => {}
            Turn::Arrived { .. } => {}
        }
    }

    /// A turn that was judged joins the book. It takes no memory.
    pub fn take(&mut self, table: &JobTable, judged: Judged)
        requires judged { WasJudged table.now self.old judged }
        ensures joins { (rows : List Row) (situation : Situation) (told : ToldLine) (old : Whole) → IsReplayAt table.now rows old situation
            → (is : IsJudged table.now rows told old self.old judged)
            → IsReplayAt table.now (rows ++ is.row ∷ []) self.new (after_turn old.book.members situation is.row) }
        ensures members { self.new.book.members ≡ self.old.book.members }
    {
        let Judged { turn, out, lost: _ } = judged;
        self.note(turn, &out.delta);
        self.book.commit(table, turn, out);
    }
}
