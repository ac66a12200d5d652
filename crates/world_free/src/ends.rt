//! The end of a part: the mails take what was posted after their replicas' last turns, and the latest clock reading is that of its turns.
ghost use Rattle.std.specs.Prelude.{◌≡◌, ◌≤◌, true, IfOk, length, drop, vec_capacity};
ghost use Rattle.script_semantics.specs.Situation.{latest_after};
ghost use Rattle.world_free.specs.Ends.{HasEnded, HaveEnded, HaveLooked, latest_by};

use crate::job::FreeMail;
use crate::jobs::MOST_MEMBERS;
use cron_io::OutOfMemory;
use history::Turn;
use std::alloc::Global;
use world_law::{LetterRow, TurnRow};
use world_steps::{MemberMail, reading_with};
use zone_minutes::Minute;

// The mail of a replica whose thread has ended. Where it runs, it takes the letters that it hasn't looked at.
fn mail_ended(
    letters: &[LetterRow],
    cuts: &[(u8, u8)],
    mut free: FreeMail,
    who: u8,
) -> Result<MemberMail, OutOfMemory>
    requires looked { free.mail.runs ≡ true → free.looked ≤ length letters.now }
    ensures ended { IfOk result (λ ended. HasEnded cuts.now letters.now who free ended) }
{
    if free.mail.runs {
        free.look_at_book(letters, cuts, who)?;
    }
    let FreeMail { mail, .. } = free;
    Ok(mail)
}

/// The mails of replicas whose threads have ended. Those that run take the letters that they haven't looked at.
pub(crate) fn mails_ended(
    alloc: Global,
    letters: &[LetterRow],
    cuts: &[(u8, u8)],
    mails: Vec<FreeMail>,
) -> Result<Vec<MemberMail>, OutOfMemory>
    requires few { length mails.items ≤ 7 }
    requires looked { HaveLooked letters.now mails.items }
    ensures ended { IfOk result (λ ended. HaveEnded cuts.now letters.now mails.items ended.items) }
    ensures room { IfOk result (λ ended. 7 ≤ vec_capacity ended) }
{
    let mut ended = Vec::with_capacity(alloc, MOST_MEMBERS)?;
    'mails: for mail in mails {
        let who = ended.len() as u8;
        ended.push(mail_ended(letters, cuts, mail, who)?)?;
    }
    Ok(ended)
}

// The latest clock reading behind a turn.
fn reading_after(turn: Turn, latest: Minute) -> Minute
    ensures latest { result.0 ≡ latest_after turn latest.0 }
{
    match turn {
        Turn::Did { cause, .. } => reading_with(cause, latest),
        Turn::Stopped {
            cause: Some(cause),
            ..
        } => reading_with(cause, latest),
        Turn::Stopped { cause: None, .. } | Turn::Restarted { .. } | Turn::Arrived { .. } => latest,
    }
}

/// The latest clock reading, with those of the turns from a number on.
pub(crate) fn latest_reading(turns: &[TurnRow], first: usize, latest: Minute) -> Minute
    ensures latest { result.0 ≡ latest_by latest.0 (drop first turns.now) }
{
    let mut reading = latest;
    'turns: for number in first..turns.len() {
        reading = reading_after(turns[number].turn(), reading);
    }
    reading
}
