//! What is on its way to a replica and set for it, and what its step leaves of that.
ghost use Rattle.std.specs.Prelude.{◌≡◌, IsSome, Some, slice_get};
ghost use Rattle.std.specs.Option.{option_to_list};
ghost use Rattle.script_semantics.specs.Round.{clock_reading};
ghost use Rattle.script_semantics.specs.Situation.{calls_for, is_cut};
ghost use Rattle.script_text.specs.Command.{IsSkew};
ghost use Rattle.world_steps.specs.Turns.{IsHalted, noted};
ghost use Rattle.zone_minutes.specs.Window.{IsInWindow, IsWithinLimits};

use crate::mail::MemberMail;
use cluster_sched::Fate;
use disk_model::Arm;
use history::CallRow;
use paxos_base::Delta;
use world_law::{Book, LetterRow};
use zone_minutes::{Minute, Window};

/// The letter of a number.
pub fn letter_at(book: &Book, number: u64) -> &LetterRow
    requires there { IsSome (slice_get book.now.letters number) }
    ensures letter { slice_get book.now.letters number ≡ Some result.now }
{
    match book.letters().get(number as usize) {
        Some(letter) => letter,
        None => unreachable!(),
    }
}

/// Whether letters from the one to the other are lost.
pub fn is_cut(cuts: &[(u8, u8)], from: u8, to: u8) -> bool
    ensures cut { result ≡ is_cut from to cuts.now }
{
    'pairs: for pair in cuts {
        if pair.0 == from && pair.1 == to {
            return true;
        }
    }
    false
}

/// What a replica's clock reads at an instant, held within the window.
pub fn reading_of(mail: &MemberMail, window: Window, at: Minute) -> Minute
    requires limits { IsWithinLimits window }
    requires inside { IsInWindow window at.0 }
    requires small { IsSkew mail.now.skew }
    ensures reading { result ≡ clock_reading window at.0 mail.now.skew }
{
    let last = window.until.0 - 1;
    Minute((at.0 + mail.skew).min(last).max(window.from.0))
}

/// A replica that stops loses its mail and the answer that waits for it, and its disk isn't armed any more.
pub fn note_stop(mail: &mut MemberMail)
    ensures stopped { IsHalted mail.old mail.new }
{
    mail.runs = false;
    mail.letters.clear();
    mail.waits = None;
    mail.arm = None;
}

/// How many calls of a disk save the change of a step, where it has one.
pub fn calls_to_save(change: &Option<Delta>) -> u32
    ensures calls { result ≡ calls_for (option_to_list change.now) }
{
    match change {
        None => 0,
        Some(Delta::Base { .. }) => 5,
        Some(Delta::Tried { .. } | Delta::Promised { .. } | Delta::Voted { .. }) => 4,
    }
}

/// An answer of the call that a step has made waits for the replica, and the call has spent its fate. Where the replica's disk is armed,
/// the save of the step has used up so many calls.
pub fn note_step(mail: &mut MemberMail, call: Option<CallRow>, calls: u32)
    ensures noted { mail.new ≡ noted call calls mail.old }
{
    mail.waits = None;
    if let Some(made) = call {
        mail.waits = made.answer;
        mail.fate = Fate::Done;
    }
    if let Some(arm) = mail.arm {
        mail.arm = Some(Arm {
            left: arm.left.saturating_sub(calls),
            image: arm.image,
        });
    }
}
