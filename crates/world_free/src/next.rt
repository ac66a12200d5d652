//! What a replica does in its next turn.
ghost use Rattle.std.specs.Prelude.{◌≡◌};
ghost use Rattle.script_semantics.specs.Free.{is_time_to_stand, next_cause_by};
ghost use Rattle.term_core.specs.Term.{is_leader};
ghost use Rattle.script_text.specs.Command.{IsSkew};
ghost use Rattle.world_free.specs.Next.{idle_cause_by};
ghost use Rattle.zone_minutes.specs.Window.{IsInWindow, IsWithinLimits};

use history::Cause;
use term_core::Term;
use world_steps::{MemberMail, reading_of};
use zone_minutes::{Minute, Window};

// Whether a replica leads.
fn leads(term: &Term) -> bool
    ensures leads { result ≡ is_leader term.now }
{
    matches!(term, Term::Leader { .. })
}

// Whether it is time for a replica to stand for leader: at each 64th of its turns, each at a turn of its own.
fn is_time_to_stand(who: u8, turn: u32) -> bool
    ensures time { result ≡ is_time_to_stand who turn }
{
    u64::from(turn % 64) == 8 * u64::from(who)
}

// Without an answer or a letter a replica stands for leader where it is time to, and else its clock ticks.
fn idle_cause(
    mail: &MemberMail,
    term: &Term,
    window: Window,
    at: Minute,
    who: u8,
    turn: u32,
) -> Cause
    requires limits { IsWithinLimits window }
    requires inside { IsInWindow window at.0 }
    requires small { IsSkew mail.now.skew }
    ensures cause { result ≡ idle_cause_by window at.0 mail.now.skew who turn term.now }
{
    if is_time_to_stand(who, turn) && !leads(term) {
        Cause::Campaign
    } else {
        Cause::Tick {
            now: reading_of(mail, window, at),
        }
    }
}

// What a replica does in its turn of that number.
pub(crate) fn next_cause(
    mail: &MemberMail,
    term: &Term,
    window: Window,
    at: Minute,
    who: u8,
    turn: u32,
) -> Cause
    requires limits { IsWithinLimits window }
    requires inside { IsInWindow window at.0 }
    requires small { IsSkew mail.now.skew }
    ensures cause { result ≡ next_cause_by mail.now.waits mail.now.letters.items (idle_cause_by window at.0 mail.now.skew who turn term.now) }
{
    if mail.waits.is_some() {
        return Cause::Answer;
    }
    match mail.letters.front() {
        Some(letter) => Cause::Hear { letter: *letter },
        None => idle_cause(mail, term, window, at, who, turn),
    }
}
