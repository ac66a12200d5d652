//! The words of a replica's turn.
ghost use Rattle.std.specs.Prelude.{Bool, IfSome, IfNone};
ghost use Rattle.zone_minutes.specs.declared.minute.Minute.{Minute};
ghost use Rattle.journal_line.specs.Line.{IsAnswerText, IsCall, IsCause, IsTurn};
ghost use Rattle.journal_line.specs.Told.{ToldAnswer, ToldCall, ToldTurn, CallTurn, StopWithinTurn, told_answer, told_call, told_turn};
ghost use Rattle.journal_line.specs.declared.line.CauseWords.{CauseWords};
ghost use Rattle.journal_line.specs.declared.line.CauseWords.TheVariants.{Tick, Hear};
ghost use Rattle.journal_line.specs.declared.line.Count.{Count};

use crate::count::read_count;
use crate::line::{AnswerWords, CallWords, CauseWords, Count, TurnWords};
use crate::words::{behind, is_name, read_fate, read_kept, read_kind, split_word};
use zone_minutes::{Minute, read_stamp};

/// Reads what a replica did in a turn.
///
/// `None` for any other text.
pub fn read_turn(text: &str) -> Option<TurnWords<'_>>
    ensures read { IfSome result (λ turn. IsTurn (told_turn turn) text.now) }
    ensures none { IfNone result ((turn : ToldTurn) → IsTurn turn text.now → ⊥) }
{
    if text == "restart" {
        return Some(TurnWords::Restarted);
    }
    if text == "stop" {
        return Some(TurnWords::Stopped);
    }
    if let Some(cause) = read_cause(text) {
        return Some(TurnWords::Did { cause });
    }
    if let Some((kept, cause)) = read_stop(text) {
        return Some(TurnWords::StoppedWithin { kept, cause });
    }
    let (now, call) = read_tick_with_call(text)?;
    Some(TurnWords::Called { now, call })
}

// campaign, tick STAMP, hear L, or answer
fn read_cause(text: &str) -> Option<CauseWords>
    ensures read { IfSome result (λ cause. IsCause cause text.now) }
    ensures none { IfNone result ((cause : CauseWords) → IsCause cause text.now → ⊥) }
{
    if text == "campaign" {
        return Some(CauseWords::Campaign);
    }
    if text == "answer" {
        return Some(CauseWords::Answer);
    }
    if let Some(now) = read_tick(text) {
        return Some(CauseWords::Tick { now });
    }
    let letter = read_hear(text)?;
    Some(CauseWords::Hear { letter })
}

// tick STAMP
fn read_tick(text: &str) -> Option<Minute>
    ensures read { IfSome result (λ now. IsCause (Tick now) text.now) }
    ensures none { IfNone result ((now : Minute) → IsCause (Tick now) text.now → ⊥) }
{
    let stamp = behind(text, "tick")?;
    read_stamp(stamp)
}

// hear L
fn read_hear(text: &str) -> Option<Count>
    ensures read { IfSome result (λ letter. IsCause (Hear letter) text.now) }
    ensures none { IfNone result ((letter : Count) → IsCause (Hear letter) text.now → ⊥) }
{
    let letter = behind(text, "hear")?;
    read_count(letter)
}

// stop KEPT CAUSE
fn read_stop(text: &str) -> Option<(bool, CauseWords)>
    ensures read { IfSome result (λ read. IsTurn (StopWithinTurn read.0 read.1) text.now) }
    ensures none { IfNone result ((kept : Bool) (cause : CauseWords) → IsTurn (StopWithinTurn kept cause) text.now → ⊥) }
{
    let rest = behind(text, "stop")?;
    let (kept, cause) = split_word(rest)?;
    let kept = read_kept(kept)?;
    let cause = read_cause(cause)?;
    Some((kept, cause))
}

// tick STAMP CALL
fn read_tick_with_call(text: &str) -> Option<(Minute, CallWords<'_>)>
    ensures read { IfSome result (λ read. IsTurn (CallTurn read.0 (told_call read.1)) text.now) }
    ensures none { IfNone result ((now : Minute) (call : ToldCall) → IsTurn (CallTurn now call) text.now → ⊥) }
{
    let rest = behind(text, "tick")?;
    let (stamp, call) = split_word(rest)?;
    let now = read_stamp(stamp)?;
    let call = read_call(call)?;
    Some((now, call))
}

// FATE, or FATE NAME KIND
fn read_call(text: &str) -> Option<CallWords<'_>>
    ensures read { IfSome result (λ call. IsCall (told_call call) text.now) }
    ensures none { IfNone result ((call : ToldCall) → IsCall call text.now → ⊥) }
{
    if let Some(fate) = read_fate(text) {
        return Some(CallWords { fate, answer: None });
    }
    let (fate, answer) = split_word(text)?;
    let fate = read_fate(fate)?;
    let answer = read_answer(answer)?;
    Some(CallWords {
        fate,
        answer: Some(answer),
    })
}

// NAME KIND
fn read_answer(text: &str) -> Option<AnswerWords<'_>>
    ensures read { IfSome result (λ answer. IsAnswerText (told_answer answer) text.now) }
    ensures none { IfNone result ((answer : ToldAnswer) → IsAnswerText answer text.now → ⊥) }
{
    let (name, kind) = split_word(text)?;
    let kind = read_kind(kind)?;
    if is_name(name) {
        Some(AnswerWords { name, kind })
    } else {
        None
    }
}
