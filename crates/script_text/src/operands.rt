//! What stands behind the word of a command.
ghost use Rattle.std.specs.Prelude.{◌≡◌, ◌≢◌, ℕ, ℤ, ◌<◌, ◌≤◌, ◌^◌, ◌++◌, ◌∷◌, IfSome, IfNone, decimal};
ghost use Rattle.std.specs.Fmt.{signed_decimal};
ghost use Rattle.zone_minutes.specs.Stamp.{stamp_text};
ghost use Rattle.script_text.specs.Command.{fate_word, IsStampIn, IsCount, IsSkew};
ghost use Rattle.script_text.specs.declared.command.FateWord.{FateWord};

use crate::command::FateWord;
use cron_io::read_number;
use zone_minutes::{Minute, Window, read_stamp};

// Minutes by which a clock may be ahead, or behind.
const MOST_SKEW: u32 = 10_000;

/// A replica of so many, by its number.
pub fn read_member(text: &str, members: u8) -> Option<u8>
    ensures read { IfSome result (λ member. (member < members) × (text.now ≡ decimal member)) }
    ensures none { IfNone result ((member : ℕ) → member < members → text.now ≢ decimal member) }
{
    let member = read_number(text, 255)? as u8;
    if member < members { Some(member) } else { None }
}

/// Two replicas of so many.
pub fn read_two_members(text: &str, members: u8) -> Option<(u8, u8)>
    ensures read { IfSome result (λ read. ((read.0 < members) × (read.1 < members)) × (text.now ≡ decimal read.0 ++ 32 ∷ decimal read.1)) }
    ensures none { IfNone result ((from to : ℕ) → from < members → to < members → text.now ≢ decimal from ++ 32 ∷ decimal to) }
{
    let (from, to) = text.split_once(' ')?;
    let from = read_member(from, members)?;
    let to = read_member(to, members)?;
    Some((from, to))
}

/// Two numbers below 2^32.
pub fn read_two_numbers(text: &str) -> Option<(u32, u32)>
    ensures read { IfSome result (λ read. text.now ≡ decimal read.0 ++ 32 ∷ decimal read.1) }
    ensures none { IfNone result ((first second : ℕ) → first < 2 ^ 32 → second < 2 ^ 32 → text.now ≢ decimal first ++ 32 ∷ decimal second) }
{
    let (first, second) = text.split_once(' ')?;
    let first = read_number(first, u32::MAX)?;
    let second = read_number(second, u32::MAX)?;
    Some((first, second))
}

/// An instant of the window, by its stamp.
pub fn read_instant(text: &str, window: &Window) -> Option<Minute>
    ensures read { IfSome result (λ at. IsStampIn window.now at.0 × (text.now ≡ stamp_text at.0)) }
    ensures none { IfNone result ((at : ℤ) → IsStampIn window.now at → text.now ≢ stamp_text at) }
{
    let at = read_stamp(text)?;
    if window.contains(at) { Some(at) } else { None }
}

/// An instant of the window, and a number from 1 to the last.
pub fn read_instant_and_count(text: &str, window: &Window, last: u32) -> Option<(Minute, u32)>
    ensures read { IfSome result (λ read. (IsStampIn window.now read.0.0 × IsCount last read.1) × (text.now ≡ stamp_text read.0.0 ++ 32 ∷ decimal read.1)) }
    ensures none { IfNone result ((at : ℤ) (count : ℕ) → IsStampIn window.now at → IsCount last count → text.now ≢ stamp_text at ++ 32 ∷ decimal count) }
{
    let (at, count) = text.split_once(' ')?;
    let at = read_instant(at, window)?;
    let count = read_number(count, last)?;
    if count == 0 {
        return None;
    }
    Some((at, count))
}

/// Minutes by which a clock is ahead, or behind where they are below 0; 0 has no sign.
pub fn read_skew(text: &str) -> Option<i64>
    ensures read { IfSome result (λ minutes. IsSkew minutes × (text.now ≡ signed_decimal minutes)) }
    ensures none { IfNone result ((minutes : ℤ) → IsSkew minutes → text.now ≢ signed_decimal minutes) }
{
    match text.strip_prefix("-") {
        Some(digits) => {
            let behind = read_number(digits, MOST_SKEW)?;
            if behind == 0 {
                return None;
            }
            Some(-i64::from(behind))
        }
        None => {
            let ahead = read_number(text, MOST_SKEW)?;
            Some(i64::from(ahead))
        }
    }
}

/// The fate that a word says.
pub fn read_fate(text: &str) -> Option<FateWord>
    ensures read { IfSome result (λ fate. text.now ≡ fate_word fate) }
    ensures none { IfNone result ((fate : FateWord) → text.now ≢ fate_word fate) }
{
    match text {
        "done" => Some(FateWord::Done),
        "lost-before" => Some(FateWord::LostBefore),
        "lost-after" => Some(FateWord::LostAfter),
        "late" => Some(FateWord::Late),
        _ => None,
    }
}
