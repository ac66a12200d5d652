//! The line that names a zone.
ghost use Rattle.std.specs.Prelude.{◌≡◌, ◌≢◌, ◌↔◌, ◌≤◌, ◌<◌, ◌++◌, ◌∷◌, [], ℕ, ℤ, List, IsTrue, IfSome, IfNone, IfOk, IfErr};
ghost use Rattle.std.specs.List.{AllByRecursion};
ghost use Rattle.cron_fields.specs.Cause.{cause_number};
ghost use Rattle.hex.specs.Hex.{is_hex_digit};
ghost use Rattle.zone_minutes.specs.Stamp.{two_digits};
ghost use Rattle.zone_minutes.specs.Zone.{Source};
ghost use Rattle.run_text.specs.Follow.{IsOfLine};
ghost use Rattle.run_text.specs.Reading.{AreDigits, HasDigits};
ghost use Rattle.run_text.specs.Run.{source_of_zone};
ghost use Rattle.run_text.specs.Steps.{texts_of_names};
ghost use Rattle.run_text.specs.Zones.{IsClockText, IsOffsetText, IsSourceText, IsHexText, IsZoneLine, IsFreeName, AddsZone, AddsNone};

use crate::part::Names;
use crate::refusal::Refusal;
use crate::run::{ZoneLine, ZoneText};
use crate::words::is_zone_name;
use cron_fields::Cause;

// Minutes of 14 hours, and of 12.
const MOST_AHEAD: u16 = 840;

const MOST_BEHIND: u16 = 720;

/// Reads a line whose first word is `zone`, and keeps the name of its zone.
pub fn read_zone<'a>(
    number: u32,
    line: &'a str,
    names: &mut Names<'a>,
) -> Result<ZoneLine<'a>, Refusal>
    ensures read { IfOk result (λ zone. AddsZone (texts_of_names names.old.items) line.now zone.name.now (source_of_zone zone.source)) }
    ensures number { IfOk result (λ zone. zone.line ≡ number) }
    ensures digits { IfOk result HasDigits }
    ensures names { IfOk result (λ zone. names.new.items ≡ names.old.items ++ zone.name ∷ []) }
    ensures refused { IfErr result (λ refusal. AddsNone (texts_of_names names.old.items) line.now) }
    ensures line { IfErr result (IsOfLine number) }
    ensures cause { IfErr result (λ refusal. refusal.cause ≡ cause_number Cause.BadZoneLine) }
{
    let Some(zone) = zone_of(number, line) else {
        return Err(Refusal::of_line(number, Cause::BadZoneLine));
    };
    if !is_free(names, zone.name) {
        return Err(Refusal::of_line(number, Cause::BadZoneLine));
    }
    names.push(zone.name);
    Ok(zone)
}

// Whether a zone may have the name, below those that have these.
fn is_free(names: &Names<'_>, name: &str) -> bool
    ensures { IsTrue result ↔ IsFreeName (texts_of_names names.now.items) name.now }
{
    if names.is_full() {
        return false;
    }
    name != "UTC" && is_new(names.as_slice(), name)
}

fn is_new(names: &[&str], name: &str) -> bool
    ensures { IsTrue result ↔ AllByRecursion (λ other. other.now ≢ name.now) names.now }
{
    names.iter().all(|other| is_other(other, name))
}

fn is_other(other: &str, name: &str) -> bool
    ensures { IsTrue result ↔ (other.now ≢ name.now) }
{
    other != name
}

// zone NAME fixed OFFSET, zone NAME posix RULE, or zone NAME tzif HEX
fn zone_of(number: u32, line: &str) -> Option<ZoneLine<'_>>
    ensures read { IfSome result (λ zone. IsZoneLine line.now zone.name.now (source_of_zone zone.source)) }
    ensures number { IfSome result (λ zone. zone.line ≡ number) }
    ensures digits { IfSome result HasDigits }
    ensures none { IfNone result ((name : List ℕ) (source : Source) → IsZoneLine line.now name source → ⊥) }
{
    let words = line.strip_prefix("zone ")?;
    let (name, rest) = words.split_once(' ')?;
    let (kind, text) = rest.split_once(' ')?;
    let source = text_of(kind, text)?;
    if !is_zone_name(name) {
        return None;
    }
    Some(ZoneLine {
        line: number,
        name,
        source,
    })
}

// What a zone line says of the offsets. A rule isn't read here, and digits aren't decoded.
fn text_of<'a>(kind: &str, text: &'a str) -> Option<ZoneText<'a>>
    ensures read { IfSome result (λ read. IsSourceText kind.now text.now (source_of_zone read)) }
    ensures digits { IfSome result AreDigits }
    ensures none { IfNone result ((source : Source) → IsSourceText kind.now text.now source → ⊥) }
{
    if kind == "fixed" {
        let minutes = offset_of(text)?;
        Some(ZoneText::Fixed { minutes })
    } else if kind == "posix" {
        Some(ZoneText::Posix(text))
    } else if kind == "tzif" && is_hex_text(text) {
        Some(ZoneText::Hex(text))
    } else {
        None
    }
}

// +HH:MM, or -HH:MM, from -12:00 to +14:00
fn offset_of(text: &str) -> Option<i16>
    ensures read { IfSome result (IsOffsetText text.now) }
    ensures none { IfNone result ((offset : ℤ) → IsOffsetText text.now offset → ⊥) }
{
    match text.strip_prefix("+") {
        Some(clock) => {
            let minutes = clock_of(clock, MOST_AHEAD)?;
            Some(minutes as i16)
        }
        None => {
            let clock = text.strip_prefix("-")?;
            let minutes = clock_of(clock, MOST_BEHIND)?;
            Some(-(minutes as i16))
        }
    }
}

// HH:MM, in minutes, which are at most that many
fn clock_of(text: &str, most: u16) -> Option<u16>
    ensures read { IfSome result (λ total. IsClockText text.now total × (total ≤ most)) }
    ensures none { IfNone result ((total : ℕ) → IsClockText text.now total → total ≤ most → ⊥) }
{
    let (hours, minutes) = text.split_once(':')?;
    let hours = number_of(hours)?;
    let minutes = number_of(minutes)?;
    if minutes >= 60 {
        return None;
    }
    let total = hours * 60 + minutes;
    if total > most {
        return None;
    }
    Some(total)
}

// The number that two digits are.
fn number_of(text: &str) -> Option<u16>
    ensures read { IfSome result (λ number. (number < 100) × (text.now ≡ two_digits number)) }
    ensures none { IfNone result ((number : ℕ) → number < 100 → text.now ≢ two_digits number) }
{
    match text.as_bytes() {
        [tens, units] if tens.is_ascii_digit() && units.is_ascii_digit() => {
            Some(u16::from(*tens - b'0') * 10 + u16::from(*units - b'0'))
        }
        _ => None,
    }
}

// An even number of hexadecimal digits, two at least.
fn is_hex_text(text: &str) -> bool
    ensures { IsTrue result ↔ IsHexText text.now }
{
    let bytes = text.as_bytes();
    !bytes.is_empty() && bytes.len() % 2 == 0 && bytes.iter().all(|byte| is_digit(*byte))
}

fn is_digit(byte: u8) -> bool
    ensures { result ≡ is_hex_digit byte }
{
    byte.is_ascii_hexdigit()
}
