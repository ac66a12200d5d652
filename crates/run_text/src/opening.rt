//! The line that opens a section.
ghost use Rattle.std.specs.Prelude.{◌≡◌, ◌≢◌, ℕ, List, codes, IfSome, IfNone, IfOk, IfErr};
ghost use Rattle.cron_fields.specs.Cause.{cause_number};
ghost use Rattle.run_text.specs.Follow.{OpensNone, RefusesBeforeScript, IsOfLine};
ghost use Rattle.run_text.specs.Grammar.{IsSectionLine};
ghost use Rattle.run_text.specs.Run.{Run};
ghost use Rattle.run_text.specs.Versions.{HasVersionWord};
ghost use Rattle.run_text.specs.Zones.{HasZoneWord};
ghost use Rattle.run_text.specs.declared.run.SectionKind.{SectionKind};

use crate::refusal::Refusal;
use crate::run::SectionKind;
use crate::words::{has_section_word, is_label, is_zone_name, kind_of};
use cron_fields::Cause;
use cron_io::read_number;

// Lines of a section.
const MOST_LINES: u32 = 65_535;

/// What the line that opens a section says.
#[derive(Clone, Copy, Debug, PartialEq, Eq)]
pub struct Opening<'a> {
    pub kind: SectionKind,
    pub label: &'a str,
    pub zone: &'a str,
    /// How many lines the section has.
    pub count: u32,
}

/// Reads the line of that number, which opens neither a zone, nor a version, nor the script, as one that opens a section.
pub fn read_opening(number: u32, line: &str) -> Result<Opening<'_>, Refusal>
    ensures read { IfOk result (λ opening. IsSectionLine line.now opening.kind opening.label.now opening.zone.now opening.count) }
    ensures line { IfErr result (IsOfLine number) }
    ensures refused { IfErr result (λ refusal. (behind : ℕ) (run : Run) → (HasZoneWord line.now → ⊥) → (HasVersionWord line.now → ⊥)
        → line.now ≢ codes "script" → RefusesBeforeScript behind run line.now refusal.cause) }
{
    match opening_of(line) {
        Some(opening) => Ok(opening),
        None => Err(Refusal::of_line(number, cause_of(line))),
    }
}

// The cause of a line that opens neither a zone, nor a section, nor a version, nor the script.
fn cause_of(line: &str) -> Cause
    ensures { (behind : ℕ) (run : Run) → OpensNone behind line.now → (HasZoneWord line.now → ⊥) → (HasVersionWord line.now → ⊥)
        → line.now ≢ codes "script" → RefusesBeforeScript behind run line.now (cause_number result) }
{
    if has_section_word(line) {
        Cause::BadSection
    } else {
        Cause::MissingLine
    }
}

// crontab LABEL ZONE COUNT, system LABEL ZONE COUNT, or anacrontab LABEL ZONE COUNT
fn opening_of(line: &str) -> Option<Opening<'_>>
    ensures read { IfSome result (λ opening. IsSectionLine line.now opening.kind opening.label.now opening.zone.now opening.count) }
    ensures none { IfNone result ((kind : SectionKind) (label zone : List ℕ) (count : ℕ) → IsSectionLine line.now kind label zone count → ⊥) }
{
    let (word, rest) = line.split_once(' ')?;
    let kind = kind_of(word)?;
    let (label, rest) = rest.split_once(' ')?;
    let (zone, count) = rest.split_once(' ')?;
    let count = read_number(count, MOST_LINES)?;
    if !is_label(label) {
        return None;
    }
    if !is_zone_name(zone) {
        return None;
    }
    Some(Opening {
        kind,
        label,
        zone,
        count,
    })
}
