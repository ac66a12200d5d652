//! The line that begins a further version of the tables.
ghost use Rattle.std.specs.Prelude.{◌≡◌, ◌≢◌, ℕ, ◌≤◌, IfSome, IfNone, IfOk, IfErr};
ghost use Rattle.zone_minutes.specs.Civil.{IsCalendarMinute};
ghost use Rattle.zone_minutes.specs.declared.minute.Minute.{Minute};
ghost use Rattle.cron_fields.specs.Cause.{cause_number};
ghost use Rattle.run_text.specs.Follow.{IsOfLine};
ghost use Rattle.run_text.specs.Run.{Run, with_version};
ghost use Rattle.run_text.specs.Steps.{IsKnown};
ghost use Rattle.run_text.specs.Versions.{BeginsVersion, BeginsNone, version_line};

use crate::part::Known;
use crate::refusal::Refusal;
use cron_fields::Cause;
use cron_io::read_number;
use zone_minutes::{Minute, read_stamp};

// How many versions there are at most after the first.
const MOST_VERSIONS: u32 = 7;

/// Reads the line of that number, whose first word is that of a version's line, below lines of which this is known.
pub fn read_version_line(number: u32, line: &str, known: &mut Known<'_>) -> Result<Minute, Refusal>
    ensures read { IfOk result (λ from. (run : Run) → IsKnown known.old run → BeginsVersion run line.now from) }
    ensures known { IfOk result (λ from. (run : Run) → IsKnown known.old run → IsKnown known.new (with_version run number from)) }
    ensures line { IfErr result (IsOfLine number) }
    ensures cause { IfErr result (λ refusal. refusal.cause ≡ cause_number Cause.BadVersion) }
    ensures refused { IfErr result (λ refusal. (run : Run) → IsKnown known.old run → BeginsNone run line.now) }
{
    match version_of(line) {
        Some((version, from)) if known.comes_next(version, from) => {
            known.next = version + 1;
            known.from = from;
            Ok(from)
        }
        _ => Err(Refusal::of_line(number, Cause::BadVersion)),
    }
}

// version K STAMP, with K from 1 to 7
fn version_of(line: &str) -> Option<(u32, Minute)>
    ensures read { IfSome result (λ version. line.now ≡ version_line version.0 version.1) }
    ensures few { IfSome result (λ version. version.0 ≤ 7) }
    ensures calendar { IfSome result (λ version. IsCalendarMinute version.1.0) }
    ensures none { IfNone result ((version : ℕ) (from : Minute) → version ≤ 7 → IsCalendarMinute from.0 → line.now ≢ version_line version from) }
{
    let (version, from) = line.strip_prefix("version ")?.split_once(' ')?;
    let version = read_number(version, MOST_VERSIONS)?;
    let from = read_stamp(from)?;
    Some((version, from))
}
