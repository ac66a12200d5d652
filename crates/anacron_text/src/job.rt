ghost use Rattle.std.specs.Prelude.{◌≡◌, ◌↔◌, ◌≤◌, ◌<◌, ℕ, Some, IsTrue, IsNone, IfSome, IfNone, IfOk, IfErr};
ghost use Rattle.cron_fields.specs.Cause.{cause_number};
ghost use Rattle.anacron_text.specs.Job.{IsJobBody, IsJobFault, IsPeriod, IsIdentifier, IsAnacronBadWord, added_minutes};
ghost use Rattle.anacron_text.specs.Limits.{IsBodyWithin};
ghost use Rattle.anacron_text.specs.LineBody.{anacron_body_of};
ghost use Rattle.anacron_text.specs.Settings.{AreSettings};
ghost use Rattle.anacron_text.specs.declared.answer.PeriodWord.{PeriodWord};

use crate::answer::{AnaBody, PeriodWord};
use crate::blank::{skip_blanks, take_word};
use crate::settings::{Settings, read_minutes};
use cron_fields::{Cause, FNV_START, fnv};
use cron_io::read_number;
use crontab_text::{Fault, Word, check_command};

/// The most days of a period.
const MAX_DAYS: u32 = 9999;

/// The most bytes of an identifier.
const MAX_IDENTIFIER: usize = 64;

/// Reads a text of a period, a delay, an identifier and a command.
pub fn read_job(settings: Settings, text: &str) -> Result<AnaBody<'_>, Fault>
    requires { AreSettings settings }
    ensures read { IfOk result (λ body. IsJobBody settings text.now (anacron_body_of body)) }
    ensures within { IfOk result IsBodyWithin }
    ensures fault { IfErr result (λ fault. IsJobFault text.now fault.cause fault.left) }
{
    let (period, rest) = take_word(text);
    let (delay, rest) = take_word(rest);
    let (identifier, rest) = take_word(rest);
    let period = accept(period, read_period(period.text), Cause::BadPeriod)?;
    let delay = accept(delay, read_minutes(delay.text), Cause::BadDelay)?;
    let identifier = accept(
        identifier,
        read_identifier(identifier.text),
        Cause::BadIdentifier,
    )?;
    let command = skip_blanks(rest);
    check_command(command)?;
    Ok(AnaBody::Job {
        period,
        delay,
        added: added_minutes(settings, identifier),
        first_hour: settings.first_hour,
        last_hour: settings.last_hour,
        identifier,
        command,
    })
}

// What a word was read as, or why it says nothing: the line lacks it, or it breaks its own rule.
fn accept<T: Copy>(word: Word<'_>, read: Option<T>, rule: Cause) -> Result<T, Fault>
    ensures read { IfOk result (λ value. read ≡ Some value) }
    ensures none { IfErr result (λ fault. IsNone read) }
    ensures fault { IfErr result (λ fault. IsAnacronBadWord word.entry.text.now word.entry.left (cause_number rule) fault.cause fault.left) }
{
    match read {
        Some(value) => Ok(value),
        None if word.text.is_empty() => Err(Fault::new(Cause::TooFewFields, 0)),
        None => Err(Fault::new(rule, word.left)),
    }
}

// The period that a word is. Names are read as they are written.
fn read_period(word: &str) -> Option<PeriodWord>
    ensures read { IfSome result (IsPeriod word.now) }
    ensures none { IfNone result ((period : PeriodWord) → IsPeriod word.now period → ⊥) }
{
    match word {
        "@daily" => Some(PeriodWord::Days(1)),
        "@weekly" => Some(PeriodWord::Days(7)),
        "@monthly" => Some(PeriodWord::Monthly),
        "@yearly" | "@annually" => Some(PeriodWord::Yearly),
        _ => match read_number(word, MAX_DAYS)? {
            0 => None,
            days => Some(PeriodWord::Days(days)),
        },
    }
}

// The identifier that a word is: itself.
fn read_identifier(word: &str) -> Option<&str>
    ensures read { IfSome result (λ identifier. (identifier.now ≡ word.now) × IsIdentifier word.now) }
    ensures none { IfNone result (IsIdentifier word.now → ⊥) }
{
    if is_identifier(word) {
        Some(word)
    } else {
        None
    }
}

// Whether a word has 1 to 64 bytes and no `/`.
fn is_identifier(word: &str) -> bool
    ensures { IsTrue result ↔ IsIdentifier word.now }
{
    let bytes = word.as_bytes();
    !bytes.is_empty() && bytes.len() <= MAX_IDENTIFIER && bytes.iter().all(|byte| *byte != b'/')
}

// The minutes that are added to a job's delay.
fn added_minutes(settings: Settings, identifier: &str) -> u16
    ensures { result ≡ added_minutes settings identifier.now }
{
    let hash = fnv(FNV_START, identifier.as_bytes());
    (hash % (settings.most_added as u64 + 1)) as u16
}
