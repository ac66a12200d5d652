ghost use Rattle.std.specs.Prelude.{◌≡◌, ℕ, IfSome, IfNone, IfOk, IfErr};
ghost use Rattle.anacron_text.specs.Settings.{AreSettings, IsHours, IsNumberWithin, IsBadValue, SetsVariable, no_settings};

use crate::setting::Setting;
use cron_fields::Cause;
use cron_io::read_number;
use crontab_text::Fault;

/// The most minutes of a delay, and the most that are added to one.
const MAX_MINUTES: u32 = 9999;

/// What the variables of a table say of the jobs below them.
#[derive(Clone, Copy, Debug, PartialEq, Eq)]
pub struct Settings {
    /// The most minutes that are added to a delay: `RANDOM_DELAY`.
    pub most_added: u16,
    /// The hours in which jobs start, `START_HOURS_RANGE`: from this one on ..
    pub first_hour: u8,
    /// .. and from this one on no longer.
    pub last_hour: u8,
}

impl Settings {
    /// The settings above the first line.
    pub fn new() -> Settings
        ensures { result ≡ no_settings }
    {
        Settings {
            most_added: 0,
            first_hour: 0,
            last_hour: 24,
        }
    }

    /// The settings below a line that sets a variable.
    pub fn with(self, setting: &Setting<'_>) -> Result<Settings, Fault>
        requires { AreSettings self }
        ensures sets { IfOk result (SetsVariable self setting.now.name.now setting.now.value.text.now) }
        ensures kept { IfOk result AreSettings }
        ensures bad { IfErr result (λ fault.
            IsBadValue setting.now.name.now setting.now.value.text.now fault.cause) }
        ensures left { IfErr result (λ fault. fault.left ≡ setting.now.value.left) }
    {
        let value = setting.value;
        match setting.name {
            "RANDOM_DELAY" => match read_minutes(value.text) {
                Some(most_added) => Ok(Settings { most_added, ..self }),
                None => Err(Fault::new(Cause::BadRandomDelay, value.left)),
            },
            "START_HOURS_RANGE" => match read_hours(value.text) {
                Some((first_hour, last_hour)) => Ok(Settings {
                    first_hour,
                    last_hour,
                    ..self
                }),
                None => Err(Fault::new(Cause::BadHours, value.left)),
            },
            _ => Ok(self),
        }
    }
}

/// A number of minutes from 0 to 9,999.
pub fn read_minutes(text: &str) -> Option<u16>
    ensures read { IfSome result (IsNumberWithin 0 9999 text.now) }
    ensures none { IfNone result ((number : ℕ) → IsNumberWithin 0 9999 text.now number → ⊥) }
{
    let minutes = read_number(text, MAX_MINUTES)?;
    Some(minutes as u16)
}

// Two hours from 0 to 24 that rise, as `3-22`.
fn read_hours(text: &str) -> Option<(u8, u8)>
    ensures read { IfSome result (λ hours. IsHours text.now hours.0 hours.1) }
    ensures none { IfNone result ((first last : ℕ) → IsHours text.now first last → ⊥) }
{
    let (first, last) = text.split_once('-')?;
    let first = read_number(first, 24)?;
    let last = read_number(last, 24)?;
    if first < last {
        Some((first as u8, last as u8))
    } else {
        None
    }
}
