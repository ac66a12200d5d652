/// Why an input is refused: the rule that it breaks, with its number. Those up to 9 are the rules of a field, up to 14 of a
/// crontab's line too, from 16 to 20 of an anacrontab's, and the others those of a run file and its tables.
#[derive(Clone, Copy, Debug, PartialEq, Eq)]
pub enum Cause {
    /// An item, an atom or a step is empty.
    Empty = 1,
    /// A number has more than 9 digits, or a step is no number.
    BadNumber = 2,
    /// A number is outside the field's range.
    OutOfRange = 3,
    /// A name is none of the field's.
    UnknownName = 4,
    /// The low end of a range is above its high end.
    BadOrder = 5,
    /// A step is 0.
    ZeroStep = 6,
    /// A step follows a single number or name.
    StepAfterAtom = 7,
    /// The field has a `~`.
    Tilde = 8,
    /// An atom is neither a number nor a name.
    NoAtom = 9,
    /// The line ends before its last field.
    TooFewFields = 10,
    /// The line ends before the command.
    NoCommand = 11,
    /// The user's name is none.
    BadUser = 12,
    /// The word with `@` is no nickname.
    BadNickname = 13,
    /// The command has more than 1,000 bytes.
    LongCommand = 14,
    /// A line is not UTF-8, or has a zero byte.
    NotText = 15,
    /// The period is none.
    BadPeriod = 16,
    /// The delay is none.
    BadDelay = 17,
    /// The identifier is none.
    BadIdentifier = 18,
    /// The value of `START_HOURS_RANGE` is no range of hours.
    BadHours = 19,
    /// The value of `RANDOM_DELAY` is no number of minutes.
    BadRandomDelay = 20,
    /// A line names no zone of the run.
    UnknownZone = 21,
    /// A job's name is there already.
    DuplicateJob = 22,
    /// There are more than 1,000 jobs.
    TooManyJobs = 23,
    /// There are more than 20,000 due instants.
    TooManyDue = 24,
    /// The first line is not that of a run file.
    BadHeader = 25,
    /// The line of the replicas is none.
    BadReplicas = 26,
    /// The line of the window is none.
    BadWindow = 27,
    /// The line of the grace is none.
    BadGrace = 28,
    /// The line opens no section, or its lines are not there.
    BadSection = 29,
    /// The line may not stand in the script, or behind its end.
    BadScript = 30,
    /// A line is missing, or may not stand before the script.
    MissingLine = 31,
    /// `jiff` refuses the zone.
    BadZone = 32,
    /// The input has more than 1,048,576 bytes.
    TooLarge = 33,
    /// The line names no zone that may be added.
    BadZoneLine = 34,
    /// What the line says has no form yet.
    NoFormYet = 35,
    /// The line begins no version that may follow.
    BadVersion = 36,
}

impl Cause {
    ghost use Rattle.std.specs.Prelude.{◌≡◌};
    ghost use Rattle.cron_fields.specs.Cause.{cause_number};

    /// The number of the cause, from 1 to 36.
    pub fn number(self) -> u8
        ensures { result ≡ cause_number self }
    {
        self as u8
    }
}
