use crontab_text::Span;

/// A line that was read, with those that continue it. Its parts are slices of the text.
#[derive(Clone, Copy, Debug, PartialEq, Eq)]
pub struct AnaLine<'a> {
    /// Counts the lines of the text from 1; of a continued line it is that of the first.
    pub number: u32,
    /// Of a continued line it reaches to the end of the last.
    pub span: Span,
    pub body: AnaBody<'a>,
}

/// What a line says.
#[derive(Clone, Copy, Debug, PartialEq, Eq)]
pub enum AnaBody<'a> {
    /// Nothing but blanks.
    Blank,
    /// `#` is the first byte behind the blanks.
    Comment,
    /// `name = value`. The value has no outer blanks, and no quotes round it.
    Assign {
        name: &'a str,
        value: &'a str,
    },
    /// A command that is run once in each period.
    Job {
        period: PeriodWord,
        /// In minutes.
        delay: u16,
        /// The minutes that are added to the delay: the identifier picks them, up to `RANDOM_DELAY`.
        added: u16,
        /// The first hour in which the job may start, by `START_HOURS_RANGE`.
        first_hour: u8,
        /// From this hour on it may not start.
        last_hour: u8,
        identifier: &'a str,
        /// As it is written, up to the end of the line, with the backslashes and newlines in it.
        command: &'a str,
    },
}

/// How often a job is run.
#[derive(Clone, Copy, Debug, PartialEq, Eq)]
pub enum PeriodWord {
    /// Once in so many days.
    Days(u32),
    /// Once in a month of the calendar.
    Monthly,
    /// Once in a year of the calendar.
    Yearly,
}
