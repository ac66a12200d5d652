use cron_fields::Fields;

/// Which of the two kinds of crontab a table is (crontab(5)).
#[derive(Clone, Copy, Debug, PartialEq, Eq)]
pub enum Style {
    /// A user's table: an entry has five fields and a command.
    User,
    /// The system's table: a user's name stands before each command.
    System,
}

/// Where a line stands in its text, in bytes: from its first byte up to its newline.
#[derive(Clone, Copy, Debug, PartialEq, Eq)]
pub struct Span {
    pub from: u32,
    pub until: u32,
}

/// A line that was read. Its parts are slices of the text.
#[derive(Clone, Copy, Debug, PartialEq, Eq)]
pub struct Line<'a> {
    /// Counts the lines of the text from 1.
    pub number: u32,
    pub span: Span,
    pub body: Body<'a>,
}

/// What a line says.
#[derive(Clone, Copy, Debug, PartialEq, Eq)]
pub enum Body<'a> {
    /// Nothing but blanks.
    Blank,
    /// `#` is the first byte behind the blanks.
    Comment,
    /// `name = value`. The value has no outer blanks, and no quotes round it.
    Assign {
        name: &'a str,
        value: &'a str,
    },
    /// Five fields and a command.
    Entry {
        fields: Fields,
        /// Empty in a user's table.
        user: &'a str,
        /// As it is written, up to the end of the line.
        command: &'a str,
    },
    /// A nickname and a command.
    Nick {
        /// `None` for `@reboot`.
        fields: Option<Fields>,
        /// Empty in a user's table.
        user: &'a str,
        /// As it is written, up to the end of the line.
        command: &'a str,
    },
}

/// Why a line says nothing: the first rule that it breaks, from left to right, and the place of the byte in the line,
/// counted from 0.
///
/// | Cause | Rule | Place |
/// |---|---|---|
/// | 1 to 9 | a field is none, by the rule of `read_field` of cron_fields | in the field |
/// | 10 | the line ends before the fifth field | the line's end |
/// | 11 | the line ends before the command | the line's end |
/// | 12 | a user is a letter or `_` and up to 31 letters, digits, `_`, `.` and `-` | the user, or the line's end |
/// | 13 | a word with `@` is a nickname, as it is written | the word |
/// | 14 | a command has at most 1,000 bytes | the command |
#[derive(Clone, Copy, Debug, PartialEq, Eq)]
pub struct LineFault {
    /// Counts the lines of the text from 1.
    pub line: u32,
    pub place: u32,
    pub cause: u8,
}
