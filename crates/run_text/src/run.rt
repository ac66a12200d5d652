use crontab_text::Style;
use script_text::Command;
use zone_minutes::{Minute, Window};

/// What the lines of a section are.
#[derive(Clone, Copy, Debug, PartialEq, Eq)]
pub enum SectionKind {
    /// A user's crontab.
    User,
    /// A system crontab, whose entries name a user.
    System,
    /// An anacrontab.
    Anacron,
}

impl SectionKind {
    ghost use Rattle.std.specs.Prelude.{◌≡◌};
    ghost use Rattle.run_text.specs.Follow.{style_of};

    /// How the lines are read, if they are those of a crontab.
    pub fn style(self) -> Option<Style>
        ensures { result ≡ style_of self }
    {
        match self {
            SectionKind::User => Some(Style::User),
            SectionKind::System => Some(Style::System),
            SectionKind::Anacron => None,
        }
    }
}

/// A table of jobs in a run file.
#[derive(Clone, Copy, Debug, PartialEq, Eq)]
pub struct Section<'a> {
    /// The number of the line that opens it, from 1.
    pub line: u32,
    pub kind: SectionKind,
    pub label: &'a str,
    /// The name of the zone of its entries.
    pub zone: &'a str,
    /// Its lines, each of which has a reading where the run was read by `read_run`. An anacrontab's may go on in the next line of
    /// the text, but in none behind it.
    pub text: &'a str,
}

/// What a zone line says of the zone's offsets.
#[derive(Clone, Copy, Debug, PartialEq, Eq)]
pub enum ZoneText<'a> {
    /// One offset at every instant: minutes east of UTC, from -720 to 840.
    Fixed { minutes: i16 },
    /// A TZ rule of POSIX.
    Posix(&'a str),
    /// The bytes of a TZif file (RFC 8536), as hexadecimal digits in any case.
    Hex(&'a str),
}

/// A zone of a run file, under its name.
#[derive(Clone, Copy, Debug, PartialEq, Eq)]
pub struct ZoneLine<'a> {
    /// The number of its line, from 1.
    pub line: u32,
    pub name: &'a str,
    pub source: ZoneText<'a>,
}

/// A line that begins a further version of the tables: the sections below it are that version's, up to the next such line.
#[derive(Clone, Copy, Debug, PartialEq, Eq)]
pub struct VersionLine {
    /// The number of its line, from 1.
    pub line: u32,
    /// From this instant on, which is in the window, the version may be in force.
    pub from: Minute,
    /// How many sections stand above the line.
    pub first_section: u32,
}

/// What a run file says, or its frame, if it was read by `read_frame`. Its texts are parts of the file's text.
#[derive(Debug, Drop)]
pub struct RunFile<'a> {
    /// How many replicas there are, from 1 to 7.
    pub members: u8,
    pub window: Window,
    /// Minutes, from 0 to 525,600.
    pub grace: u32,
    /// The zones that its sections and its tables may name, beside `UTC`.
    pub zones: Vec<ZoneLine<'a>>,
    /// The tables of all versions, in the order of the lines.
    pub sections: Vec<Section<'a>>,
    /// The versions of the tables after the first, of which there are 7 at most. None comes before an earlier one.
    pub versions: Vec<VersionLine>,
    /// The commands of its script.
    pub commands: Vec<Command>,
}
