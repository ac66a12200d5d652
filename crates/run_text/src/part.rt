//! A zone's line, a section, or a version's line.
ghost use Rattle.std.specs.Prelude.{◌<◌, ◌↔◌, length, IsTrue, IfSome, IfNone, IfOk, IfErr, OnOk};
ghost use Rattle.run_text.specs.Follow.{Sections, Script};
ghost use Rattle.run_text.specs.Run.{Run};
ghost use Rattle.run_text.specs.Steps.{place_of, CarriesBack, RefusedFrom, CanCountLines, HasNoPart, IsKnown, IsNextVersion, PassesPart, FitsInFile};

use crate::opening::read_opening;
use crate::reader::Reader;
use crate::refusal::Refusal;
use crate::run::{Section, ZoneLine};
use crate::table::{Tables, read_table};
use crate::version::read_version_line;
use crate::words::{has_version_word, has_zone_word};
use crate::zone::read_zone;
use arrayvec::ArrayVec;
use cron_fields::Cause;
use zone_minutes::{Minute, Window};

/// The names of the zones that were read, of which there are 32 at most.
pub type Names<'a> = ArrayVec<&'a str, 32>;

/// What the lines above gave that a line before the script depends on.
#[derive(Debug, Drop)]
pub struct Known<'a> {
    /// The names of the zones.
    pub names: Names<'a>,
    pub window: Window,
    /// The number of the version of the tables that may begin next, from 1 to 8.
    pub next: u32,
    /// The instant of the version before it.
    pub from: Minute,
}

impl<'a> Known<'a> {
    /// Below the head, which gave the window.
    pub fn new(window: Window) -> Known<'a>
        ensures { (run : Run) → HasNoPart window run → IsKnown result run }
    {
        Known {
            names: Names::new(),
            window,
            next: 1,
            from: window.from,
        }
    }

    /// Whether the version of that number may begin now, from that instant on.
    pub fn comes_next(&self, version: u32, from: Minute) -> bool
        ensures { IsTrue result ↔ IsNextVersion self.now version from }
    {
        version == self.next && self.from <= from && from < self.window.until
    }
}

/// What may stand between the head of a run file and its script.
#[derive(Clone, Copy, Debug, PartialEq, Eq)]
pub enum Part<'a> {
    Zone(ZoneLine<'a>),
    Section(Section<'a>),
    /// A version, by its line and the instant from which on it may be in force.
    Version(u32, Minute),
}

/// Reads the next zone, section or version, lines of a section as `tables` says, or else the line that opens the script: None.
pub fn read_part<'a>(
    reader: &mut Reader<'a>,
    known: &mut Known<'a>,
    tables: Tables,
) -> Result<Option<Part<'a>>, Refusal>
    requires { CanCountLines reader.old }
    ensures part { IfOk result (λ read. IfSome read (PassesPart tables reader.old reader.new known.old known.new)) }
    ensures script { IfOk result (λ read. IfNone read ((run : Run)
        → CarriesBack tables (place_of reader.old (Sections run)) (place_of reader.new (Script run)))) }
    ensures refused { IfErr result (λ refusal. (run : Run) → IsKnown known.old run
        → RefusedFrom tables (place_of reader.old (Sections run)) refusal) }
    ensures room { OnOk result (CanCountLines reader.new) }
    ensures shorter { OnOk result (length reader.new.rest.now < length reader.old.rest.now) }
    ensures part_of { IfOk result (λ read. IfSome read (FitsInFile (length reader.old.rest.now))) }
{
    let Some(line) = reader.next_line() else {
        return Err(Refusal::of_line(reader.number, Cause::MissingLine));
    };
    if line == "script" {
        return Ok(None);
    }
    if has_zone_word(line) {
        let zone = read_zone(reader.number, line, &mut known.names)?;
        return Ok(Some(Part::Zone(zone)));
    }
    if has_version_word(line) {
        let from = read_version_line(reader.number, line, known)?;
        return Ok(Some(Part::Version(reader.number, from)));
    }
    let opening = read_opening(reader.number, line)?;
    let section = read_table(reader, opening, tables)?;
    Ok(Some(Part::Section(section)))
}
