//! What stands between the head of a run file and its script: zones, sections and versions, in any order.
ghost use Rattle.std.specs.Prelude.{◌≡◌, ◌+◌, ◌<◌, ◌≤◌, ◌^◌, List, length, IfOk, IfErr, OnOk, All};
ghost use Rattle.run_text.specs.Follow.{Sections, Script};
ghost use Rattle.run_text.specs.Run.{Run, NamedZone, Section as SectionLines, with_parts};
ghost use Rattle.run_text.specs.Reading.{FitInFile, HasDigits};
ghost use Rattle.run_text.specs.Steps.{place_of, CarriesBack, RefusedFrom, CanCountLines, HasNoPart, IfRefused, AddsPart, with_all};
ghost use Rattle.run_text.specs.declared.run.VersionLine.{VersionLine};

use crate::part::{Known, Part, read_part};
use crate::reader::Reader;
use crate::refusal::{Refusal, RunFault};
use crate::run::{Section, VersionLine, ZoneLine};
use crate::table::Tables;
use cron_io::OutOfMemory;
use std::alloc::Global;
use zone_minutes::Window;

/// The zones, the sections and the versions that were read, each in order.
#[derive(Debug, Drop)]
pub struct Parts<'a> {
    pub zones: Vec<ZoneLine<'a>>,
    pub sections: Vec<Section<'a>>,
    pub versions: Vec<VersionLine>,
}

impl<'a> Parts<'a> {
    /// Keeps a part more.
    fn push(&mut self, part: Part<'a>) -> Result<(), OutOfMemory>
        requires { length self.old.sections.items < 2 ^ 32 }
        ensures { OnOk result (AddsPart self.old self.new part.entry) }
    {
        match part {
            Part::Zone(zone) => self.zones.push(zone)?,
            Part::Section(section) => self.sections.push(section)?,
            Part::Version(line, from) => {
                let first_section = self.sections.len() as u32;
                self.versions.push(VersionLine {
                    line,
                    from,
                    first_section,
                })?
            }
        }
        Ok(())
    }
}

/// Reads the zones, the sections, the versions and the line that opens the script, below the head, which gave the window;
/// `tables` says how lines of tables are read.
pub fn read_parts<'a>(
    alloc: Global,
    reader: &mut Reader<'a>,
    window: Window,
    tables: Tables,
) -> Result<Parts<'a>, RunFault>
    requires { CanCountLines reader.old }
    ensures read { IfOk result (λ parts. (run : Run) → HasNoPart window run
        → CarriesBack tables (place_of reader.old (Sections run)) (place_of reader.new (Script (with_all run parts)))) }
    ensures refused { IfErr result (λ fault. IfRefused fault (λ refusal. (run : Run) → HasNoPart window run
        → RefusedFrom tables (place_of reader.old (Sections run)) refusal)) }
    ensures room { OnOk result (CanCountLines reader.new) }
    ensures parts { IfOk result (λ parts. FitInFile (length reader.old.rest.now) parts.sections.items) }
    ensures digits { IfOk result (λ parts. All HasDigits parts.zones.items) }
{
    let mut known = Known::new(window);
    let mut parts = Parts {
        zones: Vec::new(alloc),
        sections: Vec::new(alloc),
        versions: Vec::new(alloc),
    };
    'parts: while let Some(part) = read_part(reader, &mut known, tables)? {
        parts.push(part)?;
    }
    Ok(parts)
}

/// Passes the zones, the sections, the versions and the line that opens the script, as `read_parts` does, and keeps none of them.
pub fn pass_parts(reader: &mut Reader<'_>, window: Window, tables: Tables) -> Result<(), Refusal>
    requires { CanCountLines reader.old }
    ensures read { OnOk result ((zones : List NamedZone) × (sections : List SectionLines) × (versions : List VersionLine) × ((run : Run) → HasNoPart window run
        → CarriesBack tables (place_of reader.old (Sections run)) (place_of reader.new (Script (with_parts run zones sections versions))))) }
    ensures refused { IfErr result (λ refusal. (run : Run) → HasNoPart window run → RefusedFrom tables (place_of reader.old (Sections run)) refusal) }
    ensures room { OnOk result (CanCountLines reader.new) }
{
    let mut known = Known::new(window);
    'parts: while let Some(_part) = read_part(reader, &mut known, tables)? {}
    Ok(())
}
