//! What a run file says. `read_run` reads a text as a run file with its head, its zones, its sections, their versions
//! and its script, each line after those above it (`IsRunText`), or refuses it at the first line that may not stand there,
//! with the cause and the place of the byte (`IsRefusedText`); if the file ends too early, at the line that is
//! missing (`Misses`). Each text has a reading (`a_text_has_a_reading`), and never two (`a_text_has_one_reading`),
//! and each run that is read keeps its limits: each command is in range, and the script within its limits
//! (`each_run_is_sound`). Zones and sections are slices of the text; a section is read by crontab_text or
//! anacron_text. Whether a zone's rule or file is one, `jiff` decides when job_table builds it. `read_frame` reads
//! the frame of a text: what `read_run` reads, with the lines of tables counted and not judged (`IsFrameText`,
//! `IsRefusedFrame`). Each text has a frame or is refused (`a_text_has_a_frame`), never in two ways
//! (`a_text_has_one_frame`); a run is its text's frame (`each_run_is_its_frame`), and a frame whose lines each say
//! something is a run (`a_frame_without_faults_is_a_run`).
#![tactic(auto)]

mod head;
mod laws;
mod opening;
mod part;
mod parts;
mod read;
mod reader;
mod refusal;
mod run;
mod script;
mod table;
mod version;
mod words;
mod zone;

pub use laws::{
    a_frame_without_faults_is_a_run, a_text_has_a_frame, a_text_has_a_reading,
    a_text_has_one_frame, a_text_has_one_reading, each_frame_has_its_lines, each_run_is_its_frame,
    each_run_is_sound, each_zone_has_a_name_of_its_own,
};
pub use read::{read_frame, read_run};
pub use refusal::{Refusal, RunFault};
pub use run::{RunFile, Section, SectionKind, VersionLine, ZoneLine, ZoneText};
pub use script_text::{Command, FateWord};
