//! What the texts that are run files say.
use crate::rows::{short, sides};
use run_text::{
    RunFault, RunFile, Section, SectionKind, ZoneLine, ZoneText, a_text_has_a_reading, read_run,
};
use std::alloc::{AllocError, Global};
use std::fmt::Write;
use std::test::Fail;

const HEAD: &str = "cronrun 1\nreplicas 1\nwindow 2024-03-31T00:00Z 2024-03-31T01:00Z\ngrace 0\n";

// The zones of a run, its sections and its versions, a line each.
fn show_parts(alloc: Global, run: &RunFile<'_>) -> Result<String, Fail> {
    let mut shown = String::new(alloc);
    for zone in &run.zones {
        write!(shown, "{}\n", show_zone(alloc, zone)?)?;
    }
    for section in &run.sections {
        write!(shown, "{}\n", show_section(alloc, section)?)?;
    }
    for version in &run.versions {
        let (line, from, above) = (version.line, version.from.0, version.first_section);
        write!(shown, "{line} from {from} below {above}\n")?;
    }
    Ok(shown)
}

fn show_zone(alloc: Global, zone: &ZoneLine<'_>) -> Result<String, AllocError> {
    let (line, name) = (zone.line, zone.name);
    match zone.source {
        ZoneText::Fixed { minutes } => format!(in alloc; "{line} {name} fixed {minutes}"),
        ZoneText::Posix(rule) => format!(in alloc; "{line} {name} posix [{rule}]"),
        ZoneText::Hex(digits) => format!(in alloc; "{line} {name} tzif [{digits}]"),
    }
}

fn show_section(alloc: Global, section: &Section<'_>) -> Result<String, AllocError> {
    let kind = match section.kind {
        SectionKind::User => "crontab",
        SectionKind::System => "system",
        SectionKind::Anacron => "anacrontab",
    };
    format!(in alloc;
        "{} {kind} {} {} [{}]",
        section.line, section.label, section.zone, section.text
    )
}

// The run that a text says.
fn run_of(alloc: Global, text: &str) -> Result<RunFile<'_>, Fail> {
    match read_run(alloc, short(text)?) {
        Ok(run) => Ok(run),
        Err(_) => Err(Fail::from("no run")),
    }
}

// Zones, and sections of each kind.
const RUNS: &str = "\
zone A fixed +00:00¶ => 5 A fixed 0¶
zone A fixed -00:00¶ => 5 A fixed 0¶
zone A fixed +05:45¶ => 5 A fixed 345¶
zone A fixed -00:01¶ => 5 A fixed -1¶
zone A fixed +14:00¶ => 5 A fixed 840¶
zone A fixed -12:00¶ => 5 A fixed -720¶
zone Europe/Paris posix CET-1CEST,M3.5.0,M10.5.0/3¶ => 5 Europe/Paris posix [CET-1CEST,M3.5.0,M10.5.0/3]¶
zone A posix ¶ => 5 A posix []¶
zone A posix  a rule ¶ => 5 A posix [ a rule ]¶
zone utc tzif 54¶ => 5 utc tzif [54]¶
zone Etc/GMT+1_a-Z tzif 545a69Fa¶ => 5 Etc/GMT+1_a-Z tzif [545a69Fa]¶
zone aaaaaaaaaaaaaaaaaaaaaaaaaaaaaaaaaaaaaaaaaaaaaaaaaaaaaaaaaaaaaaaa fixed +00:00¶ => 5 aaaaaaaaaaaaaaaaaaaaaaaaaaaaaaaaaaaaaaaaaaaaaaaaaaaaaaaaaaaaaaaa fixed 0¶
zone B posix X¶crontab alice A 1¶* * * * * x¶zone A fixed +01:00¶system etc UTC 0¶zone a tzif 00¶ => 5 B posix [X]¶8 A fixed 60¶10 a tzif [00]¶6 crontab alice A [* * * * * x¶]¶9 system etc UTC []¶
anacrontab a UTC 4¶RANDOM_DELAY=6¶# a\\¶b¶@daily 5 tidy x\\¶crontab c UTC 1¶* * * * * x\\¶anacrontab b UTC 0¶system s UTC 1¶@daily root y¶anacrontab e UTC 2¶7 0 w a \\¶ b¶ => 5 anacrontab a UTC [RANDOM_DELAY=6¶# a\\¶b¶@daily 5 tidy x\\¶]¶10 crontab c UTC [* * * * * x\\¶]¶12 anacrontab b UTC []¶13 system s UTC [@daily root y¶]¶15 anacrontab e UTC [7 0 w a \\¶ b¶]¶
";

#[test]
fn runs(rt: HostRuntime) -> Result<(), Fail> {
    for row in RUNS.lines() {
        let (lines, want) = sides(rt.alloc(), row)?;
        let text = format!(in rt.alloc(); "{HEAD}{lines}script\nend\n")?;
        let run = run_of(rt.alloc(), &text)?;
        assert_eq!(rt; show_parts(rt.alloc(), &run)?, want, "{row}");
    }
    Ok(())
}

// Versions, between the sections and the zones of a run.
const VERSIONS: &str = "\
version 1 2024-03-31T00:00Z¶ => 5 from 28530720 below 0¶
version 1 2024-03-31T00:59Z¶ => 5 from 28530779 below 0¶
crontab a UTC 1¶@daily x¶version 1 2024-03-31T00:30Z¶crontab a UTC 0¶crontab b UTC 0¶version 2 2024-03-31T00:30Z¶zone A posix X¶system c A 0¶ => 11 A posix [X]¶5 crontab a UTC [@daily x¶]¶8 crontab a UTC []¶9 crontab b UTC []¶12 system c A []¶7 from 28530750 below 1¶10 from 28530750 below 3¶
version 1 2024-03-31T00:00Z¶version 2 2024-03-31T00:01Z¶version 3 2024-03-31T00:02Z¶version 4 2024-03-31T00:03Z¶version 5 2024-03-31T00:04Z¶version 6 2024-03-31T00:05Z¶version 7 2024-03-31T00:06Z¶crontab a UTC 0¶ => 12 crontab a UTC []¶5 from 28530720 below 0¶6 from 28530721 below 0¶7 from 28530722 below 0¶8 from 28530723 below 0¶9 from 28530724 below 0¶10 from 28530725 below 0¶11 from 28530726 below 0¶
";

#[test]
fn versions(rt: HostRuntime) -> Result<(), Fail> {
    for row in VERSIONS.lines() {
        let (lines, want) = sides(rt.alloc(), row)?;
        let text = format!(in rt.alloc(); "{HEAD}{lines}script\nend\n")?;
        let run = run_of(rt.alloc(), &text)?;
        assert_eq!(rt; show_parts(rt.alloc(), &run)?, want, "{row}");
    }
    Ok(())
}

// The last line has no newline.
const WHOLE: &str = "cronrun 1\nreplicas 1\nwindow 2024-03-31T00:00Z 2024-03-31T01:00Z\ngrace 5\n\
    crontab alice UTC 2\n# a\n0,20,40 * * * * echo hi\nsystem etc Mars/Base 1\n@daily root x\nscript\nend";

#[test]
fn a_whole_run(rt: HostRuntime) -> Result<(), Fail> {
    let run = run_of(rt.alloc(), WHOLE)?;
    let (from, until) = (run.window.from.0, run.window.until.0);
    let head = format!(in rt.alloc(); "{} {from} {until} {}", run.members, run.grace)?;
    assert_eq!(rt; head.as_str(), "1 28530720 28530780 5");
    assert_eq!(rt;
        show_parts(rt.alloc(), &run)?.as_str(),
        "5 crontab alice UTC [# a\n0,20,40 * * * * echo hi\n]\n8 system etc Mars/Base [@daily root x\n]\n"
    );
    Ok(())
}

// A text of so many zones.
fn zones(alloc: Global, count: u32) -> Result<String, Fail> {
    let mut text = String::from_str(alloc, HEAD)?;
    for number in 0..count {
        write!(text, "zone Z{number} posix X\n")?;
    }
    text.push_str("script\nend\n")?;
    Ok(text)
}

#[test]
fn thirty_two_zones(rt: HostRuntime) -> Result<(), Fail> {
    let most = zones(rt.alloc(), 32)?;
    assert_eq!(rt; run_of(rt.alloc(), &most)?.zones.len(), 32);
    let more = zones(rt.alloc(), 33)?;
    let text = short(&more)?;
    a_text_has_a_reading(text);
    assert!(rt; matches!(read_run(rt.alloc(), text), Err(RunFault::Refused(_))));
    Ok(())
}

#[test]
fn a_section_of_65_535_lines(rt: HostRuntime) -> Result<(), Fail> {
    let lines = "#\n".repeat(rt.alloc(), 65_535)?;
    let text = format!(in rt.alloc(); "{HEAD}crontab a UTC 65535\n{lines}script\nend\n")?;
    let run = run_of(rt.alloc(), &text)?;
    assert_eq!(rt; run.sections.len(), 1);
    Ok(())
}
