//! Frames of run files: the lines of tables are counted, and not judged.
use crate::rows::{short, sides};
use run_text::{RunFault, RunFile, a_text_has_a_frame, read_frame, read_run};
use std::alloc::Global;
use std::fmt::Write;
use std::test::Fail;

const HEAD: &str = "cronrun 1\nreplicas 1\nwindow 2024-03-31T00:00Z 2024-03-31T01:00Z\ngrace 0\n";

// The sections of a run, a line each.
fn show_sections(alloc: Global, run: &RunFile<'_>) -> Result<String, Fail> {
    let mut shown = String::new(alloc);
    for section in &run.sections {
        write!(
            shown,
            "{} {} [{}]\n",
            section.line, section.label, section.text
        )?;
    }
    Ok(shown)
}

fn show_fault(alloc: Global, fault: RunFault) -> Result<String, Fail> {
    match fault {
        RunFault::OutOfMemory => Err(Fail::from("no memory")),
        RunFault::Refused(refusal) => Ok(format!(in alloc;
            "line {}: cause {} at {}",
            refusal.line, refusal.cause, refusal.place
        )?),
    }
}

// What `read_run` answers.
fn run_of(alloc: Global, text: &str) -> Result<String, Fail> {
    match read_run(alloc, short(text)?) {
        Ok(run) => show_sections(alloc, &run),
        Err(fault) => show_fault(alloc, fault),
    }
}

// What `read_frame` answers.
fn frame_of(alloc: Global, text: &str) -> Result<String, Fail> {
    match read_frame(alloc, short(text)?) {
        Ok(run) => show_sections(alloc, &run),
        Err(fault) => show_fault(alloc, fault),
    }
}

// Zones and sections, what they are as a run, and what they are as a frame.
const ROWS: &str = "\
crontab alice UTC 1¶* * * * * x¶ => 5 alice [* * * * * x¶]¶ => 5 alice [* * * * * x¶]¶
crontab alice UTC 2¶60 * * * * x¶# a¶system etc UTC 1¶@daily root x¶ => line 6: cause 3 at 0 => 5 alice [60 * * * * x¶# a¶]¶8 etc [@daily root x¶]¶
crontab alice UTC 1¶60 * * * * x¶zone A fixed +1:00¶ => line 6: cause 3 at 0 => line 7: cause 34 at 0
anacrontab a UTC 2¶1 x a x¶0 0¶ => line 6: cause 17 at 2 => 5 a [1 x a x¶0 0¶]¶
crontab alice UTC 9¶60 * * * * x¶ => line 5: cause 29 at 0 => line 5: cause 29 at 0
crontab alice UTC 3¶60 * * * * x¶ => line 6: cause 3 at 0 => line 9: cause 31 at 0
";

#[test]
fn frames(rt: HostRuntime) -> Result<(), Fail> {
    for row in ROWS.lines() {
        let (lines, answers) = sides(rt.alloc(), row)?;
        let (run, frame) = answers.split_once(" => ").ok_or("a row without a frame")?;
        let text = format!(in rt.alloc(); "{HEAD}{lines}script\nend\n")?;
        let text = short(&text)?;
        a_text_has_a_frame(text);
        assert_eq!(rt; run_of(rt.alloc(), text)?.as_str(), run, "{row}");
        assert_eq!(rt; frame_of(rt.alloc(), text)?.as_str(), frame, "{row}");
    }
    Ok(())
}
