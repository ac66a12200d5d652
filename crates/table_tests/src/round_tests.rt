//! Run files of up to seven replicas with commands: what their scripts say, and what is refused in them.
use crate::rows::{short, sides};
use run_text::{Command, FateWord, RunFault, RunFile, a_text_has_a_reading, read_run};
use std::alloc::Global;
use std::process::Abort;
use std::test::*;
use zone_minutes::Minute;

// Three replicas over an hour, up to the line that opens the script.
const HEAD: &str = "cronrun 1\nreplicas 3\nwindow 2024-03-31T00:00Z 2024-03-31T01:00Z\ngrace 0\n\
    crontab alice UTC 1\n0 * * * * x\nscript\n";

// The run that a text says.
fn run_of(alloc: Global, text: &str) -> Result<RunFile<'_>, Fail> {
    match read_run(alloc, short(text)?) {
        Ok(run) => Ok(run),
        Err(_) => Err(Fail::from("no run")),
    }
}

// The refusal of a text, as its line, cause and place.
fn refusal_of(alloc: Global, text: &str) -> Result<String, Fail> {
    let text = short(text)?;
    a_text_has_a_reading(text);
    match read_run(alloc, text) {
        Ok(_) => Err(Fail::from("a run")),
        Err(RunFault::OutOfMemory) => Err(Fail::from("no memory")),
        Err(RunFault::Refused(refusal)) => Ok(format!(in alloc;
            "line {}: cause {} at {}",
            refusal.line, refusal.cause, refusal.place
        )?),
    }
}

#[test]
fn a_script_of_five_commands(rt: HostRuntime) -> Result<(), Fail> {
    let script =
        "campaign 0\nround 2024-03-31T00:30Z 40\nfate 2 lost-after\nbreak 1 3 4294967295\nwalk 2024-03-31T00:59Z\nend\n";
    let text = format!(in rt.alloc(); "{HEAD}{script}")?;
    let run = run_of(rt.alloc(), &text)?;
    assert_eq!(rt; run.members, 3);
    let half_past = Minute(28_530_750);
    let last = Minute(28_530_779);
    let commands = [
        Command::Campaign { member: 0 },
        Command::Round {
            at: half_past,
            rounds: 40,
        },
        Command::Fate {
            member: 2,
            fate: FateWord::LostAfter,
        },
        Command::Break {
            member: 1,
            pass: 3,
            image: 4_294_967_295,
        },
        Command::Walk { to: last },
    ];
    assert_eq!(rt; run.commands.as_slice(), commands.as_slice());
    Ok(())
}

#[test]
fn one_to_seven_replicas(rt: HostRuntime) -> Result<(), Fail> {
    let rest = "window 2024-03-31T00:00Z 2024-03-31T01:00Z\ngrace 0\nscript\nend\n";
    for members in 1..=7_u8 {
        let text = format!(in rt.alloc(); "cronrun 1\nreplicas {members}\n{rest}")?;
        let run = run_of(rt.alloc(), &text)?;
        assert_eq!(rt; run.members, members);
        assert_eq!(rt; run.commands.len(), 0);
    }
    for members in [0_u8, 8] {
        let text = format!(in rt.alloc(); "cronrun 1\nreplicas {members}\n{rest}")?;
        assert_eq!(rt;
            refusal_of(rt.alloc(), &text)?.as_str(),
            "line 2: cause 26 at 0"
        );
    }
    Ok(())
}

// Scripts behind the seven lines of HEAD.
const REFUSED: &str = "\
heal¶ => line 9: cause 31 at 0
 => line 8: cause 31 at 0
heal¶heal ¶end¶ => line 9: cause 30 at 0
campaign 3¶end¶ => line 8: cause 30 at 0
campaign 2¶campaign 03¶end¶ => line 9: cause 30 at 0
round 2024-03-31T00:30Z 0¶end¶ => line 8: cause 30 at 0
round 2024-03-31T00:30Z 10001¶end¶ => line 8: cause 30 at 0
round 2024-03-31T01:00Z 1¶end¶ => line 8: cause 30 at 0
settle 2024-03-30T23:59Z¶end¶ => line 8: cause 30 at 0
rounds¶end¶ => line 8: cause 30 at 0
round¶end¶ => line 8: cause 30 at 0
break 3 1 1¶end¶ => line 8: cause 30 at 0
break 2 1 1¶break¶end¶ => line 9: cause 30 at 0
heal¶free x¶campaign 9¶end¶ => line 9: cause 30 at 0
breaks 0 1 1¶end¶ => line 8: cause 30 at 0
end ¶ => line 8: cause 30 at 0
heal¶end¶heal¶ => line 10: cause 30 at 0
";

#[test]
fn refused_scripts(rt: HostRuntime) -> Result<(), Fail> {
    for row in REFUSED.lines() {
        let (lines, want) = sides(rt.alloc(), row)?;
        let text = format!(in rt.alloc(); "{HEAD}{lines}")?;
        assert_eq!(rt; refusal_of(rt.alloc(), &text)?, want, "{row}");
    }
    Ok(())
}

// A script of so many times the same line.
fn script_of(alloc: Global, line: &str, count: u32) -> Result<String, Fail> {
    let mut text = String::from_str(alloc, HEAD)?;
    for _ in 0..count {
        text.push_str(line)?;
    }
    text.push_str("end\n")?;
    Ok(text)
}

// The line behind the last of a script within its limits is refused.
#[test]
fn the_limits_of_a_script(rt: HostRuntime) -> Result<(), Fail> {
    let most = script_of(rt.alloc(), "heal\n", 1_000)?;
    assert_eq!(rt; run_of(rt.alloc(), &most)?.commands.len(), 1_000);
    let more = script_of(rt.alloc(), "heal\n", 1_001)?;
    assert_eq!(rt;
        refusal_of(rt.alloc(), &more)?.as_str(),
        "line 1008: cause 30 at 0"
    );
    let rounds = "round 2024-03-31T00:30Z 10000\n";
    let most = script_of(rt.alloc(), rounds, 10)?;
    assert_eq!(rt; run_of(rt.alloc(), &most)?.commands.len(), 10);
    let more = script_of(rt.alloc(), rounds, 11)?;
    assert_eq!(rt;
        refusal_of(rt.alloc(), &more)?.as_str(),
        "line 18: cause 30 at 0"
    );
    Ok(())
}
