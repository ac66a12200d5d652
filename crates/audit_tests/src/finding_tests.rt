//! What is found of inputs.
use crate::runs::{BREAKS, CALLS, FREE, LETTERS, THREE, Told};
use audit_finding::{Finding, judge_input};
use run_text::RunFault;
use std::alloc::Global;
use std::process::Abort;
use std::test::Fail;

// A line of a report and a journal, from 1, or 0 for none; what stands in its place, which is nothing where it is left out; and what is
// found then.
#[derive(Clone, Copy, Debug)]
struct Change(usize, &'static [u8], &'static str);

// What is found of an input, in words.
fn found(alloc: Global, input: &[u8]) -> Result<String, Fail> {
    if input.len() > 67_108_864 {
        return Err(Fail::from("a long input"));
    }
    let found = match judge_input(alloc, input) {
        Ok(Finding::Passes { .. }) => format!(in alloc; "yes")?,
        Ok(Finding::Fails { line, fault }) => { format!(in alloc; "no {line} {}", fault.number())? }
        Err(RunFault::Refused(refusal)) => {
            format!(in alloc; "refused {} {}", refusal.line, refusal.cause)?
        }
        Err(RunFault::OutOfMemory) => format!(in alloc; "no memory")?,
    };
    Ok(found)
}

// A run with its report and its journal, one of whose lines is changed.
fn changed(alloc: Global, told: Told, change: Change) -> Result<Vec<u8>, Fail> {
    let mut input = Vec::from_slice(alloc, told.run.as_bytes())?;
    for (place, line) in told.told.lines().enumerate() {
        let is_changed = change.0.checked_sub(1) == Some(place);
        let line = if is_changed {
            change.1
        } else {
            line.as_bytes()
        };
        if is_changed && line.is_empty() {
            continue;
        }
        input.extend_from_slice(line)?;
        input.extend_from_slice(b"\n")?;
    }
    Ok(input)
}

// Compares what is found of each change of a run that is told.
fn compare(rt: &impl Abort, alloc: Global, told: Told, changes: &[Change]) -> Result<(), Fail> {
    for change in changes {
        let input = changed(alloc, told, *change)?;
        assert_eq!(rt; found(alloc, &input)?.as_str(), change.2, "{change:?}");
    }
    Ok(())
}

const OF_THREE: &[Change] = &[
    Change(0, b"", "yes"),
    Change(2, b"window 2024-03-31T00:00Z 2024-03-31T02:00Z", "no 2 5"),
    Change(5, b"job alice:1 launched 2 void 0", "no 5 5"),
    Change(5, b"\xff", "no 5 5"),
    Change(7, b"", "no 7 5"),
    Change(8, b"launch alice:1@20240331T0040Z\nx", "no 9 5"),
    Change(9, b"", "no 25 4"),
    Change(10, b"", "no 10 3"),
    Change(11, b"command 1", "no 11 3"),
    Change(12, b"0 1 campaign", "no 12 2"),
    Change(13, b"1 0 answer", "no 13 2"),
    Change(13, b"1 0 campaign", "no 13 3"),
    Change(13, b"x", "no 13 1"),
    Change(13, b"\xff", "no 13 1"),
    Change(25, b"", "no 25 4"),
    Change(25, b"end ", "no 25 1"),
    Change(25, b"end\nend", "no 26 3"),
];

#[test]
fn three_launches(rt: HostRuntime) -> Result<(), Fail> {
    compare(&rt, rt.alloc(), THREE, OF_THREE)
}

const OF_CALLS: &[Change] = &[
    Change(0, b"", "yes"),
    Change(6, b"void alice:1@20240331T0030Z", "no 6 5"),
    Change(14, b"1 0 tick 2024-03-31T00:30Z late", "no 14 2"),
    Change(21, b"5 - arrive 1", "no 21 2"),
];

#[test]
fn calls(rt: HostRuntime) -> Result<(), Fail> {
    compare(&rt, rt.alloc(), CALLS, OF_CALLS)
}

const OF_BREAKS: &[Change] = &[
    Change(0, b"", "yes"),
    Change(14, b"2 1 hear 0", "no 14 3"),
    Change(22, b"7 0 stop lost tick 2024-03-31T00:30Z", "no 22 3"),
];

#[test]
fn breaks(rt: HostRuntime) -> Result<(), Fail> {
    compare(&rt, rt.alloc(), BREAKS, OF_BREAKS)
}

const OF_LETTERS: &[Change] = &[
    Change(0, b"", "yes"),
    Change(21, b"5 1 tick 2024-03-31T00:30Z", "no 21 2"),
    Change(27, b"command 12", "no 27 3"),
];

#[test]
fn letters(rt: HostRuntime) -> Result<(), Fail> {
    compare(&rt, rt.alloc(), LETTERS, OF_LETTERS)
}

const OF_FREE: &[Change] = &[
    Change(0, b"", "yes"),
    Change(13, b"1 0 campaign", "no 13 2"),
    Change(21, b"", "no 21 3"),
];

#[test]
fn free_turns(rt: HostRuntime) -> Result<(), Fail> {
    compare(&rt, rt.alloc(), FREE, OF_FREE)
}

// An input that is refused, and the line and the cause.
#[derive(Clone, Copy, Debug)]
struct Row(&'static [u8], &'static str);

const REFUSED: &[Row] = &[
    Row(b"", "refused 1 25"),
    Row(b"cronrun 2\n", "refused 1 25"),
    Row(b"cronrun 1\n\xff\ncron report 1\nend\n", "refused 2 15"),
];

#[test]
fn refused(rt: HostRuntime) -> Result<(), Fail> {
    for row in REFUSED {
        assert_eq!(rt; found(rt.alloc(), row.0)?.as_str(), row.1, "{row:?}");
    }
    Ok(())
}

#[test]
fn without_a_report(rt: HostRuntime) -> Result<(), Fail> {
    let found = found(rt.alloc(), THREE.run.as_bytes())?;
    assert_eq!(rt; found.as_str(), "no 1 4");
    Ok(())
}

#[test]
fn without_the_last_newline(rt: HostRuntime) -> Result<(), Fail> {
    let whole = format!(in rt.alloc(); "{}{}", THREE.run, THREE.told.trim_end())?;
    assert_eq!(rt; found(rt.alloc(), whole.as_bytes())?.as_str(), "no 25 1");
    Ok(())
}

// What is found of an input whose run has so many bytes, and is none.
fn found_of_size(alloc: Global, size: usize) -> Result<String, Fail> {
    let mut input = vec![in alloc; b'\n'; size]?;
    input.extend_from_slice(b"cron report 1\nend\n")?;
    found(alloc, &input)
}

#[test]
fn runs_at_their_limit(rt: HostRuntime) -> Result<(), Fail> {
    assert_eq!(rt;
        found_of_size(rt.alloc(), 1_048_576)?.as_str(),
        "refused 1 25"
    );
    assert_eq!(rt;
        found_of_size(rt.alloc(), 1_048_577)?.as_str(),
        "refused 0 33"
    );
    Ok(())
}
