//! Runs at the limits.
use crate::play::{Left, NO_FAULTS, play};
use crate::runs::TOO_LARGE;
use std::alloc::Global;
use std::fmt::Write;
use std::sync::Wait;
use std::test::Fail;
use std::thread::Threads;

// A run over a window that ends at a stamp of March 2024, with so many lines of a job.
fn run_of(alloc: Global, until: &str, lines: u32, line: &str) -> Result<String, Fail> {
    let mut text = format!(in alloc;
        "cronrun 1\nreplicas 1\nwindow 2024-03-01T00:00Z {until}\ngrace 0\n"
    )?;
    write!(text, "crontab alice UTC {lines}\n")?;
    for _ in 0..lines {
        text.push_str(line)?;
        text.push('\n')?;
    }
    text.push_str("script\nend\n")?;
    Ok(text)
}

// What is left of such a run.
fn left_of<R: Threads + Wait + Sync>(
    rt: &R,
    alloc: Global,
    until: &str,
    lines: u32,
    line: &str,
) -> Result<Left, Fail> {
    let input = run_of(alloc, until, lines, line)?;
    play(rt, alloc, input.as_bytes(), &NO_FAULTS)
}

#[test]
fn a_thousand_jobs(rt: HostRuntime) -> Result<(), Fail> {
    let left = left_of(
        &rt,
        rt.alloc(),
        "2024-03-02T00:00Z",
        1000,
        "0 0 31 2 * never",
    )?;
    assert_eq!(rt; left.end.status, 0);
    Ok(())
}

// A job of each minute has a due instant for each minute of the window: 20,000 up to the 14th at 21:20.
#[test]
fn twenty_thousand_due_instants(rt: HostRuntime) -> Result<(), Fail> {
    let left = left_of(
        &rt,
        rt.alloc(),
        "2024-03-14T21:20Z",
        1,
        "* * * * * each minute",
    )?;
    assert_eq!(rt; left.end.status, 0);
    assert_eq!(rt; left.end.book.ledger().held().len(), 20_000);
    Ok(())
}

// A run of so many bytes: the blanks behind a field fill it.
fn filled(alloc: Global, length: usize) -> Result<String, Fail> {
    let short = run_of(alloc, "2024-03-02T00:00Z", 1, "0 0 31 2 * never")?;
    let blanks = " ".repeat(alloc, length.saturating_sub(short.len()))?;
    let line = format!(in alloc; "0{blanks} 0 31 2 * never")?;
    run_of(alloc, "2024-03-02T00:00Z", 1, &line)
}

#[test]
fn a_mebibyte(rt: HostRuntime) -> Result<(), Fail> {
    let most = filled(rt.alloc(), 1_048_576)?;
    assert_eq!(rt;
        play(&rt, rt.alloc(), most.as_bytes(), &NO_FAULTS)?
            .end
            .status,
        0
    );
    let more = filled(rt.alloc(), 1_048_577)?;
    let left = play(&rt, rt.alloc(), more.as_bytes(), &NO_FAULTS)?;
    assert_eq!(rt; left.notes.bytes(), TOO_LARGE.as_bytes());
    Ok(())
}
