//! What an audit reads: where its parts begin and end, lines that are no text, and the first line at which two texts differ.
ghost use Rattle.std.specs.Prelude.{◌+◌, ◌<◌, ◌^◌, length, IfOk};

use crate::rows::sides;
use audit_text::{first_other_line, lines_in, read_text, split_input};
use std::test::Fail;

// A text, and its run, its report and its journal.
const PARTS: &str = "\
a¶end¶ => [a¶end¶][][]
 => [][][]
a¶cron report 1¶ => [a¶][cron report 1¶][]
a¶cron report 1 => [a¶][cron report 1][]
a¶cron report 1¶end => [a¶][cron report 1¶end][]
a¶cron report 1¶end¶ => [a¶][cron report 1¶end¶][]
a¶cron report 1¶x¶end¶y¶end¶ => [a¶][cron report 1¶x¶end¶][y¶end¶]
a¶cron report 1¶end¶¶y => [a¶][cron report 1¶end¶][¶y]
a¶cron report 1¶end ¶ end¶ => [a¶][cron report 1¶end ¶ end¶][]
a¶cron report 1 ¶end¶ => [a¶cron report 1 ¶end¶][][]
a¶ cron report 1¶end¶ => [a¶ cron report 1¶end¶][][]
cron report 1¶end¶y¶ => [][cron report 1¶end¶][y¶]
a¶cron report 1¶b¶cron report 1¶end¶ => [a¶cron report 1¶b¶][cron report 1¶end¶][]
a¶cron report 1¶end¶y¶cron report 1¶ => [a¶cron report 1¶end¶y¶][cron report 1¶][]
";

#[test]
fn parts(rt: HostRuntime) -> Result<(), Fail> {
    for row in PARTS.lines() {
        let (text, want) = sides(rt.alloc(), row)?;
        let parts = split_input(text.as_bytes());
        let run = read_text(rt.alloc(), parts.run)?;
        let report = read_text(rt.alloc(), parts.report)?;
        let journal = read_text(rt.alloc(), parts.journal)?;
        let found = format!(in rt.alloc(); "[{run}][{report}][{journal}]")?;
        assert_eq!(rt; found.as_str(), want.as_str(), "{row}");
    }
    Ok(())
}

#[test]
fn lines_that_are_no_text(rt: HostRuntime) -> Result<(), Fail> {
    let text = read_text(rt.alloc(), b"a\n\xff\n\xc3\xa9\nb\xc3\n\n?\n\xa9")?;
    assert_eq!(rt; text.as_str(), "a\n?\n\u{e9}\n?\n\n?\n?");
    let ended = read_text(rt.alloc(), b"\xfe\n")?;
    assert_eq!(rt; ended.as_str(), "?\n");
    Ok(())
}

// A text, how many lines it has, the text that was expected, and the first line at which they differ, or 0.
const DIFFERENCES: &str = "\
a¶b¶ => 2 a¶b¶ 0
a¶b => 2 a¶b¶ 0
a¶b¶ => 2 a¶c¶ 2
b¶b¶ => 2 a¶b¶ 1
a¶ => 1 a¶b¶ 2
a¶b¶ => 2 a¶ 2
a¶¶ => 2 a¶ 2
¶ => 1  1
";

// The text, which has few lines.
fn brief(text: &str) -> Result<&str, Fail>
    ensures { IfOk result (λ brief. length brief.now + 1 < 2 ^ 32) }
{
    if text.len() < 100 {
        Ok(text)
    } else {
        Err(Fail::from("a long text"))
    }
}

#[test]
fn differences(rt: HostRuntime) -> Result<(), Fail> {
    for row in DIFFERENCES.lines() {
        let (text, want) = sides(rt.alloc(), row)?;
        let (count, rest) = want.split_once(" ").ok_or("a row without a text")?;
        let (expected, number) = rest.split_once(" ").ok_or("a row without a number")?;
        let text = brief(&text)?;
        let found = first_other_line(text.as_bytes(), expected.as_bytes()).unwrap_or(0);
        let found = format!(in rt.alloc(); "{} {found}", lines_in(text.as_bytes()))?;
        assert_eq!(rt;
            found.as_str(),
            format!(in rt.alloc(); "{count} {number}")?.as_str(),
            "{row}"
        );
    }
    Ok(())
}
