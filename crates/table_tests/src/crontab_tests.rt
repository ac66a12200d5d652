//! What each line of a crontab says.
use crate::crontab_rows::{SYSTEM, USER};
use crate::field_tests::show_set;
use crate::rows::{short, sides};
use cron_fields::Fields;
use crontab_text::{Body, Line, LineFault, Lines, Style};
use std::alloc::{AllocError, Global};
use std::test::Fail;

fn show_fields(alloc: Global, fields: &Fields) -> Result<String, AllocError> {
    let minute = show_set(alloc, fields.minute)?;
    let hour = show_set(alloc, fields.hour)?;
    let month_day = show_set(alloc, fields.month_day)?;
    let month = show_set(alloc, fields.month)?;
    let week_day = show_set(alloc, fields.week_day)?;
    format!(in alloc; "{minute} {hour} {month_day} {month} {week_day}")
}

fn show_body(alloc: Global, body: &Body<'_>) -> Result<String, AllocError> {
    match body {
        Body::Blank => String::from_str(alloc, "blank"),
        Body::Comment => String::from_str(alloc, "comment"),
        Body::Assign { name, value } => format!(in alloc; "{name}=[{value}]"),
        Body::Entry {
            fields,
            user,
            command,
        } => {
            let fields = show_fields(alloc, fields)?;
            format!(in alloc; "{fields} [{user}] [{command}]")
        }
        Body::Nick {
            fields,
            user,
            command,
        } => {
            let fields = match fields {
                Some(fields) => show_fields(alloc, fields)?,
                None => String::from_str(alloc, "never")?,
            };
            format!(in alloc; "nick {fields} [{user}] [{command}]")
        }
    }
}

fn show_answer(alloc: Global, answer: &Result<Line<'_>, LineFault>) -> Result<String, AllocError> {
    match answer {
        Ok(line) => {
            let body = show_body(alloc, &line.body)?;
            let (from, until) = (line.span.from, line.span.until);
            format!(in alloc; "{} {from}-{until} {body}", line.number)
        }
        Err(fault) => {
            format!(in alloc;
                "line {}: cause {} at {}",
                fault.line, fault.cause, fault.place
            )
        }
    }
}

// The answers to a table of alice's, one a line.
fn show(alloc: Global, style: Style, text: &str) -> Result<String, Fail> {
    let mut shown = String::new(alloc);
    let mut lines = Lines::new(short(text)?, style, "alice");
    for _ in 0..99 {
        let Some(answer) = lines.next() else {
            break;
        };
        if !shown.is_empty() {
            shown.push('\n')?;
        }
        shown.push_str(&show_answer(alloc, &answer)?)?;
    }
    Ok(shown)
}

#[test]
fn lines_of_users(rt: HostRuntime) -> Result<(), Fail> {
    for row in USER.lines() {
        let (text, want) = sides(rt.alloc(), row)?;
        let got = show(rt.alloc(), Style::User, &text)?;
        assert_eq!(rt; got, want, "{row}");
    }
    Ok(())
}

#[test]
fn lines_of_systems(rt: HostRuntime) -> Result<(), Fail> {
    for row in SYSTEM.lines() {
        let (text, want) = sides(rt.alloc(), row)?;
        let got = show(rt.alloc(), Style::System, &text)?;
        assert_eq!(rt; got, want, "{row}");
    }
    Ok(())
}

// An entry of every minute with a command of that many letters.
fn entry_of(alloc: Global, letters: usize) -> Result<String, AllocError> {
    let command = "x".repeat(alloc, letters)?;
    format!(in alloc; " * * * * * {command}")
}

#[test]
fn a_command_of_a_thousand_bytes(rt: HostRuntime) -> Result<(), Fail> {
    let most = entry_of(rt.alloc(), 1000)?;
    let shown = show(rt.alloc(), Style::User, &most)?;
    assert!(rt; shown.starts_with("1 0-1011 *fffffffffffffff"));
    let more = entry_of(rt.alloc(), 1001)?;
    assert_eq!(rt;
        show(rt.alloc(), Style::User, &more)?.as_str(),
        "line 1: cause 14 at 11"
    );
    Ok(())
}
