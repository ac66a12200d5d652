//! What each line of an anacrontab says.
use crate::anacrontab_rows::{JOBS, JOINED, VARIABLES};
use crate::rows::{short, sides};
use anacron_text::{AnaBody, AnaLine, AnaLines, PeriodWord};
use cron_io::read_number;
use crontab_text::LineFault;
use std::alloc::{AllocError, Global};
use std::test::Fail;

fn show_period(alloc: Global, period: PeriodWord) -> Result<String, AllocError> {
    match period {
        PeriodWord::Days(days) => format!(in alloc; "days {days}"),
        PeriodWord::Monthly => String::from_str(alloc, "monthly"),
        PeriodWord::Yearly => String::from_str(alloc, "yearly"),
    }
}

fn show_body(alloc: Global, body: &AnaBody<'_>) -> Result<String, AllocError> {
    match body {
        AnaBody::Blank => String::from_str(alloc, "blank"),
        AnaBody::Comment => String::from_str(alloc, "comment"),
        AnaBody::Assign { name, value } => format!(in alloc; "{name}=[{value}]"),
        AnaBody::Job {
            period,
            delay,
            added,
            first_hour,
            last_hour,
            identifier,
            command,
        } => {
            let period = show_period(alloc, *period)?;
            format!(in alloc;
                "{period} delay {delay} added {added} hours {first_hour}-{last_hour} [{identifier}] [{command}]"
            )
        }
    }
}

fn show_answer(
    alloc: Global,
    answer: &Result<AnaLine<'_>, LineFault>,
) -> Result<String, AllocError> {
    match answer {
        Ok(line) => {
            let body = show_body(alloc, &line.body)?;
            let (from, until) = (line.span.from, line.span.until);
            format!(in alloc; "{} {from}-{until} {body}", line.number)
        }
        Err(fault) => {
            format!(in alloc;
                "line {}: cause {} at {}",
                fault.line, fault.cause, fault.place
            )
        }
    }
}

// The answers to a table, one a line.
fn show(alloc: Global, text: &str) -> Result<String, Fail> {
    let mut shown = String::new(alloc);
    let mut lines = AnaLines::new(short(text)?);
    for _ in 0..99 {
        let Some(answer) = lines.next() else {
            break;
        };
        if !shown.is_empty() {
            shown.push('\n')?;
        }
        shown.push_str(&show_answer(alloc, &answer)?)?;
    }
    Ok(shown)
}

// The anacrontab of Debian, and its answers.
const DEBIAN: &str = "\
# /etc/anacrontab: configuration file for anacron

# See anacron(8) and anacrontab(5) for details.

SHELL=/bin/sh
HOME=/root
LOGNAME=root

# These replace cron's entries
1\t5\tcron.daily\trun-parts --report /etc/cron.daily
7\t10\tcron.weekly\trun-parts --report /etc/cron.weekly
@monthly\t15\tcron.monthly\trun-parts --report /etc/cron.monthly
";

const OF_DEBIAN: &str = "\
1 0-49 comment
2 50-50 blank
3 51-98 comment
4 99-99 blank
5 100-113 SHELL=[/bin/sh]
6 114-124 HOME=[/root]
7 125-137 LOGNAME=[root]
8 138-138 blank
9 139-169 comment
10 170-219 days 1 delay 5 added 0 hours 0-24 [cron.daily] [run-parts --report /etc/cron.daily]
11 220-272 days 7 delay 10 added 0 hours 0-24 [cron.weekly] [run-parts --report /etc/cron.weekly]
12 273-334 monthly delay 15 added 0 hours 0-24 [cron.monthly] [run-parts --report /etc/cron.monthly]";

// That of Red Hat, as cronie has it.
const RED_HAT: &str = "\
# /etc/anacrontab: configuration file for anacron

# See anacron(8) and anacrontab(5) for details.

SHELL=/bin/sh
PATH=/sbin:/bin:/usr/sbin:/usr/bin
MAILTO=root
# the maximal random delay added to the base delay of the jobs
RANDOM_DELAY=45
# the jobs will be started during the following hours only
START_HOURS_RANGE=3-22

#period in days   delay in minutes   job-identifier   command
1\t5\tcron.daily\t\tnice run-parts /etc/cron.daily
7\t25\tcron.weekly\t\tnice run-parts /etc/cron.weekly
@monthly 45\tcron.monthly\t\tnice run-parts /etc/cron.monthly
";

const OF_RED_HAT: &str = "\
1 0-49 comment
2 50-50 blank
3 51-98 comment
4 99-99 blank
5 100-113 SHELL=[/bin/sh]
6 114-148 PATH=[/sbin:/bin:/usr/sbin:/usr/bin]
7 149-160 MAILTO=[root]
8 161-223 comment
9 224-239 RANDOM_DELAY=[45]
10 240-298 comment
11 299-321 START_HOURS_RANGE=[3-22]
12 322-322 blank
13 323-384 comment
14 385-431 days 1 delay 5 added 34 hours 3-22 [cron.daily] [nice run-parts /etc/cron.daily]
15 432-481 days 7 delay 25 added 38 hours 3-22 [cron.weekly] [nice run-parts /etc/cron.weekly]
16 482-540 monthly delay 45 added 34 hours 3-22 [cron.monthly] [nice run-parts /etc/cron.monthly]";

#[test]
fn whole_files(rt: HostRuntime) -> Result<(), Fail> {
    assert_eq!(rt; show(rt.alloc(), DEBIAN)?.as_str(), OF_DEBIAN);
    assert_eq!(rt; show(rt.alloc(), RED_HAT)?.as_str(), OF_RED_HAT);
    Ok(())
}

#[test]
fn jobs(rt: HostRuntime) -> Result<(), Fail> {
    for row in JOBS.lines() {
        let (text, want) = sides(rt.alloc(), row)?;
        let got = show(rt.alloc(), &text)?;
        assert_eq!(rt; got, want, "{row}");
    }
    Ok(())
}

#[test]
fn variables(rt: HostRuntime) -> Result<(), Fail> {
    for row in VARIABLES.lines() {
        let (text, want) = sides(rt.alloc(), row)?;
        let got = show(rt.alloc(), &text)?;
        assert_eq!(rt; got, want, "{row}");
    }
    Ok(())
}

#[test]
fn joined_lines(rt: HostRuntime) -> Result<(), Fail> {
    for row in JOINED.lines() {
        let (text, want) = sides(rt.alloc(), row)?;
        let got = show(rt.alloc(), &text)?;
        assert_eq!(rt; got, want, "{row}");
    }
    Ok(())
}

// A job whose command goes on in a second line, and has so many bytes with the backslash and the newline in it.
fn job_of(alloc: Global, bytes: usize) -> Result<String, AllocError> {
    let command = "y".repeat(alloc, bytes.saturating_sub(3))?;
    format!(in alloc; "1 5 a x\\\n{command}")
}

#[test]
fn a_command_of_a_thousand_bytes(rt: HostRuntime) -> Result<(), Fail> {
    let most = job_of(rt.alloc(), 1000)?;
    let shown = show(rt.alloc(), &most)?;
    assert!(rt; shown.starts_with("1 0-1006 days 1"));
    let more = job_of(rt.alloc(), 1001)?;
    assert_eq!(rt; show(rt.alloc(), &more)?.as_str(), "line 1: cause 14 at 6");
    Ok(())
}

#[test]
fn what_is_left(rt: HostRuntime) {
    let mut lines = AnaLines::new("A=b\\\nc\n1 5 a x");
    assert!(rt; lines.next().is_some());
    assert_eq!(rt; lines.rest(), "1 5 a x");
}

#[test]
fn numbers(rt: HostRuntime) {
    assert_eq!(rt; read_number("24", 24), Some(24));
    assert_eq!(rt; read_number("25", 24), None);
    assert_eq!(rt; read_number("00", 24), None);
}
