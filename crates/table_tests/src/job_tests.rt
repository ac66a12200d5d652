//! The jobs that run files name, and the run files that are refused for what they name.
ghost use Rattle.std.specs.Prelude.{◌<◌, ◌^◌, length};
ghost use Rattle.due_set.specs.Table.{version_count};

use crate::rows::{short, sides};
use due_set::{JobKind, JobTable, Period};
use job_table::build_table;
use run_text::{RunFault, read_run};
use std::alloc::Global;
use std::fmt::Write;
use std::test::Fail;

// A run file of one replica without grace, over a window.
fn run_text(alloc: Global, window: &str, sections: &str) -> Result<String, Fail> {
    Ok(format!(in alloc;
        "cronrun 1\nreplicas 1\nwindow {window}\ngrace 0\n{sections}script\nend\n"
    )?)
}

// The table of a run file's jobs, or what it is refused for.
fn build(alloc: Global, text: &str) -> Result<JobTable, RunFault>
    requires { length text.now < 2 ^ 32 }
{
    let run = read_run(alloc, text)?;
    build_table(alloc, &run)
}

/// The table of a run file's jobs.
pub fn table_of(alloc: Global, window: &str, sections: &str) -> Result<JobTable, Fail> {
    let text = run_text(alloc, window, sections)?;
    Ok(build(alloc, short(&text)?)?)
}

// What a run file is refused for.
fn refusal_of(alloc: Global, window: &str, sections: &str) -> Result<String, Fail> {
    let text = run_text(alloc, window, sections)?;
    match build(alloc, short(&text)?) {
        Ok(_) => Err(Fail::from("a table")),
        Err(RunFault::OutOfMemory) => Err(Fail::from("no memory")),
        Err(RunFault::Refused(refusal)) => Ok(format!(in alloc;
            "line {}: cause {} at {}",
            refusal.line, refusal.cause, refusal.place
        )?),
    }
}

// Each job's name and when it runs in a version, a line each.
fn show_jobs(alloc: Global, table: &JobTable, version: u32) -> Result<String, Fail>
    requires { version < version_count table.now }
{
    let mut shown = String::new(alloc);
    for job in 0..table.jobs() {
        write!(shown, "{} ", table.name(job))?;
        match table.kind(version, job) {
            JobKind::Crontab { .. } => write!(shown, "{} times\n", table.count_due(version, job))?,
            JobKind::Never => shown.push_str("never\n")?,
            JobKind::Anacron {
                period,
                first_minute,
                last_minute,
            } => {
                let period = show_period(alloc, *period)?;
                write!(shown, "{period} from {first_minute} until {last_minute}\n")?;
            }
        }
    }
    Ok(shown)
}

fn show_period(alloc: Global, period: Period) -> Result<String, Fail> {
    match period {
        Period::Days(days) => Ok(format!(in alloc; "days {days}")?),
        Period::Monthly => Ok(String::from_str(alloc, "monthly")?),
        Period::Yearly => Ok(String::from_str(alloc, "yearly")?),
    }
}

const HOUR: &str = "2024-03-31T00:00Z 2024-03-31T01:00Z";

/// 400 days.
const DAYS: &str = "2023-01-01T00:00Z 2024-02-05T00:00Z";

// Sections, and their jobs in order. FNV-1a of 64 bits picks 38 of 45 minutes for `a`, and 0 for `foobar`.
const JOBS: &str = "\
anacrontab l UTC 1¶1 5 a x¶ => l/a days 1 from 5 until 1440¶
anacrontab l UTC 1¶1 0 a x¶ => l/a days 1 from 0 until 1440¶
anacrontab l UTC 2¶START_HOURS_RANGE=3-22¶1 5 a x¶ => l/a days 1 from 185 until 1320¶
anacrontab l UTC 3¶RANDOM_DELAY=45¶START_HOURS_RANGE=3-22¶1 5 a x¶ => l/a days 1 from 223 until 1320¶
anacrontab l UTC 3¶RANDOM_DELAY=45¶START_HOURS_RANGE=3-22¶1 5 foobar y¶ => l/foobar days 1 from 185 until 1320¶
anacrontab l UTC 2¶START_HOURS_RANGE=3-4¶1 90 a x¶ => l/a days 1 from 270 until 240¶
anacrontab l UTC 2¶START_HOURS_RANGE=23-24¶1 9999 a x¶ => l/a days 1 from 11379 until 1440¶
anacrontab l UTC 3¶1 5 a x¶START_HOURS_RANGE=3-22¶RANDOM_DELAY=45¶ => l/a days 1 from 5 until 1440¶
anacrontab l UTC 2¶CRON_TZ=Mars¶1 5 a x¶ => l/a days 1 from 5 until 1440¶
anacrontab a J 3¶@weekly 10 w x¶# a comment \\¶1 1 of it¶crontab a UTC 1¶@reboot x¶system s UTC 1¶@reboot root x¶anacrontab a UTC 3¶@yearly 0 1 x¶@monthly 1 a:1 x¶@daily 2 s x¶anacrontab none UTC 0¶crontab b UTC 1¶@reboot x¶zone J fixed -01:00¶ => a/w days 7 from 10 until 1440¶a:1 never¶s:1 never¶a/1 yearly from 0 until 1440¶a/a:1 monthly from 1 until 1440¶a/s days 1 from 2 until 1440¶b:1 never¶
crontab alice UTC 1¶0,20,40 * * * * echo hi¶ => alice:1 3 times¶
crontab bob UTC 7¶# a comment¶¶MAILTO=root¶@hourly x¶CRON_TZ=UTC¶@reboot x¶0 * * * * x¶system etc UTC 2¶¶*/7 * * * * root x¶crontab none UTC 0¶ => bob:1 1 times¶bob:2 never¶bob:3 1 times¶etc:1 9 times¶
";

#[test]
fn jobs(rt: HostRuntime) -> Result<(), Fail> {
    for row in JOBS.lines() {
        let (sections, want) = sides(rt.alloc(), row)?;
        let table = table_of(rt.alloc(), HOUR, &sections)?;
        assert_eq!(rt; show_jobs(rt.alloc(), &table, 0)?, want, "{row}");
    }
    Ok(())
}

// Each version's jobs, below its number.
fn show_versions(alloc: Global, table: &JobTable) -> Result<String, Fail> {
    let mut shown = String::new(alloc);
    for version in 0..table.versions() {
        write!(
            shown,
            "version {version}\n{}",
            show_jobs(alloc, table, version)?
        )?;
    }
    Ok(shown)
}

// Each version has a job of each name, in the order in which names come first.
const VERSIONS: &str = "\
crontab alice UTC 1¶0,20,40 * * * * echo hi¶version 1 2024-03-31T00:30Z¶crontab alice UTC 1¶10,50 * * * * echo hi¶ => version 0¶alice:1 3 times¶version 1¶alice:1 2 times¶
crontab alice UTC 1¶0,20,40 * * * * echo hi¶version 1 2024-03-31T00:20Z¶crontab bob UTC 1¶* * * * * x¶ => version 0¶alice:1 3 times¶bob:1 never¶version 1¶alice:1 never¶bob:1 60 times¶
crontab a UTC 2¶0 * * * * x¶@reboot y¶version 1 2024-03-31T00:00Z¶crontab b UTC 1¶*/7 * * * * x¶crontab a UTC 1¶*/5 * * * * x¶version 2 2024-03-31T00:00Z¶anacrontab a UTC 1¶1 5 x y¶crontab a UTC 2¶@reboot x¶0 * * * * y¶ => version 0¶a:1 1 times¶a:2 never¶b:1 never¶a/x never¶version 1¶a:1 12 times¶a:2 never¶b:1 9 times¶a/x never¶version 2¶a:1 never¶a:2 1 times¶b:1 never¶a/x days 1 from 5 until 1440¶
version 1 2024-03-31T00:59Z¶crontab a UTC 1¶@hourly x¶ => version 0¶a:1 never¶version 1¶a:1 1 times¶
crontab a UTC 1¶@hourly x¶version 1 2024-03-31T00:59Z¶ => version 0¶a:1 1 times¶version 1¶a:1 never¶
version 1 2024-03-31T00:00Z¶version 2 2024-03-31T00:00Z¶ => version 0¶version 1¶version 2¶
crontab a Z 1¶15 * * * * x¶version 1 2024-03-31T00:30Z¶zone Z fixed +00:30¶crontab a UTC 1¶0 0 * * * x¶ => version 0¶a:1 1 times¶version 1¶a:1 1 times¶
";

#[test]
fn jobs_of_versions(rt: HostRuntime) -> Result<(), Fail> {
    for row in VERSIONS.lines() {
        let (sections, want) = sides(rt.alloc(), row)?;
        let table = table_of(rt.alloc(), HOUR, &sections)?;
        assert_eq!(rt; show_versions(rt.alloc(), &table)?, want, "{row}");
    }
    Ok(())
}

// The first line at fault is told, whatever its cause; but a zone at fault before all others. The lines of the run file are
// counted.
const REFUSED: &str = "\
crontab alice Europe/Paris 0¶ => line 5: cause 21 at 0
crontab alice utc 1¶@daily x¶ => line 5: cause 21 at 0
crontab alice UTC 2¶@daily x¶CRON_TZ=Europe/Paris¶ => line 7: cause 21 at 0
crontab alice UTC 2¶CRON_TZ=¶@daily x¶ => line 6: cause 21 at 0
crontab a UTC 1¶@daily x¶crontab a UTC 2¶# a¶@daily x¶ => line 9: cause 22 at 0
crontab a UTC 1¶@daily x¶system a UTC 1¶@reboot root x¶ => line 8: cause 22 at 0
crontab a UTC 1¶@daily x¶crontab a UTC 2¶@daily x¶CRON_TZ=Mars¶ => line 8: cause 22 at 0
crontab a UTC 1¶@daily x¶crontab a Mars 1¶@daily x¶ => line 7: cause 21 at 0
anacrontab a Mars 0¶ => line 5: cause 21 at 0
anacrontab a Mars 1¶1 5 x y¶ => line 5: cause 21 at 0
anacrontab a UTC 2¶1 5 x y¶7 9 x z¶ => line 7: cause 22 at 0
anacrontab a UTC 1¶1 5 x y¶anacrontab b UTC 1¶1 5 x y¶anacrontab a UTC 2¶¶1 5 x y¶ => line 11: cause 22 at 0
anacrontab a UTC 4¶1 5 x \\¶ y¶1 5 \\¶x z¶ => line 8: cause 22 at 0
anacrontab a UTC 3¶# a \\¶ b¶1 5 x y¶anacrontab a UTC 1¶1 5 x y¶ => line 10: cause 22 at 0
anacrontab a UTC 2¶1 5 x y¶1 5 x y¶crontab a Mars 0¶ => line 7: cause 22 at 0
zone A posix nonsense¶ => line 5: cause 32 at 0
zone A tzif 00¶ => line 5: cause 32 at 0
zone A posix UTC0¶zone B posix ?¶zone C posix ?¶ => line 6: cause 32 at 0
crontab alice Mars 0¶zone A posix ?¶ => line 6: cause 32 at 0
zone Mars fixed +00:00¶crontab alice mars 0¶ => line 6: cause 21 at 0
zone A fixed +01:00¶crontab alice A 2¶CRON_TZ=B¶@daily x¶ => line 7: cause 21 at 0
crontab a UTC 1¶@daily x¶version 1 2024-03-31T00:30Z¶crontab a UTC 1¶@daily x¶crontab a UTC 1¶@daily x¶ => line 11: cause 22 at 0
crontab a UTC 1¶@daily x¶version 1 2024-03-31T00:30Z¶crontab a Mars 0¶ => line 8: cause 21 at 0
version 1 2024-03-31T00:30Z¶crontab a UTC 2¶@daily x¶CRON_TZ=Mars¶version 2 2024-03-31T00:30Z¶crontab a Mars 0¶ => line 8: cause 21 at 0
";

#[test]
fn refused_runs(rt: HostRuntime) -> Result<(), Fail> {
    for row in REFUSED.lines() {
        let (sections, want) = sides(rt.alloc(), row)?;
        let got = refusal_of(rt.alloc(), HOUR, &sections)?;
        assert_eq!(rt; got, want, "{row}");
    }
    Ok(())
}

// A crontab of so many entries that never run.
fn entries(alloc: Global, count: usize) -> Result<String, Fail> {
    let lines = "@reboot x\n".repeat(alloc, count)?;
    Ok(format!(in alloc; "crontab a UTC {count}\n{lines}")?)
}

// An anacrontab of so many jobs.
fn yearly(alloc: Global, count: u32) -> Result<String, Fail> {
    let mut text = format!(in alloc; "anacrontab a UTC {count}\n")?;
    for job in 0..count {
        write!(text, "@yearly 0 {job} x\n")?;
    }
    Ok(text)
}

#[test]
fn a_thousand_jobs(rt: HostRuntime) -> Result<(), Fail> {
    let most = entries(rt.alloc(), 1000)?;
    assert_eq!(rt; table_of(rt.alloc(), HOUR, &most)?.jobs(), 1000);
    let most = yearly(rt.alloc(), 1000)?;
    assert_eq!(rt; table_of(rt.alloc(), HOUR, &most)?.jobs(), 1000);
    Ok(())
}

// A line at fault comes before the number of jobs.
#[test]
fn a_thousand_and_one_jobs(rt: HostRuntime) -> Result<(), Fail> {
    let more = entries(rt.alloc(), 1001)?;
    assert_eq!(rt;
        refusal_of(rt.alloc(), HOUR, &more)?.as_str(),
        "line 0: cause 23 at 0"
    );
    let fault = format!(in rt.alloc(); "{more}crontab a UTC 1\n@reboot x\n")?;
    assert_eq!(rt;
        refusal_of(rt.alloc(), HOUR, &fault)?.as_str(),
        "line 1008: cause 22 at 0"
    );
    Ok(())
}

// A name counts once, in however many versions it stands.
#[test]
fn a_thousand_jobs_over_all_versions(rt: HostRuntime) -> Result<(), Fail> {
    let most = entries(rt.alloc(), 1000)?;
    let again = format!(in rt.alloc(); "{most}version 1 2024-03-31T00:30Z\n{most}")?;
    assert_eq!(rt; table_of(rt.alloc(), HOUR, &again)?.jobs(), 1000);
    let more = format!(in rt.alloc();
        "{most}version 1 2024-03-31T00:30Z\ncrontab b UTC 1\n@reboot x\n"
    )?;
    assert_eq!(rt;
        refusal_of(rt.alloc(), HOUR, &more)?.as_str(),
        "line 0: cause 23 at 0"
    );
    Ok(())
}

const MINUTELY: &str = "crontab alice UTC 2\n* * * * * x\n0 0 13 1 * x\n";

#[test]
fn twenty_thousand_due_instants(rt: HostRuntime) -> Result<(), Fail> {
    let table = table_of(rt.alloc(), "2024-01-01T00:00Z 2024-01-14T21:19Z", MINUTELY)?;
    let shown = show_jobs(rt.alloc(), &table, 0)?;
    assert_eq!(rt; shown.as_str(), "alice:1 19999 times\nalice:2 1 times\n");
    let refusal = refusal_of(rt.alloc(), "2024-01-01T00:00Z 2024-01-14T21:20Z", MINUTELY)?;
    assert_eq!(rt; refusal.as_str(), "line 0: cause 24 at 0");
    Ok(())
}

// Each version counts over the whole window: 6 times 2,880 are taken, and 7 times are refused.
#[test]
fn twenty_thousand_due_instants_over_all_versions(rt: HostRuntime) -> Result<(), Fail> {
    let mut sections = String::from_str(rt.alloc(), "crontab a UTC 1\n* * * * * x\n")?;
    for version in 1..6 {
        write!(
            sections,
            "version {version} 2024-01-01T00:00Z\ncrontab a UTC 1\n* * * * * x\n"
        )?;
    }
    let days = "2024-01-01T00:00Z 2024-01-03T00:00Z";
    assert_eq!(rt; table_of(rt.alloc(), days, &sections)?.versions(), 6);
    sections.push_str("version 6 2024-01-01T00:00Z\ncrontab a UTC 1\n* * * * * x\n")?;
    assert_eq!(rt;
        refusal_of(rt.alloc(), days, &sections)?.as_str(),
        "line 0: cause 24 at 0"
    );
    Ok(())
}

// Each job counts as 403 due instants, its days and three more: 49 take 19,747, and an entry of 12 times 28 and 28 and 4 days
// has no room beside them.
#[test]
fn jobs_of_400_days(rt: HostRuntime) -> Result<(), Fail> {
    let most = yearly(rt.alloc(), 49)?;
    assert_eq!(rt; table_of(rt.alloc(), DAYS, &most)?.jobs(), 49);
    let beside = format!(in rt.alloc(); "{most}crontab b UTC 1\n0 0 1-28 * * x\n")?;
    assert_eq!(rt;
        refusal_of(rt.alloc(), DAYS, &beside)?.as_str(),
        "line 0: cause 24 at 0"
    );
    Ok(())
}

// So many zones, each by the rule of Paris.
fn zones(alloc: Global, count: u32) -> Result<String, Fail> {
    let mut text = String::new(alloc);
    for number in 0..count {
        write!(text, "zone Z{number} posix CET-1CEST,M3.5.0,M10.5.0/3\n")?;
    }
    Ok(text)
}

#[test]
fn as_many_zones_and_days_as_there_can_be(rt: HostRuntime) -> Result<(), Fail> {
    let most = zones(rt.alloc(), 32)?;
    assert_eq!(rt; table_of(rt.alloc(), HOUR, &most)?.jobs(), 0);
    let one = zones(rt.alloc(), 1)?;
    assert_eq!(rt; table_of(rt.alloc(), DAYS, &one)?.jobs(), 0);
    Ok(())
}
