//! Names of launches.
ghost use Rattle.std.specs.Prelude.{◌≡◌, IfOk};
ghost use Rattle.cluster_sched.specs.Names.{IsNameIn};

use crate::build::{When, two_jobs};
use cluster_sched::{Name, is_name_in, read_name, write_name};
use due_set::{JobKind, JobSpec, JobTable, Period};
use std::alloc::Global;
use std::test::Fail;
use zone_minutes::{Minute, Window};

/// The number of a job, and its instant or its date.
struct Launch(u32, i64);

/// A text, and the launch that has it as its name.
struct Text(&'static str, Option<Launch>);

/// In a table of the jobs `alice:1` and `bob@home:2`, from 2024-03-31T00:00Z to 02:00Z.
const TEXTS: &[Text] = &[
    Text("alice:1@20240331T0100Z", Some(Launch(0, 28_530_780))),
    Text("bob@home:2@20240331T0000Z", Some(Launch(1, 28_530_720))),
    Text("bob@home:2@20240331T0159Z", Some(Launch(1, 28_530_839))),
    Text("", None),
    Text("20240331T0100Z", None),
    Text("@20240331T0100Z", None),
    Text("alice:1@@20240331T0100Z", None),
    Text("alice:120240331T0100Z", None),
    Text("carol:3@20240331T0100Z", None),
    Text("home:2@20240331T0100Z", None),
    Text("alice:1@20241331T0100Z", None),
    Text("alice:1@20240330T2359Z", None),
    Text("alice:1@20240331T0200Z", None),
    Text("alice:1@20240331T0100Z ", None),
    Text("alice:1@20240331T0100z", None),
    Text("alice:1@2024-03-31T01:00Z", None),
    Text("alice:1@2024-03-31", None),
    // A mark would come between the bytes of a letter.
    Text("alice:1@202é331T0100Z", None),
];

/// In a table of the anacron job `x/y` and of the entry `alice:1`, from 2024-03-02T00:00Z to 2024-03-29T00:00Z.
const DATED_TEXTS: &[Text] = &[
    Text("x/y@2024-03-02", Some(Launch(0, 19_784))),
    // two days before the window's first day, and two after its last
    Text("x/y@2024-02-29", Some(Launch(0, 19_782))),
    Text("x/y@2024-03-31", Some(Launch(0, 19_813))),
    Text("x/y@2024-02-28", None),
    Text("x/y@2024-04-01", None),
    Text("x/y@20240302T0000Z", None),
    Text("x/y@2024-03-02T00:00Z", None),
    Text("x/y@20240302", None),
    Text("x/y@2024-02-30", None),
    Text("x/y@@2024-03-02", None),
    Text("alice:1@2024-03-02", None),
    Text("z@2024-03-02", None),
    Text("alice:1@20240302T0000Z", Some(Launch(1, 28_488_960))),
];

// Whether the text is read as the launch, and the launch is written as the text.
fn is_name_of(alloc: Global, table: &JobTable, row: &Text) -> Result<bool, Fail> {
    let found = read_name(table, row.0);
    let Some(Launch(job, at)) = row.1 else {
        return Ok(found.is_none());
    };
    let name = Name { job, at };
    if found != Some(name) || !is_name_in(table, name) {
        return Ok(false);
    }
    let mut text = String::new(alloc);
    write_name(table, name, &mut text)?;
    Ok(text.as_str() == row.0)
}

#[test]
fn names_of_entries(rt: HostRuntime) -> Result<(), Fail> {
    let window = Window {
        from: Minute(28_530_720),
        until: Minute(28_530_840),
    };
    let table = two_jobs(rt.alloc(), window, 0, When::Never, When::Never)?;
    for row in TEXTS {
        let holds = is_name_of(rt.alloc(), &table, row)?;
        assert!(rt; holds, "{}", row.0);
    }
    Ok(())
}

fn dated_jobs(alloc: Global) -> Result<JobTable, Fail> {
    let window = Window {
        from: Minute(28_488_960),
        until: Minute(28_527_841),
    };
    let daily = JobKind::Anacron {
        period: Period::Days(1),
        first_minute: 0,
        last_minute: 1440,
    };
    let mut jobs = Vec::new(alloc);
    jobs.push(JobSpec::new(alloc, "x/y", 0, daily)?)?;
    jobs.push(JobSpec::new(alloc, "alice:1", 0, JobKind::Never)?)?;
    Ok(JobTable::in_utc(alloc, window, 0, jobs)?)
}

#[test]
fn names_of_anacron_jobs(rt: HostRuntime) -> Result<(), Fail> {
    let table = dated_jobs(rt.alloc())?;
    for row in DATED_TEXTS {
        let holds = is_name_of(rt.alloc(), &table, row)?;
        assert!(rt; holds, "{}", row.0);
    }
    Ok(())
}
