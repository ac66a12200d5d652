ghost use Rattle.std.specs.Prelude.{◌≡◌, IfOk};

use cron_fields::Fields;
use cron_io::OutOfMemory;
use std::alloc::Global;
use std::marker::Model;
use zone_minutes::Minute;

/// How often an anacron job runs (anacrontab(5)).
#[derive(Clone, Copy, Debug, PartialEq, Eq)]
pub enum Period {
    /// Days, from 1 to 9999.
    Days(u32),
    Monthly,
    Yearly,
}

/// When a job runs.
#[derive(Clone, Copy, Debug, PartialEq, Eq)]
pub enum JobKind {
    /// At the due instants of an entry of a crontab.
    Crontab {
        fields: Fields,
    },
    /// Once in a period, at an hour of the day that is allowed: `first_minute` and `last_minute` are minutes of the
    /// local day, the first inside and the last outside.
    Anacron {
        period: Period,
        first_minute: u16,
        last_minute: u16,
    },
    /// At no time.
    Never,
}

/// The name of a job.
#[derive(Debug, Drop)]
pub struct JobName {
    text: String,
}

impl Model for JobName {
    ghost use Rattle.std.specs.Prelude.{List, ℕ, string_bytes};

    ghost Value = { List ℕ };

    ghost view = { λ name. string_bytes name.text };
}

impl JobName {
    /// The name that a text says.
    pub fn new(alloc: Global, text: &str) -> Result<JobName, OutOfMemory>
        ensures { IfOk result (λ name. name ≡ text.now) }
    {
        Ok(JobName {
            text: String::from_str(alloc, text)?,
        })
    }

    /// The text of the name.
    pub fn as_str(&self) -> &str
        ensures { result.now ≡ self.now }
    {
        self.text.as_str()
    }
}

/// A job of a table.
#[derive(Debug, Drop)]
pub struct JobSpec {
    pub name: JobName,
    /// The number of its zone in the table, from 0.
    pub zone: u16,
    pub kind: JobKind,
}

impl JobSpec {
    /// The job of a name, a zone's number and a time to run.
    pub fn new(alloc: Global, name: &str, zone: u16, kind: JobKind) -> Result<JobSpec, OutOfMemory>
        ensures name { IfOk result (λ job. job.name ≡ name.now) }
        ensures zone { IfOk result (λ job. job.zone ≡ zone) }
        ensures kind { IfOk result (λ job. job.kind ≡ kind) }
    {
        let name = JobName::new(alloc, name)?;
        Ok(JobSpec { name, zone, kind })
    }
}

/// A version of a table.
#[derive(Debug, Drop)]
pub struct VersionSpec {
    /// From this instant on it may be in force.
    pub from: Minute,
    /// The jobs in order, each of the same name in each version.
    pub jobs: Vec<JobSpec>,
}
