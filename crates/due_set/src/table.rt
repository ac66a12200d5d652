ghost use Rattle.std.specs.Prelude.{◌≡◌, ◌<◌, ◌≤◌, ◌↔◌, ℤ, [], ◌∷◌, length, map, All, IsTrue, IsSomeAnd, IfSome, IfNone, IfOk, slice_get, Some};
ghost use Rattle.jiff.specs.Types.{TimeZone};
ghost use Rattle.zone_minutes.specs.Civil.{IsCalendarMinute};
ghost use Rattle.zone_minutes.specs.Window.{IsInWindow, IsWithinLimits};
ghost use Rattle.zone_minutes.specs.Zone.{local_of};
ghost use Rattle.due_set.specs.Anacron.{IsFirstOpening, IsJobOpen};
ghost use Rattle.due_set.specs.Calls.{HasCome, IsOnTime};
ghost use Rattle.due_set.specs.Table.{Job, Table, job_of, instant_of, IsAfter, IsBuiltFor, IsJobDue, IsJobIn, IsJobRead, IsNextDue, IsShare, IsSound, AreKindsOfNames, AreNamesDistinct, AreZonesBelow, BeginsWithWindow, days_counted, is_by_period, is_period_name, job_of_version, jobs_in, table_of_versions, utc_over, version_count, version_from, version_of};

use crate::anacron::{Opening, first_opening, open_date};
use crate::call::{Kind2, has_come, is_on_time, local_at};
use crate::job::{JobKind, JobSpec, VersionSpec};
use crate::{due, scan};
use cron_io::OutOfMemory;
use std::alloc::Global;
use std::marker::Model;
use zone_minutes::{Minute, Window, ZoneFault, ZoneRuns, ZoneSource};

// UTC, over the window.
fn build_utc(alloc: Global, window: Window) -> Result<ZoneRuns, OutOfMemory>
    requires { IsWithinLimits window }
    ensures zone { IfOk result (λ zone. zone ≡ utc_over window) }
    ensures built { IfOk result (IsBuiltFor window) }
{
    match ZoneRuns::build(alloc, &ZoneSource::Fixed { minutes: 0 }, window) {
        Ok(zone) => Ok(zone),
        Err(ZoneFault::OutOfMemory) => Err(OutOfMemory),
        // A fixed offset is never refused.
        Err(ZoneFault::BadZone) => unreachable!(),
    }
}

// How many days a job that runs by its period counts as.
fn days_counted(window: Window) -> u32
    requires { IsWithinLimits window }
    ensures { result ≡ days_counted window }
{
    (window.until.0 - window.from.0) as u32 / 1440 + 3
}

// Whether a name is that of a job that runs by its period.
fn is_period_name(name: &str) -> bool
    ensures { result ≡ is_period_name name.now }
{
    name.as_bytes().contains(&b'/')
}

/// The jobs of a run, their zones and its window. Jobs are numbered from 0.
#[derive(Debug, Drop)]
pub struct JobTable {
    window: Window,
    /// Minutes.
    grace: u32,
    zones: Vec<ZoneRuns>,
    /// As the first version has them.
    jobs: Vec<JobSpec>,
    /// The versions after the first.
    later: Vec<VersionSpec>,
}

impl Model for JobTable {
    ghost use Rattle.std.specs.Prelude.{map};
    ghost use Rattle.due_set.specs.Table.{Table, job_of, version_of, IsSound};

    ghost Value = { Table };

    ghost view = { λ table. record {
      window = table.window;
      grace = table.grace;
      zones = table.zones.items;
      jobs = map job_of table.jobs.items;
      later = map version_of table.later.items;
    } };

    ghost invariant = { λ table. IsSound (record {
      window = table.window;
      grace = table.grace;
      zones = table.zones.items;
      jobs = map job_of table.jobs.items;
      later = map version_of table.later.items;
    }) };
}

impl JobTable {
    /// The table of a window, minutes of grace, zones that were built for the window, and jobs.
    pub fn assemble(
        window: Window,
        grace: u32,
        zones: Vec<ZoneRuns>,
        jobs: Vec<JobSpec>,
    ) -> JobTable
        requires limits { IsWithinLimits window }
        requires grace { grace ≤ 525_600 }
        requires built { All (IsBuiltFor window) zones.items }
        requires zone_numbers { AreZonesBelow (length zones.items) (map job_of jobs.items) }
        requires few { length jobs.items ≤ 1000 }
        requires distinct { AreNamesDistinct (map job_of jobs.items) }
        requires kinds { AreKindsOfNames (map job_of jobs.items) }
        ensures table { result
            ≡ record { window = window; grace = grace; zones = zones.items; jobs = map job_of jobs.items; later = [] } }
        ensures sound { IsSound result }
    {
        let later = Vec::new(*zones.allocator());
        JobTable {
            window,
            grace,
            zones,
            jobs,
            later,
        }
    }

    /// The table of a window, minutes of grace, zones that were built for the window, and versions.
    pub fn assemble_versions(
        window: Window,
        grace: u32,
        zones: Vec<ZoneRuns>,
        versions: Vec<VersionSpec>,
    ) -> JobTable
        requires first { BeginsWithWindow window (map version_of versions.items) }
        requires sound { IsSound (table_of_versions window grace zones.items (map version_of versions.items)) }
        ensures table { result ≡ table_of_versions window grace zones.items (map version_of versions.items) }
        ensures sound { IsSound result }
    {
        let mut later = versions;
        let first = later.remove(0);
        JobTable {
            window,
            grace,
            zones,
            jobs: first.jobs,
            later,
        }
    }

    /// The table of a window, minutes of grace, and jobs that all run by UTC. Only memory can be wanting.
    pub fn in_utc(
        alloc: Global,
        window: Window,
        grace: u32,
        jobs: Vec<JobSpec>,
    ) -> Result<JobTable, OutOfMemory>
        requires limits { IsWithinLimits window }
        requires grace { grace ≤ 525_600 }
        requires zone_numbers { AreZonesBelow 1 (map job_of jobs.items) }
        requires few { length jobs.items ≤ 1000 }
        requires distinct { AreNamesDistinct (map job_of jobs.items) }
        requires kinds { AreKindsOfNames (map job_of jobs.items) }
        ensures table { IfOk result (λ table. table ≡ record {
          window = window;
          grace = grace;
          zones = utc_over window ∷ [];
          jobs = map job_of jobs.items;
          later = [];
        }) }
        ensures sound { IfOk result IsSound }
    {
        let mut zones = Vec::new(alloc);
        zones.push(build_utc(alloc, window)?)?;
        Ok(JobTable::assemble(window, grace, zones, jobs))
    }

    /// How many jobs the table has.
    pub fn jobs(&self) -> u32
        ensures count { result ≡ length self.now.jobs }
        ensures few { result ≤ 1000 }
        ensures sound { IsSound self.now }
    {
        self.jobs.len() as u32
    }

    /// The job's name.
    pub fn name(&self, job: u32) -> &str
        requires { job < length self.now.jobs }
        ensures name { IsSomeAnd (slice_get self.now.jobs job) (λ j. result.now ≡ j.name) }
        ensures sound { IsSound self.now }
    {
        self.spec(0, job).name.as_str()
    }

    /// When the job runs in a version.
    pub fn kind(&self, version: u32, job: u32) -> &JobKind
        requires version { version < version_count self.now }
        requires job { job < length self.now.jobs }
        ensures kind { IsSomeAnd (job_of_version self.now version job) (λ j. result.now ≡ j.kind) }
        ensures sound { IsSound self.now }
    {
        &self.spec(version, job).kind
    }

    /// The instants that the table is about.
    pub fn window(&self) -> Window
        ensures window { result ≡ self.now.window }
        ensures limits { IsWithinLimits result }
        ensures sound { IsSound self.now }
    {
        self.window
    }

    /// How many minutes late a launch may be.
    pub fn grace(&self) -> u32
        ensures grace { result ≡ self.now.grace }
        ensures year { result ≤ 525_600 }
    {
        self.grace
    }

    /// The job runs by its period, in each version that has it: its name has a `/`.
    pub fn is_anacron(&self, job: u32) -> bool
        requires { job < length self.now.jobs }
        ensures by_name { result ≡ is_by_period self.now job }
        ensures sound { IsSound self.now }
    {
        match self.spec(0, job).kind {
            JobKind::Anacron { .. } => true,
            JobKind::Crontab { .. } => false,
            JobKind::Never => is_period_name(self.name(job)),
        }
    }

    /// How many versions of the table there are.
    pub fn versions(&self) -> u32
        ensures count { result ≡ version_count self.now }
        ensures some { 0 < result }
        ensures few { result ≤ 8 }
    {
        self.later.len() as u32 + 1
    }

    /// The instant from which on a version may be in force; of the first one, the window's first.
    pub fn version_from(&self, version: u32) -> Minute
        requires { version < version_count self.now }
        ensures from { result.0 ≡ version_from self.now version }
        ensures inside { IsInWindow self.now.window result.0 }
        ensures sound { IsSound self.now }
    {
        if version == 0 {
            self.window.from
        } else {
            self.later_version(version as usize - 1).from
        }
    }

    /// The job is an entry of a crontab, and is due at the instant.
    pub fn is_due(&self, version: u32, job: u32, t: Minute) -> bool
        requires version { version < version_count self.now }
        requires job { job < length self.now.jobs }
        requires inside { IsInWindow self.now.window t.0 }
        ensures due { IsTrue result ↔ IsJobDue self.now version job t.0 }
        ensures sound { IsSound self.now }
    {
        let spec = self.spec(version, job);
        match spec.kind {
            JobKind::Crontab { fields } => due::is_due(&fields, self.zone(spec.zone), t),
            JobKind::Anacron { .. } | JobKind::Never => false,
        }
    }

    /// The job's first due instant after another, or of all.
    pub fn next_due(&self, version: u32, job: u32, after: Option<Minute>) -> Option<Minute>
        requires version { version < version_count self.now }
        requires job { job < length self.now.jobs }
        ensures found { IfSome result (λ t. IsNextDue self.now version job (instant_of after) t.0) }
        ensures none { IfNone result ((t : ℤ) → IsJobDue self.now version job t → IsAfter (instant_of after) t → ⊥) }
        ensures sound { IsSound self.now }
    {
        let spec = self.spec(version, job);
        match spec.kind {
            JobKind::Crontab { fields } => {
                let window = self.window();
                let first = scan::first_minute(window, after);
                scan::next_due(&fields, self.zone(spec.zone), first, window)
            }
            JobKind::Anacron { .. } | JobKind::Never => None,
        }
    }

    /// How much the job takes of the limit on due instants: as many as it has in the window; one that runs by its period
    /// takes the days of the window, and three more.
    pub fn count_due(&self, version: u32, job: u32) -> u32
        requires version { version < version_count self.now }
        requires job { job < length self.now.jobs }
        ensures share { IsSomeAnd (job_of_version self.now version job) (λ j. IsShare self.now version job j.kind result) }
        ensures sound { IsSound self.now }
    {
        let spec = self.spec(version, job);
        match spec.kind {
            JobKind::Crontab { fields } => {
                scan::count_due(&fields, self.zone(spec.zone), self.window())
            }
            JobKind::Anacron { .. } => days_counted(self.window()),
            JobKind::Never => 0,
        }
    }

    /// The date on which the job may open at an instant of the window, by the date of its last launch and the date last
    /// opened, if it runs by its period.
    pub fn anacron_open(
        &self,
        version: u32,
        job: u32,
        last: Option<i64>,
        cursor: Option<i64>,
        now: Minute,
    ) -> Option<i64>
        requires version { version < version_count self.now }
        requires job { job < length self.now.jobs }
        requires inside { IsInWindow self.now.window now.0 }
        ensures found { IfSome result (IsJobOpen self.now version job last cursor now.0) }
        ensures none { IfNone result ((date : ℤ) → IsJobOpen self.now version job last cursor now.0 date → ⊥) }
        ensures sound { IsSound self.now }
    {
        let spec = self.spec(version, job);
        let opening = Opening::of(&spec.kind, last, cursor)?;
        open_date(&opening, self.zone(spec.zone), now)
    }

    /// The first instant of the window at which the job may open, by these dates.
    pub fn first_opening(
        &self,
        version: u32,
        job: u32,
        last: Option<i64>,
        cursor: Option<i64>,
    ) -> Option<Minute>
        requires version { version < version_count self.now }
        requires job { job < length self.now.jobs }
        ensures found { IfSome result (λ t. IsFirstOpening self.now version job last cursor t.0) }
        ensures none { IfNone result ((now date : ℤ) → IsJobOpen self.now version job last cursor now date → ⊥) }
        ensures sound { IsSound self.now }
    {
        let spec = self.spec(version, job);
        let opening = Opening::of(&spec.kind, last, cursor)?;
        first_opening(&opening, self.zone(spec.zone), self.window())
    }

    /// The local time that the clock of the job's zone shows at an instant of the window, in minutes since 1970-01-01T00:00.
    pub fn local_of(&self, version: u32, job: u32, t: Minute) -> i64
        requires version { version < version_count self.now }
        requires job { job < length self.now.jobs }
        requires inside { IsInWindow self.now.window t.0 }
        ensures local { (j : Job) (zone : TimeZone) → IsJobIn self.now version job j zone → result ≡ local_of zone t.0 }
        ensures read { IsJobRead self.now version job }
        ensures calendar { IsCalendarMinute result }
        ensures sound { IsSound self.now }
    {
        let spec = self.spec(version, job);
        local_at(self.zone(spec.zone), t)
    }

    /// Whether the job's launch of the instant has come; of an anacron job, whether its date has.
    pub fn may_call(&self, version: u32, job: u32, at: i64, now: Minute) -> bool
        requires version { version < version_count self.now }
        requires job { job < length self.now.jobs }
        requires inside { IsInWindow self.now.window now.0 }
        ensures come { (j : Job) (zone : TimeZone) → IsJobIn self.now version job j zone
            → (IsTrue result ↔ HasCome j.kind zone at now.0) }
        ensures read { IsJobRead self.now version job }
        ensures sound { IsSound self.now }
    {
        let spec = self.spec(version, job);
        has_come(&spec.kind, self.zone(spec.zone), at, now)
    }

    /// What comes of the job's launch of the instant, if it is called now.
    pub fn call_kind(&self, version: u32, job: u32, at: i64, now: Minute) -> Kind2
        requires version { version < version_count self.now }
        requires job { job < length self.now.jobs }
        requires inside { IsInWindow self.now.window now.0 }
        ensures kind { (j : Job) (zone : TimeZone) → IsJobIn self.now version job j zone
            → ((result ≡ Kind2.OnTime) ↔ IsOnTime j.kind zone self.now.grace at now.0) }
        ensures read { IsJobRead self.now version job }
        ensures sound { IsSound self.now }
    {
        let spec = self.spec(version, job);
        if is_on_time(&spec.kind, self.zone(spec.zone), self.grace, at, now) {
            Kind2::OnTime
        } else {
            Kind2::Late
        }
    }

    // A version after the first.
    fn later_version(&self, place: usize) -> &VersionSpec
        requires { place < length self.now.later }
        ensures version { slice_get self.now.later place ≡ Some (version_of result.now) }
        ensures sound { IsSound self.now }
    {
        &self.later[place]
    }

    // The jobs in order, as a version has them.
    fn jobs_in(&self, version: u32) -> &[JobSpec]
        requires { version < version_count self.now }
        ensures jobs { map job_of result.now ≡ jobs_in self.now version }
        ensures count { length result.now ≡ length self.now.jobs }
        ensures sound { IsSound self.now }
    {
        if version == 0 {
            &self.jobs
        } else {
            &self.later_version(version as usize - 1).jobs
        }
    }

    // The job of a number, as a version has it.
    fn spec(&self, version: u32, job: u32) -> &JobSpec
        requires version { version < version_count self.now }
        requires job { job < length self.now.jobs }
        ensures spec { job_of_version self.now version job ≡ Some (job_of result.now) }
        ensures zone { result.now.zone < length self.now.zones }
        ensures sound { IsSound self.now }
    {
        &self.jobs_in(version)[job as usize]
    }

    // The zone of a number.
    fn zone(&self, number: u16) -> &ZoneRuns
        requires { number < length self.now.zones }
        ensures zone { slice_get self.now.zones number ≡ Some result.now }
        ensures built { IsBuiltFor self.now.window result.now }
        ensures limits { IsWithinLimits self.now.window }
    {
        &self.zones[usize::from(number)]
    }
}
