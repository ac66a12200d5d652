ghost use Rattle.std.specs.Prelude.{◌≡◌, ◌<◌, ◌++◌, ◌∷◌, [], map, length, slice_get, string_bytes, Ok, IfOk, IfErr, OnOk, IsSomeAnd};
ghost use Rattle.due_set.specs.Table.{Job, job_of, own_name, AreNamesDistinct};
ghost use Rattle.run_text.specs.Steps.{IfRefused};
ghost use Rattle.job_table.specs.Jobs.{named_job, entry_job, Adds, HasJob};
ghost use Rattle.job_table.specs.Table.{at_line};
ghost use Rattle.job_table.specs.Versions.{job_named, jobs_under, with_name};

use cron_fields::Cause;
use cron_io::OutOfMemory;
use due_set::{JobKind, JobSpec};
use indexmap::IndexMap;
use run_text::{Refusal, RunFault};
use std::alloc::Global;
use std::marker::Model;

/// When a job runs, and by which zone.
#[derive(Clone, Copy, Debug, PartialEq, Eq)]
pub struct Timing {
    /// The number of its zone in the table, from 0.
    pub zone: u16,
    pub kind: JobKind,
}

// A job that a version lacks: by UTC, at no time.
const NEVER: Timing = Timing {
    zone: 0,
    kind: JobKind::Never,
};

/// The jobs so far, each under its name, in the order in which they came.
#[derive(Debug, Drop)]
pub struct Jobs {
    timings: IndexMap<String, Timing>,
}

impl Model for Jobs {
    ghost use Rattle.std.specs.Prelude.{List, map};
    ghost use Rattle.due_set.specs.Table.{Job, AreNamesDistinct};
    ghost use Rattle.job_table.specs.Jobs.{entry_job};

    ghost Value = { List Job };

    ghost view = { λ jobs. map entry_job jobs.timings.entries };

    ghost invariant = { λ jobs. AreNamesDistinct (map entry_job jobs.timings.entries) };
}

impl Jobs {
    /// No jobs.
    pub fn new(alloc: Global) -> Jobs
        ensures { result ≡ [] }
    {
        Jobs {
            timings: IndexMap::new(alloc),
        }
    }

    /// How many jobs there are.
    pub fn len(&self) -> usize
        ensures { result ≡ length self.now }
    {
        self.timings.len()
    }

    /// Adds a job, and tells whether it is there. A job whose name is there already isn't added.
    pub fn add(&mut self, name: String, timing: Timing) -> Result<bool, OutOfMemory>
        ensures { IfOk result (Adds self.old self.new (named_job (string_bytes name) timing.zone timing.kind)) }
    {
        if self.timings.contains_key(name.as_str()) {
            return Ok(false);
        }
        self.timings.insert(name, timing)?;
        Ok(true)
    }

    /// The name of the job at a place.
    pub fn name(&self, place: usize) -> &str
        requires { place < length self.now }
        ensures { IsSomeAnd (slice_get self.now place) (λ job. result.now ≡ job.name) }
    {
        let (name, _) = self.timings.get_index(place).unwrap();
        name.as_str()
    }

    /// When the job of a name runs, and by which zone; at no time, where there is none.
    pub fn timing(&self, name: &str) -> Timing
        ensures { named_job name.now result.zone result.kind ≡ job_named name.now self.now }
    {
        match self.timings.get(name) {
            Some(timing) => *timing,
            None => NEVER,
        }
    }

    /// Adds a job of the name that never runs, where there is none.
    pub fn add_name(&mut self, alloc: Global, name: &str) -> Result<(), OutOfMemory>
        ensures { OnOk result (self.new ≡ jobs_under (with_name (map own_name self.old) name.now) self.old) }
    {
        if !self.timings.contains_key(name) {
            self.timings.insert(String::from_str(alloc, name)?, NEVER)?;
        }
        Ok(())
    }

    /// The jobs under these names, as those of a table.
    pub fn specs_under(&self, alloc: Global, names: &Jobs) -> Result<Vec<JobSpec>, OutOfMemory>
        ensures { IfOk result (λ specs. map job_of specs.items ≡ jobs_under (map own_name names.now) self.now) }
    {
        let mut specs = Vec::new(alloc);
        for place in 0..names.len() {
            let name = names.name(place);
            let timing = self.timing(name);
            specs.push(JobSpec::new(alloc, name, timing.zone, timing.kind)?)?;
        }
        Ok(specs)
    }

    /// The jobs as those of a table.
    pub fn specs(&self, alloc: Global) -> Result<Vec<JobSpec>, OutOfMemory>
        ensures specs { IfOk result (λ specs. map job_of specs.items ≡ self.now) }
        ensures distinct { AreNamesDistinct self.now }
    {
        specs_of(alloc, &self.timings)
    }
}

// The jobs of a map as those of a table.
fn specs_of(alloc: Global, timings: &IndexMap<String, Timing>) -> Result<Vec<JobSpec>, OutOfMemory>
    ensures { IfOk result (λ specs. map job_of specs.items ≡ map entry_job timings.now.entries) }
{
    let mut specs = Vec::new(alloc);
    for place in 0..timings.len() {
        let (name, timing) = timings.get_index(place).unwrap();
        specs.push(JobSpec::new(alloc, name.as_str(), timing.zone, timing.kind)?)?;
    }
    Ok(specs)
}

/// Adds a job, whose name must be new.
///
/// # Errors
///
/// A job of the name is there, which is the line's fault; or want of memory.
pub fn add_job(jobs: &mut Jobs, name: String, timing: Timing, line: u32) -> Result<(), RunFault>
    ensures added { OnOk result (jobs.new ≡ jobs.old ++ named_job (string_bytes name) timing.zone timing.kind ∷ []) }
    ensures new { OnOk result (HasJob (string_bytes name) jobs.old → ⊥) }
    ensures refused { IfErr result (λ fault. IfRefused fault (λ refusal.
        HasJob (string_bytes name) jobs.old × (refusal ≡ at_line line Cause.DuplicateJob))) }
{
    if jobs.add(name, timing)? {
        Ok(())
    } else {
        Err(RunFault::Refused(Refusal::of_line(line, Cause::DuplicateJob)))
    }
}
