//! The jobs of each version of a run's table, under the names of all.
ghost use Rattle.std.specs.Prelude.{◌≡◌, ◌≤◌, ◌++◌, ◌∷◌, length, map, flat_map, zip, IfOk, OnOk};
ghost use Rattle.due_set.specs.Table.{AreNamesDistinct, own_name, version_of};
ghost use Rattle.run_text.specs.Run.{run_of};
ghost use Rattle.job_table.specs.Versions.{jobs_under, job_names, version_froms, version_under};

use crate::jobs::Jobs;
use cron_io::OutOfMemory;
use due_set::VersionSpec;
use run_text::RunFile;
use std::alloc::Global;

/// Adds to the jobs of the first version one that never runs for each name of later versions that they lack.
pub fn add_names(alloc: Global, first: &mut Jobs, later: &[Jobs]) -> Result<(), OutOfMemory>
    requires { AreNamesDistinct first.old }
    ensures { OnOk result (first.new ≡ jobs_under (job_names (first.old ++ flat_map (λ jobs. jobs) later.now)) first.old) }
{
    for jobs in later {
        add_names_of(alloc, first, jobs)?;
    }
    Ok(())
}

// Adds a job that never runs for each name of these jobs that the first version lacks.
fn add_names_of(alloc: Global, first: &mut Jobs, jobs: &Jobs) -> Result<(), OutOfMemory>
    requires { AreNamesDistinct first.old }
    ensures { OnOk result (first.new ≡ jobs_under (job_names (first.old ++ jobs.now)) first.old) }
{
    for place in 0..jobs.len() {
        first.add_name(alloc, jobs.name(place))?;
    }
    Ok(())
}

/// The versions of a run's table, by the jobs of the first one under all names, and those of each later one under its own.
pub fn specs_of_versions(
    alloc: Global,
    run: &RunFile<'_>,
    first: &Jobs,
    later: &[Jobs],
) -> Result<Vec<VersionSpec>, OutOfMemory>
    requires { length later.now ≤ length run.now.versions.items }
    ensures { IfOk result (λ versions. map version_of versions.items
        ≡ map (version_under (map own_name first.now)) (zip (version_froms (run_of run.now)) (first.now ∷ later.now))) }
{
    let mut versions = Vec::new(alloc);
    versions.push(VersionSpec {
        from: run.window.from,
        jobs: first.specs(alloc)?,
    })?;
    for place in 0..later.len() {
        versions.push(VersionSpec {
            from: run.versions[place].from,
            jobs: later[place].specs_under(alloc, first)?,
        })?;
    }
    Ok(versions)
}
