//! The runs that are measured, as run files, in which one replica is named so far. Each has 10,000 launches.
use crate::fault::BenchFault;
use due_set::JobTable;
use job_table::build_table;
use run_text::read_run;
use std::alloc::{AllocError, Global};

/// A run of one job, which is due in each of 10,000 minutes.
pub fn one_job(alloc: Global) -> Result<String, AllocError> {
    String::from_str(
        alloc,
        "cronrun 1\nreplicas 1\nwindow 2024-01-01T00:00Z 2024-01-07T22:40Z\ngrace 60\n\
         crontab bench UTC 1\n* * * * * job\nscript\nend\n",
    )
}

/// A run of 1,000 jobs, each of which is due in each of ten hours.
pub fn many_jobs(alloc: Global) -> Result<String, AllocError> {
    let mut run = String::from_str(
        alloc,
        "cronrun 1\nreplicas 1\nwindow 2024-01-01T00:00Z 2024-01-01T10:00Z\ngrace 60\n\
         crontab bench UTC 1000\n",
    )?;
    for job in 0..1_000_u32 {
        let minute = job % 60;
        writeln!(run, "{minute} * * * * job {job}")?;
    }
    run.push_str("script\nend\n")?;
    Ok(run)
}

/// The table of a run's jobs.
pub fn table_of(alloc: Global, text: &str) -> Result<JobTable, BenchFault> {
    if text.len() >= 1 << 32 {
        return Err(BenchFault::NoTable);
    }
    let Ok(run) = read_run(alloc, text) else {
        return Err(BenchFault::NoTable);
    };
    match build_table(alloc, &run) {
        Ok(table) => Ok(table),
        Err(_) => Err(BenchFault::NoTable),
    }
}
