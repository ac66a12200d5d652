//! The runs that seeds make.
use crate::rows::short;
use cron_fields::{FNV_START, fnv};
use due_set::JobTable;
use generated_run::{a_made_text_is_a_run, each_made_run_has_a_table, make_run};
use job_table::build_table;
use run_text::read_run;
use std::test::Fail;

// Seeds, and of each made text the length in bytes and the FNV-1a hash of 64 bits, by Python.
const TEXTS: [(u32, usize, u64); 3] = [
    (0, 6361, 0x2096_5c1f_4970_3ca7),
    (7, 6365, 0xb0fa_62e2_f8a0_b8b4),
    (4_294_967_295, 6349, 0xe672_0059_4f94_6712),
];

#[test]
fn made_texts(rt: HostRuntime) -> Result<(), Fail> {
    for (seed, length, hash) in TEXTS {
        let text = make_run(rt.alloc(), seed)?;
        assert_eq!(rt; text.len(), length, "{seed}");
        assert_eq!(rt; fnv(FNV_START, text.as_bytes()), hash, "{seed}");
    }
    Ok(())
}

const HEAD: &str =
    "cronrun 1\nreplicas 3\nwindow 2024-03-01T00:00Z 2024-03-11T00:00Z\ngrace 14400\ncrontab make UTC 200\n\
    38 * * * * hourly 1\n11 * * * * hourly 2\n";

#[test]
fn the_lines_of_a_made_text(rt: HostRuntime) -> Result<(), Fail> {
    let text = make_run(rt.alloc(), 7)?;
    assert!(rt; text.starts_with(HEAD));
    assert!(rt; text.ends_with("\nrestart 2\nend\n"));
    assert_eq!(rt; text.lines().count(), 348);
    Ok(())
}

// How often the jobs are due, all together.
fn total_due(table: &JobTable) -> u32 {
    let mut total: u32 = 0;
    for job in 0..table.jobs() {
        total = total.saturating_add(table.count_due(0, job));
    }
    total
}

fn name_of(table: &JobTable, job: u32) -> Result<&str, Fail> {
    if job < table.jobs() {
        Ok(table.name(job))
    } else {
        Err(Fail::from("no such job"))
    }
}

// From the least to the greatest.
const SEEDS: &[u32] = &[0, 1, 7, 2_147_483_648, 4_294_967_295];

// 40 jobs are due in each of 240 hours, and 160 on each of ten days, whatever the seed.
#[test]
fn each_made_run_has_as_many_due_instants(rt: HostRuntime) -> Result<(), Fail> {
    for seed in SEEDS {
        let text = make_run(rt.alloc(), *seed)?;
        a_made_text_is_a_run();
        let run = read_run(rt.alloc(), short(&text)?)?;
        each_made_run_has_a_table();
        let table = build_table(rt.alloc(), &run)?;
        assert_eq!(rt; table.jobs(), 200);
        assert_eq!(rt; name_of(&table, 0)?, "make:1");
        assert_eq!(rt; name_of(&table, 199)?, "make:200");
        assert_eq!(rt; total_due(&table), 11_200);
    }
    Ok(())
}
