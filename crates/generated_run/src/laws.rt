//! Laws of made runs. Each is the contract of a function that does nothing.
ghost use Rattle.std.specs.Prelude.{◌≤◌, ℕ, length};
ghost use Rattle.crontab_text.specs.Lines.{Lacks};
ghost use Rattle.due_set.specs.Table.{Table};
ghost use Rattle.job_table.specs.Table.{IsTableOf};
ghost use Rattle.run_text.specs.Reading.{IsRunText};
ghost use Rattle.generated_run.specs.Made.{made_run, made_text};

/// The text that a seed makes is that of its run, short enough to be read, and has no 0 byte.
pub fn a_made_text_is_a_run()
    ensures says { (seed : ℕ) → IsRunText (made_text seed) (made_run seed) }
    ensures short { (seed : ℕ) → length (made_text seed) ≤ 1_048_576 }
    ensures no_zero { (seed : ℕ) → Lacks 0 (made_text seed) }
{}

/// The tables of a made run are taken: there is a table of its jobs.
pub fn each_made_run_has_a_table()
    ensures { (seed : ℕ) → (table : Table) × IsTableOf (made_run seed) table }
{}
