ghost use Rattle.std.specs.Prelude.{◌≡◌, ◌⊎◌, ℕ, List};
ghost use Rattle.due_set.specs.Table.{Table};
ghost use Rattle.run_text.specs.Reading.{IsRunText};
ghost use Rattle.run_text.specs.Run.{Run};
ghost use Rattle.run_text.specs.declared.refusal.Refusal.{Refusal};
ghost use Rattle.job_table.specs.Names.{HaveWordNames};
ghost use Rattle.job_table.specs.Table.{AreDecided, IsTableOf, IsRefusedRun};

/// A law: the run of a text whose zones `jiff` reads or refuses has one table or one refusal, and never both.
pub fn a_run_has_one_verdict()
    ensures some { (text : List ℕ) (run : Run) → IsRunText text run → AreDecided run.zones
        → ((table : Table) × IsTableOf run table) ⊎ ((refusal : Refusal) × IsRefusedRun run refusal) }
    ensures one_table { (run : Run) (a b : Table) → IsTableOf run a → IsTableOf run b → a ≡ b }
    ensures one_refusal { (run : Run) (a b : Refusal) → IsRefusedRun run a → IsRefusedRun run b → a ≡ b }
    ensures not_both { (run : Run) (table : Table) (refusal : Refusal) → IsTableOf run table → IsRefusedRun run refusal → ⊥ }
{}

/// A law: each job of a run's table has one word for its name, without a blank and without a newline.
pub fn each_job_has_a_word_for_its_name()
    ensures { (text : List ℕ) (run : Run) (table : Table) → IsRunText text run → IsTableOf run table → HaveWordNames table.jobs }
{}
