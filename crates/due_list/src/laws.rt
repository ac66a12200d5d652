//! Laws of due lists and of checks. Each is the contract of a function that does nothing.
ghost use Rattle.std.specs.Prelude.{◌≡◌, ◌∷◌, ◌++◌, ℕ, ℤ, List, []};
ghost use Rattle.cron_io.specs.Lines.{text_of_lines};
ghost use Rattle.due_set.specs.Table.{Table, IsJobDue, IsSound};
ghost use Rattle.run_text.specs.Reading.{IsFrameText, IsRunText};
ghost use Rattle.run_text.specs.Run.{Run};
ghost use Rattle.due_list.specs.CheckText.{AreFaultsIn, IsCheckText};
ghost use Rattle.due_list.specs.DueText.{IsDueText, due_line};

/// Each table has one due list.
pub fn a_table_has_one_due_list()
    ensures some { (table : Table) → IsSound table → (text : List ℕ) × IsDueText table text }
    ensures one { (table : Table) (a b : List ℕ) → IsDueText table a → IsDueText table b → a ≡ b }
{}

/// The due list of a table has a line for each due instant of each job in each version, with what the clock of the job's zone
/// in that version shows then.
pub fn a_due_list_has_each_due_instant()
    ensures { (table : Table) (text : List ℕ) (version job : ℕ) (instant : ℤ) → IsDueText table text
        → (due : IsJobDue table version job instant)
        → (front back : List (List ℕ)) × (text ≡ text_of_lines (front ++ due_line table job due.zone instant ∷ back)) }
{}

/// Each frame has one check.
pub fn a_frame_has_one_check()
    ensures some { (run : Run) → (text : List ℕ) × IsCheckText run text }
    ensures one { (run : Run) (a b : List ℕ) → IsCheckText run a → IsCheckText run b → a ≡ b }
{}

/// A frame whose check tells no fault is a run.
pub fn a_frame_without_a_fault_is_a_run()
    ensures { (text : List ℕ) (run : Run) → IsFrameText text run → AreFaultsIn run.sections [] → IsRunText text run }
{}
