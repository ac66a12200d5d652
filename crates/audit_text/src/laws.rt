ghost use Rattle.std.specs.Prelude.{◌≡◌, ℕ, List};
ghost use Rattle.audit_text.specs.Parts.{IsOfParts};

/// A law: an input is of one run, one report and one journal.
pub fn an_input_has_one_split()
    ensures { (input run report journal run' report' journal' : List ℕ) → IsOfParts input run report journal
        → IsOfParts input run' report' journal' → (run ≡ run') × (report ≡ report') × (journal ≡ journal') }
{}
