//! Laws of findings. Each is the contract of a function that does nothing.
ghost use Rattle.std.specs.Prelude.{◌≡◌, ◌≤◌, ℕ, List, length};
ghost use Rattle.audit_finding.specs.Finding.{AreAlike, IsFindingOf, IsRefusedToAudit};
ghost use Rattle.audit_finding.specs.declared.finding.Finding.{Finding};
ghost use Rattle.report_text.specs.Book.{IsBookReport};
ghost use Rattle.world_law.specs.Book.{BookState};
ghost use Rattle.run_text.specs.declared.refusal.Refusal.{Refusal};

/// An input of at most 67,108,864 bytes has one finding: it passes, with the turns of one book, or it fails at one line, for one fault. None
/// has one where it is refused, and it is refused for one thing.
pub fn an_input_has_one_finding()
    ensures one { (input : List ℕ) (a b : Finding) → length input ≤ 67_108_864 → IsFindingOf input a → IsFindingOf input b → AreAlike a b }
    ensures not_both { (input : List ℕ) (finding : Finding) (refusal : Refusal) → IsFindingOf input finding → IsRefusedToAudit input refusal → ⊥ }
    ensures one_refusal { (input : List ℕ) (a b : Refusal) → IsRefusedToAudit input a → IsRefusedToAudit input b → a ≡ b }
{}

/// The report of an input that passes, as it is read, is the report of its book, byte for byte: its last newline is there too.
pub fn a_report_that_passes_is_its_books()
    ensures { (input : List ℕ) (book : BookState) (found : IsFindingOf input (Finding.Passes book)) → IsBookReport found.table book found.report }
{}
