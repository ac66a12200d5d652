//! Laws of lines. Each is the contract of a function that does nothing.
ghost use Rattle.std.specs.Prelude.{◌≡◌, ◌<◌, ◌^◌, ℕ, List, decimal};
ghost use Rattle.journal_line.specs.Count.{IsCountText, IsDecimal};
ghost use Rattle.journal_line.specs.InRange.{IsLineInRange};
ghost use Rattle.journal_line.specs.Line.{IsJournalLine};
ghost use Rattle.journal_line.specs.Told.{ToldLine};
ghost use Rattle.journal_line.specs.declared.line.Count.{Count};
ghost use Rattle.journal_line.specs.declared.line.Count.TheVariants.{Number};

/// A line has one reading: no text is a line of a journal in two ways.
pub fn a_line_has_one_reading()
    ensures { (line : List ℕ) (a b : ToldLine) → IsJournalLine a line → IsJournalLine b line → a ≡ b }
{}

/// Each form has a line, whatever its numbers, existing minutes and names are; and what a line tells is of these.
pub fn each_form_has_a_line()
    ensures there { (told : ToldLine) → IsLineInRange told → (line : List ℕ) × IsJournalLine told line }
    ensures only { (told : ToldLine) (line : List ℕ) → IsJournalLine told line → IsLineInRange told }
{}

/// A number below 2^64 has one text, which is what `{}` writes of it; and each text in decimal says a number.
pub fn a_number_has_one_text()
    ensures written { (n : ℕ) → n < 2 ^ 64 → IsCountText (Number n) (decimal n) }
    ensures only { (n : ℕ) (text : List ℕ) → IsCountText (Number n) text → text ≡ decimal n }
    ensures some { (text : List ℕ) → IsDecimal text → (count : Count) × IsCountText count text }
{}
