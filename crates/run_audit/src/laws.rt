//! Laws of what begins a part of a script, and of the lines that can begin a journal. Each is the contract of a function that does nothing.
ghost use Rattle.std.specs.Prelude.{◌≡◌, ◌++◌, ◌∷◌, ◌<◌, ◌≤◌, ◌^◌, [], ℕ, ℤ, List, length};
ghost use Rattle.zone_minutes.specs.Window.{IsWithinLimits};
ghost use Rattle.due_set.specs.Table.{Table};
ghost use Rattle.script_text.specs.declared.command.Command.{Command};
ghost use Rattle.history.specs.Book.{Row};
ghost use Rattle.job_table.specs.Names.{HaveWordNames};
ghost use Rattle.script_semantics.specs.Script.{IsPartOf};
ghost use Rattle.script_semantics.specs.Settling.{Walks};
ghost use Rattle.script_semantics.specs.Situation.{Situation};
ghost use Rattle.world_law.specs.Book.{BookState, StandsBehind};
ghost use Rattle.journal_text.specs.Starts.{IsBookJournal};
ghost use Rattle.run_audit.specs.Begins.{BeginsPart, BeginsWalk};
ghost use Rattle.run_audit.specs.Sound.{CanBegin, turns_of};
ghost use Rattle.run_audit.specs.Verdict.{IsAtFault, IsJournal};
ghost use Rattle.run_audit.specs.declared.verdict.Why.{Why};

/// A whole part begins with its turns, and a front of what begins a part begins it.
pub fn a_part_begins_with_its_turns()
    ensures whole { (members : ℕ) (table : Table) (command : Command) (situation : Situation) (rows : List Row) (after : Situation)
        → IsPartOf members table command situation rows after → BeginsPart members table command situation rows }
    ensures front { (members : ℕ) (table : Table) (command : Command) (situation : Situation) (rows more : List Row)
        → BeginsPart members table command situation (rows ++ more) → BeginsPart members table command situation rows }
    ensures whole_walk { (members : ℕ) (table : Table) (to : ℤ) (situation : Situation) (rows : List Row) (after : Situation)
        → Walks members table to situation rows after → BeginsWalk members table to situation rows }
    ensures front_walk { (members : ℕ) (table : Table) (to : ℤ) (situation : Situation) (rows more : List Row)
        → BeginsWalk members table to situation (rows ++ more) → BeginsWalk members table to situation rows }
{}

/// Nothing comes after a whole part: turns that go on behind it, whatever they are, begin no such part.
pub fn nothing_comes_after_a_whole_part()
    ensures part { (members : ℕ) (table : Table) (command : Command) (situation : Situation) (rows : List Row) (row : Row) (more : List Row)
        (after : Situation) → IsPartOf members table command situation rows after
        → BeginsPart members table command situation (rows ++ row ∷ more) → ⊥ }
    ensures walk { (members : ℕ) (table : Table) (to : ℤ) (situation : Situation) (rows : List Row) (row : Row) (more : List Row)
        (after : Situation) → Walks members table to situation rows after
        → BeginsWalk members table to situation (rows ++ row ∷ more) → ⊥ }
{}

/// Lines can begin a journal one by one: a front of what begins one begins one.
pub fn a_journal_is_judged_line_by_line()
    ensures { (members : ℕ) (table : Table) (script : List Command) (lines : List (List ℕ)) (line : List ℕ)
        → CanBegin members table script (lines ++ line ∷ []) → CanBegin members table script lines }
{}

/// A text has one verdict at most: it is a journal, or one of its lines is the first at fault. Where it has fewer than 2^32 bytes, it is the
/// journal of one list of turns, or the line is at fault for one reason.
pub fn a_text_has_one_verdict()
    ensures not_both { (members : ℕ) (table : Table) (script : List Command) (text : List ℕ) (rows : List Row) (number : ℕ) (why : Why)
        → IsJournal members table script text rows → IsAtFault members table script text number why → ⊥ }
    ensures line { (members : ℕ) (table : Table) (script : List Command) (text : List ℕ) (number other : ℕ) (why whether : Why)
        → IsAtFault members table script text number why → IsAtFault members table script text other whether → number ≡ other }
    ensures turns { (members : ℕ) (table : Table) (script : List Command) (text : List ℕ) (rows others : List Row) → members ≤ 7
        → IsWithinLimits table.window → length text < 2 ^ 32 → IsJournal members table script text rows → IsJournal members table script text others
        → turns_of rows ≡ turns_of others }
    ensures why { (members : ℕ) (table : Table) (script : List Command) (text : List ℕ) (number other : ℕ) (why whether : Why) → members ≤ 7
        → IsWithinLimits table.window → length text < 2 ^ 32 → IsAtFault members table script text number why
        → IsAtFault members table script text other whether → why ≡ whether }
{}

/// A text that is a journal of a run is the journal of the book whose turns it tells: whoever wrote it, it is the text that a program
/// writes of that book.
pub fn a_journal_is_that_of_its_book()
    ensures { (table : Table) (script : List Command) (book : BookState) (rows : List Row) (text : List ℕ)
        → StandsBehind table rows book → IsJournal book.members table script text rows → IsBookJournal table script book text }
{}

/// The journal that a program writes of a book is a journal of its script, in a table whose jobs' names are words: an audit that says so of
/// just the journals says it of just the texts that are written.
pub fn the_journal_of_a_book_is_a_journal()
    ensures { (table : Table) (script : List Command) (book : BookState) (text : List ℕ) → HaveWordNames table.jobs
        → IsBookJournal table script book text → (rows : List Row) × StandsBehind table rows book × IsJournal book.members table script text rows }
{}
