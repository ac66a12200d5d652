//! Laws of journals and summaries. Each is the contract of a function that does nothing.
ghost use Rattle.std.specs.Prelude.{◌≡◌, ◌≤◌, ◌<◌, ◌+◌, ◌^◌, ℕ, suc, All, List, None, Some, get_or, length, map, pos, slice_get, take, ◌-ℤ◌};
ghost use Rattle.std.specs.List.{enumerate_from, flat_map, range_with_len};
ghost use Rattle.due_set.specs.Table.{Table};
ghost use Rattle.zone_minutes.specs.Window.{IsWithinLimits};
ghost use Rattle.cluster_sched.specs.declared.row.SchedRow.{SchedRow};
ghost use Rattle.paxos_base.specs.declared.entry.Kind.TheVariants.{Launch, Void};
ghost use Rattle.script_text.specs.declared.command.Command.{Command};
ghost use Rattle.history.specs.Book.{Row, Standing};
ghost use Rattle.history.specs.declared.turn.Turn.{Turn};
ghost use Rattle.script_semantics.specs.Script.{ArePartsOf, IsPartOf, Obeys};
ghost use Rattle.script_semantics.specs.Settling.{Walks};
ghost use Rattle.script_semantics.specs.Situation.{Situation, first_situation};
ghost use Rattle.world_law.specs.Book.{BookState, StandsBehind};
ghost use Rattle.journal_line.specs.Line.{IsJournalLine};
ghost use Rattle.journal_line.specs.Told.{ToldLine};
ghost use Rattle.journal_text.specs.Line.{HasUnblankNames, Tells, told_head};
ghost use Rattle.journal_text.specs.Journal.{journal_text, part_head, part_turns, turn_line, turn_words};
ghost use Rattle.journal_text.specs.Starts.{IsBookJournal, part_rows};
ghost use Rattle.script_semantics.specs.Starts.{AreStarts, BeginAt};
ghost use Rattle.history.specs.Legal.{IsLegal, MayFollow};
ghost use Rattle.journal_text.specs.Summary.{IsBookSummary, summary_text, total_of};
ghost use Rattle.journal_text.specs.Told.{HasNumbers};

/// The turns of a journal's parts, one after another, are all turns, each once, in order and by its number.
pub fn a_journal_has_each_turn_once()
    ensures { (turns : List Turn) (starts : List ℕ) → AreStarts (length turns) starts
        → flat_map (part_turns turns starts) (range_with_len 0 (length starts)) ≡ enumerate_from 0 turns }
{}

/// Where turns obey a script, there is one list of numbers at which its parts begin. The first is 0, none lies before the
/// one in front of it, and none behind the last turn.
pub fn a_script_begins_its_parts_once()
    ensures there { (members : ℕ) (table : Table) (script : List Command) (rows : List Row) → Obeys members table script rows
        → (starts : List ℕ) × BeginAt members table script rows starts }
    ensures one { (members : ℕ) (table : Table) (script : List Command) (rows : List Row) (a b : List ℕ)
        → BeginAt members table script rows a → BeginAt members table script rows b → a ≡ b }
    ensures starts { (members : ℕ) (table : Table) (script : List Command) (rows : List Row) (starts : List ℕ)
        → BeginAt members table script rows starts → AreStarts (length rows) starts }
{}

/// The turns between a command's start and the next one are that command's, from where the parts of the commands before it end. Those
/// from the last start on are the walk's to the window's last minute. They are what a journal tells there.
pub fn a_part_has_its_commands_turns()
    ensures commands { (members : ℕ) (table : Table) (script : List Command) (rows : List Row) (starts : List ℕ) (place : ℕ)
        (command : Command) → BeginAt members table script rows starts → slice_get script place ≡ Some command
        → (before after : Situation)
        × ArePartsOf members table (take place script) (first_situation members table) (take (get_or starts place 0) rows) before
        × IsPartOf members table command before (part_rows rows starts place) after }
    ensures walk { (members : ℕ) (table : Table) (script : List Command) (rows : List Row) (starts : List ℕ)
        → BeginAt members table script rows starts
        → (before after : Situation)
        × ArePartsOf members table script (first_situation members table) (take (get_or starts (length script) 0) rows) before
        × Walks members table (table.window.until.0 -ℤ pos 1) before (part_rows rows starts (length script)) after }
    ensures told { (table : Table) (book : BookState) (rows : List Row) (starts : List ℕ) (place : ℕ)
        → StandsBehind table rows book → part_turns book.turns starts place
        ≡ enumerate_from (get_or starts place 0) (map (λ (row : Row). row.turn) (part_rows rows starts place)) }
{}

/// Two turns have two lines: where each of two may come next, they are one turn if a line tells the same of both. So two legal books
/// with the same lines have the same turns, also in what no line tells of a call: the clock of its row, and who made it.
pub fn two_turns_have_two_lines()
    ensures next { (members : ℕ) (table : Table) (standing : Standing) (a b : Row) → members ≤ 7 → IsWithinLimits table.window
        → MayFollow members table standing a.turn a → MayFollow members table standing b.turn b → HasNumbers a.turn → HasNumbers b.turn
        → turn_words table a.turn ≡ turn_words table b.turn → a.turn ≡ b.turn }
    ensures books { (members : ℕ) (table : Table) (a b : List Row) → members ≤ 7 → IsWithinLimits table.window
        → IsLegal members table a → IsLegal members table b
        → All (λ (row : Row). HasNumbers row.turn) a → All (λ (row : Row). HasNumbers row.turn) b
        → map (turn_line table) (enumerate_from 0 (map (λ (row : Row). row.turn) a))
        ≡ map (turn_line table) (enumerate_from 0 (map (λ (row : Row). row.turn) b))
        → map (λ (row : Row). row.turn) a ≡ map (λ (row : Row). row.turn) b }
{}

/// A turn is told by its line. That of a turn that may come next is a line of a journal's grammar, and what a reader says of it is the
/// turn's number and the turn; a line that tells both is that line, byte for byte. No job of the table may have a blank in its name.
/// The line before a part is one of the grammar too, and the only one that tells the part.
pub fn a_turn_is_told_by_its_line()
    ensures line { (members number : ℕ) (table : Table) (standing : Standing) (row : Row) → members ≤ 7 → IsWithinLimits table.window
        → HasUnblankNames table → MayFollow members table standing row.turn row → HasNumbers row.turn → number < 2 ^ 64
        → (told : ToldLine) × Tells table number row.turn told × IsJournalLine told (turn_line table (number, row.turn)) }
    ensures read { (members number : ℕ) (table : Table) (standing : Standing) (row : Row) (told : ToldLine) → members ≤ 7
        → IsWithinLimits table.window → HasUnblankNames table → MayFollow members table standing row.turn row → HasNumbers row.turn
        → number < 2 ^ 64 → IsJournalLine told (turn_line table (number, row.turn)) → Tells table number row.turn told }
    ensures written { (table : Table) (number : ℕ) (turn : Turn) (told : ToldLine) (line : List ℕ) → Tells table number turn told
        → IsJournalLine told line → line ≡ turn_line table (number, turn) }
    ensures part { (parts place : ℕ) → suc place < 2 ^ 64 → IsJournalLine (told_head parts place) (part_head parts place) }
    ensures written_part { (parts place : ℕ) (line : List ℕ) → IsJournalLine (told_head parts place) line → line ≡ part_head parts place }
{}

/// A book whose turns obey a script has one journal, whichever rows stand behind it: the text of its turns, with the parts
/// where the script's begin.
pub fn a_book_has_one_journal()
    ensures there { (table : Table) (script : List Command) (book : BookState) (rows : List Row) → StandsBehind table rows book
        → Obeys book.members table script rows → (text : List ℕ) × IsBookJournal table script book text }
    ensures one { (table : Table) (script : List Command) (book : BookState) (a b : List ℕ) → IsBookJournal table script book a
        → IsBookJournal table script book b → a ≡ b }
    ensures starts { (table : Table) (script : List Command) (book : BookState) (rows : List Row) (starts : List ℕ)
        → StandsBehind table rows book → BeginAt book.members table script rows starts
        → AreStarts (length book.turns) starts × IsBookJournal table script book (journal_text table book.turns starts) }
{}

/// A book has one summary, whichever rows stand behind it. Its counts are of all that the scheduler holds after the turns:
/// together they are as many as there are rows; and where no call is pending, that is what the book's ledger holds.
pub fn a_summary_counts_all_that_is_held()
    ensures one { (table : Table) (seed : ℕ) (book : BookState) (a b : List ℕ) → IsBookSummary table seed book a
        → IsBookSummary table seed book b → a ≡ b }
    ensures all { (rows : List SchedRow) → total_of rows Launch + total_of rows Void ≡ length rows }
    ensures ledger { (table : Table) (seed : ℕ) (book : BookState) (text : List ℕ) → book.pending ≡ None
        → IsBookSummary table seed book text → text ≡ summary_text table seed book.ledger.held }
{}
