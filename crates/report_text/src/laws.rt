//! Laws of a report. Each is the contract of a function that does nothing.
ghost use Rattle.std.specs.Prelude.{◌≡◌, ◌↔◌, ◌≤◌, ℕ, ℤ, List, None, Contains, length, take};
ghost use Rattle.due_set.specs.Due.{IsRising};
ghost use Rattle.due_set.specs.Table.{Table, IsJobDueList, IsRunByPeriod};
ghost use Rattle.cluster_sched.specs.Held.{AreNamedOnce};
ghost use Rattle.cluster_sched.specs.declared.row.SchedRow.{SchedRow};
ghost use Rattle.launch_safety.specs.Launched.{LaunchesEachDue, OpensBy};
ghost use Rattle.paxos_base.specs.declared.entry.Kind.{Kind};
ghost use Rattle.paxos_base.specs.declared.entry.Kind.TheVariants.{Launch, Void};
ghost use Rattle.history.specs.Book.{Row, votes_in};
ghost use Rattle.launch_safety.specs.Fitting.{held_in, FitsItsLog};
ghost use Rattle.world_law.specs.Book.{BookState, StandsBehind};
ghost use Rattle.report_text.specs.Book.{IsBookReport};
ghost use Rattle.report_text.specs.Listing.{instants_of, rows_of_kind};
ghost use Rattle.report_text.specs.Report.{IsInOrder, IsReport, count_of_kind};
ghost use Rattle.paxos_base.specs.declared.entry.Entry.{Entry};
ghost use Rattle.launch_safety.specs.Fits.{Fits};
ghost use Rattle.agreement.specs.Log.{IsLog};
ghost use Rattle.history.specs.Agrees.{Agrees};

/// Where no two rows have one name, a run has one report.
pub fn a_report_says_one_text()
    ensures { (table : Table) (members : ℕ) (held : List SchedRow) (a b : List ℕ)
        → IsReport table members held a → IsReport table members held b → AreNamedOnce held → a ≡ b }
{}

/// The launch lines of a report, of each job that doesn't run by its period: where each due instant is launched once and
/// nothing else is held, the rows of a job in the report's order are its due instants in order.
pub fn a_report_lists_each_due_instant()
    ensures { (table : Table) (held rows : List SchedRow) (job : ℕ) → AreNamedOnce held → LaunchesEachDue table held → IsInOrder held rows
        → (IsRunByPeriod table job → ⊥) → IsJobDueList table 0 job (instants_of rows job) }
{}

/// The launch lines of a report, of each job that runs by its period: the rows of a job in the report's order rise, and are
/// of the dates on which it may open at some instant, by the launches that were called before.
pub fn a_report_lists_each_date()
    ensures rise { (held rows : List SchedRow) (job : ℕ) → AreNamedOnce held → IsInOrder held rows → IsRising (instants_of rows job) }
    ensures dates { (table : Table) (held rows : List SchedRow) (job : ℕ) (date : ℤ) → LaunchesEachDue table held → IsInOrder held rows
        → IsRunByPeriod table job
        → (Contains (instants_of rows job) date ↔ ((now : ℤ) × OpensBy table held job now date)) }
{}

/// The counts of a job: each is how many rows of its kind the report lists of the job. Where each due instant is launched once
/// and nothing else is held, there are as many launches as due instants, of a job that doesn't run by its period, and no void.
pub fn a_report_counts_what_it_lists()
    ensures listed { (held rows : List SchedRow) (job : ℕ) (kind : Kind) → IsInOrder held rows
        → count_of_kind held job kind ≡ length (rows_of_kind rows job kind) }
    ensures launched { (table : Table) (held : List SchedRow) (job : ℕ) (dues : List ℤ) → AreNamedOnce held → LaunchesEachDue table held
        → (IsRunByPeriod table job → ⊥) → IsJobDueList table 0 job dues → count_of_kind held job Launch ≡ length dues }
    ensures void { (table : Table) (held : List SchedRow) (job : ℕ) → LaunchesEachDue table held → count_of_kind held job Void ≡ 0 }
{}

/// A book of one to seven replicas has one report at most. Whichever rows stand behind the book, it is over what the scheduler holds
/// after them; and where no call is pending, over what the book's ledger holds.
pub fn a_book_has_one_report()
    ensures one { (table : Table) (book : BookState) (a b : List ℕ) → book.members ≤ 7 → IsBookReport table book a → IsBookReport table book b
        → a ≡ b }
    ensures rows { (table : Table) (book : BookState) (rows : List Row) (text : List ℕ) → StandsBehind table rows book
        → IsBookReport table book text → IsReport table book.members (held_in book.members table rows) text }
    ensures ledger { (table : Table) (book : BookState) (text : List ℕ) → book.pending ≡ None → IsBookReport table book text
        → IsReport table book.members book.ledger.held text }
{}

/// A legal book of one to seven replicas agrees and fits, after each of its turns; and at rest its ledger fits its log: no launch
/// is held twice, each that is held was started, and each end says what is held.
pub fn a_legal_book_agrees_and_fits()
    ensures agrees { (table : Table) (rows : List Row) (book : BookState) (turns : ℕ) → book.members ≤ 7 → StandsBehind table rows book
        → Agrees book.members table (take turns rows) }
    ensures fits { (table : Table) (rows : List Row) (book : BookState) (turns : ℕ) → book.members ≤ 7 → StandsBehind table rows book
        → FitsItsLog book.members table (take turns rows) }
    ensures ledger { (table : Table) (rows : List Row) (book : BookState) (log : List Entry) → book.members ≤ 7 → StandsBehind table rows book
        → book.pending ≡ None → IsLog book.members (votes_in rows) log → Fits table log book.ledger.held }
{}
