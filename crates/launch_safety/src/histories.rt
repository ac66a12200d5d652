//! Laws of books and of what is held. Each is the contract of a function that does nothing.
ghost use Rattle.std.specs.Prelude.{◌≡◌, ◌≢◌, ◌≤◌, [], ◌∷◌, ◌++◌, ℕ, ℤ, List, Some, Contains, map, take};
ghost use Rattle.paxos_base.specs.declared.entry.Entry.{Entry};
ghost use Rattle.paxos_base.specs.declared.entry.Entry.TheVariants.{Noop, End};
ghost use Rattle.paxos_base.specs.declared.entry.Kind.{Kind};
ghost use Rattle.paxos_base.specs.declared.entry.Kind.TheVariants.{Launch, Void};
ghost use Rattle.paxos_base.specs.declared.rows.JobRow.{JobRow};
ghost use Rattle.due_set.specs.Table.{IsSound, Table};
ghost use Rattle.cluster_sched.specs.declared.row.SchedRow.{SchedRow};
ghost use Rattle.launch_machine.specs.Clerk.{IsClerkOf, first_force, first_rows, in_force};
ghost use Rattle.launch_machine.specs.Starts.{AdoptionsOf};
ghost use Rattle.launch_safety.specs.Fits.{IsBacked, IsHeld, IsPeriodApart, IsStartedUnder, TakesEffectAfter};
ghost use Rattle.agreement.specs.Log.{IsLog};
ghost use Rattle.agreement.specs.World.{CastVote};
ghost use Rattle.history.specs.Book.{Row, standing_after, votes_in};
ghost use Rattle.history.specs.Legal.{IsLegal};
ghost use Rattle.history.specs.Takeover.{AsksFor, launch_row, takeover};
ghost use Rattle.launch_safety.specs.Fitting.{FitsItsLog, TakesEffectAt, held_in};
ghost use Rattle.launch_safety.specs.Parts.{ArrivesTooLate, EndsAs, HasTwoDates};

/// Each legal book of one to seven replicas fits, after each of its turns: no launch is held twice, each that is held was started
/// and had come when it was called, an end that takes effect says what is held, no due instant is passed over, and the launches
/// of a job that runs by its period are a period apart.
pub fn every_legal_book_fits()
    ensures { (members : ℕ) (table : Table) (book : List Row) (turns : ℕ) → members ≤ 7 → IsLegal members table book
        → FitsItsLog members table (take turns book) }
{}

/// In a legal book each row that is held, and each late call, arrived or not, is of a launch whose start takes effect in the log;
/// its instant had come when it was called, and its kind goes by the clock of the call.
pub fn each_call_was_started()
    ensures held { (members : ℕ) (table : Table) (book : List Row) (log : List Entry) (row : SchedRow) → members ≤ 7
        → IsLegal members table book → IsLog members (votes_in book) log → Contains (held_in members table book) row
        → IsBacked table log row }
    ensures late { (members : ℕ) (table : Table) (book : List Row) (log : List Entry) (row : SchedRow) → members ≤ 7
        → IsLegal members table book → IsLog members (votes_in book) log
        → Contains (standing_after members (first_rows table) book).late row → IsBacked table log row }
{}

/// In a legal book the answer that waits for a replica is a row that is held.
pub fn an_answer_that_waits_is_held()
    ensures { (members : ℕ) (table : Table) (book : List Row) (who : ℕ) (row : SchedRow) → members ≤ 7 → IsLegal members table book
        → (standing_after members (first_rows table) book).waits who ≡ Some row → Contains (held_in members table book) row }
{}

/// In a legal book each vote for an end, chosen or not, is for the kind of a row that is held under the launch's name.
pub fn each_end_says_what_is_held()
    ensures { (members : ℕ) (table : Table) (book : List Row) (cast : CastVote) (job : ℕ) (at : ℤ) (kind : Kind) → members ≤ 7
        → IsLegal members table book → Contains (votes_in book) cast → cast.vote.entry ≡ End job at kind
        → IsHeld (held_in members table book) job at kind }
{}

/// Each entry of the log of a legal book takes effect but the no-ops. So does at its slot the entry of each vote, chosen or not.
pub fn each_entry_takes_effect()
    ensures log { (members : ℕ) (table : Table) (book : List Row) (log before after : List Entry) (entry : Entry) → members ≤ 7
        → IsLegal members table book → IsLog members (votes_in book) log → log ≡ before ++ entry ∷ after → entry ≢ Noop
        → TakesEffectAfter table before entry }
    ensures vote { (members : ℕ) (table : Table) (book : List Row) (log : List Entry) (cast : CastVote) → members ≤ 7
        → IsLegal members table book → IsLog members (votes_in book) log → Contains (votes_in book) cast
        → TakesEffectAt table log cast.vote.slot cast.vote.entry }
{}

/// In the log of a legal book a launch has one end at most, whatever it says.
pub fn a_launch_ends_once()
    ensures { (members : ℕ) (table : Table) (book : List Row) (log before after front back : List Entry) (job : ℕ) (at : ℤ) (one other : Kind)
        → members ≤ 7 → IsLegal members table book → IsLog members (votes_in book) log → log ≡ before ++ End job at one ∷ after
        → log ≡ front ++ End job at other ∷ back → before ≡ front }
{}

/// The log of a legal book leaves a launch table, whatever the table of jobs.
pub fn a_log_leaves_a_table()
    ensures { (members : ℕ) (table : Table) (book : List Row) (log : List Entry) → members ≤ 7 → IsLegal members table book
        → IsLog members (votes_in book) log → (rows : List JobRow) × IsClerkOf table log rows }
{}

/// Where the log of a legal book adopts no version, the first stays in force, and each launch is started under it. So it is where
/// the table has no other.
pub fn a_log_may_stay_by_the_first_version()
    ensures none { (members : ℕ) (table : Table) (book : List Row) (log : List Entry) → members ≤ 7 → IsLegal members table book
        → IsLog members (votes_in book) log → table.later ≡ [] → AdoptionsOf table log [] }
    ensures first { (members : ℕ) (table : Table) (book : List Row) (log : List Entry) (rows : List JobRow) → members ≤ 7
        → IsLegal members table book → IsLog members (votes_in book) log → AdoptionsOf table log [] → IsClerkOf table log rows
        → in_force table rows ≡ first_force }
    ensures start { (members : ℕ) (table : Table) (book : List Row) (log : List Entry) (version job : ℕ) (at : ℤ) → members ≤ 7
        → IsLegal members table book → IsLog members (votes_in book) log → AdoptionsOf table log []
        → IsStartedUnder table log version job at → version ≡ 0 }
{}

/// There is a legal book whose log adopts a version.
pub fn a_legal_log_may_adopt_a_version()
    ensures { (table : Table) × (book : List Row) × (log : List Entry) × (now : ℤ)
        × IsSound table × IsLegal 1 table book × IsLog 1 (votes_in book) log × AdoptionsOf table log (now ∷ []) }
{}

/// The log after some turns of a legal book is a front of its log.
pub fn a_log_goes_on()
    ensures { (members : ℕ) (table : Table) (book : List Row) (turns : ℕ) (log later : List Entry) → members ≤ 7
        → IsLegal members table book → IsLog members (votes_in (take turns book)) log → IsLog members (votes_in book) later
        → (more : List Entry) × (later ≡ log ++ more) }
{}

/// There is a legal book in which a call that was in time goes late, its launch is called again too late and held as a void, and
/// the late call arrives behind that. In each such book the void is what is held.
pub fn a_late_call_may_arrive_behind_a_void()
    ensures some { (table : Table) × (book : List Row) × IsSound table × IsLegal 1 table book × ArrivesTooLate 1 table book }
    ensures held { (members : ℕ) (table : Table) (book : List Row) (late : ArrivesTooLate members table book) (row : SchedRow)
        → members ≤ 7 → IsLegal members table book → Contains (held_in members table book) row → row.name ≡ late.call.name
        → row.kind ≡ Void }
{}

/// There is a legal book in which a job that runs by its period is launched on two dates. In each such book they are a period
/// apart, by the version under which the later launch was started.
pub fn a_job_may_be_launched_on_two_dates()
    ensures some { (table : Table) × (book : List Row) × IsSound table × IsLegal 1 table book × HasTwoDates 1 table book }
    ensures apart { (members : ℕ) (table : Table) (book : List Row) (log : List Entry) (dates : HasTwoDates members table book) (version : ℕ)
        → members ≤ 7 → IsLegal members table book → IsLog members (votes_in book) log
        → IsStartedUnder table log version dates.job dates.second → IsPeriodApart table version dates.job dates.first dates.second }
{}

/// There is a legal book of two replicas in which a launch is started, called in time and ended. In each legal book a row of the
/// kind that ends a launch is held for it.
pub fn a_launch_may_end_in_time()
    ensures some { (table : Table) × (book : List Row) × (job : ℕ) × (at : ℤ) × IsSound table × IsLegal 2 table book
        × EndsAs 2 table book job at Launch }
    ensures held { (members : ℕ) (table : Table) (book : List Row) (job : ℕ) (at : ℤ) (kind : Kind) → members ≤ 7
        → IsLegal members table book → EndsAs members table book job at kind → IsHeld (held_in members table book) job at kind }
{}

/// After the takeover, of which there is a legal book, one row is held: that of the call that went late and arrived, by which the
/// second call was answered.
pub fn a_takeover_holds_its_launch()
    ensures { (table : Table) (job : ℕ) (at now : ℤ) → AsksFor table job at now
        → (book : List Row) × (map (λ row. row.turn) book ≡ takeover job at now) × IsLegal 3 table book
        × (held_in 3 table book ≡ launch_row job at now ∷ []) }
{}
