//! Laws of books. Each is the contract of a function that does nothing.
ghost use Rattle.std.specs.Prelude.{◌≡◌, ◌≢◌, ◌⊎◌, ◌≤◌, ℕ, ℤ, pos, Bool, true, false, List, [], ◌∷◌, ◌++◌, length, map, take, slice_get, Option, None, Some, Contains};
ghost use Rattle.paxos_base.specs.declared.entry.Entry.{Entry};
ghost use Rattle.due_set.specs.Table.{IsSound, Table};
ghost use Rattle.paxos_base.specs.declared.rows.JobRow.{JobRow};
ghost use Rattle.launch_machine.specs.Clerk.{first_rows};
ghost use Rattle.launch_machine.specs.declared.machine.Intent.TheVariants.{Start};
ghost use Rattle.cluster_sched.specs.Held.{AreNamedOnce};
ghost use Rattle.cluster_sched.specs.declared.row.Name.{Name};
ghost use Rattle.cluster_sched.specs.declared.row.SchedRow.{SchedRow};
ghost use Rattle.step_spec.specs.Folds.{calls_of};
ghost use Rattle.step_spec.specs.Step.{Event, IsLaunchTable};
ghost use Rattle.step_spec.specs.Step as told;
ghost use Rattle.step_spec.specs.declared.out.OutLetter.{OutLetter};
ghost use Rattle.agreement.specs.Agree.{IsChosen};
ghost use Rattle.agreement.specs.Log.{FollowsLog, IsLog};
ghost use Rattle.agreement.specs.World.{Learning};
ghost use Rattle.history.specs.Agrees.{Agrees};
ghost use Rattle.history.specs.Book.{Row, Standing, acts_at, after_row, learned_in, standing_after, turn_of, under, votes_in};
ghost use Rattle.history.specs.Legal.{IsLegal, MayFollow};
ghost use Rattle.history.specs.Snapshots.{HasSnapshots};
ghost use Rattle.history.specs.Takeover.{AsksFor, learned_twice, takeover};
ghost use Rattle.history.specs.Some.{beginning, no_jobs, some_turns};
ghost use Rattle.history.specs.declared.turn.CallRow.{CallRow};
ghost use Rattle.history.specs.declared.turn.Cause.{Cause};
ghost use Rattle.history.specs.declared.turn.Cause.TheVariants.{Campaign, Tick, Hear, Answer};
ghost use Rattle.history.specs.declared.turn.Turn.{Turn};
ghost use Rattle.history.specs.declared.turn.Turn.TheVariants.{Did, Stopped, Restarted, Arrived};

/// Each legal book of one to seven replicas agrees, after each of its turns: what was learned was chosen, no two entries were
/// learned for one slot, and each replica that runs has the launch table of a front of the log.
pub fn every_legal_book_agrees()
    ensures { (members : ℕ) (table : Table) (book : List Row) (turns : ℕ) → members ≤ 7 → IsLegal members table book
        → Agrees members table (take turns book) }
{}

/// A front of a legal book is one.
pub fn a_cut_is_legal()
    ensures { (members : ℕ) (table : Table) (book : List Row) (turns : ℕ) → IsLegal members table book
        → IsLegal members table (take turns book) }
{}

/// A legal book has one log, and no two entries chosen for one slot.
pub fn a_book_has_one_log()
    ensures some { (members : ℕ) (table : Table) (book : List Row) → members ≤ 7 → IsLegal members table book
        → (log : List Entry) × IsLog members (votes_in book) log }
    ensures one { (members : ℕ) (table : Table) (book : List Row) (log other : List Entry) → members ≤ 7 → IsLegal members table book
        → IsLog members (votes_in book) log → IsLog members (votes_in book) other → log ≡ other }
    ensures value { (members : ℕ) (table : Table) (book : List Row) (slot : ℕ) (one other : Entry) → members ≤ 7
        → IsLegal members table book → IsChosen members (votes_in book) slot one → IsChosen members (votes_in book) slot other
        → one ≡ other }
{}

/// There are legal books with turns of each kind but arrivals and answers: a campaign, a letter that is heard and heard once
/// more, a tick, a stop between two steps and one within a step that keeps its change, and starts after them.
pub fn some_books_are_legal()
    ensures { (book : List Row) × (map (λ row. row.turn) book ≡ some_turns) × IsLegal 2 no_jobs book }
{}

/// What two replicas without jobs can't begin with: a turn of a third one, a letter that wasn't sent, an answer that doesn't
/// wait, a tick outside the window, a call that no step asks for, a stop that keeps what no step changed, a start without a
/// stop, an arrival of no late call, a start that the launch table doesn't ask for; a campaign brings one letter, no vote and
/// no entry. Nor may a replica that has stopped take a turn, a letter be heard by another than its addressee, a late call
/// arrive twice, or a call be left out that a step asks for.
pub fn some_turns_are_not_legal()
    ensures stranger { (row : Row) (cause : Cause) (made : Option CallRow) → MayFollow 2 no_jobs beginning (Did 2 cause made) row → ⊥ }
    ensures letter { (row : Row) (number : ℕ) (made : Option CallRow) → MayFollow 2 no_jobs beginning (Did 0 (Hear number) made) row → ⊥ }
    ensures answer { (row : Row) (made : Option CallRow) → MayFollow 2 no_jobs beginning (Did 0 Answer made) row → ⊥ }
    ensures minute { (row : Row) (made : Option CallRow) → MayFollow 2 no_jobs beginning (Did 0 (Tick (record { 0 = pos 1 })) made) row → ⊥ }
    ensures call { (row : Row) (call : CallRow) → MayFollow 2 no_jobs beginning (Did 0 Campaign (Some call)) row → ⊥ }
    ensures kept { (row : Row) → MayFollow 2 no_jobs beginning (Stopped 0 None true) row → ⊥ }
    ensures change { (row : Row) (kept : Bool) → MayFollow 2 no_jobs beginning (Stopped 0 (Some (Tick (record { 0 = pos 0 }))) kept) row → ⊥ }
    ensures start { (row : Row) → MayFollow 2 no_jobs beginning (Restarted 0) row → ⊥ }
    ensures arrival { (row : Row) (number : ℕ) → MayFollow 2 no_jobs beginning (Arrived number) row → ⊥ }
    ensures votes { (row : Row) → MayFollow 2 no_jobs beginning (Did 0 Campaign None) row → row.votes ≡ [] }
    ensures letters { (row : Row) → MayFollow 2 no_jobs beginning (Did 0 Campaign None) row → length row.letters ≡ 1 }
    ensures entries { (row : Row) → MayFollow 2 no_jobs beginning (Did 0 Campaign None) row → row.learnt ≡ [] }
    ensures plan { (row : Row) (job : ℕ) (at : ℤ) → row.event ≡ told.Tick (pos 0) (record { rows = first_rows no_jobs; intent = Start job at })
        → MayFollow 2 no_jobs beginning (Did 0 (Tick (record { 0 = pos 0 })) None) row → ⊥ }
    ensures addressee { (first row : Row) (made : Option CallRow) → first.turn ≡ Did 0 Campaign None
        → MayFollow 2 no_jobs beginning first.turn first
        → MayFollow 2 no_jobs (standing_after 2 (first_rows no_jobs) (first ∷ [])) (Did 0 (Hear 0) made) row → ⊥ }
    ensures second { (standing : Standing) (row : Row) (number : ℕ) → Contains standing.arrived number
        → MayFollow 2 no_jobs standing (Arrived number) row → ⊥ }
    ensures unmade { (standing : Standing) (row : Row) (who : ℕ) (cause : Cause) (call : SchedRow) (calls : List SchedRow)
        → calls_of (acts_at 2 standing who row.event) ≡ call ∷ calls → MayFollow 2 no_jobs standing (Did who cause None) row → ⊥ }
    ensures stopped { (first row : Row) (cause : Cause) (made : Option CallRow) → first.turn ≡ Stopped 0 None false
        → MayFollow 2 no_jobs (standing_after 2 (first_rows no_jobs) (first ∷ [])) (Did 0 cause made) row → ⊥ }
{}

/// There is a legal book with a takeover for each table that asks for a start, and then for its call: with votes in two
/// ballots, an old vote that binds the new leader, letters that are heard late and twice, stops between a vote and its use,
/// a call that goes late and arrives, an answer, and entries that two replicas learn.
pub fn a_takeover_is_legal()
    ensures some { (table : Table) × (job : ℕ) × (at : ℤ) × (now : ℤ) × AsksFor table job at now }
    ensures legal { (table : Table) (job : ℕ) (at now : ℤ) → AsksFor table job at now
        → (book : List Row) × (map (λ row. row.turn) book ≡ takeover job at now) × IsLegal 3 table book
        × (learned_in book ≡ learned_twice job at now) }
{}

/// There is a legal book with snapshots: a replica puts its launch table in the place of 64 entries or more; it sends it to
/// another that asks for votes below its base, and that takes it; and it promises from its base on, with its votes there.
pub fn a_book_with_snapshots_is_legal()
    ensures { (table : Table) × (front : List Row) × (back : List Row) × IsSound table × HasSnapshots table front back }
{}

/// What it is to agree, part by part.
pub fn what_agreement_says()
    ensures chosen { (members : ℕ) (table : Table) (book : List Row) (learned : Learning) → Agrees members table book
        → Contains (learned_in book) learned → IsChosen members (votes_in book) learned.slot learned.entry }
    ensures one { (members : ℕ) (table : Table) (book : List Row) (a b : Learning) → Agrees members table book
        → Contains (learned_in book) a → Contains (learned_in book) b → a.slot ≡ b.slot → a.entry ≡ b.entry }
    ensures follow { (members : ℕ) (table : Table) (book : List Row) (log : List Entry) (who : ℕ) → Agrees members table book
        → IsLog members (votes_in book) log → (standing_after members (first_rows table) book).runs who ≡ true
        → FollowsLog table log ((standing_after members (first_rows table) book).replicas who) }
    ensures has_table { (members : ℕ) (table : Table) (book : List Row) (who : ℕ) → Agrees members table book → IsSound table
        → (standing_after members (first_rows table) book).runs who ≡ true
        → (rows : List JobRow) × IsLaunchTable table ((standing_after members (first_rows table) book).replicas who) rows }
{}

/// Whatever turn comes, what is held under a name stays held, and no name gains a second row.
pub fn a_held_name_stays()
    ensures stays { (members : ℕ) (standing : Standing) (turn : Turn) (event : Event) (letters : List OutLetter) (name : Name) (row : SchedRow)
        → under name standing.held ≡ Some row → under name (after_row members standing turn event letters).held ≡ Some row }
    ensures once { (members : ℕ) (standing : Standing) (turn : Turn) (event : Event) (letters : List OutLetter)
        → AreNamedOnce standing.held → AreNamedOnce (after_row members standing turn event letters).held }
{}

/// After its turn a replica has the answer to the call that it made, and none where it made none or none came; a stop takes the
/// answer away; no other turn changes what waits for it. A replica that takes an answer takes the one that waits: its launch,
/// and what that came to.
pub fn an_answer_waits_after_an_answered_call()
    ensures none { (members : ℕ) (standing : Standing) (who : ℕ) (cause : Cause) (event : Event) (letters : List OutLetter)
        → (after_row members standing (Did who cause None) event letters).waits who ≡ None }
    ensures made { (members : ℕ) (standing : Standing) (who : ℕ) (cause : Cause) (call : CallRow) (event : Event) (letters : List OutLetter)
        → (after_row members standing (Did who cause (Some call)) event letters).waits who ≡ call.answer }
    ensures stop { (members : ℕ) (standing : Standing) (who : ℕ) (cause : Option Cause) (kept : Bool) (event : Event) (letters : List OutLetter)
        → (after_row members standing (Stopped who cause kept) event letters).waits who ≡ None }
    ensures others { (members : ℕ) (standing : Standing) (turn : Turn) (event : Event) (letters : List OutLetter) (other : ℕ)
        → turn_of turn ≢ Some other → (after_row members standing turn event letters).waits other ≡ standing.waits other }
    ensures start { (members : ℕ) (standing : Standing) (who : ℕ) (event : Event) (letters : List OutLetter)
        → (after_row members standing (Restarted who) event letters).waits ≡ standing.waits }
    ensures arrival { (members : ℕ) (standing : Standing) (number : ℕ) (event : Event) (letters : List OutLetter)
        → (after_row members standing (Arrived number) event letters).waits ≡ standing.waits }
    ensures taken { (members : ℕ) (table : Table) (standing : Standing) (who : ℕ) (made : Option CallRow) (row : Row)
        → MayFollow members table standing (Did who Answer made) row
        → (waiting : SchedRow) × (rows : List JobRow) × (standing.waits who ≡ Some waiting)
        × (row.event ≡ told.Answer waiting.name.job waiting.name.at waiting.kind rows) }
{}

/// A call of a turn is the one that the step asks for, and the answer to it is the row that is held under its name, or the
/// call's own where none is.
pub fn a_call_is_what_the_step_asks_for()
    ensures asked { (members : ℕ) (table : Table) (standing : Standing) (who : ℕ) (cause : Cause) (made : CallRow) (row : Row)
        → MayFollow members table standing (Did who cause (Some made)) row
        → calls_of (acts_at members standing who row.event) ≡ made.row ∷ [] }
    ensures answer { (members : ℕ) (table : Table) (standing : Standing) (who : ℕ) (cause : Cause) (made : CallRow) (row : Row) (answer : SchedRow)
        → MayFollow members table standing (Did who cause (Some made)) row → made.answer ≡ Some answer
        → (under made.row.name standing.held ≡ Some answer) ⊎ ((under made.row.name standing.held ≡ None) × (answer ≡ made.row)) }
{}

/// A stop leaves the scheduler's rows, the late calls, those that have arrived, and the letters.
pub fn a_stop_leaves_what_is_outside()
    ensures held { (members : ℕ) (standing : Standing) (who : ℕ) (cause : Option Cause) (kept : Bool) (event : Event) (letters : List OutLetter)
        → (after_row members standing (Stopped who cause kept) event letters).held ≡ standing.held }
    ensures late { (members : ℕ) (standing : Standing) (who : ℕ) (cause : Option Cause) (kept : Bool) (event : Event) (letters : List OutLetter)
        → (after_row members standing (Stopped who cause kept) event letters).late ≡ standing.late }
    ensures arrived { (members : ℕ) (standing : Standing) (who : ℕ) (cause : Option Cause) (kept : Bool) (event : Event) (letters : List OutLetter)
        → (after_row members standing (Stopped who cause kept) event letters).arrived ≡ standing.arrived }
    ensures posted { (members : ℕ) (standing : Standing) (who : ℕ) (cause : Option Cause) (kept : Bool) (event : Event) (letters : List OutLetter)
        → (after_row members standing (Stopped who cause kept) event letters).posted ≡ standing.posted }
{}

/// What arrives is a late call that has not arrived before; then its name is held, and it has arrived.
pub fn a_late_call_arrives_once()
    ensures late { (members : ℕ) (table : Table) (standing : Standing) (number : ℕ) (row : Row)
        → MayFollow members table standing (Arrived number) row
        → (call : SchedRow) × (slice_get standing.late number ≡ Some call) × (Contains standing.arrived number → ⊥)
        × (first : SchedRow) × (under call.name (after_row members standing (Arrived number) row.event row.letters).held ≡ Some first) }
    ensures marked { (members : ℕ) (standing : Standing) (number : ℕ) (event : Event) (letters : List OutLetter)
        → (after_row members standing (Arrived number) event letters).arrived ≡ standing.arrived ++ number ∷ [] }
{}
