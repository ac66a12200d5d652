//! Laws of books that a program keeps. Each is the contract of a function that does nothing.
ghost use Rattle.std.specs.Prelude.{◌≡◌, ◌≢◌, ◌⊎◌, ◌↔◌, ◌≤◌, ◌++◌, ◌∷◌, [], ℕ, List, length, map, Option, None, Some};
ghost use Rattle.std.specs.Option.{option_to_list};
ghost use Rattle.zone_minutes.specs.declared.minute.Minute.{Minute};
ghost use Rattle.paxos_base.specs.declared.durable.Delta.{Delta};
ghost use Rattle.paxos_base.specs.declared.durable.Durable.{Durable};
ghost use Rattle.cluster_sched.specs.declared.row.SchedRow.{SchedRow};
ghost use Rattle.due_set.specs.Table.{Table};
ghost use Rattle.step_spec.specs.Folds.{deltas_of};
ghost use Rattle.step_spec.specs.State.{started};
ghost use Rattle.step_spec.specs.Step.{Event, step};
ghost use Rattle.agreement.specs.Transition.{identity_of};
ghost use Rattle.history.specs.Book.{Row, learned_in, turn_of, votes_in};
ghost use Rattle.history.specs.Legal.{IsLegal, IsMade, MayFollow};
ghost use Rattle.history.specs.declared.turn.CallRow.{CallRow};
ghost use Rattle.history.specs.declared.turn.Cause.{Cause};
ghost use Rattle.history.specs.declared.turn.Turn.{Turn};
ghost use Rattle.history.specs.declared.turn.Turn.TheVariants.{Did, Arrived};
ghost use Rattle.replica_core.specs.Commit.{kept_after};
ghost use Rattle.replica_core.specs.Replica.{ReplicaState};
ghost use Rattle.replica_core.specs.Step.{IsEventOf, IsInputInside, IsOfTable, Steps};
ghost use Rattle.replica_core.specs.declared.input.Input.{Input};
ghost use Rattle.replica_core.specs.declared.input.Input.TheVariants.{Tick};
ghost use Rattle.replica_core.specs.declared.out.StepOut.{StepOut};
ghost use Rattle.turn_book.specs.Rows.{HasLawful};
ghost use Rattle.world_law.specs.Book.{BookState, HasRoom, IsRowOf, MayTickFor, StandsBehind, call_of, posting_turns, standing_behind};
ghost use Rattle.world_law.specs.Replicas.{IsInputOf, IsRestartOf, IsStopOf, IsTurnOf, StandsAt, StandsStopped};
ghost use Rattle.world_law.specs.Rows.{HasRows, MayComeNext};
ghost use Rattle.world_law.specs.declared.letter.LetterRow.{LetterRow};
ghost use Rattle.world_law.specs.declared.row.BookRow.{BookRow};

/// A book settles what it does not keep: whichever rows stand behind it, the votes and the learned entries in them are the same, and
/// so is what stands after them. All legal rows that have its turns stand behind it.
pub fn a_book_settles_what_it_does_not_keep()
    ensures votes { (table : Table) (rows other : List Row) (book : BookState) → StandsBehind table rows book → StandsBehind table other book
        → votes_in rows ≡ votes_in other }
    ensures learned { (table : Table) (rows other : List Row) (book : BookState) → StandsBehind table rows book → StandsBehind table other book
        → learned_in rows ≡ learned_in other }
    ensures stands { (table : Table) (rows other : List Row) (book : BookState) → StandsBehind table rows book → StandsBehind table other book
        → standing_behind table rows book ≡ standing_behind table other book }
    ensures instead { (table : Table) (rows other : List Row) (book : BookState) → StandsBehind table rows book → IsLegal book.members table other
        → book.turns ≡ map (λ (row : Row). row.turn) other → StandsBehind table other book }
{}

/// A book tells of each letter which turn has posted it, by the turn's number.
pub fn a_book_tells_which_turn_posted_a_letter()
    ensures { (table : Table) (rows : List Row) (book : BookState) → StandsBehind table rows book
        → map (λ (letter : LetterRow). letter.turn) book.letters ≡ posting_turns rows }
{}

/// The rows of a book that threads share have its turns, and a row that may come next after them may come next in the book,
/// whichever rows stand behind it.
pub fn rows_of_a_book_settle_what_may_come_next()
    ensures turns { (table : Table) (rows : List BookRow) (book : BookState) → HasRows table rows book → map (λ (row : BookRow). row.turn) rows ≡ book.turns }
    ensures next { (table : Table) (before : List BookRow) (row : BookRow) (behind : List Row) (book : BookState) → HasRows table before book
        → MayComeNext book.members table before row → StandsBehind table behind book
        → (next : Row) × IsRowOf row.turn row.out next × MayFollow book.members table (standing_behind table behind book) next.turn next }
{}

/// Threads may share a legal book: some rows as threads add them are those of the book, and each of them may come next after those
/// before it.
pub fn a_legal_book_has_lawful_rows()
    ensures { (table : Table) (rows : List Row) (book : BookState) → StandsBehind table rows book
        → HasLawful (λ before. HasRows table before book) (λ before row. MayComeNext book.members table before row) }
{}

/// Each turn but an arrival is a replica's, and an arrival is nobody's.
pub fn an_arrival_alone_is_nobodys_turn()
    ensures none { (turn : Turn) → (turn_of turn ≡ None) ↔ ((number : ℕ) × (turn ≡ Arrived number)) }
{}

/// A step that a replica takes beside a legal book is a turn that may come next in it, with what came of the step and the call that it
/// asks for; behind that turn the replica stands where the step has left it.
pub fn a_step_is_the_next_turn()
    ensures { (table : Table) (rows : List Row) (book : BookState) (cause : Cause) (made : Option CallRow) (input : Input) (old new : ReplicaState)
        (out : StepOut)
        → book.members ≤ 7 → StandsBehind table rows book → StandsAt table rows book old
        → IsInputOf (standing_behind table rows book) book old.identity.me cause input → IsInputInside table input → Steps table input old new out
        → IsMade (standing_behind table rows book).held (option_to_list out.call) made → IsTurnOf table rows book old.identity.me cause made out new }
{}

/// A turn leaves the other replicas where they stood in the book, and an arrival leaves all.
pub fn other_replicas_stand_where_they_did()
    ensures others { (table : Table) (rows : List Row) (row : Row) (book after : BookState) (other : ReplicaState) → after.members ≡ book.members
        → turn_of row.turn ≢ Some other.identity.me → StandsAt table rows book other → StandsAt table (rows ++ row ∷ []) after other }
    ensures arrival { (table : Table) (rows : List Row) (row : Row) (number : ℕ) (book after : BookState) (other : ReplicaState) → after.members ≡ book.members
        → row.turn ≡ Arrived number → StandsAt table rows book other → StandsAt table (rows ++ row ∷ []) after other }
    ensures stopped { (table : Table) (rows : List Row) (row : Row) (book after : BookState) (who : ℕ) (kept : Durable) → after.members ≡ book.members
        → turn_of row.turn ≢ Some who → StandsStopped table rows book who kept → StandsStopped table (rows ++ row ∷ []) after who kept }
    ensures stopped_arrival { (table : Table) (rows : List Row) (row : Row) (number : ℕ) (book after : BookState) (who : ℕ) (kept : Durable)
        → after.members ≡ book.members
        → row.turn ≡ Arrived number → StandsStopped table rows book who kept → StandsStopped table (rows ++ row ∷ []) after who kept }
{}

/// A stop of a replica beside a legal book is a turn that may come next in it: within a step that changes what it keeps, with the
/// change where that was kept, or between two steps. Behind it the replica is stopped, and keeps what it kept before the step, with
/// that change or without.
pub fn a_stop_is_the_next_turn()
    ensures within { (table : Table) (rows : List Row) (book : BookState) (cause : Cause) (input : Input) (old : ReplicaState) (event : Event)
        (change : Delta) (answer : Option Delta)
        → StandsBehind table rows book → StandsAt table rows book old → IsInputOf (standing_behind table rows book) book old.identity.me cause input
        → IsInputInside table input → IsEventOf table old input event → deltas_of (step old.identity event old.state) ≡ change ∷ []
        → (answer ≡ Some change) ⊎ (answer ≡ None) → IsStopOf table rows book old.identity.me (Some cause) answer (kept_after answer old.state.kept) }
    ensures between { (table : Table) (rows : List Row) (book : BookState) (old : ReplicaState) → StandsAt table rows book old
        → IsStopOf table rows book old.identity.me None None old.state.kept }
{}

/// A replica that starts with what it kept where it stopped does so in a turn that may come next.
pub fn a_restart_is_the_next_turn()
    ensures { (table : Table) (rows : List Row) (book : BookState) (kept : Durable) (new : ReplicaState) → StandsStopped table rows book new.identity.me kept
        → new.identity ≡ identity_of book.members new.identity.me → new.state ≡ started new.identity.me kept → IsOfTable table new
        → IsRestartOf table rows book new }
{}

/// A tick that asks for a call may be called for, once there is room for its turn.
pub fn a_tick_may_be_called_for()
    ensures { (table : Table) (rows : List Row) (book : BookState) (now : Minute) (input : Input) (old new : ReplicaState) (out : StepOut) (row : SchedRow)
        → StandsBehind table rows book → StandsAt table rows book old → input ≡ Tick now → IsInputInside table input → Steps table input old new out
        → out.call ≡ Some row → HasRoom (length out.letters) book → MayTickFor table book row }
{}

/// The turn that ends a pending call is a step, and carries that call.
pub fn a_pending_call_is_carried_by_a_step()
    ensures { (turn : Turn) (made : CallRow) → Some made ≡ call_of turn → (who : ℕ) × (cause : Cause) × (turn ≡ Did who cause (Some made)) }
{}
