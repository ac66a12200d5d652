//! Laws of the numbers and the letters of books. Each is the contract of a function that does nothing.
ghost use Rattle.std.specs.Prelude.{◌≡◌, ℕ, ◌*◌, ◌^◌, ◌<◌, ◌≤◌, Bool, true, List, [], ◌∷◌, ◌++◌, length, flat_map, Option, None, Some, Result, Contains};
ghost use Rattle.std.specs.List.{AllZip};
ghost use Rattle.paxos_base.specs.declared.rows.TableSize.{TableSize};
ghost use Rattle.paxos_base.specs.declared.durable.Durable.{Durable};
ghost use Rattle.paxos_base.specs.declared.rows.JobRow.{JobRow};
ghost use Rattle.paxos_letter.specs.Letters.{Spells, letter_fault_of, sender_of};
ghost use Rattle.paxos_letter.specs.declared.packet.Packet.{Packet};
ghost use Rattle.cluster_sched.specs.Fates.{Arrives, CallsByName, Holdings, call};
ghost use Rattle.cluster_sched.specs.Held.{IsLookedUp};
ghost use Rattle.cluster_sched.specs.declared.fault.CallFault.{CallFault};
ghost use Rattle.cluster_sched.specs.declared.row.Name.{Name};
ghost use Rattle.cluster_sched.specs.declared.row.SchedRow.{SchedRow};
ghost use Rattle.due_set.specs.Table.{IsSound, Table};
ghost use Rattle.launch_machine.specs.Clerk.{first_rows, table_size};
ghost use Rattle.step_spec.specs.Act.{Act};
ghost use Rattle.step_spec.specs.Folds.{after_acts, calls_of, deltas_of, learnt_of, letters_of};
ghost use Rattle.step_spec.specs.Heard.{heard_as, packets_of};
ghost use Rattle.step_spec.specs.Letters.{AreLettersOf, IsHeardAs, IsSpelled, are_small};
ghost use Rattle.step_spec.specs.May.{AllMay, Setting};
ghost use Rattle.step_spec.specs.Message.{Message};
ghost use Rattle.step_spec.specs.State.{State, started};
ghost use Rattle.step_spec.specs.Step.{Event, IsLaunchTable};
ghost use Rattle.step_spec.specs.declared.out.OutLetter.{OutLetter};
ghost use Rattle.agreement.specs.Transition.{identity_of};
ghost use Rattle.agreement.specs.World.{CastVote};
ghost use Rattle.history.specs.Book.{PostedLetter, Row, Standing, acts_at, after_row, arriving, held_after, late_after, standing_after, under, vote_of_delta, votes_in, votes_of};
ghost use Rattle.history.specs.Legal.{IsLegal, IsMade, MayFollow, TakesTurn, answered};
ghost use Rattle.history.specs.declared.turn.CallRow.{CallRow};
ghost use Rattle.history.specs.declared.turn.Cause.{Cause};
ghost use Rattle.history.specs.Launches.{LeavesTable};
ghost use Rattle.history.specs.Numbers.{AreRowsBelow, AreRowsWithin, IsSmallReplica, IsVoteWithin, IsWithin, SpellsWithin};
ghost use Rattle.history.specs.Steps.{step_row};

/// In a legal book of one to seven replicas no number is above the number of its turns: of no replica, whether it runs or is
/// stopped, of no launch table, of no vote that was cast, and of no letter that was posted. A turn takes one round or one slot more
/// at most.
pub fn a_legal_book_counts_its_turns()
    ensures replicas { (members : ℕ) (table : Table) (book : List Row) (who : ℕ) → members ≤ 7 → IsLegal members table book → who < members
        → IsWithin (length book) ((standing_after members (first_rows table) book).replicas who) }
    ensures tables { (members : ℕ) (table : Table) (book : List Row) (who : ℕ) (rows : List JobRow) → members ≤ 7 → IsLegal members table book
        → IsLaunchTable table ((standing_after members (first_rows table) book).replicas who) rows → AreRowsWithin (length book) rows }
    ensures votes { (members : ℕ) (table : Table) (book : List Row) (cast : CastVote) → members ≤ 7 → IsLegal members table book
        → Contains (votes_in book) cast → IsVoteWithin (length book) cast.vote }
    ensures letters { (members : ℕ) (table : Table) (book : List Row) (letter : PostedLetter) → members ≤ 7 → IsLegal members table book
        → Contains (standing_after members (first_rows table) book).posted letter → SpellsWithin members (length book) letter }
{}

/// A replica of a legal book of fewer than 2^59 turns is small enough for the numbers that a replica counts with: no caller who
/// keeps such a book has to look. A launch table counts fewer than 2^20 launches of a job, since they are of as many different
/// minutes of the window, or dates.
pub fn replicas_of_a_legal_book_are_small()
    ensures small { (members : ℕ) (table : Table) (book : List Row) (who : ℕ) → members ≤ 7 → IsSound table → IsLegal members table book
        → length book < 2 ^ 59 → who < members → IsSmallReplica table ((standing_after members (first_rows table) book).replicas who) }
    ensures launches { (members : ℕ) (table : Table) (book : List Row) (who : ℕ) (rows : List JobRow) → members ≤ 7 → IsLegal members table book
        → IsSound table → IsLaunchTable table ((standing_after members (first_rows table) book).replicas who) rows → AreRowsBelow (2 ^ 20) rows }
{}

/// A replica's program writes letters for seven replicas, since a disk doesn't say of how many its ballots are. In a legal book each
/// ballot is of one of the book's replicas, so that the letters of a step are spelled for just these.
pub fn letters_of_seven_are_letters_of_the_members()
    ensures { (members : ℕ) (table : Table) (book : List Row) (who : ℕ) (cause : Cause) (event : Event) (letters : List OutLetter) → members ≤ 7
        → IsLegal members table book → TakesTurn members table (standing_after members (first_rows table) book) who cause event
        → AllZip (IsSpelled 7 who) (letters_of (identity_of members who) (acts_at members (standing_after members (first_rows table) book) who event)) letters
        → AreLettersOf (identity_of members who) (acts_at members (standing_after members (first_rows table) book) who event) letters }
{}

/// A letter that was posted in a legal book breaks no rule, so that no replica refuses it; the sender that it names is the replica
/// that posted it. It comes from one of the replicas and goes to one, and there are messages as which it is heard.
pub fn a_posted_letter_is_a_letter_of_its_poster()
    ensures rules { (members : ℕ) (table : Table) (book : List Row) (letter : PostedLetter) → IsLegal members table book
        → Contains (standing_after members (first_rows table) book).posted letter → letter_fault_of members letter.bytes ≡ None }
    ensures sender { (members : ℕ) (table : Table) (book : List Row) (letter : PostedLetter) → IsLegal members table book
        → Contains (standing_after members (first_rows table) book).posted letter → sender_of letter.bytes ≡ letter.from }
    ensures from { (members : ℕ) (table : Table) (book : List Row) (letter : PostedLetter) → members ≤ 7 → IsLegal members table book
        → Contains (standing_after members (first_rows table) book).posted letter → letter.from < members }
    ensures to { (members : ℕ) (table : Table) (book : List Row) (letter : PostedLetter) → IsLegal members table book
        → Contains (standing_after members (first_rows table) book).posted letter → letter.to < members }
    ensures heard { (members : ℕ) (size : TableSize) (table : Table) (book : List Row) (letter : PostedLetter) → IsLegal members table book
        → Contains (standing_after members (first_rows table) book).posted letter
        → (messages : List Message) × IsHeardAs members size letter.bytes letter.from messages }
{}

/// The votes of some acts are those of the changes of what is kept: who has the changes of a step has its votes.
pub fn votes_are_those_of_the_changes()
    ensures { (acts : List Act) → votes_of acts ≡ flat_map vote_of_delta (deltas_of acts) }
{}

/// What a ledger looks up is what is held under the name. So a call of a ledger does what it does in a turn: it adds the same rows to
/// those that are held and to those that are late, and has the same answer; and so does a late call that arrives.
pub fn a_ledger_does_what_turns_do()
    ensures found { (name : Name) (held : List SchedRow) (found : Option SchedRow) → IsLookedUp held name found → under name held ≡ found }
    ensures under { (name : Name) (held : List SchedRow) → IsLookedUp held name (under name held) }
    ensures held { (old new : Holdings) (row : SchedRow) (result : Result SchedRow CallFault) (made : CallRow) → CallsByName old row result new
        → made.row ≡ row → made.fate ≡ old.fate → new.held ≡ held_after (Some made) old.held }
    ensures late { (old new : Holdings) (row : SchedRow) (result : Result SchedRow CallFault) (made : CallRow) → CallsByName old row result new
        → made.row ≡ row → made.fate ≡ old.fate → new.late ≡ late_after (Some made) old.held old.late }
    ensures answer { (old new : Holdings) (row : SchedRow) (result : Result SchedRow CallFault) → CallsByName old row result new
        → answered result ≡ answered (call old.fate row (under row.name old.held)).answer }
    ensures arrival { (old new : Holdings) (row : SchedRow) (stands : Bool) → Arrives old row stands new
        → new.held ≡ arriving (Some row) old.held }
{}

/// A cause tells a replica one thing: what a book has of a turn beside its cause, the event, is settled by the turns before it.
pub fn a_cause_has_one_event()
    ensures { (members : ℕ) (table : Table) (standing : Standing) (who : ℕ) (cause : Cause) (one other : Event)
        → TakesTurn members table standing who cause one → TakesTurn members table standing who cause other → one ≡ other }
{}

/// A book without turns is legal, and a legal book goes on by a turn that may follow; then what stands is what that turn makes of
/// what stood.
pub fn a_legal_book_goes_on()
    ensures begins { (members : ℕ) (table : Table) → IsLegal members table [] }
    ensures goes { (members : ℕ) (table : Table) (book : List Row) (row : Row) → IsLegal members table book
        → MayFollow members table (standing_after members (first_rows table) book) row.turn row → IsLegal members table (book ++ row ∷ []) }
    ensures stands { (members : ℕ) (rows : List JobRow) (book : List Row) (row : Row) → standing_after members rows (book ++ row ∷ [])
        ≡ after_row members (standing_after members rows book) row.turn row.event row.letters }
{}

/// A step keeps the launch table: the entries that it learns are applied to the table, one after another, and rows that it takes in
/// the place of entries are the table from then on. There is one such table after each list of acts, and a replica starts with the
/// rows that it keeps.
pub fn a_step_keeps_the_launch_table()
    ensures acts { (setting : Setting) (event : Event) (acts : List Act) (state : State) (old new : List JobRow) → setting.event ≡ Some event
        → AllMay setting state acts → IsLaunchTable setting.table state old → LeavesTable setting.table old acts new
        → IsLaunchTable setting.table (after_acts acts state) new }
    ensures turn { (members : ℕ) (table : Table) (book : List Row) (who : ℕ) (cause : Cause) (event : Event) (old new : List JobRow) → members ≤ 7
        → IsLegal members table book → TakesTurn members table (standing_after members (first_rows table) book) who cause event
        → IsLaunchTable table ((standing_after members (first_rows table) book).replicas who) old
        → LeavesTable table old (acts_at members (standing_after members (first_rows table) book) who event) new
        → IsLaunchTable table (after_acts (acts_at members (standing_after members (first_rows table) book) who event)
        ((standing_after members (first_rows table) book).replicas who)) new }
    ensures some { (table : Table) (old : List JobRow) (acts : List Act) → IsSound table → (new : List JobRow) × LeavesTable table old acts new }
    ensures one { (table : Table) (old : List JobRow) (acts : List Act) (one other : List JobRow) → LeavesTable table old acts one
        → LeavesTable table old acts other → one ≡ other }
    ensures start { (table : Table) (me : ℕ) (kept : Durable) → IsLaunchTable table (started me kept) kept.rows }
{}

/// What a letter carries that was posted in a legal book of fewer than 2^59 turns is within the bounds that a replica counts with, and a
/// copy of a launch table has a row for each job and the table's own. So a letter of fewer than 2^31 packets is heard whole: as the
/// messages that its sender spelled, and not as none.
pub fn posted_letters_are_heard_whole()
    ensures within { (members : ℕ) (table : Table) (book : List Row) (letter : PostedLetter) (packets : List Packet) → members ≤ 7 → IsSound table
        → IsLegal members table book → length book < 2 ^ 59 → Contains (standing_after members (first_rows table) book).posted letter
        → Spells members letter.from packets letter.bytes → are_small (table_size table) packets ≡ true }
    ensures whole { (members : ℕ) (table : Table) (book : List Row) (letter : PostedLetter) → members ≤ 7 → IsSound table → IsLegal members table book
        → length book < 2 ^ 59 → Contains (standing_after members (first_rows table) book).posted letter → length letter.bytes < 56 * 2 ^ 31
        → (sent : List Message) × Spells members letter.from (flat_map packets_of sent) letter.bytes
        × IsHeardAs members (table_size table) letter.bytes letter.from (flat_map heard_as sent) }
{}

/// A step that a replica takes in a legal book, by what a program has of it, is a turn of the book: with letters that are spelled for
/// seven replicas, its changes of what is kept, what it has learned, and its call, where it asks for one.
pub fn a_step_goes_on_a_legal_book()
    ensures { (members : ℕ) (table : Table) (book : List Row) (who : ℕ) (cause : Cause) (made : Option CallRow) (event : Event)
        (letters : List OutLetter) → members ≤ 7
        → IsLegal members table book → TakesTurn members table (standing_after members (first_rows table) book) who cause event
        → AllZip (IsSpelled 7 who) (letters_of (identity_of members who) (acts_at members (standing_after members (first_rows table) book) who event)) letters
        → IsMade (standing_after members (first_rows table) book).held
        (calls_of (acts_at members (standing_after members (first_rows table) book) who event)) made
        → IsLegal members table (book
        ++ step_row who cause made event (deltas_of (acts_at members (standing_after members (first_rows table) book) who event)) letters
        (learnt_of (acts_at members (standing_after members (first_rows table) book) who event)) ∷ []) }
{}
