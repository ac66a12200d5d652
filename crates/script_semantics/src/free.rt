//! Laws of turns in no order. Each is the contract of a function that does nothing.
ghost use Rattle.std.specs.Prelude.{◌≡◌, ◌≢◌, ℕ, ◌+◌, ◌*◌, ◌<◌, Bool, true, false, ℤ, pos, List, [], ◌∷◌, ◌++◌, length, map, Option, None, Some, IsSome};
ghost use Rattle.zone_minutes.specs.declared.minute.Window.{Window};
ghost use Rattle.cluster_sched.specs.declared.row.SchedRow.{SchedRow};
ghost use Rattle.paxos_base.specs.declared.entry.Vote.{Vote};
ghost use Rattle.term_core.specs.declared.flight.Flight.{Flight};
ghost use Rattle.term_core.specs.declared.term.Term.TheVariants.{Leader};
ghost use Rattle.script_text.specs.declared.command.Command.TheVariants as command;
ghost use Rattle.history.specs.Book.{Row};
ghost use Rattle.history.specs.Legal.{IsLegal};
ghost use Rattle.history.specs.Some.{no_jobs};
ghost use Rattle.history.specs.declared.turn.CallRow.{CallRow};
ghost use Rattle.history.specs.declared.turn.Cause.{Cause};
ghost use Rattle.history.specs.declared.turn.Cause.TheVariants.{Campaign, Tick, Hear, Answer};
ghost use Rattle.history.specs.declared.turn.Turn.{Turn};
ghost use Rattle.history.specs.declared.turn.Turn.TheVariants.{Did, Stopped};
ghost use Rattle.script_semantics.specs.Arms.{IsTurnByArm, armed_by};
ghost use Rattle.script_semantics.specs.Free.{GoesFreely, IsFreePart, IsFreeTurn, after_all_posted, after_posted, course_of, is_turn_of, next_cause};
ghost use Rattle.script_semantics.specs.Round.{clock_reading};
ghost use Rattle.script_semantics.specs.Script.{IsPartOf};
ghost use Rattle.script_semantics.specs.Situation.{Situation, Do, after_turn, first_situation, letters_for};
ghost use Rattle.script_semantics.specs.Others.{AreOthers, mail_behind, turns_had};

/// A replica takes an answer that waits for it, or else hears the first letter of its mail. With neither it stands for leader at one
/// turn in each 64, the first at its turn 0, the second at its turn 8, and so on, unless it leads; and else its clock ticks.
pub fn a_replica_takes_what_waits_first()
    ensures answer { (window : Window) (at : ℤ) (who taken : ℕ) (seen : Situation) (row : SchedRow) → seen.standing.waits who ≡ Some row
        → next_cause window at who taken seen ≡ Answer }
    ensures letter { (window : Window) (at : ℤ) (who taken number : ℕ) (seen : Situation) (mail : List ℕ) → seen.standing.waits who ≡ None
        → seen.mails who ≡ number ∷ mail → next_cause window at who taken seen ≡ Hear number }
    ensures campaign { (window : Window) (at : ℤ) (who times : ℕ) (seen : Situation) → seen.standing.waits who ≡ None → seen.mails who ≡ []
        → who < 8 → ((ballot : ℕ) (best : List Vote) (flight : Option Flight) → (seen.standing.replicas who).term ≢ Leader ballot best flight)
        → next_cause window at who (64 * times + 8 * who) seen ≡ Campaign }
    ensures leader { (window : Window) (at : ℤ) (who taken ballot : ℕ) (seen : Situation) (best : List Vote) (flight : Option Flight)
        → seen.standing.waits who ≡ None → seen.mails who ≡ [] → (seen.standing.replicas who).term ≡ Leader ballot best flight
        → next_cause window at who taken seen ≡ Tick (clock_reading window at (seen.skews who)) }
    ensures tick { (window : Window) (at : ℤ) (who taken : ℕ) (seen : Situation) → seen.standing.waits who ≡ None → seen.mails who ≡ []
        → ((times : ℕ) → taken ≢ 64 * times + 8 * who) → next_cause window at who taken seen ≡ Tick (clock_reading window at (seen.skews who)) }
{}

/// While others take their turns, a replica's mail gains the letters that were posted to it meanwhile, in the order of their numbers,
/// and nothing leaves it. So who reads the book when it has the turn has its mail by the letters that it hasn't looked at.
pub fn letters_come_while_others_take_turns()
    ensures { (members who : ℕ) (situation : Situation) (rows : List Row) → AreOthers who rows
        → (after_all_posted members situation rows).mails who
        ≡ situation.mails who ++ letters_for (after_all_posted members situation rows) (length situation.standing.posted) who }
{}

/// The turns of others leave a replica, what waits for it and the fate of its next call; how its disk is armed, and how many bases
/// that has kept; and what the replica has seen, and how many turns it has had.
pub fn turns_of_others_leave_a_replica()
    ensures replica { (members who : ℕ) (situation : Situation) (rows : List Row) → AreOthers who rows
        → (after_all_posted members situation rows).standing.replicas who ≡ situation.standing.replicas who }
    ensures runs { (members who : ℕ) (situation : Situation) (rows : List Row) → AreOthers who rows
        → (after_all_posted members situation rows).standing.runs who ≡ situation.standing.runs who }
    ensures waits { (members who : ℕ) (situation : Situation) (rows : List Row) → AreOthers who rows
        → (after_all_posted members situation rows).standing.waits who ≡ situation.standing.waits who }
    ensures fate { (members who : ℕ) (situation : Situation) (rows : List Row) → AreOthers who rows
        → (after_all_posted members situation rows).fates who ≡ situation.fates who }
    ensures arm { (members who : ℕ) (situation : Situation) (rows : List Row) → AreOthers who rows
        → (after_all_posted members situation rows).arms who ≡ situation.arms who }
    ensures bases { (members who : ℕ) (situation : Situation) (rows : List Row) → AreOthers who rows
        → (after_all_posted members situation rows).bases who ≡ situation.bases who }
    ensures seen { (members who : ℕ) (situation : Situation) (rows more : List Row) → AreOthers who more
        → (course_of members who situation (rows ++ more)).seen ≡ (course_of members who situation rows).seen }
    ensures taken { (members who : ℕ) (situation : Situation) (rows more : List Row) → AreOthers who more
        → (course_of members who situation (rows ++ more)).taken ≡ (course_of members who situation rows).taken }
{}

/// A replica's next turn, which is settled by what it saw directly after the turn before, finds all as it was: the replica runs, the
/// letter that it hears is the first of its mail, the answer that it takes waits, and the fate of its call is the one that is set. Its
/// disk is armed as it was then: whether the turn stops, and what the stop keeps, comes out the same now.
pub fn what_a_replica_saw_last_still_stands()
    ensures runs { (members : ℕ) (window : Window) (at : ℤ) (turns who : ℕ) (situation : Situation) (rows : List Row) (row : Row)
        → IsFreeTurn members window at turns who (course_of members who situation rows) row
        → (after_all_posted members situation rows).standing.runs who ≡ true }
    ensures heard { (members : ℕ) (window : Window) (at : ℤ) (turns who number : ℕ) (situation : Situation) (rows : List Row) (row : Row)
        (made : Option CallRow)
        → IsFreeTurn members window at turns who (course_of members who situation rows) row → row.turn ≡ Did who (Hear number) made
        → (mail : List ℕ) × ((after_all_posted members situation rows).mails who ≡ number ∷ mail) }
    ensures answered { (members : ℕ) (window : Window) (at : ℤ) (turns who : ℕ) (situation : Situation) (rows : List Row) (row : Row)
        (made : Option CallRow)
        → IsFreeTurn members window at turns who (course_of members who situation rows) row → row.turn ≡ Did who Answer made
        → IsSome ((after_all_posted members situation rows).standing.waits who) }
    ensures fate { (members : ℕ) (window : Window) (at : ℤ) (turns who : ℕ) (situation : Situation) (rows : List Row) (row : Row)
        (cause : Cause) (made : CallRow)
        → IsFreeTurn members window at turns who (course_of members who situation rows) row → row.turn ≡ Did who cause (Some made)
        → made.fate ≡ (after_all_posted members situation rows).fates who }
    ensures by_arm { (members : ℕ) (window : Window) (at : ℤ) (turns who : ℕ) (situation : Situation) (rows : List Row) (row : Row)
        → IsFreeTurn members window at turns who (course_of members who situation rows) row
        → IsTurnByArm members (after_all_posted members situation rows)
        (Do who (next_cause window at who (course_of members who situation rows).taken (course_of members who situation rows).seen)) row }
{}

/// After its next turn a replica's mail is the one that it saw directly after the turn before, without the letter that it heard; then
/// come the letters that were posted meanwhile, and those that the turn posts to it. So a letter of a mail is heard once at most.
pub fn a_replica_hears_its_mail_in_order()
    ensures { (members who taken : ℕ) (window : Window) (at : ℤ) (seen : Situation) (more : List Row) (row : Row) (cause : Cause) (made : Option CallRow)
        → AreOthers who more → row.turn ≡ Did who cause made → cause ≡ next_cause window at who taken seen
        → (after_posted members (after_all_posted members seen more) row).mails who
        ≡ (mail_behind cause (seen.mails who) ++ letters_for (after_all_posted members seen more) (length seen.standing.posted) who)
        ++ letters_for (after_turn members (after_all_posted members seen more) row) (length (after_all_posted members seen more).standing.posted) who }
{}

/// A replica has gone freely before its first turn; turns of others don't change that; and where it has, it has with its next turn.
pub fn turns_of_one_are_put_together()
    ensures none { (members : ℕ) (window : Window) (at : ℤ) (turns who : ℕ) (situation : Situation)
        → GoesFreely members window at turns who situation [] }
    ensures others { (members : ℕ) (window : Window) (at : ℤ) (turns who : ℕ) (situation : Situation) (rows more : List Row)
        → GoesFreely members window at turns who situation rows → AreOthers who more
        → GoesFreely members window at turns who situation (rows ++ more) }
    ensures own { (members : ℕ) (window : Window) (at : ℤ) (turns who : ℕ) (situation : Situation) (rows : List Row) (row : Row)
        → GoesFreely members window at turns who situation rows
        → IsFreeTurn members window at turns who (course_of members who situation rows) row
        → GoesFreely members window at turns who situation (rows ++ row ∷ []) }
    ensures taken { (members who : ℕ) (situation : Situation) (rows : List Row) → (course_of members who situation rows).taken ≡ turns_had who rows }
    ensures seen { (members who : ℕ) (situation : Situation) (rows : List Row) (row : Row) → is_turn_of who row.turn ≡ true
        → (course_of members who situation (rows ++ row ∷ [])).seen ≡ after_all_posted members situation (rows ++ row ∷ []) }
    ensures here { (members who : ℕ) (situation : Situation) (rows : List Row)
        → (course_of members who situation rows).here ≡ after_all_posted members situation rows }
{}

/// In a part each replica that runs as it ends has had just so many turns, and one that was stopped as it began has had none.
pub fn each_replica_has_all_its_turns()
    ensures all { (members : ℕ) (window : Window) (at : ℤ) (turns who : ℕ) (situation after : Situation) (rows : List Row)
        → IsFreePart members window at turns situation rows after → who < members → after.standing.runs who ≡ true → turns_had who rows ≡ turns }
    ensures stopped { (members : ℕ) (window : Window) (at : ℤ) (turns who : ℕ) (situation after : Situation) (rows : List Row)
        → IsFreePart members window at turns situation rows after → who < members → situation.standing.runs who ≡ false → turns_had who rows ≡ 0 }
{}

/// A replica that stops in a part has no later turn in it. There is such a part: of two replicas with two turns each, the one whose disk
/// lets no call pass stops as it stands for leader, and the other one's clock ticks twice. It is a legal book.
pub fn a_replica_that_stops_has_no_later_turn()
    ensures none { (members : ℕ) (window : Window) (at : ℤ) (turns who : ℕ) (situation : Situation) (rows more : List Row) (row : Row)
        (cause : Option Cause) (kept : Bool) → GoesFreely members window at turns who situation (rows ++ row ∷ more)
        → row.turn ≡ Stopped who cause kept → AreOthers who more }
    ensures some { (rows : List Row) × (after : Situation) × IsLegal 2 no_jobs rows
        × IsPartOf 2 no_jobs (command.Free (record { 0 = pos 0 }) 2) (armed_by 0 0 0 (first_situation 2 no_jobs)) rows after
        × (map (λ row. row.turn) rows
        ≡ Stopped 0 (Some Campaign) false ∷ Did 1 (Tick (record { 0 = pos 0 })) None ∷ Did 1 (Tick (record { 0 = pos 0 })) None ∷ []) }
{}

/// A part shows where it ends: no part goes on behind another one from the same situation.
pub fn a_free_part_shows_its_end()
    ensures { (members : ℕ) (window : Window) (at : ℤ) (turns : ℕ) (situation after behind : Situation) (rows more : List Row)
        → IsFreePart members window at turns situation rows after → IsFreePart members window at turns situation (rows ++ more) behind
        → more ≡ [] }
{}

/// There are parts of several orders: two replicas have two turns each, in one minute. Where replica 0 has its first turn first, and
/// stands for leader in it, replica 1 hears of that in its second turn; where replica 1 has its turns first, its clock ticks twice. Both
/// are legal books.
pub fn which_turn_comes_first_is_free()
    ensures heard { (rows : List Row) × (after : Situation) × IsLegal 2 no_jobs rows
        × IsPartOf 2 no_jobs (command.Free (record { 0 = pos 0 }) 2) (first_situation 2 no_jobs) rows after
        × (map (λ row. row.turn) rows
        ≡ Did 0 Campaign None ∷ Did 1 (Tick (record { 0 = pos 0 })) None ∷ Did 1 (Hear 0) None ∷ Did 0 (Tick (record { 0 = pos 0 })) None ∷ []) }
    ensures unheard { (rows : List Row) × (after : Situation) × IsLegal 2 no_jobs rows
        × IsPartOf 2 no_jobs (command.Free (record { 0 = pos 0 }) 2) (first_situation 2 no_jobs) rows after
        × (map (λ row. row.turn) rows
        ≡ Did 1 (Tick (record { 0 = pos 0 })) None ∷ Did 1 (Tick (record { 0 = pos 0 })) None ∷ Did 0 Campaign None ∷ Did 0 (Tick (record { 0 = pos 0 })) None ∷ []) }
{}
