//! Laws of scripts. Each is the contract of a function that does nothing.
ghost use Rattle.std.specs.Prelude.{◌≡◌, ◌≢◌, ℕ, ◌-◌, ◌<◌, ◌≤◌, ◌<ℤ◌, ◌≤ℤ◌, ℤ, pos, ◌+ℤ◌, Bool, true, false, List, [], ◌∷◌, ◌++◌, drop, length, map, Option, None, Some, IsSome, AllPairs, Contains, get_or, slice_get};
ghost use Rattle.paxos_base.specs.declared.durable.Delta.{Delta};
ghost use Rattle.save_calls.specs.Save.{bases_after, calls_of_delta, is_kept};
ghost use Rattle.zone_minutes.specs.Window.{IsInWindow};
ghost use Rattle.zone_minutes.specs.declared.minute.Minute.{Minute};
ghost use Rattle.zone_minutes.specs.declared.minute.Window.{Window};
ghost use Rattle.cluster_sched.specs.declared.fate.Fate.TheVariants as fate;
ghost use Rattle.cluster_sched.specs.declared.row.SchedRow.{SchedRow};
ghost use Rattle.due_set.specs.Table.{Table};
ghost use Rattle.step_spec.specs.Folds.{deltas_of};
ghost use Rattle.step_spec.specs.State.{State, prefix_of};
ghost use Rattle.script_text.specs.declared.command.Command.{Command};
ghost use Rattle.script_text.specs.declared.command.Command.TheVariants as command;
ghost use Rattle.script_text.specs.declared.command.FateWord.{FateWord};
ghost use Rattle.script_text.specs.declared.command.FateWord.TheVariants as word;
ghost use Rattle.history.specs.Book.{PostedLetter, Row, acts_at, turn_of};
ghost use Rattle.history.specs.Legal.{IsLate, IsLegal};
ghost use Rattle.history.specs.Some.{no_jobs};
ghost use Rattle.history.specs.declared.turn.CallRow.{CallRow};
ghost use Rattle.history.specs.declared.turn.Cause.{Cause};
ghost use Rattle.history.specs.declared.turn.Cause.TheVariants.{Campaign, Tick, Hear, Answer};
ghost use Rattle.history.specs.declared.turn.Turn.TheVariants.{Did, Stopped, Restarted};
ghost use Rattle.script_semantics.specs.Arms.{AreArmsOfRunning, AreTurnsByArms, AreUnarmed, IsTurnByArm, PerformsByArms, armed_by, is_task_of};
ghost use Rattle.script_semantics.specs.Commands.{arrival_tasks, each_once, from_one, set_by, tasks_for};
ghost use Rattle.script_semantics.specs.Free.{is_turn_of};
ghost use Rattle.script_semantics.specs.Round.{clock_reading, round_tasks};
ghost use Rattle.script_semantics.specs.Script.{IsPartOf, Obeys};
ghost use Rattle.script_semantics.specs.Settling.{AsksNothingUntil, Drains, IsNextMinute, IsQuiet, Settles, Walks, cleared, coordinator, restart_tasks};
ghost use Rattle.script_semantics.specs.Situation.{AreTurnsFor, Armed, Does, IsTurnFor, Performs, Situation, Task, Arrive, Do, Restart, Stop, after_turn, after_turns, first_situation, letters_for, reaches};

/// A clock reads a minute of the window, however far it is ahead or behind; and where it is right within the window, it reads
/// the instant.
pub fn a_clock_reads_a_minute_of_the_window()
    ensures within { (window : Window) (at skew : ℤ) → window.from.0 <ℤ window.until.0 → IsInWindow window (clock_reading window at skew).0 }
    ensures ahead { (window : Window) (at skew : ℤ) → IsInWindow window (at +ℤ skew) → (clock_reading window at skew).0 ≡ at +ℤ skew }
{}

/// Each task has one turn.
pub fn each_task_has_a_turn()
    ensures { (members : ℕ) (situation : Situation) (tasks : List Task) (rows : List Row) → AreTurnsFor members situation tasks rows
        → length rows ≡ length tasks }
{}

/// What waits for a replica as a round begins is heard in the round, and no other letter; each replica that runs takes the
/// answer that waits for it, and its clock ticks, at its own reading alone; one that is stopped has no turn.
pub fn a_round_hears_what_waited_at_its_start()
    ensures waited { (members : ℕ) (window : Window) (at : ℤ) (situation : Situation) (who number : ℕ)
        → Contains (round_tasks members window at situation) (Do who (Hear number)) → Contains (situation.mails who) number }
    ensures heard { (members : ℕ) (window : Window) (at : ℤ) (situation : Situation) (who number : ℕ) → who < members
        → situation.standing.runs who ≡ true → Contains (situation.mails who) number
        → Contains (round_tasks members window at situation) (Do who (Hear number)) }
    ensures ticks { (members : ℕ) (window : Window) (at : ℤ) (situation : Situation) (who : ℕ) → who < members
        → situation.standing.runs who ≡ true
        → Contains (round_tasks members window at situation) (Do who (Tick (clock_reading window at (situation.skews who)))) }
    ensures reading { (members : ℕ) (window : Window) (at : ℤ) (situation : Situation) (who : ℕ) (now : Minute)
        → Contains (round_tasks members window at situation) (Do who (Tick now)) → now ≡ clock_reading window at (situation.skews who) }
    ensures answers { (members : ℕ) (window : Window) (at : ℤ) (situation : Situation) (who : ℕ) → who < members
        → situation.standing.runs who ≡ true → IsSome (situation.standing.waits who)
        → Contains (round_tasks members window at situation) (Do who Answer) }
    ensures asked { (members : ℕ) (window : Window) (at : ℤ) (situation : Situation) (who : ℕ)
        → Contains (round_tasks members window at situation) (Do who Answer) → IsSome (situation.standing.waits who) }
    ensures stopped { (members : ℕ) (window : Window) (at : ℤ) (situation : Situation) (who : ℕ) (cause : Cause)
        → Contains (round_tasks members window at situation) (Do who cause) → situation.standing.runs who ≡ true }
{}

/// A round goes from replica to replica by number: each takes its answer, then its mail in order, and then its clock ticks.
pub fn a_round_goes_by_number()
    ensures { (window : Window) (at : ℤ) (situation : Situation) (answer : SchedRow) (first second third : ℕ)
        → situation.standing.runs 0 ≡ true → situation.standing.runs 1 ≡ true
        → situation.standing.waits 0 ≡ None → situation.standing.waits 1 ≡ Some answer
        → situation.mails 0 ≡ first ∷ second ∷ [] → situation.mails 1 ≡ third ∷ []
        → round_tasks 2 window at situation
        ≡ Do 0 (Hear first) ∷ Do 0 (Hear second) ∷ Do 0 (Tick (clock_reading window at (situation.skews 0)))
        ∷ Do 1 Answer ∷ Do 1 (Hear third) ∷ Do 1 (Tick (clock_reading window at (situation.skews 1))) ∷ [] }
{}

/// A letter that is heard leaves the mail of the replica that hears it, as the first of it.
pub fn a_letter_that_is_heard_leaves_its_mail()
    ensures own { (members : ℕ) (situation : Situation) (row : Row) (who number : ℕ) (made : Option CallRow)
        → row.turn ≡ Did who (Hear number) made → (after_turn members situation row).mails who ≡ drop 1 (situation.mails who) }
    ensures others { (members : ℕ) (situation : Situation) (row : Row) (who number other : ℕ) (made : Option CallRow)
        → row.turn ≡ Did who (Hear number) made → other ≢ who → (after_turn members situation row).mails other ≡ situation.mails other }
{}

/// A replica that stops loses its mail, and no other does.
pub fn a_stop_loses_the_mail_of_its_replica_alone()
    ensures own { (members : ℕ) (situation : Situation) (row : Row) (who : ℕ) (cause : Option Cause) (kept : Bool)
        → row.turn ≡ Stopped who cause kept → (after_turn members situation row).mails who ≡ [] }
    ensures others { (members : ℕ) (situation : Situation) (row : Row) (who other : ℕ) (cause : Option Cause) (kept : Bool)
        → row.turn ≡ Stopped who cause kept → other ≢ who → (after_turn members situation row).mails other ≡ situation.mails other }
{}

/// Where no disk is armed, the turns of tasks by the arms of disks are just those of the tasks; and no disk is armed after any turns.
pub fn without_arms_turns_are_those_of_the_tasks()
    ensures plain { (members : ℕ) (tasks : List Task) (situation after : Situation) (rows : List Row) → AreUnarmed situation
        → PerformsByArms members tasks situation rows after → Performs members tasks situation rows after }
    ensures by_arms { (members : ℕ) (tasks : List Task) (situation after : Situation) (rows : List Row) → AreUnarmed situation
        → Performs members tasks situation rows after → PerformsByArms members tasks situation rows after }
    ensures unarmed { (members : ℕ) (situation : Situation) (rows : List Row) → AreUnarmed situation
        → AreUnarmed (after_turns members situation rows) }
{}

/// On a disk that is armed the step of its replica comes whole where the save of the step's change takes no more calls than are left,
/// and then so many less are left. Where it takes more, the replica stops within the step, by the arm, which ends; and the numbers say
/// whether the change is kept. A step without a change comes whole, and so does each on a disk that isn't armed; and no arm begins or
/// changes by the turn of another.
pub fn a_disk_stops_where_too_few_calls_are_left()
    ensures unarmed { (members : ℕ) (situation : Situation) (who : ℕ) (cause : Cause) (row : Row)
        → IsTurnByArm members situation (Do who cause) row → situation.arms who ≡ None
        → Does situation.fates who cause row.turn × ((after_turn members situation row).arms who ≡ None) }
    ensures nothing { (members : ℕ) (situation : Situation) (who : ℕ) (cause : Cause) (row : Row) (armed : Armed)
        → IsTurnByArm members situation (Do who cause) row → situation.arms who ≡ Some armed
        → deltas_of (acts_at members situation.standing who row.event) ≡ []
        → Does situation.fates who cause row.turn × ((after_turn members situation row).arms who ≡ Some armed) }
    ensures saves { (members : ℕ) (situation : Situation) (who : ℕ) (cause : Cause) (row : Row) (armed : Armed) (change : Delta)
        → IsTurnByArm members situation (Do who cause) row → situation.arms who ≡ Some armed
        → deltas_of (acts_at members situation.standing who row.event) ≡ change ∷ [] → calls_of_delta change ≤ armed.left
        → Does situation.fates who cause row.turn
        × ((after_turn members situation row).arms who ≡ Some (record armed { left = armed.left - calls_of_delta change })) }
    ensures stops { (members : ℕ) (situation : Situation) (who : ℕ) (cause : Cause) (row : Row) (armed : Armed) (change : Delta)
        → IsTurnByArm members situation (Do who cause) row → situation.arms who ≡ Some armed
        → deltas_of (acts_at members situation.standing who row.event) ≡ change ∷ [] → armed.left < calls_of_delta change
        → (row.turn ≡ Stopped who (Some cause) (is_kept (situation.bases who) change armed.left armed.image))
        × ((after_turn members situation row).arms who ≡ None) }
    ensures others { (members : ℕ) (situation : Situation) (row : Row) (other : ℕ) → is_turn_of other row.turn ≡ false
        → (after_turn members situation row).arms other ≡ situation.arms other }
{}

/// A replica that has stopped within a step has no further turn among those of the tasks, and so none in the same round. Each task of
/// another that doesn't stop within a step has its turn.
pub fn a_replica_that_stops_has_no_further_turn()
    ensures none { (members : ℕ) (situation : Situation) (tasks : List Task) (rows : List Row) (first second : ℕ) (one other : Row) (who : ℕ)
        (cause : Cause) (kept : Bool)
        → AreTurnsByArms members situation tasks rows → slice_get rows first ≡ Some one → slice_get rows second ≡ Some other
        → first < second → one.turn ≡ Stopped who (Some cause) kept → is_turn_of who other.turn ≡ false }
    ensures others { (members : ℕ) (situation : Situation) (tasks : List Task) (rows : List Row) (task : Task)
        → AreTurnsByArms members situation tasks rows → Contains tasks task
        → ((row : Row) (who : ℕ) (cause : Cause) (kept : Bool) → Contains rows row → row.turn ≡ Stopped who (Some cause) kept
        → is_task_of who task ≡ false)
        → (row : Row) × (here : Situation) × Contains rows row × IsTurnByArm members here task row }
{}

/// A replica that stops, within a step or between two, has a disk that isn't armed, and the arms of others stay; so a command that
/// stops it takes back its arm. After settling and after a walk no disk is armed.
pub fn a_stop_ends_the_arm_of_its_replica_alone()
    ensures own { (members : ℕ) (situation : Situation) (row : Row) (who : ℕ) (cause : Option Cause) (kept : Bool)
        → row.turn ≡ Stopped who cause kept → (after_turn members situation row).arms who ≡ None }
    ensures others { (members : ℕ) (situation : Situation) (row : Row) (who other : ℕ) (cause : Option Cause) (kept : Bool)
        → row.turn ≡ Stopped who cause kept → other ≢ who → (after_turn members situation row).arms other ≡ situation.arms other }
    ensures stopped { (members : ℕ) (table : Table) (who : ℕ) (situation after : Situation) (rows : List Row) → situation.standing.runs who ≡ true
        → IsPartOf members table (command.Stop who) situation rows after → after.arms who ≡ None }
    ensures settled { (members : ℕ) (table : Table) (at : ℤ) (situation after : Situation) (rows : List Row)
        → Settles members table at situation rows after → AreUnarmed after }
    ensures walked { (members : ℕ) (table : Table) (to : ℤ) (situation after : Situation) (rows : List Row)
        → Walks members table to situation rows after → AreUnarmed after }
{}

/// The part of a break arms a disk, and does nothing else. The disk counts from its first call on, whatever arm it had before; the disk
/// of a replica that is stopped isn't armed, and no other disk is.
pub fn an_arm_begins_its_count_anew()
    ensures armed { (situation : Situation) (who : ℕ) (armed : Armed) → situation.standing.runs who ≡ true
        → (armed_by who armed.left armed.image situation).arms who ≡ Some armed }
    ensures part { (members : ℕ) (table : Table) (who pass image : ℕ) (situation after : Situation) (rows : List Row)
        → IsPartOf members table (command.Break who pass image) situation rows after → after ≡ armed_by who pass image situation }
    ensures anew { (situation : Situation) (who pass image first had every : ℕ)
        → (armed_by who pass image (armed_by who first had situation)).arms every ≡ (armed_by who pass image situation).arms every }
    ensures stopped { (situation : Situation) (who pass image : ℕ) → situation.standing.runs who ≡ false
        → armed_by who pass image situation ≡ situation }
    ensures others { (situation : Situation) (who pass image other : ℕ) → other ≢ who
        → (armed_by who pass image situation).arms other ≡ situation.arms other }
{}

/// A disk is armed only while its replica runs: so it is before any turn, and after each part of a script before which it is.
pub fn a_disk_is_armed_only_while_its_replica_runs()
    ensures first { (members : ℕ) (table : Table) → AreArmsOfRunning (first_situation members table) }
    ensures on { (members : ℕ) (table : Table) (given : Command) (situation after : Situation) (rows : List Row) → AreArmsOfRunning situation
        → IsPartOf members table given situation rows after → AreArmsOfRunning after }
{}

/// Of each replica the bases that it has kept are counted: those of its steps, and those that were kept where it stopped within one; one
/// that was lost isn't, and no turn counts for another replica.
pub fn each_base_that_is_kept_counts()
    ensures step { (members : ℕ) (situation : Situation) (row : Row) (who : ℕ) (cause : Cause) (made : Option CallRow) (change : Delta)
        → row.turn ≡ Did who cause made → deltas_of (acts_at members situation.standing who row.event) ≡ change ∷ []
        → (after_turn members situation row).bases who ≡ bases_after change (situation.bases who) }
    ensures kept { (members : ℕ) (situation : Situation) (row : Row) (who : ℕ) (cause : Cause) (change : Delta)
        → row.turn ≡ Stopped who (Some cause) true → deltas_of (acts_at members situation.standing who row.event) ≡ change ∷ []
        → (after_turn members situation row).bases who ≡ bases_after change (situation.bases who) }
    ensures lost { (members : ℕ) (situation : Situation) (row : Row) (who : ℕ) (cause : Option Cause) → row.turn ≡ Stopped who cause false
        → (after_turn members situation row).bases ≡ situation.bases }
    ensures nothing { (members : ℕ) (situation : Situation) (row : Row) (who : ℕ) (cause : Cause) (made : Option CallRow)
        → row.turn ≡ Did who cause made → deltas_of (acts_at members situation.standing who row.event) ≡ []
        → (after_turn members situation row).bases who ≡ situation.bases who }
    ensures others { (members : ℕ) (situation : Situation) (row : Row) (other : ℕ) → is_turn_of other row.turn ≡ false
        → (after_turn members situation row).bases other ≡ situation.bases other }
{}

/// A call has the fate that is set for its replica, and spends it; no other turn does, and no other replica's fate is spent.
pub fn a_fate_is_spent_by_its_replicas_call()
    ensures fate { (situation : Situation) (who : ℕ) (cause : Cause) (made : CallRow)
        → IsTurnFor situation.fates (Do who cause) (Did who cause (Some made)) → made.fate ≡ situation.fates who }
    ensures call { (members : ℕ) (situation : Situation) (row : Row) (who : ℕ) (cause : Cause) (made : CallRow)
        → row.turn ≡ Did who cause (Some made) → (after_turn members situation row).fates who ≡ fate.Done }
    ensures others { (members : ℕ) (situation : Situation) (row : Row) (other : ℕ) → turn_of row.turn ≢ Some other
        → (after_turn members situation row).fates other ≡ situation.fates other }
    ensures no_call { (members : ℕ) (situation : Situation) (row : Row)
        → ((who : ℕ) (cause : Cause) (made : CallRow) → row.turn ≡ Did who cause (Some made) → ⊥)
        → (after_turn members situation row).fates ≡ situation.fates }
{}

/// The letters that turns sent join the mails behind what waits there, each its addressee's: no letter that was sent before them,
/// none to a replica that doesn't run, and each that reaches the replica. So they do where a disk that is armed may stop.
pub fn letters_join_the_mail_of_their_addressee()
    ensures behind { (members : ℕ) (tasks : List Task) (situation after : Situation) (rows : List Row) (who : ℕ)
        → Performs members tasks situation rows after
        → after.mails who ≡ (after_turns members situation rows).mails who
        ++ letters_for (after_turns members situation rows) (length situation.standing.posted) who }
    ensures by_arms { (members : ℕ) (tasks : List Task) (situation after : Situation) (rows : List Row) (who : ℕ)
        → PerformsByArms members tasks situation rows after
        → after.mails who ≡ (after_turns members situation rows).mails who
        ++ letters_for (after_turns members situation rows) (length situation.standing.posted) who }
    ensures sent { (situation : Situation) (first who number : ℕ) → Contains (letters_for situation first who) number
        → (first ≤ number) × (number < length situation.standing.posted) }
    ensures addressee { (situation : Situation) (first who number : ℕ) (letter : PostedLetter)
        → slice_get situation.standing.posted number ≡ Some letter → Contains (letters_for situation first who) number
        → (letter.to ≡ who) × (situation.standing.runs who ≡ true) }
    ensures all { (situation : Situation) (first who number : ℕ) (letter : PostedLetter)
        → slice_get situation.standing.posted number ≡ Some letter → first ≤ number → reaches situation who (Some letter) ≡ true
        → Contains (letters_for situation first who) number }
{}

/// A replica that runs stands for leader or stops when it is told to, and one that is stopped starts; else it has no turn.
pub fn a_command_has_its_turn_where_it_may_come()
    ensures campaign { (situation : Situation) (who : ℕ) → situation.standing.runs who ≡ true
        → tasks_for (command.Campaign who) situation ≡ Do who Campaign ∷ [] }
    ensures stop { (situation : Situation) (who : ℕ) → situation.standing.runs who ≡ true
        → tasks_for (command.Stop who) situation ≡ Stop who ∷ [] }
    ensures restart { (situation : Situation) (who : ℕ) → situation.standing.runs who ≡ false
        → tasks_for (command.Restart who) situation ≡ Restart who ∷ [] }
    ensures stopped { (situation : Situation) (who : ℕ) → situation.standing.runs who ≡ false
        → (tasks_for (command.Campaign who) situation ≡ []) × (tasks_for (command.Stop who) situation ≡ []) }
    ensures running { (situation : Situation) (who : ℕ) → situation.standing.runs who ≡ true
        → tasks_for (command.Restart who) situation ≡ [] }
{}

/// A skew or a fate is set for its replica alone; a letter that comes again joins its addressee's mail, if that runs.
pub fn a_setting_is_of_its_replica_alone()
    ensures skew { (situation : Situation) (who : ℕ) (minutes : ℤ) → (set_by (command.Skew who minutes) situation).skews who ≡ minutes }
    ensures other_skews { (situation : Situation) (who other : ℕ) (minutes : ℤ) → other ≢ who
        → (set_by (command.Skew who minutes) situation).skews other ≡ situation.skews other }
    ensures fate { (situation : Situation) (who : ℕ) → (set_by (command.Fate who word.LostBefore) situation).fates who ≡ fate.LostBefore }
    ensures other_fates { (situation : Situation) (who other : ℕ) (word : FateWord) → other ≢ who
        → (set_by (command.Fate who word) situation).fates other ≡ situation.fates other }
    ensures again { (situation : Situation) (number : ℕ) (letter : PostedLetter)
        → slice_get situation.standing.posted number ≡ Some letter → situation.standing.runs letter.to ≡ true
        → (set_by (command.Again number) situation).mails letter.to ≡ situation.mails letter.to ++ number ∷ [] }
    ensures stopped { (situation : Situation) (number : ℕ) (letter : PostedLetter)
        → slice_get situation.standing.posted number ≡ Some letter → situation.standing.runs letter.to ≡ false
        → set_by (command.Again number) situation ≡ situation }
{}

/// The latest reading is at least that of each tick, also of one within which a replica stopped, and never falls.
pub fn the_latest_reading_never_falls()
    ensures tick { (members : ℕ) (situation : Situation) (row : Row) (who : ℕ) (now : Minute) (made : Option CallRow)
        → row.turn ≡ Did who (Tick now) made → now.0 ≤ℤ (after_turn members situation row).latest }
    ensures within { (members : ℕ) (situation : Situation) (row : Row) (who : ℕ) (now : Minute) (kept : Bool)
        → row.turn ≡ Stopped who (Some (Tick now)) kept → now.0 ≤ℤ (after_turn members situation row).latest }
    ensures rises { (members : ℕ) (situation : Situation) (row : Row) → situation.latest ≤ℤ (after_turn members situation row).latest }
{}

/// A cut loses the letters from the one replica to the other from now on, and no other letter; what waits already stays. Once
/// it is healed, a letter to a replica that runs reaches it.
pub fn a_cut_loses_letters_from_now_on()
    ensures lost { (situation : Situation) (who : ℕ) (letter : PostedLetter)
        → reaches (set_by (command.Cut letter.from letter.to) situation) who (Some letter) ≡ false }
    ensures others { (situation : Situation) (from to who : ℕ) (letter : PostedLetter) → (letter.from ≡ from → letter.to ≡ to → ⊥)
        → reaches (set_by (command.Cut from to) situation) who (Some letter) ≡ reaches situation who (Some letter) }
    ensures waiting { (situation : Situation) (from to who : ℕ) → (set_by (command.Cut from to) situation).mails who ≡ situation.mails who }
    ensures healed { (situation : Situation) (letter : PostedLetter) → situation.standing.runs letter.to ≡ true
        → reaches (set_by command.Heal situation) letter.to (Some letter) ≡ true }
{}

/// The letters that are dropped leave one replica's mail, are all from one replica, and are all that are from it.
pub fn dropped_letters_are_those_of_one_replica()
    ensures dropped { (situation : Situation) (from to number : ℕ) (letter : PostedLetter)
        → slice_get situation.standing.posted number ≡ Some letter → letter.from ≡ from
        → Contains ((set_by (command.Drop from to) situation).mails to) number → ⊥ }
    ensures stays { (situation : Situation) (from to number : ℕ) (letter : PostedLetter)
        → slice_get situation.standing.posted number ≡ Some letter → letter.from ≢ from → Contains (situation.mails to) number
        → Contains ((set_by (command.Drop from to) situation).mails to) number }
    ensures no_more { (situation : Situation) (from to number : ℕ) → Contains ((set_by (command.Drop from to) situation).mails to) number
        → Contains (situation.mails to) number }
    ensures others { (situation : Situation) (from to other : ℕ) → other ≢ to
        → (set_by (command.Drop from to) situation).mails other ≡ situation.mails other }
{}

/// A repeat adds to a mail, behind it, each letter of it that is from the one replica, once.
pub fn repeated_letters_join_once_each()
    ensures behind { (situation : Situation) (from to : ℕ) → (set_by (command.Repeat from to) situation).mails to
        ≡ situation.mails to ++ each_once (from_one situation.standing.posted from (situation.mails to)) }
    ensures from { (situation : Situation) (from to number : ℕ) (letter : PostedLetter)
        → slice_get situation.standing.posted number ≡ Some letter → letter.from ≡ from → Contains (situation.mails to) number
        → Contains (each_once (from_one situation.standing.posted from (situation.mails to))) number }
    ensures no_more { (situation : Situation) (from to number : ℕ) (letter : PostedLetter)
        → slice_get situation.standing.posted number ≡ Some letter
        → Contains (each_once (from_one situation.standing.posted from (situation.mails to))) number
        → (letter.from ≡ from) × Contains (situation.mails to) number }
    ensures once { (numbers : List ℕ) → AllPairs (λ one other. one ≢ other) (each_once numbers) }
    ensures others { (situation : Situation) (from to other : ℕ) → other ≢ to
        → (set_by (command.Repeat from to) situation).mails other ≡ situation.mails other }
{}

/// A mail that is reversed has its last letter first, and is as it was once it is reversed again; no other mail changes.
pub fn a_mail_reversed_twice_is_as_it_was()
    ensures twice { (situation : Situation) (who : ℕ)
        → (set_by (command.Reverse who) (set_by (command.Reverse who) situation)).mails who ≡ situation.mails who }
    ensures place { (situation : Situation) (who place : ℕ) → place < length (situation.mails who)
        → get_or ((set_by (command.Reverse who) situation).mails who) place 0
        ≡ get_or (situation.mails who) (length (situation.mails who) - 1 - place) 0 }
    ensures others { (situation : Situation) (who other : ℕ) → other ≢ who
        → (set_by (command.Reverse who) situation).mails other ≡ situation.mails other }
{}

/// A call arrives where it is late and hasn't arrived, and otherwise nothing does.
pub fn an_arrival_is_of_a_call_that_is_late()
    ensures arrives { (late : ℕ) (situation : Situation) → IsLate situation.standing late → arrival_tasks late situation ≡ Arrive late ∷ [] }
    ensures none { (late : ℕ) (situation : Situation) → (IsLate situation.standing late → ⊥) → arrival_tasks late situation ≡ [] }
{}

/// Commands that set something have no turn.
pub fn commands_without_a_turn_have_none()
    ensures cut { (members : ℕ) (table : Table) (from to : ℕ) (situation after : Situation) (rows : List Row)
        → IsPartOf members table (command.Cut from to) situation rows after → rows ≡ [] }
    ensures heal { (members : ℕ) (table : Table) (situation after : Situation) (rows : List Row)
        → IsPartOf members table command.Heal situation rows after → rows ≡ [] }
    ensures drop { (members : ℕ) (table : Table) (from to : ℕ) (situation after : Situation) (rows : List Row)
        → IsPartOf members table (command.Drop from to) situation rows after → rows ≡ [] }
    ensures repeat { (members : ℕ) (table : Table) (from to : ℕ) (situation after : Situation) (rows : List Row)
        → IsPartOf members table (command.Repeat from to) situation rows after → rows ≡ [] }
    ensures reverse { (members : ℕ) (table : Table) (who : ℕ) (situation after : Situation) (rows : List Row)
        → IsPartOf members table (command.Reverse who) situation rows after → rows ≡ [] }
    ensures again { (members : ℕ) (table : Table) (number : ℕ) (situation after : Situation) (rows : List Row)
        → IsPartOf members table (command.Again number) situation rows after → rows ≡ [] }
    ensures skew { (members : ℕ) (table : Table) (who : ℕ) (minutes : ℤ) (situation after : Situation) (rows : List Row)
        → IsPartOf members table (command.Skew who minutes) situation rows after → rows ≡ [] }
    ensures fate { (members : ℕ) (table : Table) (who : ℕ) (word : FateWord) (situation after : Situation) (rows : List Row)
        → IsPartOf members table (command.Fate who word) situation rows after → rows ≡ [] }
    ensures broken { (members : ℕ) (table : Table) (who pass image : ℕ) (situation after : Situation) (rows : List Row)
        → IsPartOf members table (command.Break who pass image) situation rows after → rows ≡ [] }
{}

/// The coordinator is the replica of the greatest prefix, and of those the one with the lowest number.
pub fn the_coordinator_has_learned_the_most()
    ensures member { (members : ℕ) (situation : Situation) → 0 < members → coordinator members situation < members }
    ensures most { (members : ℕ) (situation : Situation) (other : ℕ) → other < members
        → prefix_of (situation.standing.replicas other) ≤ prefix_of (situation.standing.replicas (coordinator members situation)) }
    ensures first { (members : ℕ) (situation : Situation) (other : ℕ) → 0 < members → other < coordinator members situation
        → prefix_of (situation.standing.replicas other) < prefix_of (situation.standing.replicas (coordinator members situation)) }
{}

/// As settling begins, all replicas that are stopped start again, with what they had; then no letter waits or is lost, each clock
/// is right, each call is answered, and no disk is armed.
pub fn settling_starts_all_that_are_stopped()
    ensures runs { (members : ℕ) (situation : Situation) (rows : List Row) (who : ℕ)
        → AreTurnsFor members situation (restart_tasks members situation) rows → who < members
        → (after_turns members situation rows).standing.runs who ≡ true }
    ensures states { (members : ℕ) (situation : Situation) (rows : List Row)
        → AreTurnsFor members situation (restart_tasks members situation) rows
        → (after_turns members situation rows).standing.replicas ≡ situation.standing.replicas }
    ensures faults { (situation : Situation) (who : ℕ) → ((cleared situation).mails who ≡ []) × ((cleared situation).cuts ≡ [])
        × ((cleared situation).skews who ≡ pos 0) × ((cleared situation).fates who ≡ fate.Done) × ((cleared situation).arms who ≡ None) }
{}

/// After settling each replica runs.
pub fn all_run_after_settling()
    ensures { (members : ℕ) (table : Table) (at : ℤ) (situation after : Situation) (rows : List Row) (who : ℕ)
        → Settles members table at situation rows after → who < members → after.standing.runs who ≡ true }
{}

/// Nothing more happens at an instant at which it is quiet.
pub fn a_quiet_situation_has_no_round()
    ensures { (members : ℕ) (table : Table) (who : ℕ) (at : ℤ) (situation after : Situation) (rows : List Row)
        → IsQuiet members table who at situation → Drains members table who at situation rows after
        → (rows ≡ []) × (after ≡ situation) }
{}

/// There is at most one minute at which a walk goes on.
pub fn a_walk_skips_no_minute()
    ensures { (table : Table) (state : State) (above to one other : ℤ) → IsNextMinute table state above to one
        → IsNextMinute table state above to other → one ≡ other }
{}

/// After settling it is quiet. After a walk it is quiet, and nothing is left to do up to the walk's end.
pub fn a_walk_leaves_nothing_to_do()
    ensures settled { (members : ℕ) (table : Table) (at : ℤ) (situation after : Situation) (rows : List Row)
        → Settles members table at situation rows after → (who : ℕ) × IsQuiet members table who at after }
    ensures walked { (members : ℕ) (table : Table) (to : ℤ) (situation after : Situation) (rows : List Row)
        → Walks members table to situation rows after
        → (who : ℕ) × (minute : ℤ) × (minute ≤ℤ to) × IsQuiet members table who minute after
        × AsksNothingUntil table minute to (after.standing.replicas who) }
{}

/// There are turns that obey a script and are a legal book: those of one replica without jobs, for a script without commands.
pub fn some_turns_obey_a_script()
    ensures { (rows : List Row) × (length rows ≡ 1) × IsLegal 1 no_jobs rows × Obeys 1 no_jobs [] rows }
{}

/// There are turns that obey a script in which a disk stops within a step, and are a legal book: one replica without jobs is armed, stops
/// within its campaign at the third call of the save, and keeps its change. The walk starts it again, and it stands for leader.
pub fn a_disk_may_stop_within_a_step()
    ensures { (rows : List Row)
        × (map (λ row. row.turn) rows ≡ Stopped 0 (Some Campaign) true ∷ Restarted 0 ∷ Did 0 Campaign None ∷ [])
        × IsLegal 1 no_jobs rows × Obeys 1 no_jobs (command.Break 0 2 1 ∷ command.Campaign 0 ∷ []) rows }
{}
