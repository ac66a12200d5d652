//! Laws of quiet: a leader that is idle where all have learned as much. Each is the contract of a function that does nothing.
ghost use Rattle.std.specs.Prelude.{◌≡◌, ℕ, ◌<◌, ℤ, List, length};
ghost use Rattle.paxos_base.specs.declared.entry.Entry.{Entry};
ghost use Rattle.paxos_base.specs.declared.entry.Vote.{Vote};
ghost use Rattle.paxos_base.specs.declared.rows.JobRow.{JobRow};
ghost use Rattle.due_set.specs.Table.{Table};
ghost use Rattle.launch_machine.specs.Clerk.{IsClerkOf, first_rows, NoStart, NoTable};
ghost use Rattle.launch_machine.specs.Intent.{NoCall};
ghost use Rattle.step_spec.specs.State.{prefix_of};
ghost use Rattle.agreement.specs.Log.{IsLog};
ghost use Rattle.history.specs.Book.{Row, standing_after, votes_in};
ghost use Rattle.history.specs.Legal.{IsLegal};
ghost use Rattle.synchronous_rounds.specs.Cluster.{Cluster};
ghost use Rattle.synchronous_rounds.specs.LedAlone.{Progress};
ghost use Rattle.script_semantics.specs.Settling.{IsQuiet};
ghost use Rattle.script_semantics.specs.Situation.{Situation};
ghost use Rattle.synchronous_rounds.specs.CatchUp.{HaveCaughtUp, IsIdle};
ghost use Rattle.settling.specs.Quiet.{EndsQuietly, HasPromisedMost, IsSituationOf};

/// A leader that is idle, where all have learned as much, leads in a quiet situation, and nobody has promised a higher ballot.
/// A legal book that comes to it ends quietly.
pub fn caught_up_and_idle_is_quiet()
    ensures quiet { (members leader : ℕ) (best : List Vote) (at : Progress) (now : ℤ) (cluster : Cluster) (situation : Situation)
        → IsIdle members leader best at now cluster → HaveCaughtUp members at.prefix cluster → IsSituationOf cluster situation
        → IsQuiet members at.table leader now situation }
    ensures highest { (members leader : ℕ) (best : List Vote) (at : Progress) (now : ℤ) (cluster : Cluster) (situation : Situation)
        → IsIdle members leader best at now cluster → IsSituationOf cluster situation → HasPromisedMost members leader situation }
    ensures ends { (members leader : ℕ) (best : List Vote) (at : Progress) (now : ℤ) (cluster : Cluster) (situation : Situation) (book : List Row)
        (log : List Entry)
        → IsIdle members leader best at now cluster → HaveCaughtUp members at.prefix cluster → IsSituationOf cluster situation
        → IsLegal members at.table book → situation.standing ≡ standing_after members (first_rows at.table) book → IsLog members (votes_in book) log
        → EndsQuietly members at.table book leader now situation log }
{}

/// Where a legal book comes to a quiet situation in which nobody has promised a higher ballot than its leader, each replica has
/// learned the whole log; and of the launch table of the log no launch may be called at the instant, none is to start, and no
/// version of the table of jobs may be adopted.
pub fn quiet_says_it_of_the_whole_log()
    ensures learned { (members : ℕ) (table : Table) (book : List Row) (who : ℕ) (now : ℤ) (situation : Situation) (log : List Entry) (other : ℕ)
        → EndsQuietly members table book who now situation log → other < members
        → prefix_of (situation.standing.replicas other) ≡ length log }
    ensures calls { (members : ℕ) (table : Table) (book : List Row) (who : ℕ) (now : ℤ) (situation : Situation) (log : List Entry) (rows : List JobRow)
        → EndsQuietly members table book who now situation log → IsClerkOf table log rows → NoCall table rows now }
    ensures starts { (members : ℕ) (table : Table) (book : List Row) (who : ℕ) (now : ℤ) (situation : Situation) (log : List Entry) (rows : List JobRow)
        → EndsQuietly members table book who now situation log → IsClerkOf table log rows → NoStart table rows now }
    ensures versions { (members : ℕ) (table : Table) (book : List Row) (who : ℕ) (now : ℤ) (situation : Situation) (log : List Entry) (rows : List JobRow)
        → EndsQuietly members table book who now situation log → IsClerkOf table log rows → NoTable table rows now }
{}

/// There is a legal book that comes to a quiet situation in which nobody has promised a higher ballot than its leader.
pub fn a_book_may_end_quietly()
    ensures { (members : ℕ) × (table : Table) × (book : List Row) × (who : ℕ) × (now : ℤ) × (situation : Situation) × (log : List Entry)
        × EndsQuietly members table book who now situation log }
{}
