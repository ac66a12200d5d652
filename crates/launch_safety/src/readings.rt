//! Laws of the clock readings by which launches start and are called. Each is the contract of a function that does nothing.
ghost use Rattle.std.specs.Prelude.{◌≡◌, ◌≤◌, ◌≤ℤ◌, ℕ, ℤ, Contains, List};
ghost use Rattle.paxos_base.specs.declared.entry.Entry.{Entry};
ghost use Rattle.paxos_base.specs.declared.entry.Entry.TheVariants.{Start, Table as TableEntry};
ghost use Rattle.due_set.specs.Table.{Table};
ghost use Rattle.cluster_sched.specs.declared.row.SchedRow.{SchedRow};
ghost use Rattle.launch_machine.specs.Clerk.{first_rows};
ghost use Rattle.launch_machine.specs.declared.machine.Intent.TheVariants as intent;
ghost use Rattle.launch_safety.specs.Fits.{IsEffective};
ghost use Rattle.agreement.specs.Log.{IsLog};
ghost use Rattle.agreement.specs.World.{CastVote};
ghost use Rattle.history.specs.Book.{Row, standing_after, votes_in};
ghost use Rattle.history.specs.Legal.{IsLegal};
ghost use Rattle.launch_safety.specs.Fitting.{held_in};
ghost use Rattle.launch_safety.specs.Readings.{AreTurnsBy};
ghost use Rattle.launch_safety.specs.Asked.{IsAskedAt};

/// In a legal book of one to seven replicas each vote for the start of a launch, chosen or not, goes back to a turn whose clock read
/// the start's instant. The replica that had the turn had learned all below the vote's slot, and its launch table asked for that start.
pub fn each_start_was_read()
    ensures { (members : ℕ) (table : Table) (book : List Row) (cast : CastVote) (job : ℕ) (at now : ℤ) → members ≤ 7
        → IsLegal members table book → Contains (votes_in book) cast → cast.vote.entry ≡ Start job at now
        → IsAskedAt members table book cast.vote.slot now (intent.Start job at) }
{}

/// In a legal book each vote for the adoption of a version, chosen or not, goes back to such a turn too, by whose launch table that was
/// asked for.
pub fn each_adoption_was_read()
    ensures { (members : ℕ) (table : Table) (book : List Row) (cast : CastVote) (version : ℕ) (now : ℤ) → members ≤ 7
        → IsLegal members table book → Contains (votes_in book) cast → cast.vote.entry ≡ TableEntry version now
        → IsAskedAt members table book cast.vote.slot now (intent.Adopt version) }
{}

/// In a legal book each row that is held, and each late call, arrived or not, was called in a turn whose clock read what the row
/// says, by a replica whose launch table asked for that call then.
pub fn each_call_was_read()
    ensures held { (members : ℕ) (table : Table) (book : List Row) (row : SchedRow) → members ≤ 7 → IsLegal members table book
        → Contains (held_in members table book) row
        → (slot : ℕ) × IsAskedAt members table book slot row.now.0 (intent.Call row.name.job row.name.at row.kind) }
    ensures late { (members : ℕ) (table : Table) (book : List Row) (row : SchedRow) → members ≤ 7 → IsLegal members table book
        → Contains (standing_after members (first_rows table) book).late row
        → (slot : ℕ) × IsAskedAt members table book slot row.now.0 (intent.Call row.name.job row.name.at row.kind) }
{}

/// In a legal book in which no clock has passed an instant, no start in the log is of a later one.
pub fn no_start_is_ahead()
    ensures { (members : ℕ) (table : Table) (book : List Row) (log : List Entry) (job : ℕ) (at now until : ℤ) → members ≤ 7
        → IsLegal members table book → IsLog members (votes_in book) log → IsEffective table log (Start job at now)
        → AreTurnsBy until book → now ≤ℤ until }
{}
