//! Laws of replicas of a legal book. Each is the contract of a function that does nothing.
ghost use Rattle.std.specs.Prelude.{ℕ, ◌<◌, ◌≤◌, List, ◌≡◌, false};
ghost use Rattle.due_set.specs.Table.{Table};
ghost use Rattle.launch_machine.specs.Clerk.{first_rows};
ghost use Rattle.durable_changes.specs.Anew.{ProposesAnew};
ghost use Rattle.history.specs.Book.{Row, standing_after};
ghost use Rattle.history.specs.Legal.{IsLegal};
ghost use Rattle.replica_core.specs.Replica.{ReplicaState};
ghost use Rattle.world_law.specs.Book.{BookState, StandsBehind, standing_behind};
ghost use Rattle.world_law.specs.Replicas.{StandsAt, StandsStopped};

/// After the turns of a legal book, no replica that may propose has voted at its prefix in the ballot that it leads in; so the change
/// of its next step alters what it keeps. A replica that stands where the rows of a book leave it is one of those.
pub fn a_replica_of_a_legal_book_proposes_anew()
    ensures rows { (members : ℕ) (table : Table) (rows : List Row) (who : ℕ) → members ≤ 7 → IsLegal members table rows → who < members
        → ProposesAnew ((standing_after members (first_rows table) rows).replicas who) }
    ensures replica { (table : Table) (rows : List Row) (book : BookState) (replica : ReplicaState) → book.members ≤ 7
        → StandsBehind table rows book → StandsAt table rows book replica → ProposesAnew replica.state }
{}

/// A replica of a legal book that is stopped has what it keeps, and nothing else. So a node that keeps this is all that is needed
/// to start it again.
pub fn a_stopped_replica_has_what_it_keeps()
    ensures { (table : Table) (rows : List Row) (book : BookState) (who : ℕ) → StandsBehind table rows book → who < book.members
        → (standing_behind table rows book).runs who ≡ false
        → StandsStopped table rows book who ((standing_behind table rows book).replicas who).kept }
{}
