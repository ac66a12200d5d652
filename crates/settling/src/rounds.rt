//! Laws of rounds of a legal book. Each is the contract of a function that does nothing.
ghost use Rattle.std.specs.Prelude.{◌≡◌, ℕ, ℤ, List, ◌++◌, length};
ghost use Rattle.paxos_base.specs.declared.rows.TableSize.{TableSize};
ghost use Rattle.due_set.specs.Table.{Table};
ghost use Rattle.launch_machine.specs.Clerk.{first_rows, table_size};
ghost use Rattle.history.specs.Book.{Row, standing_after};
ghost use Rattle.history.specs.Legal.{IsLegal};
ghost use Rattle.synchronous_rounds.specs.Cluster.{Cluster};
ghost use Rattle.script_semantics.specs.Arms.{AreUnarmed};
ghost use Rattle.script_semantics.specs.Situation.{Situation};
ghost use Rattle.settling.specs.Rounds.{GoesRound, GoesRounds, IsFaultless, StandsForRound, StandsForRounds};
ghost use Rattle.settling.specs.Stands.{AreMailsPosted, StandsForCluster};

/// A situation of a legal book stands for replicas and mails of letters as they are heard, where each number in a mail is that of a
/// letter that was posted to its replica.
pub fn a_situation_stands_for_one()
    ensures { (members : ℕ) (size : TableSize) (table : Table) (book : List Row) (situation : Situation) → IsLegal members table book
        → situation.standing ≡ standing_after members (first_rows table) book → AreMailsPosted situation
        → (cluster : Cluster) × StandsForCluster members size situation cluster }
{}

/// Where a legal book goes on with a round in which all run and nothing is lost, what stands after the round is what a synchronous round
/// makes of what stood before it, by true advice and by answers to the calls that were made. There is no fault after it either; and so it
/// is of the rounds of a command, one after another, where no disk is armed.
pub fn a_round_is_synchronous()
    ensures cluster { (members : ℕ) (table : Table) (at : ℤ) (book rows : List Row) (situation after : Situation) (cluster : Cluster)
        → GoesRound members table at book rows situation after → StandsForCluster members (table_size table) situation cluster
        → StandsForRound members table at cluster after }
    ensures faultless { (members : ℕ) (table : Table) (at : ℤ) (book rows : List Row) (situation after : Situation) (cluster : Cluster)
        → GoesRound members table at book rows situation after → StandsForCluster members (table_size table) situation cluster
        → IsFaultless members after }
    ensures rounds { (members : ℕ) (table : Table) (at : ℤ) (rounds : ℕ) (book rows : List Row) (situation after : Situation) (cluster : Cluster)
        → GoesRounds members table at rounds book rows situation after → AreUnarmed situation → StandsForCluster members (table_size table) situation cluster
        → StandsForRounds members table at rounds cluster after }
{}

/// There is a legal book that goes on with such a round, and its situation before the round stands for one.
pub fn a_round_may_come()
    ensures { (members : ℕ) × (table : Table) × (at : ℤ) × (book : List Row) × (rows : List Row) × (situation : Situation) × (after : Situation) ×
        (cluster : Cluster)
        × GoesRound members table at book rows situation after × StandsForCluster members (table_size table) situation cluster }
{}
