//! Laws of a leader that is idle. Each is the contract of a function that does nothing.
ghost use Rattle.std.specs.Prelude.{◌≡◌, ◌⊎◌, ℕ, ◌<◌, ◌≤◌, ℤ, List, Option};
ghost use Rattle.paxos_base.specs.declared.entry.Vote.{Vote};
ghost use Rattle.cluster_sched.specs.declared.row.SchedRow.{SchedRow};
ghost use Rattle.step_spec.specs.State.{prefix_of};
ghost use Rattle.synchronous_rounds.specs.Begins.{HasRebased};
ghost use Rattle.synchronous_rounds.specs.Cluster.{Advice, Cluster, IsAdvised, cluster_round};
ghost use Rattle.synchronous_rounds.specs.Flights.{with_base};
ghost use Rattle.synchronous_rounds.specs.Rounds.{IsFreeNow, StaysFree};
ghost use Rattle.synchronous_rounds.specs.LedAlone.{IsLedAlone, Progress};
ghost use Rattle.synchronous_rounds.specs.CatchUp.{AreFiveRounds, HaveCaughtUp, AreTold, HasSaidToAll, HaveAsked, IsIdle, IsRoundAt};

/// One that leads alone and is idle does so after each round at that instant, over the same entries and rows: it says to all others
/// how far it has learned, or its base rises. One that has been idle in a round does so after it, and has said so.
pub fn an_idle_leader_stays_idle()
    ensures idle { (members leader : ℕ) (best : List Vote) (at : Progress) (now : ℤ) (cluster next : Cluster)
        → IsIdle members leader best at now cluster → IsRoundAt members leader at.table now cluster next
        → (base : ℕ) × IsIdle members leader best (with_base base at) now next }
    ensures says { (members leader : ℕ) (best : List Vote) (at : Progress) (now : ℤ) (advice : ℕ → Advice) (answers : ℕ → Option SchedRow) (cluster : Cluster)
        → IsIdle members leader best at now cluster → IsAdvised members at.table now advice cluster
        → HasSaidToAll members leader at.ballot at.prefix (cluster_round members now advice answers cluster)
        ⊎ HasRebased members leader best at now advice cluster (cluster_round members now advice answers cluster) }
    ensures rested { (members leader : ℕ) (best : List Vote) (at : Progress) (now : ℤ) (advice : ℕ → Advice) (cluster next : Cluster)
        → StaysFree members leader best at now advice cluster next
        → IsIdle members leader best at now next × HasSaidToAll members leader at.ballot at.prefix next }
{}

/// Once one that leads alone has said how far it has learned, the others ask for what they lack; it tells them, where it has no flight
/// and no answer waits for it; and they have learned it: a round each. So all have learned as much after five rounds of one that is idle,
/// and it is idle still.
pub fn the_others_catch_up()
    ensures asked { (members leader ballot prefix : ℕ) (now : ℤ) (advice : ℕ → Advice) (answers : ℕ → Option SchedRow) (cluster : Cluster)
        → IsLedAlone members leader ballot prefix cluster → HasSaidToAll members leader ballot prefix cluster
        → HaveAsked members leader prefix (cluster_round members now advice answers cluster) }
    ensures told { (members leader : ℕ) (best : List Vote) (at : Progress) (now : ℤ) (advice : ℕ → Advice) (answers : ℕ → Option SchedRow) (cluster : Cluster)
        → IsFreeNow members leader best at cluster → HaveAsked members leader at.prefix cluster
        → AreTold members leader at.prefix (cluster_round members now advice answers cluster) }
    ensures learned { (members leader ballot prefix : ℕ) (now : ℤ) (advice : ℕ → Advice) (answers : ℕ → Option SchedRow) (cluster : Cluster) (who : ℕ)
        → IsLedAlone members leader ballot prefix cluster → AreTold members leader prefix cluster → who < members → (who ≡ leader → ⊥)
        → prefix_of ((cluster_round members now advice answers cluster).replicas who) ≡ prefix }
    ensures caught_up { (members leader : ℕ) (best : List Vote) (at : Progress) (now : ℤ) (cluster five : Cluster)
        → IsIdle members leader best at now cluster → AreFiveRounds members leader at.table now cluster five
        → HaveCaughtUp members at.prefix five }
    ensures idle { (members leader : ℕ) (best : List Vote) (at : Progress) (now : ℤ) (cluster five : Cluster)
        → IsIdle members leader best at now cluster → AreFiveRounds members leader at.table now cluster five
        → (base : ℕ) × IsIdle members leader best (with_base base at) now five }
{}

/// There are two replicas of which one leads alone and is idle, and the other lacks an entry that the first has learned above its
/// base, or one that its launch table stands for; and five rounds come after it.
pub fn an_idle_leader_may_be_ahead()
    ensures entries { (members : ℕ) × (leader : ℕ) × (best : List Vote) × (at : Progress) × (now : ℤ) × (cluster : Cluster) × (five : Cluster) × (who : ℕ)
        × IsIdle members leader best at now cluster × AreFiveRounds members leader at.table now cluster five × (who < members)
        × (prefix_of (cluster.replicas who) < at.prefix) × (at.base ≤ prefix_of (cluster.replicas who)) }
    ensures table { (members : ℕ) × (leader : ℕ) × (best : List Vote) × (at : Progress) × (now : ℤ) × (cluster : Cluster) × (five : Cluster) × (who : ℕ)
        × IsIdle members leader best at now cluster × AreFiveRounds members leader at.table now cluster five × (who < members)
        × (prefix_of (cluster.replicas who) < at.base) }
{}
