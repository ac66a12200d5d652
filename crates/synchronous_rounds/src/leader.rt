//! Laws of synchronous rounds. Each is the contract of a function that does nothing.
ghost use Rattle.std.specs.Prelude.{◌≡◌, ◌⊎◌, ℕ, ◌+◌, ◌≤◌, ◌<◌, ℤ, List, [], ◌∷◌, Option, None};
ghost use Rattle.paxos_base.specs.Vote.{votes_from};
ghost use Rattle.paxos_base.specs.declared.entry.Entry.{Entry};
ghost use Rattle.paxos_base.specs.declared.entry.Entry.TheVariants.{End};
ghost use Rattle.paxos_base.specs.declared.entry.Vote.{Vote};
ghost use Rattle.due_set.specs.Table.{IsSound, Table};
ghost use Rattle.cluster_sched.specs.declared.row.SchedRow.{SchedRow};
ghost use Rattle.launch_machine.specs.Answers.{IsIntent};
ghost use Rattle.launch_machine.specs.declared.machine.Intent.TheVariants.{Call, Rest};
ghost use Rattle.term_core.specs.declared.flight.Flight.{Flight};
ghost use Rattle.step_spec.specs.Message.{Lead};
ghost use Rattle.step_spec.specs.State.{prefix_of, promised_in};
ghost use Rattle.step_spec.specs.Step.{IsLaunchTable};
ghost use Rattle.agreement.specs.Agree.{vote_for};
ghost use Rattle.synchronous_rounds.specs.Begins.{Begins, HasAskedForCall, HasProposed, HasIdled};
ghost use Rattle.synchronous_rounds.specs.Cluster.{Advice, Cluster, IsAdvised, before_tick, calls_at, cluster_round};
ghost use Rattle.synchronous_rounds.specs.Flights.{IsAccepted, IsAsked, IsUnderWay, Proposal, asked_vote, with_base};
ghost use Rattle.synchronous_rounds.specs.Measure.{IsNearer, Reckoned, rounds_left};
ghost use Rattle.synchronous_rounds.specs.Rounds.{ComesNearer, HasAnswered, IsAnswerTo, IsAnswerable, IsFreeNow, Lands, Stage, StaysFree, WaitsOn, reckoned};
ghost use Rattle.synchronous_rounds.specs.LedAlone.{IsLeading, IsLedAlone, Occurs, Progress};

/// A proposal for which all others are asked is accepted by all in one round, and learned in the next, and each round brings its
/// leader nearer to being idle.
pub fn a_flight_lands()
    ensures accepted { (proposal : Proposal) (flight : Flight) (cluster : Cluster) (now : ℤ) (advice : ℕ → Advice) (answers : ℕ → Option SchedRow)
        → IsUnderWay proposal flight cluster → IsAsked proposal.self.members proposal.self.me (asked_vote proposal) cluster
        → IsAccepted proposal.self.members proposal.self.me proposal.at.ballot proposal.at.prefix
        (cluster_round proposal.self.members now advice answers cluster) }
    ensures first { (proposal : Proposal) (flight : Flight) (cluster : Cluster) (now : ℤ) (advice : ℕ → Advice) (answers : ℕ → Option SchedRow)
        → IsUnderWay proposal flight cluster → IsAdvised proposal.self.members proposal.at.table now advice cluster
        → WaitsOn proposal now advice cluster (cluster_round proposal.self.members now advice answers cluster)
        ⊎ Lands proposal now advice cluster (cluster_round proposal.self.members now advice answers cluster) }
    ensures second { (proposal : Proposal) (flight : Flight) (cluster : Cluster) (now : ℤ) (advice : ℕ → Advice) (answers : ℕ → Option SchedRow)
        → IsUnderWay proposal flight cluster → IsAdvised proposal.self.members proposal.at.table now advice cluster
        → IsAccepted proposal.self.members proposal.self.me proposal.at.ballot proposal.at.prefix cluster
        → Lands proposal now advice cluster (cluster_round proposal.self.members now advice answers cluster) }
{}

/// Once one replica leads alone, it leads alone after each round.
pub fn one_leads_on()
    ensures { (members leader ballot prefix later : ℕ) (table : Table) (now : ℤ) (advice : ℕ → Advice) (answers : ℕ → Option SchedRow) (cluster : Cluster)
        → IsLedAlone members leader ballot prefix cluster → IsAdvised members table now advice cluster → prefix ≤ later
        → promised_in ((cluster_round members now advice answers cluster).replicas leader).kept ≤ ballot
        → prefix_of ((cluster_round members now advice answers cluster).replicas leader) ≤ later
        → IsLedAlone members leader ballot later (cluster_round members now advice answers cluster) }
{}

/// A leader without a flight, for which no answer waits, proposes what is needed and asks all others for their votes, or its base
/// rises, or it calls the scheduler for a launch that is open, or it has nothing to do and is idle. In all but the last it is nearer to
/// being idle, once a call is answered.
pub fn a_free_leader_begins()
    ensures begins { (members leader : ℕ) (best : List Vote) (at : Progress) (now : ℤ) (advice : ℕ → Advice) (answers : ℕ → Option SchedRow) (cluster : Cluster)
        → IsFreeNow members leader best at cluster → IsAdvised members at.table now advice cluster
        → Begins members leader best at now advice cluster (cluster_round members now advice answers cluster) }
    ensures nearer { (members leader : ℕ) (best : List Vote) (at : Progress) (now : ℤ) (advice : ℕ → Advice) (answers : ℕ → Option SchedRow) (cluster : Cluster)
        → IsFreeNow members leader best at cluster → IsAdvised members at.table now advice cluster
        → IsAnswerTo (calls_at members now advice cluster leader) (answers leader)
        → IsNearer at.table best (reckoned leader at.rows cluster) (reckoned leader at.rows (cluster_round members now advice answers cluster))
        ⊎ HasIdled members leader best at now advice cluster (cluster_round members now advice answers cluster) }
{}

/// A leader for which an answer waits proposes the end of its launch, and asks all others for their votes.
pub fn an_answer_is_proposed()
    ensures { (members leader : ℕ) (best : List Vote) (at : Progress) (row : SchedRow) (now : ℤ) (advice : ℕ → Advice) (answers : ℕ → Option SchedRow)
        (cluster : Cluster)
        → IsAnswerable members leader best at row cluster → IsAdvised members at.table now advice cluster
        → (answered : HasAnswered members leader best at now advice cluster (cluster_round members now advice answers cluster))
        × (answered.proposed.entry ≡ End row.name.job row.name.at row.kind) }
{}

/// One that leads once it has heard its mail, and leads alone after the round, is at a stage then: it has begun something at its tick.
pub fn a_leader_begins_at_its_tick()
    ensures { (members leader : ℕ) (best : List Vote) (at : Progress) (now : ℤ) (advice : ℕ → Advice) (answers : ℕ → Option SchedRow) (cluster : Cluster)
        → IsLeading best None at (before_tick members advice cluster leader) → IsSound at.table → IsAdvised members at.table now advice cluster
        → IsAnswerTo (calls_at members now advice cluster leader) (answers leader)
        → IsLedAlone members leader at.ballot at.prefix (cluster_round members now advice answers cluster)
        → (base : ℕ) × Stage members leader best (with_base base at) (cluster_round members now advice answers cluster) }
{}

/// A leader that leads alone does so after each round, and is nearer to being idle then, or is idle.
pub fn each_round_brings_a_leader_nearer()
    ensures { (members leader : ℕ) (best : List Vote) (at : Progress) (now : ℤ) (advice : ℕ → Advice) (answers : ℕ → Option SchedRow) (cluster : Cluster)
        → Stage members leader best at cluster → IsAdvised members at.table now advice cluster
        → IsAnswerTo (calls_at members now advice cluster leader) (answers leader)
        → ComesNearer members leader best at cluster (cluster_round members now advice answers cluster)
        ⊎ StaysFree members leader best at now advice cluster (cluster_round members now advice answers cluster) }
{}

/// What a round tells of a leader. One that is nearer to being idle has fewer rounds left. Once its proposal is learned, its prefix is
/// behind it, and its launch table is the one after the entry. What it proposes is asked for at its prefix, in its ballot. Its call is the one
/// that its launch table asks for. Where it is idle, its launch table asks for nothing, no vote binds it, and it tells all others how far
/// it has learned.
pub fn what_a_round_tells()
    ensures nearer { (table : Table) (best : List Vote) (old new : Reckoned) → IsNearer table best old new
        → rounds_left table new.rows best new.waits new.state < rounds_left table old.rows best old.waits old.state }
    ensures learned { (proposal : Proposal) (now : ℤ) (advice : ℕ → Advice) (cluster next : Cluster) → Lands proposal now advice cluster next
        → (prefix_of (next.replicas proposal.self.me) ≡ proposal.at.prefix + 1)
        × IsLaunchTable proposal.at.table (next.replicas proposal.self.me) proposal.later }
    ensures proposed { (members leader : ℕ) (best : List Vote) (at : Progress) (now : ℤ) (advice : ℕ → Advice) (cluster next : Cluster)
        → HasProposed members leader best at now advice cluster next
        → (entry : Entry) × IsAsked members leader (vote_for at.prefix at.ballot entry) next × (calls_at members now advice cluster leader ≡ []) }
    ensures called { (members leader : ℕ) (best : List Vote) (at : Progress) (now : ℤ) (advice : ℕ → Advice) (cluster next : Cluster)
        → HasAskedForCall members leader best at now advice cluster next
        → (row : SchedRow) × (calls_at members now advice cluster leader ≡ row ∷ [])
        × ((advice leader).plan.intent ≡ Call row.name.job row.name.at row.kind) }
    ensures rested { (members leader : ℕ) (best : List Vote) (at : Progress) (now : ℤ) (advice : ℕ → Advice) (cluster next : Cluster)
        → HasIdled members leader best at now advice cluster next
        → IsIntent at.table at.rows now Rest × (votes_from at.prefix best ≡ []) × (calls_at members now advice cluster leader ≡ []) }
    ensures told { (members leader : ℕ) (best : List Vote) (at : Progress) (now : ℤ) (advice : ℕ → Advice) (cluster next : Cluster) (who : ℕ)
        → HasIdled members leader best at now advice cluster next → who < members → (who ≡ leader → ⊥)
        → Occurs (next.mails who) leader (Lead at.ballot at.prefix) }
{}

/// There are replicas of which one leads alone with a proposal under way: one for which the other is asked, and one that the other
/// has accepted.
pub fn a_proposal_may_be_under_way()
    ensures asked { (proposal : Proposal) × (flight : Flight) × (cluster : Cluster) × (now : ℤ) × (advice : ℕ → Advice)
        × IsUnderWay proposal flight cluster × IsAdvised proposal.self.members proposal.at.table now advice cluster
        × IsAsked proposal.self.members proposal.self.me (asked_vote proposal) cluster }
    ensures accepted { (proposal : Proposal) × (flight : Flight) × (cluster : Cluster) × (now : ℤ) × (advice : ℕ → Advice)
        × IsUnderWay proposal flight cluster × IsAdvised proposal.self.members proposal.at.table now advice cluster
        × IsAccepted proposal.self.members proposal.self.me proposal.at.ballot proposal.at.prefix cluster }
{}

/// There are replicas of which one leads alone without a flight: one for which nothing waits, whose call is answered, and one for
/// which an answer waits. The first has promised and learned no more after its round, leads at its tick, and leads alone after it.
pub fn a_leader_may_be_free()
    ensures alone { (members : ℕ) × (leader : ℕ) × (best : List Vote) × (at : Progress) × (now : ℤ) × (advice : ℕ → Advice)
        × (answers : ℕ → Option SchedRow) × (cluster : Cluster) × IsFreeNow members leader best at cluster × IsAdvised members at.table now advice cluster
        × IsAnswerTo (calls_at members now advice cluster leader) (answers leader) }
    ensures answer { (members : ℕ) × (leader : ℕ) × (best : List Vote) × (at : Progress) × (row : SchedRow) × (cluster : Cluster) × (now : ℤ)
        × (advice : ℕ → Advice) × IsAnswerable members leader best at row cluster × IsAdvised members at.table now advice cluster }
    ensures on { (members : ℕ) × (leader : ℕ) × (ballot : ℕ) × (prefix : ℕ) × (table : Table) × (now : ℤ) × (advice : ℕ → Advice)
        × (answers : ℕ → Option SchedRow) × (cluster : Cluster) × IsLedAlone members leader ballot prefix cluster × IsAdvised members table now advice cluster
        × (promised_in ((cluster_round members now advice answers cluster).replicas leader).kept ≤ ballot)
        × (prefix_of ((cluster_round members now advice answers cluster).replicas leader) ≤ prefix) }
    ensures tick { (members : ℕ) × (leader : ℕ) × (best : List Vote) × (at : Progress) × (now : ℤ) × (advice : ℕ → Advice)
        × (answers : ℕ → Option SchedRow) × (cluster : Cluster) × IsLeading best None at (before_tick members advice cluster leader) × IsSound at.table
        × IsAdvised members at.table now advice cluster × IsAnswerTo (calls_at members now advice cluster leader) (answers leader)
        × IsLedAlone members leader at.ballot at.prefix (cluster_round members now advice answers cluster) }
{}
