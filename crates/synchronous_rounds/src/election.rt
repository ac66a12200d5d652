//! Laws of campaigns. Each is the contract of a function that does nothing.
ghost use Rattle.std.specs.Prelude.{◌≡◌, ◌⊎◌, ℕ, ◌<◌, ◌≤◌, ℤ, List, [], Option, None};
ghost use Rattle.paxos_base.specs.declared.entry.Vote.{Vote};
ghost use Rattle.paxos_base.specs.declared.rows.JobRow.{JobRow};
ghost use Rattle.due_set.specs.Table.{IsSound, Table};
ghost use Rattle.cluster_sched.specs.declared.row.SchedRow.{SchedRow};
ghost use Rattle.step_spec.specs.Propose.{next_ballot};
ghost use Rattle.step_spec.specs.State.{prefix_of, promised_in};
ghost use Rattle.step_spec.specs.Step.{IsLaunchTable};
ghost use Rattle.synchronous_rounds.specs.Cluster.{Advice, Cluster, IsAdvised, cluster_round};
ghost use Rattle.synchronous_rounds.specs.Flights.{with_base};
ghost use Rattle.synchronous_rounds.specs.LedAlone.{Progress};
ghost use Rattle.synchronous_rounds.specs.Again.{ComesToLeadAgain, HasCampaignedAgain, IsBounded, HaveAllPromised};
ghost use Rattle.synchronous_rounds.specs.Campaign.{ComesToLead, HasCampaigned, HasYielded, HaveAllAnswered, IsOneOf};
ghost use Rattle.synchronous_rounds.specs.Made.{after_campaign, campaigned_at, own_votes};
ghost use Rattle.synchronous_rounds.specs.Named.{IsNamedUpTo};

/// Without a campaign the greatest promise stands still: where no replica has promised a ballot above one, and no letter names such,
/// so it is after a round, whatever was learned.
pub fn no_promise_rises_without_a_campaign()
    ensures { (members top : ℕ) (table : Table) (now : ℤ) (advice : ℕ → Advice) (answers : ℕ → Option SchedRow) (cluster : Cluster) → members ≤ 7 → 2 ≤ members
        → IsAdvised members table now advice cluster → IsNamedUpTo members top cluster → IsNamedUpTo members top
        (cluster_round members now advice answers cluster) }
{}

/// In the round after a campaign of one that has learned no less than any other, all others answer it: each promises its ballot and
/// follows, or has promised a higher one, which it names. In the next round the candidate leads and leads alone, or it follows and
/// has seen each ballot that another had promised.
pub fn a_campaign_is_answered()
    ensures answered { (members candidate : ℕ) (best : List Vote) (at : Progress) (now : ℤ) (advice : ℕ → Advice) (answers : ℕ → Option SchedRow)
        (cluster : Cluster)
        → HasCampaigned members candidate best at cluster → IsAdvised members at.table now advice cluster
        → (base : ℕ) × HaveAllAnswered members candidate best (with_base base at) (cluster_round members now advice answers cluster) }
    ensures decided { (members candidate : ℕ) (best : List Vote) (at : Progress) (now then_now : ℤ) (advice then_advice : ℕ → Advice)
        (answers then_answers : ℕ → Option SchedRow) (cluster : Cluster)
        → HasCampaigned members candidate best at cluster → IsAdvised members at.table now advice cluster → answers candidate ≡ None
        → IsAdvised members at.table then_now then_advice (cluster_round members now advice answers cluster)
        → ((base : ℕ) × ComesToLead members candidate (with_base base at) then_advice (cluster_round members now advice answers cluster)
        (cluster_round members then_now then_advice then_answers (cluster_round members now advice answers cluster)))
        ⊎ HasYielded members candidate at.ballot (cluster_round members now advice answers cluster)
        (cluster_round members then_now then_advice then_answers (cluster_round members now advice answers cluster)) }
{}

/// In the two rounds after a campaign none learns more than the candidate had learned, and in the second none promises more than one
/// had promised after the first; nor does a letter name or tell more then. The candidate learns nothing.
pub fn a_campaign_leaves_bounds()
    ensures { (members candidate top : ℕ) (best : List Vote) (at : Progress) (now then_now : ℤ) (advice then_advice : ℕ → Advice)
        (answers then_answers : ℕ → Option SchedRow) (cluster : Cluster)
        → HasCampaigned members candidate best at cluster → IsAdvised members at.table now advice cluster
        → IsAdvised members at.table then_now then_advice (cluster_round members now advice answers cluster)
        → ((who : ℕ) → who < members → promised_in ((cluster_round members now advice answers cluster).replicas who).kept ≤ top)
        → IsBounded members top at.prefix (cluster_round members then_now then_advice then_answers (cluster_round members now advice answers cluster))
        × (prefix_of ((cluster_round members then_now then_advice then_answers
        (cluster_round members now advice answers cluster)).replicas candidate) ≡ at.prefix) }
{}

/// A replica that campaigns in its next ballot does so above all that it has seen, and asks all others. Where no mail has a letter,
/// none has learned more and no other has promised that ballot, this is a first campaign; where what others have promised and named
/// is bounded by a ballot that it has seen, and what they have learned and tell by its prefix, it is a second one.
pub fn a_campaign_asks_all()
    ensures first { (members candidate : ℕ) (table : Table) (rows : List JobRow)
        (cluster : Cluster) → IsOneOf members candidate → cluster.waits candidate ≡ None
        → ((who : ℕ) → who < members → cluster.mails who ≡ [])
        → ((who : ℕ) → who < members → prefix_of (cluster.replicas who) ≤ prefix_of (cluster.replicas candidate))
        → ((who : ℕ) → who < members → (who ≡ candidate → ⊥) → promised_in (cluster.replicas who).kept ≡ next_ballot candidate (cluster.replicas candidate) → ⊥)
        → IsLaunchTable table (cluster.replicas candidate) rows
        → HasCampaigned members candidate (own_votes (cluster.replicas candidate)) (campaigned_at table rows candidate (cluster.replicas candidate))
        (after_campaign members candidate cluster) }
    ensures again { (members candidate top : ℕ) (table : Table) (rows : List JobRow)
        (cluster : Cluster) → IsOneOf members candidate → cluster.waits candidate ≡ None
        → IsBounded members top (prefix_of (cluster.replicas candidate)) cluster → top ≤ (cluster.replicas candidate).seen
        → IsLaunchTable table (cluster.replicas candidate) rows
        → HasCampaignedAgain members candidate top (own_votes (cluster.replicas candidate)) (campaigned_at table rows candidate (cluster.replicas candidate))
        (after_campaign members candidate cluster) }
{}

/// One that has yielded and campaigns again makes a second campaign: its ballot is above each that was promised or named, and none has
/// learned more than it.
pub fn one_that_yields_campaigns_again()
    ensures { (members candidate : ℕ) (best : List Vote) (at : Progress) (rows : List JobRow) (now then_now : ℤ) (advice then_advice : ℕ → Advice)
        (answers then_answers : ℕ → Option SchedRow) (cluster : Cluster)
        → HasCampaigned members candidate best at cluster → IsAdvised members at.table now advice cluster
        → IsAdvised members at.table then_now then_advice (cluster_round members now advice answers cluster)
        → HasYielded members candidate at.ballot (cluster_round members now advice answers cluster)
        (cluster_round members then_now then_advice then_answers (cluster_round members now advice answers cluster))
        → then_answers candidate ≡ None
        → IsLaunchTable at.table ((cluster_round members then_now then_advice then_answers
        (cluster_round members now advice answers cluster)).replicas candidate) rows
        → HasCampaignedAgain members candidate
        ((cluster_round members then_now then_advice then_answers (cluster_round members now advice answers cluster)).replicas candidate).seen
        (own_votes ((cluster_round members then_now then_advice then_answers (cluster_round members now advice answers cluster)).replicas candidate))
        (campaigned_at at.table rows candidate ((cluster_round members then_now then_advice then_answers
        (cluster_round members now advice answers cluster)).replicas candidate))
        (after_campaign members candidate (cluster_round members then_now then_advice then_answers (cluster_round members now advice answers cluster))) }
{}

/// A second campaign, in a ballot above each that was promised or named before it, is promised by all others in one round; each has
/// then learned no more than the candidate, or one entry more, which it tells. In the next round the candidate leads in that ballot,
/// and leads alone.
pub fn a_second_campaign_wins()
    ensures promised { (members candidate top : ℕ) (best : List Vote) (at : Progress) (now : ℤ) (advice : ℕ → Advice) (answers : ℕ → Option SchedRow)
        (cluster : Cluster)
        → HasCampaignedAgain members candidate top best at cluster → IsAdvised members at.table now advice cluster
        → (base : ℕ) × HaveAllPromised members candidate best (with_base base at) (cluster_round members now advice answers cluster) }
    ensures wins { (members candidate top : ℕ) (best : List Vote) (at : Progress) (sound : IsSound at.table) (now then_now : ℤ)
        (advice then_advice : ℕ → Advice) (answers then_answers : ℕ → Option SchedRow) (cluster : Cluster)
        → HasCampaignedAgain members candidate top best at cluster → IsAdvised members at.table now advice cluster → answers candidate ≡ None
        → IsAdvised members at.table then_now then_advice (cluster_round members now advice answers cluster)
        → ComesToLeadAgain members candidate at then_advice (cluster_round members now advice answers cluster)
        (cluster_round members then_now then_advice then_answers (cluster_round members now advice answers cluster)) }
{}

/// There are replicas of which one has campaigned: of two over one job, the first, whose ballot the other has not promised yet. Their
/// two next rounds can be taken; where the other has promised more, the first yields in them. No promise and no letter
/// of theirs goes beyond some ballot.
pub fn a_campaign_may_be_made()
    ensures first { (members : ℕ) × (candidate : ℕ) × (best : List Vote) × (at : Progress) × (now : ℤ) × (advice : ℕ → Advice) × (answers : ℕ → Option SchedRow)
        × (cluster : Cluster) × (then_now : ℤ) × (then_advice : ℕ → Advice) × HasCampaigned members candidate best at cluster
        × IsAdvised members at.table now advice cluster × (answers candidate ≡ None)
        × IsAdvised members at.table then_now then_advice (cluster_round members now advice answers cluster) }
    ensures again { (members : ℕ) × (candidate : ℕ) × (top : ℕ) × (best : List Vote) × (at : Progress) × (now : ℤ) × (advice : ℕ → Advice)
        × (answers : ℕ → Option SchedRow)
        × (cluster : Cluster) × (then_now : ℤ) × (then_advice : ℕ → Advice) × IsSound at.table × HasCampaignedAgain members candidate top best at cluster
        × IsAdvised members at.table now advice cluster × (answers candidate ≡ None)
        × IsAdvised members at.table then_now then_advice (cluster_round members now advice answers cluster) }
    ensures yielded { (members : ℕ) × (candidate : ℕ) × (best : List Vote) × (at : Progress) × (rows : List JobRow) × (now : ℤ)
        × (advice : ℕ → Advice) × (answers : ℕ → Option SchedRow)
        × (cluster : Cluster) × HasCampaigned members candidate best at cluster × IsAdvised members at.table now advice cluster
        × IsAdvised members at.table now advice (cluster_round members now advice answers cluster)
        × HasYielded members candidate at.ballot (cluster_round members now advice answers cluster)
        (cluster_round members now advice answers (cluster_round members now advice answers cluster))
        × (answers candidate ≡ None)
        × IsLaunchTable at.table ((cluster_round members now advice answers (cluster_round members now advice answers cluster)).replicas candidate) rows }
    ensures named { (members : ℕ) × (top : ℕ) × (table : Table) × (now : ℤ) × (advice : ℕ → Advice) × (cluster : Cluster) × (members ≤ 7) × (2 ≤ members)
        × IsAdvised members table now advice cluster × IsNamedUpTo members top cluster }
{}
