//! Laws of campaigns in legal books. Each is the contract of a function that does nothing.
ghost use Rattle.std.specs.Prelude.{◌≡◌, ℕ, suc, ◌<◌, ◌≤◌, ℤ, List, [], ◌++◌, length, Contains};
ghost use Rattle.std.specs.List.{AllByRecursion};
ghost use Rattle.due_set.specs.Table.{Table};
ghost use Rattle.launch_machine.specs.Clerk.{first_rows, table_size};
ghost use Rattle.step_spec.specs.Letters.{IsHeardAs};
ghost use Rattle.step_spec.specs.Message.{Message, ballot_in};
ghost use Rattle.step_spec.specs.Propose.{next_ballot};
ghost use Rattle.step_spec.specs.State.{promised_in};
ghost use Rattle.agreement.specs.World.{CastVote};
ghost use Rattle.history.specs.Book.{PostedLetter, Row, standing_after, votes_in};
ghost use Rattle.history.specs.Legal.{IsLegal};
ghost use Rattle.synchronous_rounds.specs.Cluster.{Cluster};
ghost use Rattle.synchronous_rounds.specs.Made.{after_campaign};
ghost use Rattle.script_semantics.specs.Settling.{IsQuiet, coordinator};
ghost use Rattle.script_semantics.specs.Situation.{Situation};
ghost use Rattle.settling.specs.Leads.{GoesDrainRound, LeadsAlone};
ghost use Rattle.settling.specs.Rounds.{IsFaultless};
ghost use Rattle.settling.specs.Stands.{StandsForCluster};
ghost use Rattle.settling.specs.Campaigns.{GoesCampaign, unanswered};
ghost use Rattle.settling.specs.Tried.{IsTried};
ghost use Rattle.settling.specs.Within.{IsAfterYielding, LeadsWithin};

/// In a legal book each ballot that a replica has promised, or has voted in, or that a posted letter names as it is heard, is one that
/// its own replica has tried. So the next ballot of a replica is new: nobody has promised it.
pub fn a_ballot_is_tried_by_its_own_replica()
    ensures promised { (members : ℕ) (table : Table) (book : List Row) (who : ℕ) → members ≤ 7 → IsLegal members table book → who < members
        → IsTried members (standing_after members (first_rows table) book).replicas
        (promised_in ((standing_after members (first_rows table) book).replicas who).kept) }
    ensures voted { (members : ℕ) (table : Table) (book : List Row) (cast : CastVote) → members ≤ 7 → IsLegal members table book
        → Contains (votes_in book) cast → IsTried members (standing_after members (first_rows table) book).replicas cast.vote.ballot }
    ensures named { (members : ℕ) (table : Table) (book : List Row) (letter : PostedLetter) (messages : List Message) → members ≤ 7
        → IsLegal members table book → Contains (standing_after members (first_rows table) book).posted letter
        → IsHeardAs members (table_size table) letter.bytes letter.from messages
        → AllByRecursion (λ message. IsTried members (standing_after members (first_rows table) book).replicas (ballot_in message)) messages }
    ensures new { (members : ℕ) (table : Table) (book : List Row) (who owner : ℕ) → members ≤ 7 → IsLegal members table book
        → who < members → owner < members
        → promised_in ((standing_after members (first_rows table) book).replicas who).kept
        ≡ next_ballot owner ((standing_after members (first_rows table) book).replicas owner) → ⊥ }
{}

/// Where a legal book goes on with the campaign of one replica, what stands after it is what a campaign makes of what stood before,
/// but for the answer that waited for the replica, which is lost. No fault comes of it.
pub fn a_campaign_in_a_book_is_a_campaign()
    ensures campaign { (members : ℕ) (table : Table) (who : ℕ) (at : ℤ) (book rows : List Row) (situation after : Situation) (cluster : Cluster) → 2 ≤ members
        → GoesCampaign members table who at book rows situation after → StandsForCluster members (table_size table) situation cluster
        → StandsForCluster members (table_size table) after (after_campaign members who (unanswered who cluster)) }
    ensures faultless { (members : ℕ) (table : Table) (who : ℕ) (at : ℤ) (book rows : List Row) (situation after : Situation) → 2 ≤ members
        → GoesCampaign members table who at book rows situation after → IsFaultless members after }
{}

/// No fault comes of a round of a drain, whoever campaigns in it or not.
pub fn a_drain_leaves_no_fault()
    ensures { (members : ℕ) (table : Table) (who : ℕ) (at : ℤ) (book rows : List Row) (situation after : Situation) (cluster : Cluster) → 2 ≤ members
        → GoesDrainRound members table who at book rows situation after → StandsForCluster members (table_size table) situation cluster
        → IsFaultless members after }
{}

/// Where no letter waits and the coordinator of a legal book campaigns, it leads alone after four rounds of a drain at most: each
/// round brings it nearer, and once it leads alone it does so after each. After no round at all it leads alone. Where it is quiet
/// before, it leads alone already.
pub fn one_comes_to_lead_alone()
    ensures first { (members : ℕ) (table : Table) (at : ℤ) (book rows : List Row) (situation after : Situation) → 2 ≤ members
        → GoesCampaign members table (coordinator members situation) at book rows situation after
        → ((who : ℕ) → who < members → situation.mails who ≡ [])
        → LeadsWithin 4 members table (coordinator members situation) after }
    ensures nearer { (rounds members : ℕ) (table : Table) (who : ℕ) (at : ℤ) (book rows : List Row) (situation after : Situation)
        → GoesDrainRound members table who at book rows situation after → LeadsWithin (suc rounds) members table who situation
        → LeadsWithin rounds members table who after }
    ensures on { (members : ℕ) (table : Table) (who : ℕ) (at : ℤ) (book rows : List Row) (situation after : Situation)
        → GoesDrainRound members table who at book rows situation after → LeadsAlone members table who situation
        → LeadsAlone members table who after }
    ensures last { (members : ℕ) (table : Table) (who : ℕ) (situation : Situation) → LeadsWithin 0 members table who situation
        → LeadsAlone members table who situation }
    ensures leads { (rounds members : ℕ) (table : Table) (who : ℕ) (situation : Situation) → LeadsAlone members table who situation
        → LeadsWithin rounds members table who situation }
    ensures quiet { (rounds members : ℕ) (table : Table) (who : ℕ) (at : ℤ) (situation : Situation) → LeadsWithin rounds members table who situation
        → IsQuiet members table who at situation → LeadsAlone members table who situation }
{}

/// There is a legal book in which this happens: of two replicas over a table without jobs the first campaigns, a round of a drain
/// follows, and another, after which it leads alone, and is quiet; and one more round follows. In another book the second replica has
/// promised a higher ballot before, of its own, so the first yields after two rounds, and doesn't lead alone after a third: four may be
/// needed.
pub fn one_may_come_to_lead()
    ensures campaign { (members : ℕ) × (table : Table) × (at : ℤ) × (book : List Row) × (rows : List Row) × (situation : Situation) × (after : Situation)
        × (2 ≤ members) × GoesCampaign members table (coordinator members situation) at book rows situation after
        × ((who : ℕ) → who < members → situation.mails who ≡ []) }
    ensures round { (rounds : ℕ) × (members : ℕ) × (table : Table) × (who : ℕ) × (at : ℤ) × (book : List Row) × (rows : List Row)
        × (situation : Situation) × (after : Situation) × GoesDrainRound members table who at book rows situation after
        × LeadsWithin (suc rounds) members table who situation }
    ensures yields { (members : ℕ) × (table : Table) × (who : ℕ) × (at : ℤ) × (book : List Row) × (rows : List Row)
        × (situation : Situation) × (after : Situation) × GoesDrainRound members table who at book rows situation after
        × IsAfterYielding members table who situation }
    ensures four { (members : ℕ) × (table : Table) × (who : ℕ) × (at : ℤ) × (book : List Row) × (one : List Row) × (two : List Row) × (three : List Row)
        × (situation : Situation) × (first : Situation) × (second : Situation) × (third : Situation) × LeadsWithin 4 members table who situation
        × GoesDrainRound members table who at book one situation first × GoesDrainRound members table who at (book ++ one) two first second
        × GoesDrainRound members table who at ((book ++ one) ++ two) three second third × (LeadsAlone members table who third → ⊥) }
    ensures leads { (members : ℕ) × (table : Table) × (who : ℕ) × (at : ℤ) × (book : List Row) × (rows : List Row)
        × (situation : Situation) × (after : Situation) × GoesDrainRound members table who at book rows situation after
        × LeadsAlone members table who situation }
    ensures quiet { (members : ℕ) × (table : Table) × (who : ℕ) × (at : ℤ) × (situation : Situation)
        × LeadsAlone members table who situation × IsQuiet members table who at situation }
{}
