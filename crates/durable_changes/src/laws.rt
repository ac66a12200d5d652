//! Laws of what a replica keeps. Each is the contract of a function that does nothing.
ghost use Rattle.std.specs.Prelude.{◌≡◌, ◌≢◌, ◌<◌, ◌≤◌, ℕ, List, [], ◌∷◌, length};
ghost use Rattle.launch_machine.specs.Clerk.{table_size};
ghost use Rattle.paxos_base.specs.Durable.{after_delta};
ghost use Rattle.paxos_base.specs.declared.durable.Delta.{Delta};
ghost use Rattle.paxos_base.specs.declared.durable.Delta.TheVariants.{Voted};
ghost use Rattle.paxos_base.specs.declared.entry.Vote.{Vote};
ghost use Rattle.paxos_base.specs.declared.rows.JobRow.{JobRow};
ghost use Rattle.store_format.specs.Order.{ChangeMayFollow};
ghost use Rattle.due_set.specs.Table.{Table};
ghost use Rattle.step_spec.specs.Coherent.{IsCoherent};
ghost use Rattle.step_spec.specs.Folds.{after_acts, deltas_of};
ghost use Rattle.step_spec.specs.State.{Identity, State};
ghost use Rattle.step_spec.specs.Step.{Event, IsPlanned, step};
ghost use Rattle.agreement.specs.Transition.{AreTransitions, Transition, after_transitions};
ghost use Rattle.agreement.specs.World.{first_world};
ghost use Rattle.durable_changes.specs.Anew.{ProposesAnew};
ghost use Rattle.durable_changes.specs.Changes.{BaseMayFollow};

/// A step leaves a coherent replica, whatever the replica is told: nothing is asked of a letter, whoever wrote it, nor of an answer.
pub fn a_replica_stays_coherent_whatever_it_hears()
    ensures { (self : Identity) (table : Table) (event : Event) (state : State) → self.me < 8 → IsCoherent self state
        → IsPlanned table state event → IsCoherent self (after_acts (step self event state) state) }
{}

/// The change of a coherent replica's step may follow what the replica keeps, whatever it is told, so that its store can save it. Of
/// a base this has to be told: that it is above the one before it, and has the rows of the table of jobs.
pub fn a_change_may_follow_what_is_kept()
    ensures { (self : Identity) (table : Table) (event : Event) (state : State) (delta : Delta) → self.me < 8 → IsCoherent self state
        → IsPlanned table state event → deltas_of (step self event state) ≡ delta ∷ []
        → BaseMayFollow (table_size table) state.kept delta → ChangeMayFollow (table_size table) state.kept delta }
{}

/// The change of a step alters what is kept, whatever the replica hears, where a replica that may propose has not voted at its
/// prefix in the ballot that it leads in.
pub fn a_change_alters_what_is_kept()
    ensures { (self : Identity) (event : Event) (state : State) (delta : Delta) → self.me < 8 → ProposesAnew state
        → deltas_of (step self event state) ≡ delta ∷ [] → after_delta delta state.kept ≢ state.kept }
{}

/// So it is among replicas that hear only what was said, after whatever transitions.
pub fn replicas_that_hear_what_was_said_propose_anew()
    ensures { (members : ℕ) (table : Table) (rows : List JobRow) (transitions : List Transition) (by : ℕ) → members ≤ 7
        → AreTransitions members table (first_world rows) transitions → by < members
        → ProposesAnew ((after_transitions members transitions (first_world rows)).replicas by) }
{}

/// It isn't so of each coherent replica: one that another has asked for a vote in its own ballot may cast that vote again as its
/// proposal, and that alters nothing.
pub fn a_vote_may_be_cast_again()
    ensures { (self : Identity) × (table : Table) × (event : Event) × (state : State) × (vote : Vote) × IsCoherent self state
        × IsPlanned table state event × (deltas_of (step self event state) ≡ Voted vote ∷ []) × (after_delta (Voted vote) state.kept ≡ state.kept) }
{}
