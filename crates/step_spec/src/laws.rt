//! Laws of a replica's step. Each is the contract of a function that does nothing.
ghost use Rattle.std.specs.Prelude.{◌≡◌, ◌≢◌, ◌≤◌, ◌<◌, ◌^◌, ◌↔◌, ℕ, true, All, List, Some, Contains, flat_map, length};
ghost use Rattle.paxos_base.specs.declared.rows.TableSize.{TableSize};
ghost use Rattle.paxos_base.specs.Ballot.{round_of};
ghost use Rattle.paxos_base.specs.Members.{HasMember};
ghost use Rattle.paxos_base.specs.Rows.{OpenHaveCursors, RowsStand};
ghost use Rattle.paxos_base.specs.Vote.{vote_at};
ghost use Rattle.paxos_base.specs.declared.durable.Durable.{Durable};
ghost use Rattle.paxos_base.specs.declared.entry.Entry.{Entry};
ghost use Rattle.paxos_base.specs.declared.entry.Vote.{Vote};
ghost use Rattle.paxos_base.specs.declared.rows.JobRow.{JobRow};
ghost use Rattle.paxos_letter.specs.declared.packet.Packet.{Packet};
ghost use Rattle.term_core.specs.declared.term.Term.TheVariants.{Candidate};
ghost use Rattle.cluster_sched.specs.declared.row.SchedRow.{SchedRow};
ghost use Rattle.step_spec.specs.Act.{Act, Call, Learn, Send, Stand, after_act};
ghost use Rattle.step_spec.specs.Folds.{Addressed, after_acts, calls_of, copies_of, deltas_of, learnt_of, letters_of, sent_to};
ghost use Rattle.step_spec.specs.Heard.{heard_as, messages_of, packets_of};
ghost use Rattle.step_spec.specs.Letters.{IsHeardAs, heard_in, is_small_letter};
ghost use Rattle.step_spec.specs.May.{AllMay, TellsWhatWasSaid, May, Setting};
ghost use Rattle.step_spec.specs.Message.{Message, Only, Others, Outside, Snap, Whom, ballot_in, goes_to, slot_in};
ghost use Rattle.step_spec.specs.Coherent.{AreUpTo, IsCoherent};
ghost use Rattle.step_spec.specs.State.{State, Identity, prefix_of, promised_in, started};
ghost use Rattle.step_spec.specs.Step.{AsksOnce, Event, IsPlanned, step};

/// Each act of a step may be done where it is: its guard holds of the state that the acts before it left, and of what was
/// said. What holds of every act that may be done holds of every step.
pub fn each_act_may_be_done()
    ensures { (setting : Setting) (event : Event) (state : State) → setting.event ≡ Some event → setting.self.me < 8
        → IsCoherent setting.self state → IsPlanned setting.table state event → TellsWhatWasSaid setting event
        → AllMay setting state (step setting.self event state) }
{}

/// An act that may be done leaves a coherent replica, so a step does, and a replica is coherent from its start on.
pub fn replicas_stay_coherent()
    ensures start { (self : Identity) (kept : Durable) → AreUpTo (promised_in kept) kept.votes
        → IsCoherent self (started self.me kept) }
    ensures act { (setting : Setting) (act : Act) (state : State) → IsCoherent setting.self state → May setting state act
        → IsCoherent setting.self (after_act act state) }
    ensures acts { (setting : Setting) (acts : List Act) (state : State) → IsCoherent setting.self state → AllMay setting state acts
        → IsCoherent setting.self (after_acts acts state) }
{}

/// A step changes what is kept once at most.
pub fn a_step_has_one_delta_at_most()
    ensures { (self : Identity) (event : Event) (state : State) → AsksOnce event → length (deltas_of (step self event state)) ≤ 1 }
{}

/// A step sends one launch table at most, whatever it is told.
pub fn a_step_sends_one_snapshot_at_most()
    ensures { (self : Identity) (event : Event) (state : State) → length (copies_of (step self event state)) ≤ 1 }
{}

/// Rows that are heard of a letter are those of the table of jobs: one for each job, in their order, of which each that is open
/// has a cursor, with counts within the bounds that a replica counts with.
pub fn rows_that_are_heard_stand()
    ensures stand { (members : ℕ) (size : TableSize) (bytes : List ℕ) (from slot : ℕ) (messages : List Message) (rows : List JobRow)
        → IsHeardAs members size bytes from messages → Contains messages (Snap slot rows) → RowsStand rows size }
    ensures cursors { (members : ℕ) (size : TableSize) (bytes : List ℕ) (from slot : ℕ) (messages : List Message) (rows : List JobRow)
        → IsHeardAs members size bytes from messages → Contains messages (Snap slot rows) → OpenHaveCursors rows }
    ensures counts { (members : ℕ) (size : TableSize) (bytes : List ℕ) (from slot : ℕ) (messages : List Message) (rows : List JobRow)
        → IsHeardAs members size bytes from messages → Contains messages (Snap slot rows) → All (λ row. (row.launched < 2 ^ 31) × (row.voided < 2 ^ 31)) rows }
{}

/// What is spelled in packets is heard as it was meant: each message as itself, and with a promise a mention of its ballot
/// for each of its votes.
pub fn messages_are_heard_as_they_are_spelled()
    ensures { (messages : List Message) → messages_of (flat_map packets_of messages) ≡ flat_map heard_as messages }
{}

/// Whom a message reaches: the one that it is for, all but its sender, or those of them that a set leaves out.
pub fn a_message_reaches_whom_it_is_for()
    ensures only { (me other member : ℕ) → (goes_to me (Only other) member ≡ true) ↔ (member ≡ other) }
    ensures others { (me member : ℕ) → (goes_to me Others member ≡ true) ↔ (member ≢ me) }
    ensures outside { (me set member : ℕ) → (goes_to me (Outside set) member ≡ true) ↔ ((member ≢ me) × (HasMember set member → ⊥)) }
{}

/// The letters of some acts carry what they send: each message to each replica that it reaches, and nothing else. A letter has
/// all that is sent to its replica, in order.
pub fn letters_carry_what_is_sent()
    ensures each { (self : Identity) (acts : List Act) (whom : Whom) (message : Message) (member : ℕ) → Contains acts (Send whom message)
        → member < self.members → goes_to self.me whom member ≡ true
        → (letter : Addressed) × Contains (letters_of self acts) letter × (letter.to ≡ member) × Contains letter.messages message }
    ensures none_else { (self : Identity) (acts : List Act) (letter : Addressed) (message : Message) → Contains (letters_of self acts) letter
        → Contains letter.messages message → (whom : Whom) × Contains acts (Send whom message) × (goes_to self.me whom letter.to ≡ true) }
    ensures whole { (self : Identity) (acts : List Act) (letter : Addressed) → Contains (letters_of self acts) letter
        → (letter.to < self.members) × (letter.messages ≡ sent_to self.me letter.to acts) }
{}

/// What some acts learn and whom they call for is what they name.
pub fn acts_bring_what_they_name()
    ensures learnt { (acts : List Act) (slot : ℕ) (entry : Entry)
        → Contains (learnt_of acts) (record { slot = slot; entry = entry }) ↔ Contains acts (Learn slot entry) }
    ensures calls { (acts : List Act) (row : SchedRow) → Contains (calls_of acts) row ↔ Contains acts (Call row) }
{}

/// A replica that stands for leader asks for votes from its prefix on, and begins with its own.
pub fn a_candidate_begins_with_its_own_votes()
    ensures { (me ballot : ℕ) (state : State) → (heard : ℕ) × (best : List Vote)
        × ((after_act (Stand me ballot) state).term ≡ Candidate ballot (prefix_of state) heard best)
        × ((slot : ℕ) → prefix_of state ≤ slot → vote_at slot best ≡ vote_at slot state.kept.votes) }
{}

/// What is heard of a letter names no ballot and no slot beyond the bounds that a replica counts with, and a letter within them
/// is heard whole.
pub fn letters_are_heard_within_bounds()
    ensures ballot { (size : TableSize) (packets : List Packet) (message : Message) → Contains (heard_in size packets) message
        → round_of (ballot_in message) < 2 ^ 59 }
    ensures slot { (size : TableSize) (packets : List Packet) (message : Message) → Contains (heard_in size packets) message
        → slot_in message < 2 ^ 62 }
    ensures whole { (size : TableSize) (packets : List Packet) → is_small_letter size packets ≡ true → heard_in size packets ≡ messages_of packets }
{}
