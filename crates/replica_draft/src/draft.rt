ghost use Rattle.std.specs.Prelude.{◌≡◌, ℕ, ◌+◌, ◌^◌, ◌<◌, ◌++◌, None, Some, Ok, [], ◌∷◌, OnOk, map};
ghost use Rattle.step_spec.specs.Act.{Call, Cast, Propose, Learn, Observe, Pledge, Send, Wait};
ghost use Rattle.step_spec.specs.Heard.{old_vote, packets_of};
ghost use Rattle.step_spec.specs.Message.{Message, Accept, Accepted, AskFrom, Known, Lead, Nack, Only, Others, Prepare, Promise};
ghost use Rattle.term_core.specs.Term.{after_advance, after_ballot, after_proposal, after_tick, answer_to_proposal, answer_to_tick};
ghost use Rattle.replica_draft.specs.declared.change.Change.TheVariants as change;
ghost use Rattle.replica_draft.specs.Draft.{Chooses, Goes, LearnsNext, SendsOnly, TakesRows, has_copied, meant, said_in};

use crate::change::{Change, Rebased, RebasedBox};
use cluster_sched::SchedRow;
use cron_io::OutOfMemory;
use launch_machine::Machine;
use paxos_base::{Ballot, Entry, EntryList, Members, RowList, Vote, VoteList};
use paxos_letter::Packet;
use smallvec::SmallVec;
use std::alloc::Global;
use step_spec::LearntRow;
use term_core::Term;

/// What a step sends. Most steps send a packet or two, for which no memory is taken.
pub type SendList = SmallVec<Sent, 2>;

/// To whom a packet goes.
#[derive(Clone, Copy, Debug, PartialEq, Eq)]
pub enum Target {
    /// To one replica.
    Only(u8),
    /// To all others.
    Others,
    /// To the others outside a set.
    Outside(Members),
}

/// A packet that is sent, and to whom.
#[derive(Clone, Copy, Debug)]
pub struct Sent {
    pub target: Target,
    pub packet: Packet,
}

// What lies in the places of a list that are free.
impl Default for Sent {
    fn default() -> Sent {
        Sent {
            target: Target::Others,
            packet: Packet::AskFrom { slot: 0 },
        }
    }
}

/// A step as far as it goes: what becomes of the replica, which itself stays as it is, and what is to be stored, learned,
/// sent and called.
#[derive(Debug, Drop)]
pub struct Draft {
    pub seen: u64,
    /// The term, without the votes that bind it.
    pub term: Term,
    /// The votes that bind it, where they are others than before.
    pub best: Option<VoteList>,
    /// At most one in a step.
    pub change: Option<Change>,
    pub learnt: Vec<LearntRow>,
    pub sends: SendList,
    pub call: Option<SchedRow>,
}

impl Draft {
    /// Hears of a ballot.
    pub fn observe(&mut self, ballot: Ballot)
        ensures goes { Goes self.old self.new (Observe ballot ∷ []) }
        ensures term { self.new.term ≡ after_ballot ballot self.old.term }
        ensures change { self.new.change ≡ self.old.change }
        ensures learnt { self.new.learnt ≡ self.old.learnt }
        ensures sends { self.new.sends ≡ self.old.sends }
    {
        self.term.on_ballot(ballot);
        self.seen = self.seen.max(ballot.number());
    }

    /// Promises a ballot.
    pub fn pledge(&mut self, ballot: Ballot)
        requires { self.old.change ≡ None }
        ensures goes { Goes self.old self.new (Pledge ballot ∷ []) }
        ensures change { self.new.change ≡ Some (change.Promised ballot) }
        ensures term { self.new.term ≡ self.old.term }
        ensures learnt { self.new.learnt ≡ self.old.learnt }
    {
        self.change = Some(Change::Promised(ballot));
    }

    /// Votes for another's proposal.
    pub fn cast(&mut self, vote: Vote)
        requires { self.old.change ≡ None }
        ensures goes { Goes self.old self.new (Cast vote ∷ []) }
        ensures change { self.new.change ≡ Some (change.Voted vote) }
        ensures term { self.new.term ≡ self.old.term }
        ensures learnt { self.new.learnt ≡ self.old.learnt }
    {
        self.change = Some(Change::Voted(vote));
    }

    /// Learns the entry at the first slot that isn't learned. A flight below the next one is over.
    pub fn learn(&mut self, slot: u64, entry: Entry) -> Result<(), OutOfMemory>
        requires { slot + 1 < 2 ^ 64 }
        ensures learns { OnOk result (LearnsNext self.old self.new slot entry) }
    {
        self.learnt.push(LearntRow { slot, entry })?;
        if let Some(change) = &mut self.change {
            change.learn(entry)?;
        }
        self.term.advance(slot + 1);
        Ok(())
    }

    /// Takes a launch table in the place of all entries below a slot, which isn't below the first that isn't learned. Where the
    /// table is another than the replica's own, its machine comes with it.
    pub fn rebase(
        &mut self,
        alloc: Global,
        slot: u64,
        rows: RowList,
        machine: Option<Machine>,
    ) -> Result<(), OutOfMemory>
        requires { self.old.change ≡ None }
        ensures takes { OnOk result (TakesRows self.old self.new slot rows machine) }
    {
        let rebased = Rebased {
            slot,
            rows,
            since: EntryList {
                items: Vec::new(alloc),
            },
            machine,
        };
        self.change = Some(Change::Rebased(RebasedBox::new(alloc, rebased)?));
        self.term.advance(slot);
        Ok(())
    }

    /// Learns the entry that was chosen at the first slot that isn't learned, and tells all.
    pub fn choose(&mut self, slot: u64, entry: Entry) -> Result<(), OutOfMemory>
        requires { slot + 1 < 2 ^ 64 }
        ensures learns { OnOk result (Chooses self.old self.new slot entry) }
    {
        self.learn(slot, entry)?;
        self.send_chosen(slot, entry)
    }

    // Sends a packet.
    fn send(&mut self, target: Target, packet: Packet) -> Result<(), OutOfMemory>
        ensures goes { (message : Message) → packets_of message ≡ packet ∷ [] → OnOk result (Goes self.old self.new (Send (meant target) message ∷ [])) }
        ensures said { OnOk result (map said_in self.new.sends.items ≡ map said_in self.old.sends.items ++ (meant target, packet) ∷ []) }
        ensures sends { OnOk result (SendsOnly self.old self.new) }
    {
        self.sends.push(Sent { target, packet })?;
        Ok(())
    }

    /// Refuses a ballot, since another is promised.
    pub fn send_nack(&mut self, to: u8, ballot: Ballot, promised: Ballot) -> Result<(), OutOfMemory>
        ensures goes { OnOk result (Goes self.old self.new (Send (Only to) (Nack ballot promised) ∷ [])) }
        ensures sends { OnOk result (SendsOnly self.old self.new) }
    {
        self.send(Target::Only(to), Packet::Nack { ballot, promised })
    }

    /// Says that a vote was cast.
    pub fn send_accepted(&mut self, to: u8, ballot: Ballot, slot: u64) -> Result<(), OutOfMemory>
        ensures goes { OnOk result (Goes self.old self.new (Send (Only to) (Accepted ballot slot) ∷ [])) }
        ensures sends { OnOk result (SendsOnly self.old self.new) }
    {
        self.send(Target::Only(to), Packet::Accepted { ballot, slot })
    }

    /// Asks for the entries from a slot on.
    pub fn send_ask(&mut self, to: u8, slot: u64) -> Result<(), OutOfMemory>
        ensures goes { OnOk result (Goes self.old self.new (Send (Only to) (AskFrom slot) ∷ [])) }
        ensures sends { OnOk result (SendsOnly self.old self.new) }
    {
        self.send(Target::Only(to), Packet::AskFrom { slot })
    }

    /// Asks all for promises of a ballot, and for their votes from a slot on.
    pub fn send_prepare(&mut self, ballot: Ballot, slot: u64) -> Result<(), OutOfMemory>
        ensures goes { OnOk result (Goes self.old self.new (Send Others (Prepare ballot slot) ∷ [])) }
        ensures sends { OnOk result (SendsOnly self.old self.new) }
    {
        self.send(Target::Others, Packet::Prepare { ballot, slot })
    }

    /// Asks for votes.
    pub fn send_accept(&mut self, target: Target, vote: &Vote) -> Result<(), OutOfMemory>
        ensures goes { OnOk result (Goes self.old self.new (Send (meant target) (Accept vote.now) ∷ [])) }
        ensures sends { OnOk result (SendsOnly self.old self.new) }
    {
        let packet = Packet::Accept {
            ballot: vote.ballot,
            slot: vote.slot,
            entry: vote.entry,
        };
        self.send(target, packet)
    }

    /// Tells all what was chosen at a slot.
    pub fn send_chosen(&mut self, slot: u64, entry: Entry) -> Result<(), OutOfMemory>
        ensures goes { OnOk result (Goes self.old self.new (Send Others (Known slot entry) ∷ [])) }
        ensures sends { OnOk result (SendsOnly self.old self.new) }
    {
        self.send(Target::Others, Packet::Known { slot, entry })
    }

    /// Says to all that this replica leads, and has learned up to the slot.
    pub fn send_lead(&mut self, ballot: Ballot, slot: u64) -> Result<(), OutOfMemory>
        ensures goes { OnOk result (Goes self.old self.new (Send Others (Lead ballot slot) ∷ [])) }
        ensures sends { OnOk result (SendsOnly self.old self.new) }
    {
        self.send(Target::Others, Packet::Lead { ballot, slot })
    }

    /// Promises a ballot, with these votes from a slot on.
    pub fn send_promise(
        &mut self,
        to: u8,
        ballot: Ballot,
        slot: u64,
        votes: &[Vote],
    ) -> Result<(), OutOfMemory>
        ensures goes { OnOk result (Goes self.old self.new (Send (Only to) (Promise ballot slot votes.now) ∷ [])) }
        ensures sends { OnOk result (SendsOnly self.old self.new) }
    {
        let count = votes.len() as u64;
        let packet = Packet::Promise {
            ballot,
            slot,
            count,
        };
        self.send(Target::Only(to), packet)?;
        self.send_old_votes(to, ballot, votes)
    }

    // Sends the votes of a promise.
    fn send_old_votes(&mut self, to: u8, ballot: Ballot, votes: &[Vote]) -> Result<(), OutOfMemory>
        ensures said { OnOk result (map said_in self.new.sends.items
            ≡ map said_in self.old.sends.items ++ map (λ vote. (Only to, old_vote ballot vote)) votes.now) }
        ensures sends { OnOk result (SendsOnly self.old self.new) }
    {
        for vote in votes {
            let packet = Packet::OldVote {
                ballot,
                slot: vote.slot,
                cast: vote.ballot,
                entry: vote.entry,
            };
            self.send(Target::Only(to), packet)?;
        }
        Ok(())
    }

    /// Whether a snapshot was sent.
    pub fn has_copied(&self) -> bool
        ensures { result ≡ has_copied self.now }
    {
        self.sends
            .as_slice()
            .iter()
            .any(|sent| matches!(sent.packet, Packet::Snap { .. }))
    }

    /// Proposes an entry as the leader, who has no flight, and votes for it.
    pub fn propose(&mut self, me: u8, vote: Vote)
        requires me { me < 7 }
        requires change { self.old.change ≡ None }
        requires leads { answer_to_proposal self.old.term ≡ Ok vote.ballot }
        ensures goes { Goes self.old self.new (Propose me vote ∷ []) }
        ensures change { self.new.change ≡ Some (change.Voted vote) }
        ensures term { self.new.term ≡ after_proposal vote.slot vote.entry me self.old.term }
        ensures learnt { self.new.learnt ≡ self.old.learnt }
    {
        // A leader without a flight takes it up, so that the answer is its ballot.
        let _ = self.term.propose(vote.slot, vote.entry, me);
        self.change = Some(Change::Voted(vote));
    }

    /// Waits one tick more for the votes of a flight. At each fourth tick the replicas that have cast theirs are answered.
    pub fn wait(&mut self) -> Option<Members>
        ensures goes { Goes self.old self.new (Wait ∷ []) }
        ensures change { self.new.change ≡ self.old.change }
        ensures accepted { result ≡ answer_to_tick self.old.term }
        ensures term { self.new.term ≡ after_tick self.old.term }
        ensures learnt { self.new.learnt ≡ self.old.learnt }
    {
        self.term.wait_tick()
    }

    /// Calls the scheduler.
    pub fn call(&mut self, row: SchedRow)
        requires { self.old.call ≡ None }
        ensures goes { Goes self.old self.new (Call row ∷ []) }
        ensures change { self.new.change ≡ self.old.change }
        ensures term { self.new.term ≡ self.old.term }
        ensures learnt { self.new.learnt ≡ self.old.learnt }
    {
        self.call = Some(row);
    }
}
