//! How a replica hears a letter: its packets one after another, each by its line of the table.
ghost use Rattle.std.specs.Prelude.{◌≡◌, ℕ, ◌+◌, ◌^◌, ◌<◌, ◌≤◌, Bool, true, OnOk, List, [], ◌∷◌, length, unwrap_or};
ghost use Rattle.learner_core.specs.Learner.{learned_prefix};
ghost use Rattle.launch_machine.specs.Clerk.{table_size};
ghost use Rattle.paxos_letter.specs.Letters.{Spells};
ghost use Rattle.term_core.specs.Term.{after_ballot};
ghost use Rattle.step_spec.specs.Act.{Observe};
ghost use Rattle.step_spec.specs.Hear.{hear_all, not_yet};
ghost use Rattle.step_spec.specs.Heard.{messages_of};
ghost use Rattle.step_spec.specs.Letters.{is_small_letter};
ghost use Rattle.replica_draft.specs.Draft.{Goes, drafted};
ghost use Rattle.replica_core.specs.Heard.{CanHear, HearsBy, ballot_named, changes_asked, hear_in, line_in, message_in, once_in, shows_gap_in};
ghost use Rattle.replica_core.specs.Replica.{IsUntouched, IsDraftReady, IsSmall, IsDraftSteady, IsWhole, Makes, base_of, changes_of_draft, own_identity, fixed_of, state_of};

use crate::parts::Core;
use cron_io::OutOfMemory;
use due_set::JobTable;
use paxos_base::{Ballot, Vote};
use paxos_letter::{Letter, Packet, Packets};
use replica_draft::Draft;

// The ballot that a packet names to all who hear it.
fn ballot_in(packet: &Packet) -> Option<Ballot>
    ensures { unwrap_or result 0 ≡ ballot_named packet.now }
{
    match packet {
        Packet::Prepare { ballot, .. }
        | Packet::Promise { ballot, .. }
        | Packet::OldVote { ballot, .. }
        | Packet::Accept { ballot, .. }
        | Packet::Accepted { ballot, .. }
        | Packet::Lead { ballot, .. } => Some(*ballot),
        Packet::Nack { promised, .. } => Some(*promised),
        Packet::Known { .. }
        | Packet::AskFrom { .. }
        | Packet::Snap { .. }
        | Packet::SnapRow { .. } => None,
    }
}

// Observes the ballot that a packet names, where it names one.
fn observe_in(draft: &mut Draft, packet: &Packet)
    ensures goes { Goes draft.old draft.new (Observe (ballot_named packet.now) ∷ []) }
    ensures term { draft.new.term ≡ after_ballot (ballot_named packet.now) draft.old.term }
    ensures change { draft.new.change ≡ draft.old.change }
    ensures learnt { draft.new.learnt ≡ draft.old.learnt }
    ensures sends { draft.new.sends ≡ draft.old.sends }
{
    match ballot_in(packet) {
        Some(ballot) => draft.observe(ballot),
        None => {}
    }
}

impl Core {
    /// Hears the packets of a letter.
    pub fn hear_all(
        &self,
        table: &JobTable,
        draft: &mut Draft,
        letter: &Letter<'_>,
    ) -> Result<(), OutOfMemory>
        requires idle { IsUntouched self.now draft.old }
        requires whole { IsWhole self.now }
        requires small { IsSmall (state_of self.now) self.now.machine.rows }
        requires letter { (bytes : List ℕ) × Spells self.now.members letter.now.from letter.now.packets bytes }
        requires bounds { is_small_letter (table_size table.now) letter.now.packets ≡ true }
        ensures makes { OnOk result (Makes self.now
            (hear_all (own_identity self.now) letter.now.from (messages_of letter.now.packets) not_yet (state_of self.now)) draft.new) }
        ensures ready { OnOk result (IsDraftReady table.now self.now draft.new) }
    {
        let from = letter.from();
        let mut asked = false;
        let mut packets = letter.packets();
        while let Some(packet) = packets.next() {
            let gap = self.shows_gap(draft, &packet);
            self.hear(table, draft, from, &packet, &packets, asked)?;
            asked = asked || gap;
        }
        Ok(())
    }

    // Whether a packet tells an entry behind the next one.
    fn shows_gap(&self, draft: &Draft, packet: &Packet) -> bool
        requires prefix { learned_prefix self.now.learner < 2 ^ 62 }
        requires low { base_of draft.now.change 0 < 2 ^ 62 }
        requires base { self.now.learner.base ≡ self.now.acceptor.base }
        ensures { result ≡ shows_gap_in packet.now (drafted (fixed_of self.now) draft.now).state }
    {
        match packet {
            Packet::Known { slot, .. } => self.next_slot(draft) < *slot,
            _ => false,
        }
    }

    // Hears a packet, behind which these follow: its ballot is observed first.
    fn hear(
        &self,
        table: &JobTable,
        draft: &mut Draft,
        from: u8,
        packet: &Packet,
        rest: &Packets<'_>,
        asked: bool,
    ) -> Result<(), OutOfMemory>
        requires { CanHear table.now self.now draft.old from packet.now rest.now }
        ensures does { OnOk result (HearsBy self.now draft.old draft.new (hear_in (own_identity self.now) from (message_in packet.now rest.now)
            (once_in asked draft.old))) }
        ensures steady { OnOk result (IsDraftSteady table.now self.now draft.new) }
        ensures once { OnOk result (changes_of_draft draft.new.change ≤ changes_of_draft draft.old.change + changes_asked packet.now) }
        ensures few { OnOk result (length draft.new.learnt.items ≤ length draft.old.learnt.items + 1) }
    {
        observe_in(draft, packet);
        self.handle(table, draft, from, packet, rest, asked)
    }

    // Does what a packet asks for, once its ballot was observed.
    #[tactic(auto, unfolding(step_spec::specs::Hear::line))]
    fn handle(
        &self,
        table: &JobTable,
        draft: &mut Draft,
        from: u8,
        packet: &Packet,
        rest: &Packets<'_>,
        asked: bool,
    ) -> Result<(), OutOfMemory>
        requires { CanHear table.now self.now draft.old from packet.now rest.now }
        ensures does { OnOk result (HearsBy self.now draft.old draft.new (line_in (own_identity self.now) from (message_in packet.now rest.now)
            (once_in asked draft.old))) }
        ensures steady { OnOk result (IsDraftSteady table.now self.now draft.new) }
        ensures once { OnOk result (changes_of_draft draft.new.change ≤ changes_of_draft draft.old.change + changes_asked packet.now) }
        ensures few { OnOk result (length draft.new.learnt.items ≤ length draft.old.learnt.items + 1) }
    {
        match packet {
            Packet::Prepare { ballot, slot } => self.on_prepare(draft, from, *ballot, *slot),
            Packet::Promise {
                ballot,
                slot,
                count,
            } => self.on_promise(draft, from, *ballot, *slot, *count, rest),
            Packet::Accept {
                ballot,
                slot,
                entry,
            } => {
                let vote = Vote {
                    slot: *slot,
                    ballot: *ballot,
                    entry: *entry,
                };
                self.on_accept(draft, from, &vote)
            }
            Packet::Accepted { ballot, slot } => self.on_accepted(draft, from, *ballot, *slot),
            Packet::Known { slot, entry } => self.on_known(draft, from, *slot, *entry, asked),
            Packet::AskFrom { slot } => self.on_ask(draft, from, *slot),
            Packet::Snap { slot, count } => self.on_snap(table, draft, *slot, *count, rest),
            Packet::Lead { slot, .. } => self.ask_below(draft, from, *slot),
            Packet::OldVote { .. } | Packet::Nack { .. } | Packet::SnapRow { .. } => Ok(()),
        }
    }
}
