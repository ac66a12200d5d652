//! What a replica does at a message, a function for each line of the table. The replica stays as it is; the draft goes on.
ghost use Rattle.std.specs.Prelude.{◌≡◌, ◌+◌, ◌-◌, ◌^◌, ◌<◌, ◌≤◌, ◌++◌, [], ◌∷◌, None, IfOk, OnOk, drop, length, take};
ghost use Rattle.std.specs.List.{flat_map};
ghost use Rattle.std.specs.Option.{option_copied};
ghost use Rattle.launch_machine.specs.Clerk.{table_size};
ghost use Rattle.paxos_base.specs.Rows.{OpenHaveCursors};
ghost use Rattle.paxos_base.specs.Vote.{SlotsRise};
ghost use Rattle.term_core.specs.Best.{best_of};
ghost use Rattle.learner_core.specs.Learner.{learned_prefix};
ghost use Rattle.step_spec.specs.Act.{Send};
ghost use Rattle.step_spec.specs.Heard.{row_in, vote_in};
ghost use Rattle.step_spec.specs.Hear.{ask_below, known_from, on_accept, on_accepted, on_ask, on_known, on_prepare, on_promise, on_snap, send_all, snapshot};
ghost use Rattle.step_spec.specs.Message.{Only, Snap};
ghost use Rattle.replica_draft.specs.Draft.{HasSent, SendsOnly, entries_in, has_copied, learned_with};
ghost use Rattle.replica_core.specs.Heard.{AreRowsOf};
ghost use Rattle.replica_core.specs.Lines.{GoesOnByActs, cast_vote, tell_vote};
ghost use Rattle.replica_core.specs.Replica.{DoesAsTerm, FliesAt, IsDraftSteady, KeepsItsChange, StaysSteady, base_of, best_in, next_slot, rebased_of, rows_of};

use crate::commit::machine_of;
use crate::parts::Core;
use acceptor_core::{AcceptAnswer, PrepareAnswer};
use cron_io::OutOfMemory;
use due_set::JobTable;
use paxos_base::{Ballot, Entry, RowList, Vote, VoteList};
use paxos_letter::{Packet, Packets};
use replica_draft::{Change, Draft, Rebased, tell_entries, tell_learnt, tell_rows};
use std::alloc::Global;
use term_core::{Term, best_of};

// The votes of a promise: of the packets behind it those that it counts.
fn votes_of(alloc: Global, count: u64, mut rest: Packets<'_>) -> Result<Vec<Vote>, OutOfMemory>
    ensures { IfOk result (λ votes. votes.items ≡ flat_map vote_in (take count rest.entry)) }
{
    let mut votes = Vec::new(alloc);
    for _ in 0..count {
        let Some(packet) = rest.next() else {
            return Ok(votes);
        };
        if let Packet::OldVote {
            slot,
            cast,
            entry,
            ..
        } = packet
        {
            votes.push(Vote {
                slot,
                ballot: cast,
                entry,
            })?;
        }
    }
    Ok(votes)
}

// The rows of a copy: of the packets behind it those that it counts.
fn rows_in(alloc: Global, count: u64, mut rest: Packets<'_>) -> Result<RowList, OutOfMemory>
    requires { OpenHaveCursors (flat_map row_in (take count rest)) }
    ensures { IfOk result (λ rows. rows ≡ flat_map row_in (take count rest.entry)) }
{
    let mut items = Vec::new(alloc);
    for _ in 0..count {
        let Some(packet) = rest.next() else {
            return Ok(RowList { items });
        };
        if let Packet::SnapRow { row, .. } = packet {
            items.push(row)?;
        }
    }
    Ok(RowList { items })
}

// The new base of a change, where it has one.
fn rebased_in(change: &Option<Change>) -> Option<&Rebased>
    ensures { option_copied result ≡ rebased_of change.now }
{
    match change {
        Some(Change::Rebased(rebased)) => Some(&rebased.table),
        _ => None,
    }
}

impl Core {
    /// The first slot that isn't learned, with what the draft has learned.
    pub fn next_slot(&self, draft: &Draft) -> u64
        requires prefix { learned_prefix self.now.learner < 2 ^ 62 }
        requires low { base_of draft.now.change 0 < 2 ^ 62 }
        ensures value { result ≡ next_slot self.now.learner draft.now }
        ensures bound { result < 2 ^ 63 + 2 ^ 62 }
    {
        match &draft.change {
            Some(Change::Rebased(rebased)) => {
                rebased.table.slot + rebased.table.since.items.len() as u64
            }
            _ => self.learner.prefix() + draft.learnt.len() as u64,
        }
    }

    // The base, with what the draft has taken.
    fn base(&self, draft: &Draft) -> u64
        ensures { result ≡ base_of draft.now.change self.now.learner.base }
    {
        match &draft.change {
            Some(Change::Rebased(rebased)) => rebased.table.slot,
            _ => self.learner.base(),
        }
    }

    // The votes that bind the draft's term.
    fn best<'a>(&'a self, draft: &'a Draft) -> &'a [Vote]
        ensures votes { result.now ≡ best_in self.now draft.now }
        ensures rise { SlotsRise result.now }
    {
        match &draft.best {
            Some(best) => &best.items,
            None => match &self.term {
                Term::Follower { .. } => &[],
                Term::Candidate { best, .. } | Term::Leader { best, .. } => &best.items,
            },
        }
    }

    /// A ballot that isn't above the promised one is refused. Else it is promised, with the votes that are asked for.
    pub fn on_prepare(
        &self,
        draft: &mut Draft,
        from: u8,
        ballot: Ballot,
        slot: u64,
    ) -> Result<(), OutOfMemory>
        requires change { draft.old.change ≡ None }
        requires prefix { learned_prefix self.now.learner < 2 ^ 62 }
        ensures does { OnOk result (GoesOnByActs self.now draft.old draft.new (on_prepare from ballot slot (has_copied draft.old))) }
        ensures steady { OnOk result (StaysSteady self.now draft.old draft.new) }
        ensures learnt { OnOk result (draft.new.learnt.items ≡ draft.old.learnt.items) }
    {
        match self.acceptor.on_prepare(ballot, slot) {
            PrepareAnswer::Refused { promised } => draft.send_nack(from, ballot, promised),
            PrepareAnswer::Behind { .. } => self.send_snapshot(draft, from),
            PrepareAnswer::Promise => {
                draft.pledge(ballot);
                draft.send_promise(from, ballot, slot, self.acceptor.votes_from(slot))
            }
        }
    }

    /// A promise counts for the candidate that asked for it, and for nobody else. Its votes are in the packets behind it.
    pub fn on_promise(
        &self,
        draft: &mut Draft,
        from: u8,
        ballot: Ballot,
        slot: u64,
        count: u64,
        rest: &Packets<'_>,
    ) -> Result<(), OutOfMemory>
        requires some { 1 ≤ self.now.members }
        requires few { self.now.members ≤ 7 }
        requires from { from < self.now.members }
        ensures does { OnOk result (DoesAsTerm self.now draft.old draft.new
            (on_promise self.now.members from ballot slot (flat_map vote_in (take count rest.now)))) }
        ensures keeps { OnOk result (KeepsItsChange self.now draft.old draft.new) }
        ensures learnt { OnOk result (draft.new.learnt.items ≡ draft.old.learnt.items) }
    {
        if !draft.term.has_asked(ballot, slot) {
            return Ok(());
        }
        self.gather(draft, &votes_of(self.alloc, count, rest.copy())?)?;
        draft
            .term
            .on_promise(from, ballot, slot, &[], self.members)?;
        Ok(())
    }

    // Of the votes of a promise and the best so far, those of the higher ballots are the best.
    fn gather(&self, draft: &mut Draft, votes: &[Vote]) -> Result<(), OutOfMemory>
        ensures best { OnOk result (best_in self.now draft.new ≡ best_of (best_in self.now draft.old) votes.now) }
        ensures kept { draft.new ≡ record draft.old { best = draft.new.best } }
    {
        if votes.is_empty() {
            return Ok(());
        }
        let items = best_of(self.alloc, self.best(draft), votes)?;
        draft.best = Some(VoteList { items });
        Ok(())
    }

    /// A ballot below the promised one is refused. Else the vote is cast, unless it was cast before, and told.
    pub fn on_accept(&self, draft: &mut Draft, from: u8, vote: &Vote) -> Result<(), OutOfMemory>
        requires change { draft.old.change ≡ None }
        requires prefix { learned_prefix self.now.learner < 2 ^ 62 }
        ensures does { OnOk result (GoesOnByActs self.now draft.old draft.new (on_accept from vote.now (has_copied draft.old))) }
        ensures steady { OnOk result (StaysSteady self.now draft.old draft.new) }
        ensures learnt { OnOk result (draft.new.learnt.items ≡ draft.old.learnt.items) }
    {
        match self.acceptor.on_accept(vote.ballot, vote.slot) {
            AcceptAnswer::Refused { promised } => draft.send_nack(from, vote.ballot, promised),
            AcceptAnswer::Behind { .. } => self.send_snapshot(draft, from),
            AcceptAnswer::Again => self.tell_vote(draft, from, vote),
            AcceptAnswer::Vote => self.cast_vote(draft, from, vote),
        }
    }

    // Casts a vote, and tells it.
    fn cast_vote(&self, draft: &mut Draft, from: u8, vote: &Vote) -> Result<(), OutOfMemory>
        requires change { draft.old.change ≡ None }
        requires prefix { learned_prefix self.now.learner < 2 ^ 62 }
        ensures does { OnOk result (GoesOnByActs self.now draft.old draft.new (cast_vote from vote.now)) }
        ensures steady { OnOk result (StaysSteady self.now draft.old draft.new) }
        ensures learnt { OnOk result (draft.new.learnt.items ≡ draft.old.learnt.items) }
    {
        draft.cast(*vote);
        self.tell_vote(draft, from, vote)
    }

    // Tells a vote, and asks for what is missing below it.
    fn tell_vote(&self, draft: &mut Draft, from: u8, vote: &Vote) -> Result<(), OutOfMemory>
        requires prefix { learned_prefix self.now.learner < 2 ^ 62 }
        requires low { base_of draft.old.change 0 < 2 ^ 62 }
        ensures does { OnOk result (GoesOnByActs self.now draft.old draft.new (tell_vote from vote.now)) }
        ensures sends { OnOk result (SendsOnly draft.old draft.new) }
    {
        draft.send_accepted(from, vote.ballot, vote.slot)?;
        self.ask_below(draft, from, vote.slot)
    }

    /// Asks for the entries that are missing below a slot, where some are.
    pub fn ask_below(&self, draft: &mut Draft, from: u8, slot: u64) -> Result<(), OutOfMemory>
        requires prefix { learned_prefix self.now.learner < 2 ^ 62 }
        requires low { base_of draft.old.change 0 < 2 ^ 62 }
        ensures does { OnOk result (GoesOnByActs self.now draft.old draft.new (ask_below from slot)) }
        ensures sends { OnOk result (SendsOnly draft.old draft.new) }
    {
        let prefix = self.next_slot(draft);
        if prefix < slot {
            draft.send_ask(from, prefix)
        } else {
            Ok(())
        }
    }

    /// A vote counts for the leader's flight of that ballot and slot. Where a majority has cast it, its entry is learned and
    /// told to all.
    pub fn on_accepted(
        &self,
        draft: &mut Draft,
        from: u8,
        ballot: Ballot,
        slot: u64,
    ) -> Result<(), OutOfMemory>
        requires some { 1 ≤ self.now.members }
        requires few { self.now.members ≤ 7 }
        requires from { from < self.now.members }
        requires prefix { learned_prefix self.now.learner < 2 ^ 62 }
        requires flies { FliesAt (next_slot self.now.learner draft.old) draft.old.term }
        requires bound { next_slot self.now.learner draft.old < 2 ^ 63 }
        ensures does { OnOk result (DoesAsTerm self.now draft.old draft.new (on_accepted self.now.members from ballot slot)) }
        ensures keeps { OnOk result (KeepsItsChange self.now draft.old draft.new) }
        ensures few { OnOk result (length draft.new.learnt.items ≤ length draft.old.learnt.items + 1) }
    {
        match draft.term.on_accepted(from, ballot, slot, self.members) {
            Some(vote) => draft.choose(vote.slot, vote.entry),
            None => Ok(()),
        }
    }

    /// The next entry is learned. One behind it shows that entries are missing, which are asked for once a letter.
    pub fn on_known(
        &self,
        draft: &mut Draft,
        from: u8,
        slot: u64,
        entry: Entry,
        asked: bool,
    ) -> Result<(), OutOfMemory>
        requires prefix { learned_prefix self.now.learner < 2 ^ 62 }
        requires low { base_of draft.old.change 0 < 2 ^ 62 }
        requires slot { slot < 2 ^ 62 }
        ensures does { OnOk result (GoesOnByActs self.now draft.old draft.new (on_known from slot entry asked)) }
        ensures keeps { OnOk result (KeepsItsChange self.now draft.old draft.new) }
        ensures few { OnOk result (length draft.new.learnt.items ≤ length draft.old.learnt.items + 1) }
    {
        if slot == self.next_slot(draft) {
            draft.learn(slot, entry)
        } else if asked {
            Ok(())
        } else {
            self.ask_below(draft, from, slot)
        }
    }

    /// What was learned from the slot on is told; a snapshot is sent where the slot lies below the base.
    pub fn on_ask(&self, draft: &mut Draft, from: u8, slot: u64) -> Result<(), OutOfMemory>
        requires prefix { learned_prefix self.now.learner < 2 ^ 62 }
        requires low { base_of draft.old.change 0 < 2 ^ 62 }
        requires slot { slot < 2 ^ 62 }
        ensures does { OnOk result (GoesOnByActs self.now draft.old draft.new (on_ask from slot (has_copied draft.old))) }
        ensures sends { OnOk result (SendsOnly draft.old draft.new) }
    {
        if slot < self.base(draft) {
            self.send_snapshot(draft, from)
        } else {
            self.tell_from(draft, from, slot)
        }
    }

    // Sends a snapshot, unless the step has sent it: the launch table at the base, and what was learned from there on.
    fn send_snapshot(&self, draft: &mut Draft, from: u8) -> Result<(), OutOfMemory>
        requires prefix { learned_prefix self.now.learner < 2 ^ 62 }
        requires low { base_of draft.old.change 0 < 2 ^ 62 }
        ensures does { OnOk result (GoesOnByActs self.now draft.old draft.new (snapshot from (has_copied draft.old))) }
        ensures sends { OnOk result (SendsOnly draft.old draft.new) }
    {
        if draft.has_copied() {
            return Ok(());
        }
        self.send_table(draft, from)?;
        self.tell_from(draft, from, self.base(draft))
    }

    // Sends the launch table at the base.
    fn send_table(&self, draft: &mut Draft, from: u8) -> Result<(), OutOfMemory>
        ensures says { OnOk result (HasSent draft.old.sends.items draft.new.sends.items (Send (Only from) (Snap (base_of draft.old.change self.now.learner.base)
            (rows_of draft.old.change self.now.rows)) ∷ [])) }
        ensures sends { OnOk result (SendsOnly draft.old draft.new) }
    {
        match &draft.change {
            Some(Change::Rebased(rebased)) => tell_rows(
                &mut draft.sends,
                from,
                rebased.table.slot,
                &rebased.table.rows.items,
            ),
            _ => tell_rows(
                &mut draft.sends,
                from,
                self.learner.base(),
                &self.rows.items,
            ),
        }
    }

    // Tells what was learned from a slot on, which isn't below the base.
    fn tell_from(&self, draft: &mut Draft, from: u8, slot: u64) -> Result<(), OutOfMemory>
        requires prefix { learned_prefix self.now.learner < 2 ^ 62 }
        requires slot { slot < 2 ^ 62 }
        requires kept { base_of draft.old.change self.now.learner.base ≤ slot }
        ensures says { OnOk result (HasSent draft.old.sends.items draft.new.sends.items (send_all from (known_from slot
            (drop (slot - base_of draft.old.change self.now.learner.base) (learned_with draft.old.change self.now.learner.entries draft.old.learnt.items))))) }
        ensures sends { OnOk result (SendsOnly draft.old draft.new) }
    {
        if let Some(rebased) = rebased_in(&draft.change) {
            let since = &rebased.since.items;
            let skip = (slot - rebased.slot).min(since.len() as u64) as usize;
            return tell_entries(&mut draft.sends, from, slot, &since[skip..]);
        }
        self.tell_learned(draft, from, slot)
    }

    // The same, where there is no new base: what the replica has learned, and behind it what the draft has.
    fn tell_learned(&self, draft: &mut Draft, from: u8, slot: u64) -> Result<(), OutOfMemory>
        requires prefix { learned_prefix self.now.learner < 2 ^ 62 }
        requires slot { slot < 2 ^ 62 }
        requires kept { self.now.learner.base ≤ slot }
        ensures says { OnOk result (HasSent draft.old.sends.items draft.new.sends.items (send_all from (known_from slot
            (drop (slot - self.now.learner.base) (self.now.learner.entries ++ entries_in draft.old.learnt.items))))) }
        ensures sends { OnOk result (SendsOnly draft.old draft.new) }
    {
        let entries = self.learner.entries_from(slot);
        tell_entries(&mut draft.sends, from, slot, entries)?;
        let fresh = self.learner.prefix().max(slot);
        let learnt = &draft.learnt;
        let skip = (fresh - self.learner.prefix()).min(learnt.len() as u64) as usize;
        tell_learnt(&mut draft.sends, from, fresh, &learnt[skip..])
    }

    /// The rows of a slot behind the first that isn't learned come in the place of all entries below it.
    pub fn on_snap(
        &self,
        table: &JobTable,
        draft: &mut Draft,
        slot: u64,
        count: u64,
        rest: &Packets<'_>,
    ) -> Result<(), OutOfMemory>
        requires change { draft.old.change ≡ None }
        requires prefix { learned_prefix self.now.learner < 2 ^ 62 }
        requires slot { slot < 2 ^ 62 }
        requires rows { AreRowsOf (table_size table.now) (flat_map row_in (take count rest.now)) }
        ensures does { OnOk result (GoesOnByActs self.now draft.old draft.new (on_snap slot (flat_map row_in (take count rest.now)))) }
        ensures steady { OnOk result (IsDraftSteady table.now self.now draft.old → IsDraftSteady table.now self.now draft.new) }
        ensures learnt { OnOk result (draft.new.learnt.items ≡ draft.old.learnt.items) }
    {
        if slot <= self.next_slot(draft) {
            return Ok(());
        }
        let rows = rows_in(self.alloc, count, rest.copy())?;
        let machine = machine_of(self.alloc, table, &rows)?;
        draft.rebase(self.alloc, slot, rows, Some(machine))
    }
}
