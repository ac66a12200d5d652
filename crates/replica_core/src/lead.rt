//! How a replica comes to lead, and what a leader does at a tick and at an answer of the scheduler.
ghost use Rattle.std.specs.Prelude.{◌≡◌, ◌+◌, ◌<◌, ◌≤◌, ◌≢◌, ◌^◌, ◌↔◌, [], ◌∷◌, None, Some, Ok, true, IfOk, OnOk, IsTrue, length};
ghost use Rattle.paxos_base.specs.Members.{has_majority, only_member};
ghost use Rattle.paxos_base.specs.Vote.{SlotsRise, vote_at, votes_from};
ghost use Rattle.term_core.specs.Term.{answer_to_proposal, best_votes};
ghost use Rattle.term_core.specs.declared.term.Term.TheVariants.{Leader};
ghost use Rattle.zone_minutes.specs.Window.{IsInWindow};
ghost use Rattle.due_set.specs.Table.{Table};
ghost use Rattle.launch_machine.specs.Answers.{IsIntent};
ghost use Rattle.launch_machine.specs.Machine.{StandsFor};
ghost use Rattle.launch_machine.specs.declared.machine.Intent.{Intent};
ghost use Rattle.learner_core.specs.Learner as learned;
ghost use Rattle.step_spec.specs.Act.{Call, Rebase, Send};
ghost use Rattle.step_spec.specs.Message.{Lead, Others};
ghost use Rattle.step_spec.specs.Propose.{answer, bound_by, campaign, end_if, follow_intent, is_long, is_open, lead_on, proposal, propose, tick, wait};
ghost use Rattle.step_spec.specs.State.{prefix_of};
ghost use Rattle.replica_core.specs.Lines.{GoesOnByActs};
ghost use Rattle.replica_core.specs.Replica.{FliesAt, IsFreeToPropose, IsUntouched, IsDraftReady, IsReadyAnyhow, IsSmall, IsWhole, Makes, own_identity, state_of};

use crate::parts::Core;
use cluster_sched::{Name, SchedRow};
use cron_io::OutOfMemory;
use due_set::JobTable;
use launch_machine::Intent;
use paxos_base::{Ballot, Entry, Kind, Members, Vote, VoteList, majority, vote_at};
use replica_draft::{Change, Draft, Target};
use std::alloc::Global;
use term_core::{Flight, Term};
use zone_minutes::Minute;

// Equal votes.
fn copy_of(alloc: Global, votes: &[Vote]) -> Result<VoteList, OutOfMemory>
    requires { SlotsRise votes.now }
    ensures { IfOk result (λ copy. copy ≡ votes.now) }
{
    let mut items = Vec::with_capacity(alloc, votes.len())?;
    items.extend_from_slice(votes)?;
    Ok(VoteList { items })
}

// Whether a vote binds what is proposed at a slot or behind it.
fn is_bound(best: &[Vote], slot: u64) -> bool
    requires { SlotsRise best.now }
    ensures { IsTrue result ↔ (votes_from slot best.now ≢ []) }
{
    match best.last() {
        Some(vote) => slot <= vote.slot,
        None => false,
    }
}

// What is proposed at a slot: the entry that a vote binds it to there, or else this one.
fn bound_by(best: &[Vote], slot: u64, entry: Entry) -> Entry
    requires { SlotsRise best.now }
    ensures { result ≡ bound_by (vote_at slot best.now) entry }
{
    match vote_at(best, slot) {
        Some(vote) => vote.entry,
        None => entry,
    }
}

impl Core {
    /// Stands for leader in its next ballot, and asks all for promises and for their votes.
    pub fn campaign(&self, draft: &mut Draft) -> Result<(), OutOfMemory>
        requires idle { IsUntouched self.now draft.old }
        requires whole { IsWhole self.now }
        requires small { IsSmall (state_of self.now) self.now.machine.rows }
        ensures makes { OnOk result (Makes self.now (campaign (own_identity self.now) (state_of self.now)) draft.new) }
        ensures ready { OnOk result (IsReadyAnyhow self.now draft.new) }
    {
        let first = self.learner.prefix();
        let ballot = Ballot::of(self.tried.max(self.seen / 8) + 1, self.me);
        draft.best = Some(copy_of(self.alloc, self.acceptor.votes_from(first))?);
        draft.change = Some(Change::Tried(ballot));
        let none = VoteList {
            items: Vec::new(self.alloc),
        };
        draft
            .term
            .campaign(ballot, first, none, self.me, self.members);
        draft.send_prepare(ballot, first)
    }

    /// A leader waits for the votes of its flight, proposes what votes bind it to, or does what its launch table asks for.
    pub fn tick(&self, table: &JobTable, draft: &mut Draft, now: Minute) -> Result<(), OutOfMemory>
        requires idle { IsUntouched self.now draft.old }
        requires whole { IsWhole self.now }
        requires small { IsSmall (state_of self.now) self.now.machine.rows }
        requires stands { StandsFor table.now self.now.machine }
        requires inside { IsInWindow table.now.window now.0 }
        ensures makes { OnOk result ((intent : Intent) × IsIntent table.now self.now.machine.rows now.0 intent
            × Makes self.now (tick (own_identity self.now) now.0 self.now.machine.rows intent (state_of self.now)) draft.new) }
        ensures ready { OnOk result (IsDraftReady table.now self.now draft.new) }
    {
        let intent = self.machine.choose(table, now);
        if self.is_long() {
            return self.compact(draft);
        }
        match &self.term {
            Term::Leader {
                ballot,
                best,
                flight,
            } => match flight {
                Some(flight) => self.wait(draft, *ballot, flight),
                None => self.lead_on(draft, *ballot, &best.items, intent, now),
            },
            _ => Ok(()),
        }
    }

    // Whether so many entries were learned since the base that the launch table takes their place.
    fn is_long(&self) -> bool
        requires whole { IsWhole self.now }
        requires prefix { prefix_of (state_of self.now) < 2 ^ 62 }
        ensures { result ≡ is_long (state_of self.now) }
    {
        self.learner.base() + 64 <= self.learner.prefix()
    }

    // Takes its launch table in the place of the entries that it has learned.
    fn compact(&self, draft: &mut Draft) -> Result<(), OutOfMemory>
        requires idle { IsUntouched self.now draft.old }
        requires whole { IsWhole self.now }
        requires small { IsSmall (state_of self.now) self.now.machine.rows }
        requires long { is_long (state_of self.now) ≡ true }
        ensures makes { OnOk result (Makes self.now (Rebase (prefix_of (state_of self.now)) self.now.machine.rows ∷ []) draft.new) }
        ensures ready { OnOk result ((jobs : Table) → StandsFor jobs self.now.machine → IsDraftReady jobs self.now draft.new) }
    {
        let rows = self.machine.copy_rows(self.alloc)?;
        draft.rebase(self.alloc, self.learner.prefix(), rows, None)
    }

    // Waits for the votes of a flight. At each fourth tick those that have not voted are asked again.
    fn wait(&self, draft: &mut Draft, ballot: Ballot, flight: &Flight) -> Result<(), OutOfMemory>
        requires idle { IsUntouched self.now draft.old }
        requires whole { IsWhole self.now }
        requires waits { self.now.term ≡ Leader ballot (best_votes self.now.term) (Some flight.now) }
        ensures makes { OnOk result (Makes self.now (wait ballot flight.now) draft.new) }
        ensures ready { OnOk result (IsReadyAnyhow self.now draft.new) }
    {
        if let Some(accepted) = draft.wait() {
            let vote = Vote {
                slot: flight.slot,
                ballot,
                entry: flight.entry,
            };
            draft.send_accept(Target::Outside(accepted), &vote)?;
        }
        Ok(())
    }

    // What a leader without a flight does: where votes bind it still, it proposes what they ask for.
    fn lead_on(
        &self,
        draft: &mut Draft,
        ballot: Ballot,
        best: &[Vote],
        intent: Intent,
        now: Minute,
    ) -> Result<(), OutOfMemory>
        requires { IsFreeToPropose self.now draft.old ballot best.now }
        ensures makes { OnOk result (Makes self.now (lead_on (own_identity self.now) now.0 intent ballot best.now (state_of self.now)
            (votes_from (prefix_of (state_of self.now)) best.now)) draft.new) }
        ensures ready { OnOk result (IsReadyAnyhow self.now draft.new) }
    {
        if is_bound(best, self.learner.prefix()) {
            self.propose(draft, ballot, best, Entry::Noop)
        } else {
            self.follow_intent(draft, ballot, best, intent, now)
        }
    }

    // What a leader does whom no vote binds.
    fn follow_intent(
        &self,
        draft: &mut Draft,
        ballot: Ballot,
        best: &[Vote],
        intent: Intent,
        now: Minute,
    ) -> Result<(), OutOfMemory>
        requires { IsFreeToPropose self.now draft.old ballot best.now }
        ensures makes { OnOk result (Makes self.now (follow_intent (own_identity self.now) now.0 intent ballot best.now (state_of self.now)) draft.new) }
        ensures ready { OnOk result (IsReadyAnyhow self.now draft.new) }
    {
        match intent {
            Intent::Call { job, at, kind } => {
                self.call(draft, job, at, kind, now);
                Ok(())
            }
            Intent::Start { job, at } => {
                let entry = Entry::Start {
                    job,
                    at,
                    now: now.0,
                };
                self.propose(draft, ballot, best, entry)
            }
            Intent::Adopt { version } => {
                let entry = Entry::Table {
                    version,
                    now: now.0,
                };
                self.propose(draft, ballot, best, entry)
            }
            Intent::Rest => self.say_lead(draft, ballot),
        }
    }

    // Calls the scheduler.
    fn call(&self, draft: &mut Draft, job: u32, at: i64, kind: Kind, now: Minute)
        requires idle { IsUntouched self.now draft.old }
        requires whole { IsWhole self.now }
        ensures makes { Makes self.now (Call (record { name = record { job = job; at = at }; kind = kind; now = now; by = self.now.me }) ∷ []) draft.new }
        ensures ready { IsReadyAnyhow self.now draft.new }
    {
        draft.call(SchedRow {
            name: Name { job, at },
            kind,
            now,
            by: self.me,
        });
    }

    // Says to all that it leads.
    fn say_lead(&self, draft: &mut Draft, ballot: Ballot) -> Result<(), OutOfMemory>
        requires idle { IsUntouched self.now draft.old }
        requires whole { IsWhole self.now }
        ensures makes { OnOk result (Makes self.now (Send Others (Lead ballot (prefix_of (state_of self.now))) ∷ []) draft.new) }
        ensures ready { OnOk result (IsReadyAnyhow self.now draft.new) }
    {
        draft.send_lead(ballot, self.learner.prefix())
    }

    // Proposes an entry at the first slot that isn't learned, or what a vote binds it to there.
    fn propose(
        &self,
        draft: &mut Draft,
        ballot: Ballot,
        best: &[Vote],
        entry: Entry,
    ) -> Result<(), OutOfMemory>
        requires { IsFreeToPropose self.now draft.old ballot best.now }
        ensures makes { OnOk result (Makes self.now (propose (own_identity self.now)
            (proposal ballot best.now (prefix_of (state_of self.now)) entry)) draft.new) }
        ensures ready { OnOk result (IsReadyAnyhow self.now draft.new) }
    {
        let slot = self.learner.prefix();
        let vote = Vote {
            slot,
            ballot,
            entry: bound_by(best, slot, entry),
        };
        self.propose_vote(draft, vote)
    }

    // Votes for its own proposal, and asks all for their votes. Where it alone is a majority, the entry is chosen at once.
    fn propose_vote(&self, draft: &mut Draft, vote: Vote) -> Result<(), OutOfMemory>
        requires me { self.now.me < self.now.members }
        requires few { self.now.members ≤ 7 }
        requires change { draft.old.change ≡ None }
        requires learnt { draft.old.learnt.items ≡ [] }
        requires slot { vote.slot ≡ learned.learned_prefix self.now.learner }
        requires bound { vote.slot < 2 ^ 62 }
        requires flies { FliesAt (learned.learned_prefix self.now.learner) draft.old.term }
        requires leads { answer_to_proposal draft.old.term ≡ Ok vote.ballot }
        ensures does { OnOk result (GoesOnByActs self.now draft.old draft.new (λ state. propose (own_identity self.now) vote)) }
        ensures ready { OnOk result (IsReadyAnyhow self.now draft.new) }
    {
        draft.propose(self.me, vote);
        draft.send_accept(Target::Others, &vote)?;
        if self.is_alone() {
            draft.choose(vote.slot, vote.entry)
        } else {
            Ok(())
        }
    }

    // Whether it alone is a majority.
    fn is_alone(&self) -> bool
        requires some { 1 ≤ self.now.members }
        requires few { self.now.members ≤ 7 }
        requires me { self.now.me < self.now.members }
        ensures { result ≡ has_majority self.now.members (only_member self.now.me) }
    {
        Members::none().with(self.me).count() >= majority(self.members)
    }

    /// A leader that is free to propose ends a launch that is open.
    pub fn answer(
        &self,
        table: &JobTable,
        draft: &mut Draft,
        job: u32,
        at: i64,
        kind: Kind,
    ) -> Result<(), OutOfMemory>
        requires idle { IsUntouched self.now draft.old }
        requires whole { IsWhole self.now }
        requires small { IsSmall (state_of self.now) self.now.machine.rows }
        requires stands { StandsFor table.now self.now.machine }
        ensures makes { OnOk result (Makes self.now (answer (own_identity self.now) job at kind self.now.machine.rows (state_of self.now)) draft.new) }
        ensures ready { OnOk result (IsReadyAnyhow self.now draft.new) }
    {
        match &self.term {
            Term::Leader {
                ballot,
                best,
                flight,
            } => match flight {
                Some(_) => Ok(()),
                None => {
                    let entry = Entry::End { job, at, kind };
                    self.end_if(
                        draft,
                        *ballot,
                        &best.items,
                        entry,
                        self.is_open(table, job, at),
                    )
                }
            },
            _ => Ok(()),
        }
    }

    // Proposes the end of a launch that is open, unless a vote binds.
    fn end_if(
        &self,
        draft: &mut Draft,
        ballot: Ballot,
        best: &[Vote],
        entry: Entry,
        is_open: bool,
    ) -> Result<(), OutOfMemory>
        requires { IsFreeToPropose self.now draft.old ballot best.now }
        ensures makes { OnOk result (Makes self.now (end_if (own_identity self.now) ballot best.now (state_of self.now) entry is_open
            (votes_from (prefix_of (state_of self.now)) best.now)) draft.new) }
        ensures ready { OnOk result (IsReadyAnyhow self.now draft.new) }
    {
        if is_bound(best, self.learner.prefix()) {
            return Ok(());
        }
        if is_open {
            self.propose(draft, ballot, best, entry)
        } else {
            Ok(())
        }
    }

    // Whether the job's launch that is due at the instant is open.
    fn is_open(&self, table: &JobTable, job: u32, at: i64) -> bool
        requires { StandsFor table.now self.now.machine }
        ensures { result ≡ is_open job at self.now.machine.rows }
    {
        if job > table.jobs() {
            return false;
        }
        let row = self.machine.row(job);
        row.open_now.is_some() && row.cursor == Some(at)
    }
}
