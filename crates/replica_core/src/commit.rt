//! How a planned step is taken: memory is wanted before it, and never in it.
ghost use Rattle.std.specs.Prelude.{◌≡◌, max, ◌+◌, ◌<◌, ◌≤◌, ◌^◌, length, List, Some, unwrap_or, IfOk, IfSome, OnOk};
ghost use Rattle.std.specs.Option.{option_map};
ghost use Rattle.acceptor_core.specs.Acceptor.{new_votes_in};
ghost use Rattle.launch_machine.specs.Clerk.{Applies, AppliesAll, table_size};
ghost use Rattle.launch_machine.specs.Machine.{CanCount, StandsFor, CountsBelow};
ghost use Rattle.learner_core.specs.Learner.{HasLearnedOne};
ghost use Rattle.learner_core.specs.Learner as learned;
ghost use Rattle.paxos_base.specs.Ballot.{ballot_number};
ghost use Rattle.paxos_base.specs.Durable.{after_delta};
ghost use Rattle.paxos_base.specs.Rows.{OpenHaveCursors, RowsStand};
ghost use Rattle.paxos_base.specs.declared.durable.Durable.{Durable};
ghost use Rattle.step_spec.specs.State.{prefix_of, started};
ghost use Rattle.step_spec.specs.declared.out.LearntRow.{LearntRow};
ghost use Rattle.term_core.specs.Term.{best_votes};
ghost use Rattle.replica_draft.specs.Draft.{delta_of, drafted, entries_in, with_best};
ghost use Rattle.replica_draft.specs.declared.change.Change.TheVariants as change;
ghost use Rattle.replica_core.specs.Commit.{HasLearnedAll, HasStored, LearnsAll, entries_with, launches_of};
ghost use Rattle.replica_core.specs.Counts.{count_of, count_raised, highest_count};
ghost use Rattle.replica_core.specs.Replica.{HasRoomFor, BringsTable, IsAlikeCore, IsDraftSteady, IsSupplied, base_of, own_identity, fixed_of, since_of, state_of};

use crate::out::{Effects, LearntList, StepOut};
use crate::parts::Core;
use acceptor_core::Acceptor;
use cron_io::OutOfMemory;
use due_set::JobTable;
use launch_machine::Machine;
use learner_core::Learner;
use paxos_base::{Ballot, Delta, Durable, Entry, JobRow, RowList, VoteList};
use replica_draft::{Change, Draft, Rebased};
use std::alloc::Global;
use std::mem;
use step_spec::LearntRow;
use term_core::Term;

impl Core {
    /// A replica that starts, for the first time or again, with what is on its disk.
    pub fn start(
        me: u8,
        members: u8,
        table: &JobTable,
        durable: Durable,
    ) -> Result<Core, OutOfMemory>
        requires me { me < members }
        requires few { members ≤ 7 }
        requires rows { RowsStand durable.rows (table_size table.now) }
        requires tried { durable.tried < 2 ^ 61 }
        ensures state { IfOk result (λ core. state_of core ≡ started me durable) }
        ensures me { IfOk result (λ core. core.me ≡ me) }
        ensures members { IfOk result (λ core. core.members ≡ members) }
        ensures stands { IfOk result (λ core. StandsFor table.now core.machine) }
        ensures rows { IfOk result (λ core. core.machine.rows ≡ durable.rows) }
        ensures base { IfOk result (λ core. core.learner.base ≡ core.acceptor.base) }
        ensures counts { IfOk result (λ core. core.high_count ≡ highest_count core.machine.rows) }
        ensures cursors { IfOk result (λ core. OpenHaveCursors core.machine.rows) }
    {
        let alloc = *durable.votes.items.allocator();
        let machine = machine_of(alloc, table, &durable.rows)?;
        let seen = seen_at_start(me, durable.tried, durable.promised);
        let high_count = highest_count(&durable.rows.items);
        Ok(Core {
            alloc,
            me,
            members,
            tried: durable.tried,
            acceptor: Acceptor::new(durable.promised, durable.votes, durable.base),
            learner: Learner::new(alloc, durable.base),
            rows: durable.rows,
            machine,
            term: Term::Follower { ended: None },
            seen,
            high_count,
        })
    }

    /// An equal replica, but for the room that it has.
    pub fn copy(&self) -> Result<Core, OutOfMemory>
        ensures { IfOk result (λ copy. IsAlikeCore copy self.now) }
    {
        Ok(Core {
            alloc: self.alloc,
            me: self.me,
            members: self.members,
            tried: self.tried,
            acceptor: self.acceptor.copy()?,
            learner: self.learner.copy()?,
            rows: self.rows.clone()?,
            machine: self.machine.copy()?,
            term: self.term.copy()?,
            seen: self.seen,
            high_count: self.high_count,
        })
    }

    /// Makes room for what a step brings. Nothing else changes, also where memory is wanting.
    pub fn reserve(&mut self, draft: &Draft) -> Result<(), OutOfMemory>
        ensures alike { IsAlikeCore self.new self.old }
        ensures room { OnOk result (HasRoomFor self.new draft.now) }
    {
        if let Some(Change::Voted(_)) = &draft.change {
            self.acceptor.reserve()?;
        }
        self.learner.reserve(draft.learnt.len())?;
        Ok(())
    }

    /// Takes a step that was planned and has room.
    #[inline(always)]
    pub fn commit(&mut self, table: &JobTable, draft: Draft, effects: Effects) -> StepOut
        requires room { HasRoomFor self.old draft }
        requires delta { effects.delta ≡ option_map delta_of draft.change }
        requires stands { StandsFor table.now self.old.machine }
        requires counts { CountsBelow (2 ^ 31) self.old.machine.rows }
        requires steady { IsDraftSteady table.now self.old draft }
        requires few { length draft.learnt.items < 2 ^ 31 }
        requires prefix { prefix_of (state_of self.old) < 2 ^ 62 }
        requires base { self.old.learner.base ≡ self.old.acceptor.base }
        ensures state { state_of self.new ≡ (drafted (fixed_of self.old) draft).state }
        ensures machine { AppliesAll table.now (launches_of draft.change self.old.machine).rows
            (entries_with draft.change (entries_in draft.learnt.items)) self.new.machine.rows }
        ensures stands { StandsFor table.now self.new.machine }
        ensures identity { own_identity self.new ≡ own_identity self.old }
        ensures base { self.new.learner.base ≡ self.new.acceptor.base }
        ensures counts { self.old.high_count ≡ highest_count self.old.machine.rows → self.new.high_count ≡ highest_count self.new.machine.rows }
        ensures delta { result.delta ≡ effects.delta }
        ensures letters { result.letters ≡ effects.letters }
        ensures learnt { result.learnt ≡ draft.learnt.items }
        ensures call { result.call ≡ draft.call }
    {
        self.store(&effects.delta);
        self.learn(table, draft.change, &draft.learnt);
        let old = mem::replace(&mut self.term, draft.term);
        let best = draft.best.unwrap_or(best_votes(self.alloc, old));
        bind(&mut self.term, best);
        self.seen = draft.seen;
        StepOut {
            delta: effects.delta,
            letters: effects.letters,
            learnt: LearntList {
                items: draft.learnt,
            },
            call: draft.call,
        }
    }

    // Takes over a change of what is on the disk, where there is one.
    fn store(&mut self, delta: &Option<Delta>)
        requires { IfSome delta.now (λ delta. new_votes_in delta ≤ self.old.acceptor.spare) }
        ensures { HasStored delta.now self.old self.new }
    {
        if let Some(delta) = delta {
            self.tried = round_after(delta, self.tried);
            self.acceptor.take(delta);
        }
    }

    // Learns what a step has learned, and applies it to the launch table. Where that brings a new base, its launch table is taken
    // first.
    #[inline(always)]
    fn learn(&mut self, table: &JobTable, change: Option<Change>, rows: &[LearntRow])
        requires room { length rows.now ≤ self.old.learner.spare }
        requires few { length rows.now < 2 ^ 31 }
        requires prefix { learned.learned_prefix self.old.learner < 2 ^ 62 }
        requires low { base_of change 0 < 2 ^ 62 }
        requires since { since_of change ≤ length rows.now }
        requires stands { StandsFor table.now self.old.machine }
        requires counts { CountsBelow (2 ^ 31) self.old.machine.rows }
        requires supplied { IsSupplied table.now self.old.machine self.old.learner.base (learned.learned_prefix self.old.learner) change }
        ensures { HasLearnedAll table.now change rows.now self.old self.new }
    {
        if let Some(Change::Rebased(rebased)) = change {
            self.take_table(table, Box::into_inner(rebased.table));
            return;
        }
        let raised = learn_rows(&mut self.learner, &mut self.machine, table, rows);
        self.high_count = self.high_count.max(raised);
    }

    // Takes a launch table in the place of the entries below its slot, and learns what was learned since.
    fn take_table(&mut self, table: &JobTable, rebased: Rebased)
        requires room { length rebased.since ≤ self.old.learner.spare }
        requires few { length rebased.since < 2 ^ 31 }
        requires low { rebased.slot < 2 ^ 62 }
        requires has { BringsTable table.now self.old.machine self.old.learner.base (learned.learned_prefix self.old.learner) rebased }
        ensures { (rows : List LearntRow) → HasLearnedAll table.now (Some (change.Rebased rebased)) rows self.old self.new }
    {
        self.rows = rebased.rows;
        self.take_machine(rebased.machine);
        self.learner.rebase(rebased.slot);
        let since = &rebased.since.items;
        let raised = learn_entries(&mut self.learner, &mut self.machine, table, since);
        self.high_count = self.high_count.max(raised);
    }

    // Takes the machine of the rows at the base, where there is one.
    fn take_machine(&mut self, machine: Option<Machine>)
        requires { (unwrap_or machine self.old.machine).rows ≡ self.old.rows }
        ensures same { self.new ≡ record self.old { machine = unwrap_or machine self.old.machine; high_count = self.new.high_count } }
        ensures counts { self.old.high_count ≡ highest_count self.old.machine.rows → self.new.high_count ≡ highest_count self.new.machine.rows }
    {
        if let Some(machine) = machine {
            self.high_count = highest_count(&self.rows.items);
            self.machine = machine;
        }
    }
}

// The highest round of a ballot of its own, after a change.
#[tactic(auto, unfolding(paxos_base::specs::Durable::after_delta))]
fn round_after(delta: &Delta, tried: u64) -> u64
    ensures { (kept : Durable) → kept.tried ≡ tried → result ≡ (after_delta delta.now kept).tried }
{
    match delta {
        Delta::Tried(ballot) => ballot.round(),
        _ => tried,
    }
}

// Learns the entries of rows, one after another, and applies each to the launch table. Answers the highest of the counts that one
// of them may have raised.
fn learn_rows(
    learner: &mut Learner,
    machine: &mut Machine,
    table: &JobTable,
    rows: &[LearntRow],
) -> u32
    requires room { length rows.now ≤ learner.old.spare }
    requires few { length rows.now < 2 ^ 31 }
    requires prefix { learned.learned_prefix learner.old < 2 ^ 62 }
    requires stands { StandsFor table.now machine.old }
    requires counts { CountsBelow (2 ^ 31) machine.old.rows }
    ensures { LearnsAll table.now learner.old learner.new machine.old machine.new (entries_in rows.now) result }
{
    let mut raised: u32 = 0;
    for row in rows {
        raised = raised.max(learn_next(learner, machine, table, row.entry));
    }
    raised
}

// The same of entries.
fn learn_entries(
    learner: &mut Learner,
    machine: &mut Machine,
    table: &JobTable,
    entries: &[Entry],
) -> u32
    requires room { length entries.now ≤ learner.old.spare }
    requires few { length entries.now < 2 ^ 31 }
    requires prefix { learned.learned_prefix learner.old < 2 ^ 62 }
    requires stands { StandsFor table.now machine.old }
    requires counts { CountsBelow (2 ^ 31) machine.old.rows }
    ensures { LearnsAll table.now learner.old learner.new machine.old machine.new entries.now result }
{
    let mut raised: u32 = 0;
    for entry in entries {
        raised = raised.max(learn_next(learner, machine, table, *entry));
    }
    raised
}

// Learns the next entry, for which there is room, and applies it. Answers the count that it may raise, or 0.
fn learn_next(learner: &mut Learner, machine: &mut Machine, table: &JobTable, entry: Entry) -> u32
    requires room { 1 ≤ learner.old.spare }
    requires prefix { learned.learned_prefix learner.old < 2 ^ 63 }
    requires stands { StandsFor table.now machine.old }
    requires counts { CanCount machine.old.rows entry }
    ensures learned { HasLearnedOne learner.old learner.new entry }
    ensures spare { learner.old.spare ≤ learner.new.spare + 1 }
    ensures applies { Applies table.now machine.old.rows entry machine.new.rows }
    ensures stands { StandsFor table.now machine.new }
    ensures count { result ≡ count_raised table.now machine.new.rows entry }
{
    let slot = learner.prefix();
    match learner.learn(slot, entry) {
        Ok(_) => {}
        Err(_) => unreachable!(),
    }
    machine.apply(table, entry);
    count_raised(machine, table, entry)
}

// The count of a row.
fn count_of(row: &JobRow) -> u32
    ensures { result ≡ count_of row.now }
{
    row.launched.max(row.voided)
}

// The highest count of rows.
fn highest_count(rows: &[JobRow]) -> u32
    ensures { result ≡ highest_count rows.now }
{
    let mut high = 0;
    for row in rows {
        high = high.max(count_of(row));
    }
    high
}

// The count of the row of which the entry may raise it, or 0.
fn count_raised(machine: &Machine, table: &JobTable, entry: Entry) -> u32
    requires { StandsFor table.now machine.now }
    ensures { result ≡ count_raised table.now machine.now.rows entry }
{
    match entry {
        Entry::End { job, .. } => {
            if job <= table.jobs() {
                count_of(&machine.row(job))
            } else {
                0
            }
        }
        Entry::Table { .. } => count_of(&machine.row(table.jobs())),
        Entry::Noop | Entry::Start { .. } => 0,
    }
}

// The votes that bind a term.
fn best_votes(alloc: Global, term: Term) -> VoteList
    ensures { result ≡ best_votes term }
{
    match term {
        Term::Follower { .. } => VoteList {
            items: Vec::new(alloc),
        },
        Term::Candidate { best, .. } | Term::Leader { best, .. } => best,
    }
}

// Binds a term by these votes.
fn bind(term: &mut Term, votes: VoteList)
    ensures { term.new ≡ with_best votes term.old }
{
    match term {
        Term::Follower { .. } => {}
        Term::Candidate { best, .. } => *best = votes,
        Term::Leader { best, .. } => *best = votes,
    }
}

/// The machine of a launch table that is one of the table of jobs.
pub fn machine_of(alloc: Global, table: &JobTable, rows: &RowList) -> Result<Machine, OutOfMemory>
    requires { RowsStand rows.now (table_size table.now) }
    ensures rows { IfOk result (λ machine. machine.rows ≡ rows.now) }
    ensures stands { IfOk result (λ machine. StandsFor table.now machine) }
    ensures cursors { IfOk result (λ machine. OpenHaveCursors machine.rows) }
{
    match Machine::from_rows(alloc, table, rows.clone()?)? {
        Some(machine) => Ok(machine),
        None => unreachable!(),
    }
}

// The number of the highest ballot that a replica has promised or tried before it stopped.
fn seen_at_start(me: u8, tried: u64, promised: Option<Ballot>) -> u64
    requires me { me < 7 }
    requires tried { tried < 2 ^ 61 }
    ensures { result ≡ max (unwrap_or promised 0) (ballot_number tried me) }
{
    let own = 8 * tried + u64::from(me);
    match promised {
        Some(ballot) => ballot.number().max(own),
        None => own,
    }
}
