//! A term, played call by call.
ghost use Rattle.std.specs.Prelude.{◌≤◌};

use crate::builders::{Cast, ballot_of, list_of, no_votes, start_of, votes_of};
use crate::term_rows::{Call, DUEL, FLIGHTS, PROMISES, Step};
use paxos_base::Ballot;
use std::alloc::Global;
use std::process::Abort;
use std::test::*;
use term_core::{ProposeFault, Term};

// How many replicas there are.
const MEMBERS: u8 = 5;

fn campaign(alloc: Global, number: u64, own: &[Cast]) -> Result<Term, Fail> {
    let own = list_of(alloc, own)?;
    let mut term = Term::Follower { ended: None };
    term.campaign(ballot_of(number)?, 0, own, 0, MEMBERS);
    Ok(term)
}

fn promise(
    alloc: Global,
    term: &mut Term,
    from: u8,
    number: u64,
    first: u64,
    votes: &[Cast],
) -> Result<bool, Fail> {
    let votes = votes_of(alloc, votes)?;
    Ok(term.on_promise(from % MEMBERS, ballot_of(number)?, first, &votes, MEMBERS)?)
}

fn accepted(
    alloc: Global,
    term: &mut Term,
    from: u8,
    number: u64,
    slot: u64,
) -> Result<String, Fail> {
    let chosen = term.on_accepted(from % MEMBERS, ballot_of(number)?, slot, MEMBERS);
    Ok(format!(in alloc; "{chosen:?}")?)
}

fn propose(term: &mut Term, slot: u64, job: u32) -> Result<Ballot, ProposeFault> {
    term.propose(slot, start_of(job), 0)
}

// What is answered where nothing is.
fn nothing(alloc: Global) -> Result<String, Fail> {
    Ok(String::new(alloc))
}

// Makes the call, and says what was answered.
fn play(alloc: Global, term: &mut Term, call: Call) -> Result<String, Fail> {
    match call {
        Call::Begin => *term = Term::Follower { ended: None },
        Call::Campaign(number, own) => *term = campaign(alloc, number, own)?,
        Call::Promise(from, number, first, votes) => {
            let led = promise(alloc, term, from, number, first, votes)?;
            return Ok(format!(in alloc; "{led}")?);
        }
        Call::Ballot(number) => {
            let ended = term.on_ballot(ballot_of(number)?);
            return Ok(format!(in alloc; "{ended}")?);
        }
        Call::Propose(slot, job) => {
            let answer = propose(term, slot, job);
            return Ok(format!(in alloc; "{answer:?}")?);
        }
        Call::Accepted(from, number, slot) => return accepted(alloc, term, from, number, slot),
        Call::Tick => {
            let accepted = term.wait_tick();
            return Ok(format!(in alloc; "{accepted:?}")?);
        }
        Call::Advance(prefix) => term.advance(prefix),
        Call::Copy => *term = term.copy()?,
        Call::Show => return Ok(format!(in alloc; "{term:?}")?),
    }
    nothing(alloc)
}

fn play_all(rt: &impl Abort, alloc: Global, steps: &[Step]) -> Result<(), Fail> {
    let mut term = Term::Follower { ended: None };
    for (number, step) in steps.iter().enumerate() {
        let answer = play(alloc, &mut term, step.call)?;
        assert_eq!(rt; answer.as_str(), step.want, "step {number}");
    }
    Ok(())
}

#[test]
fn promises_count_for_the_candidate_that_asked(rt: HostRuntime) -> Result<(), Fail> {
    play_all(&rt, rt.alloc(), PROMISES)
}

#[test]
fn a_higher_ballot_ends_a_term(rt: HostRuntime) -> Result<(), Fail> {
    play_all(&rt, rt.alloc(), DUEL)
}

#[test]
fn a_leader_has_one_flight(rt: HostRuntime) -> Result<(), Fail> {
    play_all(&rt, rt.alloc(), FLIGHTS)
}

// Whether the term is a leader's.
fn leads(term: &Term) -> bool {
    matches!(term, Term::Leader { .. })
}

// A candidate of that many replicas, with promises of those below a number.
fn promised(alloc: Global, members: u8, count: u8) -> Result<Term, Fail>
    requires some { 1 ≤ members }
    requires few { members ≤ 7 }
    requires count { count ≤ members }
{
    let mut term = Term::Follower { ended: None };
    term.campaign(Ballot::of(1, 0), 0, no_votes(alloc), 0, members);
    for from in 0..count {
        term.on_promise(from, Ballot::of(1, 0), 0, &[], members)?;
    }
    Ok(term)
}

// How many acceptances choose a leader's proposal at slot 4.
fn count_choosing(term: &mut Term, members: u8) -> u8
    requires some { 1 ≤ members }
    requires few { members ≤ 7 }
{
    for from in 0..members {
        if term
            .on_accepted(from, Ballot::of(1, 0), 4, members)
            .is_some()
        {
            return from + 1;
        }
    }
    0
}

// "A value is chosen when a large enough set of acceptors have accepted it", which is any majority: so many of one
// replica, of two and so on.
const MAJORITIES: &[u8] = &[1, 2, 2, 3, 3, 4, 4];

#[test]
fn a_majority_leads_and_chooses(rt: HostRuntime) -> Result<(), Fail> {
    for members in 1..8u8 {
        let want = MAJORITIES.get(members as usize - 1).copied().unwrap_or(0);
        let few = promised(rt.alloc(), members, want.min(members) - 1)?;
        assert!(rt; !leads(&few) || members == 1, "of {members}");
        let mut term = promised(rt.alloc(), members, want.min(members))?;
        assert!(rt; leads(&term), "of {members}");
        assert_eq!(rt; propose(&mut term, 4, 7), Ok(Ballot::of(1, 0)));
        assert_eq!(rt; count_choosing(&mut term, members), want, "of {members}");
    }
    Ok(())
}
