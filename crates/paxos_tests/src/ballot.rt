//! Whole ballots of three replicas: a candidate or two, an acceptor at each replica, and a learner.
use crate::builders::{ballot_of, no_votes, start_of};
use acceptor_core::{AcceptAnswer, Acceptor, PrepareAnswer};
use learner_core::{Learner, Learnt};
use paxos_base::{Ballot, Delta, Entry, Vote};
use std::alloc::Global;
use std::process::Abort;
use std::test::*;
use term_core::{ProposeFault, Term};

// The acceptors of the three replicas, the terms of two of them, and a learner.
#[derive(Drop)]
struct Stage {
    first: Acceptor,
    second: Acceptor,
    third: Acceptor,
    lower: Term,
    higher: Term,
    learner: Learner,
}

// The replica with the lower ballot, and that with the higher one.
#[derive(Clone, Copy, Debug)]
enum Who {
    Low,
    High,
}

#[derive(Clone, Copy, Debug)]
enum Call {
    // A replica's acceptor is asked for a promise of a ballot.
    Prepare(u8, u64),
    // A replica's term begins.
    Campaign(Who, u64, u8),
    // The term hears the promise of a replica.
    Promise(Who, u8, u64),
    // The term hears of a ballot.
    Ballot(Who, u64),
    // The term of a replica proposes a job's entry at a slot.
    Propose(Who, u8, u64, u32),
    // A replica's acceptor is asked to vote for a job's entry at slot 0 in a ballot.
    Accept(u8, u64, u32),
    // The term hears of a replica's vote at slot 0, and the learner of what is chosen so.
    Accepted(Who, u8, u64),
    // The entry that is learned at slot 0.
    Learned,
}

struct Step {
    call: Call,
    want: &'static str,
}

// One asks for promises, proposes an entry, and it is learned.
const WHOLE: &[Step] = &[
    Step {
        call: Call::Prepare(0, 8),
        want: "Promise",
    },
    Step {
        call: Call::Campaign(Who::Low, 8, 0),
        want: "",
    },
    Step {
        call: Call::Prepare(1, 8),
        want: "Promise",
    },
    Step {
        call: Call::Promise(Who::Low, 1, 8),
        want: "true",
    },
    Step {
        call: Call::Prepare(2, 8),
        want: "Promise",
    },
    Step {
        call: Call::Promise(Who::Low, 2, 8),
        want: "false",
    },
    Step {
        call: Call::Propose(Who::Low, 0, 0, 7),
        want: "Ok(Ballot(8))",
    },
    Step {
        call: Call::Accept(0, 8, 7),
        want: "Vote",
    },
    Step {
        call: Call::Accept(2, 8, 7),
        want: "Vote",
    },
    Step {
        call: Call::Accepted(Who::Low, 2, 8),
        want: "Some(New)",
    },
    Step {
        call: Call::Accept(1, 8, 7),
        want: "Vote",
    },
    Step {
        call: Call::Accepted(Who::Low, 1, 8),
        want: "None",
    },
    Step {
        call: Call::Learned,
        want: "Some(Start { job: 7, at: 5, now: 6 })",
    },
    Step {
        call: Call::Propose(Who::Low, 0, 1, 8),
        want: "Ok(Ballot(8))",
    },
];

// Two candidates, and one acceptor between them: the higher ballot leads, and ends the lower one.
const TWO: &[Step] = &[
    Step {
        call: Call::Prepare(0, 8),
        want: "Promise",
    },
    Step {
        call: Call::Campaign(Who::Low, 8, 0),
        want: "",
    },
    Step {
        call: Call::Prepare(1, 9),
        want: "Promise",
    },
    Step {
        call: Call::Campaign(Who::High, 9, 1),
        want: "",
    },
    Step {
        call: Call::Prepare(2, 8),
        want: "Promise",
    },
    Step {
        call: Call::Promise(Who::Low, 2, 8),
        want: "true",
    },
    Step {
        call: Call::Prepare(2, 9),
        want: "Promise",
    },
    Step {
        call: Call::Promise(Who::High, 2, 9),
        want: "true",
    },
    // Both lead now; the lower one finds no majority any more.
    Step {
        call: Call::Propose(Who::Low, 0, 0, 6),
        want: "Ok(Ballot(8))",
    },
    Step {
        call: Call::Accept(0, 8, 6),
        want: "Vote",
    },
    Step {
        call: Call::Accept(1, 8, 6),
        want: "Refused { promised: Ballot(9) }",
    },
    Step {
        call: Call::Accept(2, 8, 6),
        want: "Refused { promised: Ballot(9) }",
    },
    Step {
        call: Call::Ballot(Who::Low, 9),
        want: "true",
    },
    Step {
        call: Call::Propose(Who::Low, 0, 0, 6),
        want: "Err(NotLeader { ended: Some(Ballot(9)) })",
    },
    Step {
        call: Call::Propose(Who::High, 1, 0, 7),
        want: "Ok(Ballot(9))",
    },
    Step {
        call: Call::Accept(0, 9, 7),
        want: "Vote",
    },
    Step {
        call: Call::Accepted(Who::High, 0, 9),
        want: "Some(New)",
    },
    Step {
        call: Call::Learned,
        want: "Some(Start { job: 7, at: 5, now: 6 })",
    },
];

// An entry that was chosen is chosen again under the next leader, who hears of it from one acceptor.
const TAKEOVER: &[Step] = &[
    Step {
        call: Call::Prepare(0, 8),
        want: "Promise",
    },
    Step {
        call: Call::Campaign(Who::Low, 8, 0),
        want: "",
    },
    Step {
        call: Call::Prepare(1, 8),
        want: "Promise",
    },
    Step {
        call: Call::Promise(Who::Low, 1, 8),
        want: "true",
    },
    Step {
        call: Call::Propose(Who::Low, 0, 0, 7),
        want: "Ok(Ballot(8))",
    },
    Step {
        call: Call::Accept(0, 8, 7),
        want: "Vote",
    },
    Step {
        call: Call::Accept(1, 8, 7),
        want: "Vote",
    },
    Step {
        call: Call::Accepted(Who::Low, 1, 8),
        want: "Some(New)",
    },
    Step {
        call: Call::Prepare(2, 18),
        want: "Promise",
    },
    Step {
        call: Call::Campaign(Who::High, 18, 2),
        want: "",
    },
    Step {
        call: Call::Prepare(1, 18),
        want: "Promise",
    },
    Step {
        call: Call::Promise(Who::High, 1, 18),
        want: "true, bound to 7",
    },
    Step {
        call: Call::Propose(Who::High, 2, 0, 7),
        want: "Ok(Ballot(18))",
    },
    Step {
        call: Call::Accept(2, 18, 7),
        want: "Vote",
    },
    Step {
        call: Call::Accept(1, 18, 7),
        want: "Vote",
    },
    Step {
        call: Call::Accepted(Who::High, 1, 18),
        want: "Some(Old)",
    },
    Step {
        call: Call::Learned,
        want: "Some(Start { job: 7, at: 5, now: 6 })",
    },
];

fn fresh(alloc: Global) -> Acceptor {
    Acceptor::new(None, no_votes(alloc), 0)
}

impl Stage {
    fn new(alloc: Global) -> Stage {
        Stage {
            first: fresh(alloc),
            second: fresh(alloc),
            third: fresh(alloc),
            lower: Term::Follower { ended: None },
            higher: Term::Follower { ended: None },
            learner: Learner::new(alloc, 0),
        }
    }

    fn acceptor(&mut self, number: u8) -> &mut Acceptor {
        match number {
            0 => &mut self.first,
            1 => &mut self.second,
            _ => &mut self.third,
        }
    }

    fn term(&mut self, who: Who) -> &mut Term {
        match who {
            Who::Low => &mut self.lower,
            Who::High => &mut self.higher,
        }
    }
}

fn prepare(acceptor: &mut Acceptor, ballot: Ballot) -> PrepareAnswer {
    let answer = acceptor.on_prepare(ballot, 0);
    if answer == PrepareAnswer::Promise {
        acceptor.take(&Delta::Promised(ballot));
    }
    answer
}

fn accept(acceptor: &mut Acceptor, ballot: Ballot, job: u32) -> Result<AcceptAnswer, Fail> {
    acceptor.reserve()?;
    let answer = acceptor.on_accept(ballot, 0);
    if answer == AcceptAnswer::Vote {
        acceptor.take(&Delta::Voted(Vote {
            slot: 0,
            ballot,
            entry: start_of(job),
        }));
    }
    Ok(answer)
}

fn campaign(alloc: Global, term: &mut Term, ballot: Ballot, me: u8) {
    term.campaign(ballot, 0, no_votes(alloc), me % 3, 3);
}

// The job of the first vote that binds a leader.
fn bound_job(term: &Term) -> Option<u32> {
    let Term::Leader { best, .. } = term else {
        return None;
    };
    match best.items.first()?.entry {
        Entry::Start { job, .. } => Some(job),
        _ => None,
    }
}

fn promise(
    alloc: Global,
    term: &mut Term,
    from: u8,
    ballot: Ballot,
    votes: &[Vote],
) -> Result<String, Fail> {
    let led = term.on_promise(from % 3, ballot, 0, votes, 3)?;
    match bound_job(term) {
        Some(job) => Ok(format!(in alloc; "{led}, bound to {job}")?),
        None => Ok(format!(in alloc; "{led}")?),
    }
}

fn propose(term: &mut Term, me: u8, slot: u64, job: u32) -> Result<Ballot, ProposeFault> {
    term.propose(slot, start_of(job), me % 3)
}

fn learn(learner: &mut Learner, chosen: Option<Vote>) -> Result<Option<Learnt>, Fail> {
    match chosen {
        Some(vote) if learner.prefix() < 1 << 63 => Ok(Some(learner.learn(vote.slot, vote.entry)?)),
        _ => Ok(None),
    }
}

// The term hears the promise of a replica, with the votes of its acceptor.
fn hear_promise(
    alloc: Global,
    stage: &mut Stage,
    who: Who,
    from: u8,
    number: u64,
) -> Result<String, Fail> {
    let votes = Vec::from_slice(alloc, stage.acceptor(from).votes_from(0))?;
    promise(alloc, stage.term(who), from, ballot_of(number)?, &votes)
}

// The term hears of a vote, and the learner of what is chosen by it.
fn hear_vote(stage: &mut Stage, who: Who, from: u8, number: u64) -> Result<Option<Learnt>, Fail> {
    let chosen = stage
        .term(who)
        .on_accepted(from % 3, ballot_of(number)?, 0, 3);
    learn(&mut stage.learner, chosen)
}

// Makes the call, and says what was answered.
fn play(alloc: Global, stage: &mut Stage, call: Call) -> Result<String, Fail> {
    match call {
        Call::Prepare(number, ballot) => {
            let answer = prepare(stage.acceptor(number), ballot_of(ballot)?);
            Ok(format!(in alloc; "{answer:?}")?)
        }
        Call::Campaign(who, ballot, me) => {
            campaign(alloc, stage.term(who), ballot_of(ballot)?, me);
            Ok(String::new(alloc))
        }
        Call::Promise(who, from, ballot) => hear_promise(alloc, stage, who, from, ballot),
        Call::Ballot(who, ballot) => {
            let ended = stage.term(who).on_ballot(ballot_of(ballot)?);
            Ok(format!(in alloc; "{ended}")?)
        }
        Call::Propose(who, me, slot, job) => {
            let answer = propose(stage.term(who), me, slot, job);
            Ok(format!(in alloc; "{answer:?}")?)
        }
        Call::Accept(number, ballot, job) => {
            let answer = accept(stage.acceptor(number), ballot_of(ballot)?, job)?;
            Ok(format!(in alloc; "{answer:?}")?)
        }
        Call::Accepted(who, from, ballot) => {
            let learnt = hear_vote(stage, who, from, ballot)?;
            Ok(format!(in alloc; "{learnt:?}")?)
        }
        Call::Learned => {
            let entry = stage.learner.entry_at(0);
            Ok(format!(in alloc; "{entry:?}")?)
        }
    }
}

fn play_all(rt: &impl Abort, alloc: Global, steps: &[Step]) -> Result<(), Fail> {
    let mut stage = Stage::new(alloc);
    for (number, step) in steps.iter().enumerate() {
        let answer = play(alloc, &mut stage, step.call)?;
        assert_eq!(rt; answer.as_str(), step.want, "step {number}");
    }
    Ok(())
}

#[test]
fn a_whole_ballot(rt: HostRuntime) -> Result<(), Fail> {
    play_all(&rt, rt.alloc(), WHOLE)
}

#[test]
fn two_candidates_and_an_acceptor(rt: HostRuntime) -> Result<(), Fail> {
    play_all(&rt, rt.alloc(), TWO)
}

#[test]
fn a_takeover_of_what_an_acceptor_voted_for(rt: HostRuntime) -> Result<(), Fail> {
    play_all(&rt, rt.alloc(), TAKEOVER)
}
