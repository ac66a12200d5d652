//! An acceptor, played by the sentences of "Paxos Made Simple", section 2.2.
use crate::builders::{Cast, ballot_of, list_of, no_votes, vote_of};
use acceptor_core::{AcceptAnswer, Acceptor, PrepareAnswer};
use paxos_base::{Delta, RowList};
use std::alloc::Global;
use std::test::*;

// What an acceptor is asked or told. Ballots are given by their numbers.
#[derive(Clone, Copy, Debug)]
enum Call {
    // It begins, and has promised nothing.
    Begin,
    // It starts again with this promise, the base 5, and a vote in ballot 8 at slot 6.
    Restart(u64),
    // A ballot is prepared, with the votes from a slot on. A promise is taken over.
    Prepare(u64, u64),
    // A proposal in a ballot, at a slot. A vote is taken over.
    Accept(u64, u64),
    // The replica takes up a ballot of its own.
    Tried(u64),
    // The entries below the slot are in the rows.
    Base(u64),
    // The slots and ballots of the votes from a slot on.
    Votes(u64),
    // A copy goes on in its place.
    Copy,
}

struct Step {
    call: Call,
    want: &'static str,
}

const STEPS: &[Step] = &[
    // "An acceptor must accept the first proposal that it receives."
    Step {
        call: Call::Begin,
        want: "",
    },
    Step {
        call: Call::Accept(10, 3),
        want: "Vote",
    },
    Step {
        call: Call::Accept(10, 3),
        want: "Again",
    },
    Step {
        call: Call::Accept(10, 0),
        want: "Vote",
    },
    Step {
        call: Call::Accept(10, 0),
        want: "Again",
    },
    Step {
        call: Call::Accept(9, 4),
        want: "Refused { promised: Ballot(10) }",
    },
    Step {
        call: Call::Votes(0),
        want: "[(0, 10), (3, 10)]",
    },
    // "If an acceptor receives a prepare request with number n greater than that of any prepare request to which it has
    // already responded, then it responds to the request with a promise".
    Step {
        call: Call::Begin,
        want: "",
    },
    Step {
        call: Call::Prepare(8, 0),
        want: "Promise",
    },
    Step {
        call: Call::Prepare(8, 0),
        want: "Refused { promised: Ballot(8) }",
    },
    Step {
        call: Call::Prepare(17, 9),
        want: "Promise",
    },
    Step {
        call: Call::Prepare(8, 0),
        want: "Refused { promised: Ballot(17) }",
    },
    Step {
        call: Call::Prepare(16, 0),
        want: "Refused { promised: Ballot(17) }",
    },
    Step {
        call: Call::Prepare(18, 0),
        want: "Promise",
    },
    // "An acceptor can accept a proposal numbered n iff it has not responded to a prepare request having a number
    // greater than n."
    Step {
        call: Call::Begin,
        want: "",
    },
    Step {
        call: Call::Accept(16, 0),
        want: "Vote",
    },
    Step {
        call: Call::Prepare(18, 0),
        want: "Promise",
    },
    Step {
        call: Call::Accept(16, 0),
        want: "Refused { promised: Ballot(18) }",
    },
    Step {
        call: Call::Accept(16, 1),
        want: "Refused { promised: Ballot(18) }",
    },
    Step {
        call: Call::Accept(18, 0),
        want: "Vote",
    },
    // A vote promises its ballot too.
    Step {
        call: Call::Accept(24, 1),
        want: "Vote",
    },
    Step {
        call: Call::Accept(18, 2),
        want: "Refused { promised: Ballot(24) }",
    },
    Step {
        call: Call::Prepare(24, 0),
        want: "Refused { promised: Ballot(24) }",
    },
    Step {
        call: Call::Votes(0),
        want: "[(0, 18), (1, 24)]",
    },
    Step {
        call: Call::Votes(1),
        want: "[(1, 24)]",
    },
    Step {
        call: Call::Votes(2),
        want: "[]",
    },
    // "An acceptor needs to remember only the highest-numbered proposal that it has ever accepted and the number of the
    // highest-numbered prepare request to which it has responded", also "if it fails and then restarts".
    Step {
        call: Call::Restart(33),
        want: "",
    },
    Step {
        call: Call::Votes(0),
        want: "[(6, 8)]",
    },
    Step {
        call: Call::Prepare(33, 5),
        want: "Refused { promised: Ballot(33) }",
    },
    Step {
        call: Call::Accept(8, 6),
        want: "Refused { promised: Ballot(33) }",
    },
    Step {
        call: Call::Accept(33, 6),
        want: "Vote",
    },
    Step {
        call: Call::Accept(33, 5),
        want: "Vote",
    },
    Step {
        call: Call::Copy,
        want: "",
    },
    Step {
        call: Call::Votes(0),
        want: "[(5, 33), (6, 33)]",
    },
    Step {
        call: Call::Prepare(33, 5),
        want: "Refused { promised: Ballot(33) }",
    },
    Step {
        call: Call::Accept(33, 4),
        want: "Behind { base: 5 }",
    },
    // The entries below the base are chosen, and their votes are gone.
    Step {
        call: Call::Begin,
        want: "",
    },
    Step {
        call: Call::Accept(8, 3),
        want: "Vote",
    },
    Step {
        call: Call::Accept(8, 4),
        want: "Vote",
    },
    Step {
        call: Call::Accept(8, 5),
        want: "Vote",
    },
    Step {
        call: Call::Base(4),
        want: "",
    },
    Step {
        call: Call::Votes(0),
        want: "[(4, 8), (5, 8)]",
    },
    Step {
        call: Call::Accept(8, 3),
        want: "Behind { base: 4 }",
    },
    Step {
        call: Call::Accept(8, 4),
        want: "Again",
    },
    // A ballot that is refused is refused below the base too.
    Step {
        call: Call::Prepare(8, 3),
        want: "Refused { promised: Ballot(8) }",
    },
    Step {
        call: Call::Prepare(16, 3),
        want: "Behind { base: 4 }",
    },
    Step {
        call: Call::Prepare(16, 4),
        want: "Promise",
    },
    Step {
        call: Call::Accept(8, 3),
        want: "Refused { promised: Ballot(16) }",
    },
    // A ballot that the replica takes up itself is promised as well.
    Step {
        call: Call::Begin,
        want: "",
    },
    Step {
        call: Call::Tried(17),
        want: "",
    },
    Step {
        call: Call::Prepare(16, 0),
        want: "Refused { promised: Ballot(17) }",
    },
    Step {
        call: Call::Prepare(17, 0),
        want: "Refused { promised: Ballot(17) }",
    },
    Step {
        call: Call::Accept(17, 0),
        want: "Vote",
    },
];

fn restarted(alloc: Global, number: u64) -> Result<Acceptor, Fail> {
    let vote = Cast {
        slot: 6,
        number: 8,
        job: 0,
    };
    let promised = Some(ballot_of(number)?);
    Ok(Acceptor::new(promised, list_of(alloc, &[vote])?, 5))
}

fn prepare(acceptor: &mut Acceptor, number: u64, first: u64) -> Result<PrepareAnswer, Fail> {
    let ballot = ballot_of(number)?;
    let answer = acceptor.on_prepare(ballot, first);
    if answer == PrepareAnswer::Promise {
        acceptor.take(&Delta::Promised(ballot));
    }
    Ok(answer)
}

fn accept(acceptor: &mut Acceptor, number: u64, slot: u64) -> Result<AcceptAnswer, Fail> {
    let vote = vote_of(Cast {
        slot,
        number,
        job: 0,
    })?;
    acceptor.reserve()?;
    let answer = acceptor.on_accept(vote.ballot, slot);
    if answer == AcceptAnswer::Vote {
        acceptor.take(&Delta::Voted(vote));
    }
    Ok(answer)
}

fn votes_text(alloc: Global, acceptor: &Acceptor, first: u64) -> Result<String, Fail> {
    let votes: Vec<(u64, u64)> = acceptor
        .votes_from(first)
        .iter()
        .map(|vote| (vote.slot, vote.ballot.number()))
        .collect(alloc)?;
    Ok(format!(in alloc; "{votes:?}")?)
}

fn rebase(alloc: Global, acceptor: &mut Acceptor, slot: u64) {
    let rows = RowList {
        items: Vec::new(alloc),
    };
    acceptor.take(&Delta::Base { slot, rows });
}

// Makes the call, and says what was answered.
fn play(alloc: Global, acceptor: &mut Acceptor, call: Call) -> Result<String, Fail> {
    match call {
        Call::Begin => *acceptor = Acceptor::new(None, no_votes(alloc), 0),
        Call::Restart(number) => *acceptor = restarted(alloc, number)?,
        Call::Prepare(number, first) => {
            let answer = prepare(acceptor, number, first)?;
            return Ok(format!(in alloc; "{answer:?}")?);
        }
        Call::Accept(number, slot) => {
            let answer = accept(acceptor, number, slot)?;
            return Ok(format!(in alloc; "{answer:?}")?);
        }
        Call::Tried(number) => acceptor.take(&Delta::Tried(ballot_of(number)?)),
        Call::Base(slot) => rebase(alloc, acceptor, slot),
        Call::Votes(first) => return votes_text(alloc, acceptor, first),
        Call::Copy => *acceptor = acceptor.copy()?,
    }
    Ok(String::new(alloc))
}

#[test]
fn an_acceptor_answers_by_its_promise(rt: HostRuntime) -> Result<(), Fail> {
    let mut acceptor = Acceptor::new(None, no_votes(rt.alloc()), 0);
    for (number, step) in STEPS.iter().enumerate() {
        let answer = play(rt.alloc(), &mut acceptor, step.call)?;
        assert_eq!(rt; answer.as_str(), step.want, "step {number}");
    }
    Ok(())
}
