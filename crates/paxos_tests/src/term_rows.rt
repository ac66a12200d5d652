//! What a term is told, and what it answers.
use crate::builders::Cast;

// What a term of five replicas is told. Ballots are given by their numbers, and entries by their jobs.
#[derive(Clone, Copy, Debug)]
pub enum Call {
    // It is a follower's, and no ballot has ended one before.
    Begin,
    // Replica 0 begins a candidate's term of a ballot, with these votes of its own.
    Campaign(u64, &'static [Cast]),
    // A replica promises a ballot, with votes from a slot on.
    Promise(u8, u64, u64, &'static [Cast]),
    // A ballot is heard of.
    Ballot(u64),
    // A job's entry is proposed at a slot.
    Propose(u64, u32),
    // A replica has accepted a proposal in a ballot, at a slot.
    Accepted(u8, u64, u64),
    Tick,
    // The slots below this one are learned.
    Advance(u64),
    // A copy goes on in its place.
    Copy,
    // What the term is.
    Show,
}

pub struct Step {
    pub call: Call,
    pub want: &'static str,
}

const HEARD: &[Cast] = &[Cast {
    slot: 0,
    number: 8,
    job: 7,
}];

const OWN: &[Cast] = &[Cast {
    slot: 3,
    number: 8,
    job: 1,
}];

// Who counts for a candidate.
pub const PROMISES: &[Step] = &[
    // "If the proposer receives a response from a majority": a replica that answers twice is one of them once.
    Step {
        call: Call::Campaign(8, &[]),
        want: "",
    },
    Step {
        call: Call::Promise(0, 8, 0, &[]),
        want: "false",
    },
    Step {
        call: Call::Promise(1, 8, 0, &[]),
        want: "false",
    },
    Step {
        call: Call::Promise(1, 8, 0, &[]),
        want: "false",
    },
    Step {
        call: Call::Promise(2, 8, 0, &[]),
        want: "true",
    },
    Step {
        call: Call::Promise(2, 8, 0, &[]),
        want: "false",
    },
    // A promise counts for the candidate that asked for it.
    Step {
        call: Call::Campaign(16, OWN),
        want: "",
    },
    Step {
        call: Call::Promise(1, 8, 0, HEARD),
        want: "false",
    },
    Step {
        call: Call::Promise(1, 17, 0, HEARD),
        want: "false",
    },
    Step {
        call: Call::Promise(1, 16, 1, HEARD),
        want: "false",
    },
    Step {
        call: Call::Show,
        want: "Candidate { ballot: Ballot(16), first: 0, heard: Members(1), best: VoteList { items: [Vote { slot: 3, ballot: Ballot(8), entry: Start { job: 1, at: 5, now: 6 } }] } }",
    },
    Step {
        call: Call::Promise(1, 16, 0, HEARD),
        want: "false",
    },
    Step {
        call: Call::Copy,
        want: "",
    },
    Step {
        call: Call::Show,
        want: "Candidate { ballot: Ballot(16), first: 0, heard: Members(3), best: VoteList { items: [Vote { slot: 0, ballot: Ballot(8), entry: Start { job: 7, at: 5, now: 6 } }, Vote { slot: 3, ballot: Ballot(8), entry: Start { job: 1, at: 5, now: 6 } }] } }",
    },
    Step {
        call: Call::Promise(4, 16, 0, &[]),
        want: "true",
    },
    Step {
        call: Call::Promise(3, 16, 0, HEARD),
        want: "false",
    },
    Step {
        call: Call::Copy,
        want: "",
    },
    Step {
        call: Call::Show,
        want: "Leader { ballot: Ballot(16), best: VoteList { items: [Vote { slot: 0, ballot: Ballot(8), entry: Start { job: 7, at: 5, now: 6 } }, Vote { slot: 3, ballot: Ballot(8), entry: Start { job: 1, at: 5, now: 6 } }] }, flight: None }",
    },
    Step {
        call: Call::Begin,
        want: "",
    },
    Step {
        call: Call::Promise(1, 16, 0, HEARD),
        want: "false",
    },
    Step {
        call: Call::Show,
        want: "Follower { ended: None }",
    },
];

// The lower ballot gives up.
pub const DUEL: &[Step] = &[
    Step {
        call: Call::Campaign(8, &[]),
        want: "",
    },
    Step {
        call: Call::Ballot(8),
        want: "false",
    },
    Step {
        call: Call::Ballot(9),
        want: "true",
    },
    // It has ended already.
    Step {
        call: Call::Ballot(17),
        want: "false",
    },
    Step {
        call: Call::Copy,
        want: "",
    },
    Step {
        call: Call::Promise(2, 8, 0, &[]),
        want: "false",
    },
    Step {
        call: Call::Propose(0, 7),
        want: "Err(NotLeader { ended: Some(Ballot(9)) })",
    },
    Step {
        call: Call::Show,
        want: "Follower { ended: Some(Ballot(9)) }",
    },
    // It tries again, with a higher ballot.
    Step {
        call: Call::Campaign(16, &[]),
        want: "",
    },
    Step {
        call: Call::Propose(0, 7),
        want: "Err(NotLeader { ended: None })",
    },
    Step {
        call: Call::Promise(1, 16, 0, &[]),
        want: "false",
    },
    Step {
        call: Call::Ballot(9),
        want: "false",
    },
    Step {
        call: Call::Promise(2, 16, 0, &[]),
        want: "true",
    },
    Step {
        call: Call::Propose(0, 7),
        want: "Ok(Ballot(16))",
    },
    // A leader gives up too.
    Step {
        call: Call::Ballot(16),
        want: "false",
    },
    Step {
        call: Call::Ballot(17),
        want: "true",
    },
    Step {
        call: Call::Accepted(1, 16, 0),
        want: "None",
    },
    Step {
        call: Call::Accepted(2, 16, 0),
        want: "None",
    },
    Step {
        call: Call::Propose(0, 7),
        want: "Err(NotLeader { ended: Some(Ballot(17)) })",
    },
    // It never led.
    Step {
        call: Call::Begin,
        want: "",
    },
    Step {
        call: Call::Propose(0, 7),
        want: "Err(NotLeader { ended: None })",
    },
];

// What becomes of a leader's proposals.
pub const FLIGHTS: &[Step] = &[
    Step {
        call: Call::Campaign(16, &[]),
        want: "",
    },
    Step {
        call: Call::Tick,
        want: "None",
    },
    Step {
        call: Call::Promise(1, 16, 0, &[]),
        want: "false",
    },
    Step {
        call: Call::Promise(2, 16, 0, &[]),
        want: "true",
    },
    // Nothing is in flight.
    Step {
        call: Call::Tick,
        want: "None",
    },
    Step {
        call: Call::Accepted(1, 16, 4),
        want: "None",
    },
    Step {
        call: Call::Propose(4, 7),
        want: "Ok(Ballot(16))",
    },
    Step {
        call: Call::Propose(5, 8),
        want: "Err(Busy { slot: 4 })",
    },
    // An acceptance counts for the flight of its ballot and slot, and once for each replica.
    Step {
        call: Call::Accepted(1, 16, 3),
        want: "None",
    },
    Step {
        call: Call::Accepted(1, 16, 5),
        want: "None",
    },
    Step {
        call: Call::Accepted(2, 8, 4),
        want: "None",
    },
    Step {
        call: Call::Accepted(3, 24, 4),
        want: "None",
    },
    Step {
        call: Call::Accepted(3, 16, 4),
        want: "None",
    },
    Step {
        call: Call::Accepted(3, 16, 4),
        want: "None",
    },
    Step {
        call: Call::Accepted(0, 16, 4),
        want: "None",
    },
    // At each fourth tick of a flight the proposal is sent again, to those that have not accepted it: not to 0 and 3.
    Step {
        call: Call::Tick,
        want: "None",
    },
    Step {
        call: Call::Tick,
        want: "None",
    },
    Step {
        call: Call::Tick,
        want: "None",
    },
    Step {
        call: Call::Tick,
        want: "Some(Members(9))",
    },
    Step {
        call: Call::Tick,
        want: "None",
    },
    Step {
        call: Call::Tick,
        want: "None",
    },
    Step {
        call: Call::Tick,
        want: "None",
    },
    Step {
        call: Call::Tick,
        want: "Some(Members(9))",
    },
    Step {
        call: Call::Tick,
        want: "None",
    },
    Step {
        call: Call::Copy,
        want: "",
    },
    Step {
        call: Call::Show,
        want: "Leader { ballot: Ballot(16), best: VoteList { items: [] }, flight: Some(Flight { slot: 4, entry: Start { job: 7, at: 5, now: 6 }, accepted: Members(9), waited: 1 }) }",
    },
    Step {
        call: Call::Accepted(2, 16, 4),
        want: "Some(Vote { slot: 4, ballot: Ballot(16), entry: Start { job: 7, at: 5, now: 6 } })",
    },
    Step {
        call: Call::Accepted(1, 16, 4),
        want: "None",
    },
    // What has been learned otherwise needs no flight any more.
    Step {
        call: Call::Advance(9),
        want: "",
    },
    Step {
        call: Call::Propose(4, 7),
        want: "Ok(Ballot(16))",
    },
    Step {
        call: Call::Advance(4),
        want: "",
    },
    Step {
        call: Call::Propose(5, 8),
        want: "Err(Busy { slot: 4 })",
    },
    Step {
        call: Call::Advance(5),
        want: "",
    },
    Step {
        call: Call::Accepted(1, 16, 4),
        want: "None",
    },
    Step {
        call: Call::Propose(5, 8),
        want: "Ok(Ballot(16))",
    },
];
