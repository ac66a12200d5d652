//! Packets and letters by their bytes.
use paxos_base::PACKET_BYTES;

pub type Bytes = [u8; PACKET_BYTES];

pub const PREPARE: &Bytes = &[
    1, 0, 0, 0, 0, 0, 0, 0, 0, 0, 0, 0, 0, 0, 0, 8, 0, 0, 0, 0, 0, 0, 0, 0, 0, 0, 0, 0, 0, 0, 0, 0,
    0, 0, 0, 0, 0, 0, 0, 0, 0, 0, 0, 0, 0, 0, 0, 0, 0, 0, 0, 0, 0, 0, 0, 0,
];

pub const PROMISE: &Bytes = &[
    2, 1, 0, 0, 0, 0, 0, 0, 0, 0, 0, 0, 0, 0, 0, 9, 0, 0, 0, 0, 0, 0, 0, 4, 0, 0, 0, 0, 0, 0, 0, 1,
    0, 0, 0, 0, 0, 0, 0, 0, 0, 0, 0, 0, 0, 0, 0, 0, 0, 0, 0, 0, 0, 0, 0, 0,
];

pub const OLD_VOTE: &Bytes = &[
    3, 1, 3, 0, 0, 0, 1, 2, 0, 0, 0, 0, 0, 0, 0, 9, 0, 0, 0, 0, 0, 0, 0, 5, 0, 0, 0, 0, 0, 0, 0, 8,
    255, 255, 255, 255, 255, 255, 255, 255, 0, 0, 0, 0, 0, 0, 0, 0, 0, 0, 0, 0, 0, 0, 0, 0,
];

pub const ACCEPT: &Bytes = &[
    4, 0, 1, 0, 0, 0, 0, 0, 0, 0, 0, 0, 0, 0, 0, 8, 0, 0, 0, 0, 0, 0, 0, 0, 0, 0, 0, 0, 0, 0, 0, 0,
    0, 0, 0, 0, 0x01, 0xb3, 0x58, 0x5c, 0, 0, 0, 0, 0x01, 0xb3, 0x58, 0x5c, 0, 0, 0, 0, 0, 0, 0, 0,
];

pub const ACCEPTED: &Bytes = &[
    5, 1, 0, 0, 0, 0, 0, 0, 0, 0, 0, 0, 0, 0, 0, 9, 0, 0, 0, 0, 0, 0, 0, 6, 0, 0, 0, 0, 0, 0, 0, 0,
    0, 0, 0, 0, 0, 0, 0, 0, 0, 0, 0, 0, 0, 0, 0, 0, 0, 0, 0, 0, 0, 0, 0, 0,
];

pub const NACK: &Bytes = &[
    6, 1, 0, 0, 0, 0, 0, 0, 0, 0, 0, 0, 0, 0, 0, 9, 0, 0, 0, 0, 0, 0, 0, 0, 0, 0, 0, 0, 0, 0, 0,
    17, 0, 0, 0, 0, 0, 0, 0, 0, 0, 0, 0, 0, 0, 0, 0, 0, 0, 0, 0, 0, 0, 0, 0, 0,
];

pub const KNOWN: &Bytes = &[
    7, 1, 2, 0, 0, 0, 0, 5, 0, 0, 0, 0, 0, 0, 0, 0, 0, 0, 0, 0, 0, 0, 0, 2, 0, 0, 0, 0, 0, 0, 0, 0,
    0, 0, 0, 0, 0x01, 0xb3, 0x58, 0x5c, 0, 0, 0, 0, 0, 0, 0, 0, 0, 0, 0, 0, 0, 0, 0, 0,
];

pub const KNOWN_VERSION: &Bytes = &[
    7, 1, 4, 0, 0, 0, 0, 1, 0, 0, 0, 0, 0, 0, 0, 0, 0, 0, 0, 0, 0, 0, 0, 3, 0, 0, 0, 0, 0, 0, 0, 0,
    0, 0, 0, 0, 0, 0, 0, 0, 0, 0, 0, 0, 0x01, 0xb3, 0x58, 0x5c, 0, 0, 0, 0, 0, 0, 0, 0,
];

pub const ACCEPT_VERSION: &Bytes = &[
    4, 1, 4, 0, 0, 0, 1, 2, 0, 0, 0, 0, 0, 0, 0, 9, 0, 0, 0, 0, 0, 0, 0, 4, 0, 0, 0, 0, 0, 0, 0, 0,
    0, 0, 0, 0, 0, 0, 0, 0, 255, 255, 255, 255, 255, 255, 255, 255, 0, 0, 0, 0, 0, 0, 0, 0,
];

pub const ASK_FROM: &Bytes = &[
    8, 1, 0, 0, 0, 0, 0, 0, 0, 0, 0, 0, 0, 0, 0, 0, 1, 0, 0, 0, 0, 0, 0, 3, 0, 0, 0, 0, 0, 0, 0, 0,
    0, 0, 0, 0, 0, 0, 0, 0, 0, 0, 0, 0, 0, 0, 0, 0, 0, 0, 0, 0, 0, 0, 0, 0,
];

pub const SNAP: &Bytes = &[
    9, 1, 0, 0, 0, 0, 0, 0, 0, 0, 0, 0, 0, 0, 0, 0, 0, 0, 0, 0, 0, 0, 0, 7, 0, 0, 0, 0, 0, 0, 0, 1,
    0, 0, 0, 0, 0, 0, 0, 0, 0, 0, 0, 0, 0, 0, 0, 0, 0, 0, 0, 0, 0, 0, 0, 0,
];

pub const SNAP_ROW: &Bytes = &[
    10, 1, 7, 0, 0, 0, 0, 0, 0, 0, 0, 0, 0, 0, 0, 3, 0, 0, 0, 0, 0, 0, 0, 7, 0, 0, 0, 0, 0, 0, 0,
    2, 0, 0, 0, 0, 0, 0, 1, 0, 0, 0, 0, 0, 0, 0, 1, 1, 255, 255, 255, 255, 255, 255, 255, 254,
];

pub const LEAD: &Bytes = &[
    11, 1, 0, 0, 0, 0, 0, 0, 0, 0, 0, 0, 0, 0, 0, 9, 0, 0, 0, 0, 0, 0, 1, 2, 0, 0, 0, 0, 0, 0, 0,
    0, 0, 0, 0, 0, 0, 0, 0, 0, 0, 0, 0, 0, 0, 0, 0, 0, 0, 0, 0, 0, 0, 0, 0, 0,
];

// A packet of a replica, its bytes, and what it is.
pub struct Vector {
    pub from: u8,
    pub bytes: &'static Bytes,
    pub text: &'static str,
}

pub const VECTORS: &[Vector] = &[
    Vector {
        from: 0,
        bytes: PREPARE,
        text: "Prepare { ballot: Ballot(8), slot: 0 }",
    },
    Vector {
        from: 1,
        bytes: PROMISE,
        text: "Promise { ballot: Ballot(9), slot: 4, count: 1 }",
    },
    Vector {
        from: 1,
        bytes: OLD_VOTE,
        text: "OldVote { ballot: Ballot(9), slot: 5, cast: Ballot(8), entry: End { job: 258, at: -1, kind: Void } }",
    },
    Vector {
        from: 0,
        bytes: ACCEPT,
        text: "Accept { ballot: Ballot(8), slot: 0, entry: Start { job: 0, at: 28530780, now: 28530780 } }",
    },
    Vector {
        from: 1,
        bytes: ACCEPTED,
        text: "Accepted { ballot: Ballot(9), slot: 6 }",
    },
    Vector {
        from: 1,
        bytes: NACK,
        text: "Nack { ballot: Ballot(9), promised: Ballot(17) }",
    },
    Vector {
        from: 1,
        bytes: KNOWN,
        text: "Known { slot: 2, entry: End { job: 5, at: 28530780, kind: Launch } }",
    },
    Vector {
        from: 1,
        bytes: KNOWN_VERSION,
        text: "Known { slot: 3, entry: Table { version: 1, now: 28530780 } }",
    },
    Vector {
        from: 1,
        bytes: ACCEPT_VERSION,
        text: "Accept { ballot: Ballot(9), slot: 4, entry: Table { version: 258, now: -1 } }",
    },
    Vector {
        from: 1,
        bytes: ASK_FROM,
        text: "AskFrom { slot: 72057594037927939 }",
    },
    Vector {
        from: 1,
        bytes: SNAP,
        text: "Snap { slot: 7, count: 1 }",
    },
    Vector {
        from: 1,
        bytes: SNAP_ROW,
        text: "SnapRow { slot: 7, row: JobRow { job: 0, cursor: Some(256), open_now: Some(257), last: Some(-2), launched: 3, voided: 2 } }",
    },
    Vector {
        from: 1,
        bytes: LEAD,
        text: "Lead { ballot: Ballot(9), slot: 258 }",
    },
];

// A byte of ACCEPT that becomes ff, and what is read then.
pub struct Byte {
    pub place: usize,
    pub text: &'static str,
}

// The first and the last byte of each field.
pub const BYTES: &[Byte] = &[
    Byte {
        place: 0,
        text: "Err(BadKind { packet: 0 })",
    },
    Byte {
        place: 1,
        text: "Err(BadMember { packet: 0 })",
    },
    Byte {
        place: 2,
        text: "Err(BadKind { packet: 0 })",
    },
    Byte {
        place: 3,
        text: "Err(NotZero { packet: 0 })",
    },
    Byte {
        place: 4,
        text: "Ok(Accept { ballot: Ballot(8), slot: 0, entry: Start { job: 4278190080, at: 28530780, now: 28530780 } })",
    },
    Byte {
        place: 5,
        text: "Ok(Accept { ballot: Ballot(8), slot: 0, entry: Start { job: 16711680, at: 28530780, now: 28530780 } })",
    },
    Byte {
        place: 6,
        text: "Ok(Accept { ballot: Ballot(8), slot: 0, entry: Start { job: 65280, at: 28530780, now: 28530780 } })",
    },
    Byte {
        place: 7,
        text: "Ok(Accept { ballot: Ballot(8), slot: 0, entry: Start { job: 255, at: 28530780, now: 28530780 } })",
    },
    Byte {
        place: 8,
        text: "Ok(Accept { ballot: Ballot(18374686479671623688), slot: 0, entry: Start { job: 0, at: 28530780, now: 28530780 } })",
    },
    Byte {
        place: 14,
        text: "Ok(Accept { ballot: Ballot(65288), slot: 0, entry: Start { job: 0, at: 28530780, now: 28530780 } })",
    },
    Byte {
        place: 15,
        text: "Err(BadMember { packet: 0 })",
    },
    Byte {
        place: 16,
        text: "Ok(Accept { ballot: Ballot(8), slot: 18374686479671623680, entry: Start { job: 0, at: 28530780, now: 28530780 } })",
    },
    Byte {
        place: 23,
        text: "Ok(Accept { ballot: Ballot(8), slot: 255, entry: Start { job: 0, at: 28530780, now: 28530780 } })",
    },
    Byte {
        place: 24,
        text: "Err(NotZero { packet: 0 })",
    },
    Byte {
        place: 31,
        text: "Err(NotZero { packet: 0 })",
    },
    Byte {
        place: 32,
        text: "Ok(Accept { ballot: Ballot(8), slot: 0, entry: Start { job: 0, at: -72057594009397156, now: 28530780 } })",
    },
    Byte {
        place: 33,
        text: "Ok(Accept { ballot: Ballot(8), slot: 0, entry: Start { job: 0, at: 71776119089748060, now: 28530780 } })",
    },
    Byte {
        place: 39,
        text: "Ok(Accept { ballot: Ballot(8), slot: 0, entry: Start { job: 0, at: 28530943, now: 28530780 } })",
    },
    Byte {
        place: 40,
        text: "Ok(Accept { ballot: Ballot(8), slot: 0, entry: Start { job: 0, at: 28530780, now: -72057594009397156 } })",
    },
    Byte {
        place: 41,
        text: "Ok(Accept { ballot: Ballot(8), slot: 0, entry: Start { job: 0, at: 28530780, now: 71776119089748060 } })",
    },
    Byte {
        place: 47,
        text: "Ok(Accept { ballot: Ballot(8), slot: 0, entry: Start { job: 0, at: 28530780, now: 28530943 } })",
    },
    Byte {
        place: 48,
        text: "Err(NotZero { packet: 0 })",
    },
    Byte {
        place: 55,
        text: "Err(NotZero { packet: 0 })",
    },
];

// The packets of letters.
pub const LETTERS: &[&[&Bytes]] = &[
    &[PREPARE],
    &[PROMISE, OLD_VOTE],
    &[ACCEPT],
    &[SNAP, SNAP_ROW],
    &[KNOWN, ACCEPTED, NACK, ASK_FROM, LEAD],
    &[KNOWN, KNOWN_VERSION, ACCEPT_VERSION],
];
