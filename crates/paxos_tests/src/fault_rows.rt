//! Packets and letters that break a rule.
use crate::letter_rows::{
    ACCEPT, ACCEPT_VERSION, ACCEPTED, Bytes, KNOWN_VERSION, LEAD, OLD_VOTE, PREPARE, PROMISE, SNAP,
    SNAP_ROW,
};
use paxos_letter::LetterFault;

// A packet with another byte at a place.
#[derive(Clone, Copy, Debug)]
pub struct Changed {
    pub bytes: &'static Bytes,
    pub place: usize,
    pub byte: u8,
}

// Packets of a letter to three replicas, and the first rule that they break.
pub struct Refused {
    pub packets: &'static [Changed],
    pub fault: LetterFault,
}

pub const REFUSED: &[Refused] = &[
    // A packet by itself.
    Refused {
        packets: &[Changed {
            bytes: PREPARE,
            place: 0,
            byte: 12,
        }],
        fault: LetterFault::BadKind { packet: 0 },
    },
    Refused {
        packets: &[Changed {
            bytes: PREPARE,
            place: 0,
            byte: 0,
        }],
        fault: LetterFault::BadKind { packet: 0 },
    },
    Refused {
        packets: &[Changed {
            bytes: PREPARE,
            place: 3,
            byte: 1,
        }],
        fault: LetterFault::NotZero { packet: 0 },
    },
    Refused {
        packets: &[Changed {
            bytes: PREPARE,
            place: 1,
            byte: 3,
        }],
        fault: LetterFault::BadMember { packet: 0 },
    },
    Refused {
        packets: &[Changed {
            bytes: PREPARE,
            place: 15,
            byte: 7,
        }],
        fault: LetterFault::BadMember { packet: 0 },
    },
    Refused {
        packets: &[Changed {
            bytes: PREPARE,
            place: 15,
            byte: 11,
        }],
        fault: LetterFault::BadMember { packet: 0 },
    },
    Refused {
        packets: &[Changed {
            bytes: SNAP_ROW,
            place: 2,
            byte: 2,
        }],
        fault: LetterFault::BadKind { packet: 0 },
    },
    Refused {
        packets: &[Changed {
            bytes: SNAP_ROW,
            place: 11,
            byte: 1,
        }],
        fault: LetterFault::BadKind { packet: 0 },
    },
    Refused {
        packets: &[Changed {
            bytes: SNAP_ROW,
            place: 2,
            byte: 3,
        }],
        fault: LetterFault::NotZero { packet: 0 },
    },
    // An adoption of a version has no use for at, and there is no tag above its own.
    Refused {
        packets: &[Changed {
            bytes: ACCEPT,
            place: 2,
            byte: 4,
        }],
        fault: LetterFault::NotZero { packet: 0 },
    },
    Refused {
        packets: &[Changed {
            bytes: ACCEPT_VERSION,
            place: 32,
            byte: 128,
        }],
        fault: LetterFault::NotZero { packet: 0 },
    },
    Refused {
        packets: &[Changed {
            bytes: KNOWN_VERSION,
            place: 39,
            byte: 1,
        }],
        fault: LetterFault::NotZero { packet: 0 },
    },
    Refused {
        packets: &[Changed {
            bytes: KNOWN_VERSION,
            place: 55,
            byte: 1,
        }],
        fault: LetterFault::NotZero { packet: 0 },
    },
    Refused {
        packets: &[Changed {
            bytes: KNOWN_VERSION,
            place: 2,
            byte: 3,
        }],
        fault: LetterFault::NotZero { packet: 0 },
    },
    Refused {
        packets: &[Changed {
            bytes: KNOWN_VERSION,
            place: 2,
            byte: 5,
        }],
        fault: LetterFault::BadKind { packet: 0 },
    },
    // What may stand where.
    Refused {
        packets: &[
            Changed {
                bytes: PREPARE,
                place: 3,
                byte: 0,
            },
            Changed {
                bytes: PREPARE,
                place: 3,
                byte: 0,
            },
        ],
        fault: LetterFault::BadGroup { packet: 1 },
    },
    Refused {
        packets: &[
            Changed {
                bytes: ACCEPTED,
                place: 3,
                byte: 0,
            },
            Changed {
                bytes: PREPARE,
                place: 1,
                byte: 1,
            },
            Changed {
                bytes: PREPARE,
                place: 1,
                byte: 1,
            },
        ],
        fault: LetterFault::BadGroup { packet: 2 },
    },
    Refused {
        packets: &[
            Changed {
                bytes: ACCEPT,
                place: 1,
                byte: 1,
            },
            Changed {
                bytes: PREPARE,
                place: 1,
                byte: 1,
            },
        ],
        fault: LetterFault::BadGroup { packet: 1 },
    },
    Refused {
        packets: &[Changed {
            bytes: PROMISE,
            place: 3,
            byte: 0,
        }],
        fault: LetterFault::BadGroup { packet: 1 },
    },
    Refused {
        packets: &[
            Changed {
                bytes: PROMISE,
                place: 31,
                byte: 2,
            },
            Changed {
                bytes: OLD_VOTE,
                place: 3,
                byte: 0,
            },
        ],
        fault: LetterFault::BadGroup { packet: 2 },
    },
    Refused {
        packets: &[
            Changed {
                bytes: PROMISE,
                place: 3,
                byte: 0,
            },
            Changed {
                bytes: OLD_VOTE,
                place: 3,
                byte: 0,
            },
            Changed {
                bytes: OLD_VOTE,
                place: 3,
                byte: 0,
            },
        ],
        fault: LetterFault::BadGroup { packet: 2 },
    },
    Refused {
        packets: &[
            Changed {
                bytes: PROMISE,
                place: 3,
                byte: 0,
            },
            Changed {
                bytes: PREPARE,
                place: 1,
                byte: 1,
            },
        ],
        fault: LetterFault::BadGroup { packet: 1 },
    },
    Refused {
        packets: &[
            Changed {
                bytes: OLD_VOTE,
                place: 3,
                byte: 0,
            },
            Changed {
                bytes: ACCEPTED,
                place: 3,
                byte: 1,
            },
        ],
        fault: LetterFault::BadGroup { packet: 0 },
    },
    Refused {
        packets: &[
            Changed {
                bytes: SNAP,
                place: 3,
                byte: 0,
            },
            Changed {
                bytes: SNAP_ROW,
                place: 7,
                byte: 1,
            },
        ],
        fault: LetterFault::BadGroup { packet: 1 },
    },
    Refused {
        packets: &[
            Changed {
                bytes: SNAP,
                place: 3,
                byte: 0,
            },
            Changed {
                bytes: OLD_VOTE,
                place: 3,
                byte: 0,
            },
        ],
        fault: LetterFault::BadGroup { packet: 1 },
    },
    Refused {
        packets: &[Changed {
            bytes: SNAP_ROW,
            place: 3,
            byte: 0,
        }],
        fault: LetterFault::BadGroup { packet: 0 },
    },
    Refused {
        packets: &[Changed {
            bytes: SNAP,
            place: 3,
            byte: 0,
        }],
        fault: LetterFault::BadGroup { packet: 1 },
    },
    // The first packet that breaks a rule, and of its rules the first.
    Refused {
        packets: &[
            Changed {
                bytes: ACCEPTED,
                place: 3,
                byte: 0,
            },
            Changed {
                bytes: ACCEPTED,
                place: 1,
                byte: 0,
            },
        ],
        fault: LetterFault::BadMember { packet: 1 },
    },
    Refused {
        packets: &[
            Changed {
                bytes: ACCEPTED,
                place: 3,
                byte: 0,
            },
            Changed {
                bytes: LEAD,
                place: 1,
                byte: 0,
            },
        ],
        fault: LetterFault::BadMember { packet: 1 },
    },
    Refused {
        packets: &[
            Changed {
                bytes: ACCEPTED,
                place: 3,
                byte: 0,
            },
            Changed {
                bytes: PREPARE,
                place: 3,
                byte: 1,
            },
        ],
        fault: LetterFault::NotZero { packet: 1 },
    },
    Refused {
        packets: &[
            Changed {
                bytes: ACCEPTED,
                place: 3,
                byte: 0,
            },
            Changed {
                bytes: PREPARE,
                place: 0,
                byte: 12,
            },
        ],
        fault: LetterFault::BadKind { packet: 1 },
    },
    Refused {
        packets: &[Changed {
            bytes: OLD_VOTE,
            place: 3,
            byte: 1,
        }],
        fault: LetterFault::NotZero { packet: 0 },
    },
];

// Changes after which a packet is none of a sender, one of three.
pub struct Strange {
    pub packet: Changed,
    pub sender: u8,
}

pub const STRANGE: &[Strange] = &[
    Strange {
        packet: Changed {
            bytes: PREPARE,
            place: 1,
            byte: 0,
        },
        sender: 1,
    },
    Strange {
        packet: Changed {
            bytes: PREPARE,
            place: 0,
            byte: 12,
        },
        sender: 0,
    },
    Strange {
        packet: Changed {
            bytes: PREPARE,
            place: 3,
            byte: 1,
        },
        sender: 0,
    },
    Strange {
        packet: Changed {
            bytes: PREPARE,
            place: 15,
            byte: 11,
        },
        sender: 0,
    },
    Strange {
        packet: Changed {
            bytes: PREPARE,
            place: 1,
            byte: 3,
        },
        sender: 3,
    },
];

// Bytes of ACCEPT, from one on and before another, and what is at fault in a letter to three replicas where one of them
// becomes ff.
#[derive(Debug)]
pub struct Span {
    pub first: usize,
    pub until: usize,
    pub fault: Option<LetterFault>,
}

// A kind that is none, a sender that is none, flags of an entry that are none, and a byte that is to be 0; the job and the
// ballot's round, whose last byte names its owner; the slot; bytes that are to be 0; the launch and the clock; bytes that are to
// be 0.
pub const SPANS: &[Span] = &[
    Span {
        first: 0,
        until: 1,
        fault: Some(LetterFault::BadKind { packet: 0 }),
    },
    Span {
        first: 1,
        until: 2,
        fault: Some(LetterFault::BadMember { packet: 0 }),
    },
    Span {
        first: 2,
        until: 3,
        fault: Some(LetterFault::BadKind { packet: 0 }),
    },
    Span {
        first: 3,
        until: 4,
        fault: Some(LetterFault::NotZero { packet: 0 }),
    },
    Span {
        first: 4,
        until: 15,
        fault: None,
    },
    Span {
        first: 15,
        until: 16,
        fault: Some(LetterFault::BadMember { packet: 0 }),
    },
    Span {
        first: 16,
        until: 24,
        fault: None,
    },
    Span {
        first: 24,
        until: 32,
        fault: Some(LetterFault::NotZero { packet: 0 }),
    },
    Span {
        first: 32,
        until: 48,
        fault: None,
    },
    Span {
        first: 48,
        until: 56,
        fault: Some(LetterFault::NotZero { packet: 0 }),
    },
];
