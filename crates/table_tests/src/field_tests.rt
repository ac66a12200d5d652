//! What each text says as a field, and which times the fields match.
use crate::rows::{short, sides};
use cron_fields::FieldKind::{Hour, Minute, Month, MonthDay, WeekDay};
use cron_fields::{FNV_START, FieldKind, FieldSet, Fields, HashSeed, fnv, pick, read_field};
use std::alloc::{AllocError, Global};
use std::test::Fail;

// What the program hashes, and the check sums of FNV's own pages.
struct Hash {
    bytes: &'static [u8],
    hash: u64,
}

const HASHES: &[Hash] = &[
    Hash {
        bytes: b"",
        hash: 0xcbf2_9ce4_8422_2325,
    },
    Hash {
        bytes: b"a",
        hash: 0xaf63_dc4c_8601_ec8c,
    },
    Hash {
        bytes: b"foobar",
        hash: 0x8594_4171_f739_67e8,
    },
    Hash {
        bytes: b"a\0b\x000",
        hash: 0x3fae_77fc_8499_f6f2,
    },
    Hash {
        bytes: b"a\0b\x001",
        hash: 0x3fae_78fc_8499_f8a5,
    },
];

#[test]
fn hashes(rt: HostRuntime) {
    for row in HASHES {
        assert_eq!(rt; fnv(FNV_START, row.bytes), row.hash);
    }
    assert_eq!(rt; fnv(fnv(FNV_START, b"foo"), b"bar"), 0x8594_4171_f739_67e8);
}

// The values that a kind picks from.
struct Picked {
    kind: FieldKind,
    first: u8,
    last: u8,
}

const PICKED: &[Picked] = &[
    Picked {
        kind: Minute,
        first: 0,
        last: 59,
    },
    Picked {
        kind: Hour,
        first: 0,
        last: 23,
    },
    Picked {
        kind: MonthDay,
        first: 1,
        last: 28,
    },
    Picked {
        kind: Month,
        first: 1,
        last: 12,
    },
    Picked {
        kind: WeekDay,
        first: 0,
        last: 6,
    },
];

#[test]
fn picks(rt: HostRuntime) {
    for row in PICKED {
        let last = u64::from(row.last.saturating_sub(row.first));
        assert_eq!(rt; pick(row.kind, 0), row.first);
        assert_eq!(rt; pick(row.kind, last), row.last);
        assert_eq!(rt; pick(row.kind, last + 1), row.first);
    }
}

// The values of a field from the last to the first, in hexadecimal digits, behind `*` or `?`; or what is at fault.
fn show_field(alloc: Global, row: &str) -> Result<String, Fail> {
    let (kind, text) = row.split_once(' ').ok_or("a row without a kind")?;
    let seed = HashSeed {
        owner: "a",
        command: "b",
    };
    match read_field(kind_of(kind)?, short(text)?, seed) {
        Ok(set) => Ok(show_set(alloc, set)?),
        Err(fault) => Ok(format!(in alloc; "cause {} at {}", fault.cause, fault.place)?),
    }
}

// A field as `*` or `?` where it is one, and its values.
pub fn show_set(alloc: Global, set: FieldSet) -> Result<String, AllocError> {
    let mark = match (set.star, set.hashed) {
        (true, _) => "*",
        (_, true) => "?",
        _ => "",
    };
    format!(in alloc; "{mark}{:x}", set.bits)
}

fn kind_of(word: &str) -> Result<FieldKind, Fail> {
    match word {
        "Minute" => Ok(Minute),
        "Hour" => Ok(Hour),
        "MonthDay" => Ok(MonthDay),
        "Month" => Ok(Month),
        "WeekDay" => Ok(WeekDay),
        _ => Err(Fail::from("no kind")),
    }
}

// By the hashes above the minute of `a` and `b` is 46, and the hour 5.
const FIELDS: &str = "\
Minute * => *fffffffffffffff
Minute 0,59 => 800000000000001
Hour * => *ffffff
Hour 0,23 => 800001
MonthDay * => *fffffffe
MonthDay 1,31 => 80000002
Month * => *1ffe
Month 1,12 => 1002
WeekDay * => *7f
WeekDay 0,6 => 41
WeekDay 7 => 1
WeekDay 0,7 => 1
WeekDay 5-7 => 61
WeekDay 0-7 => 7f
WeekDay 3-7/2 => 29
WeekDay 3-7/4 => 9
WeekDay sat-7 => 41
Minute 00,007,000000059 => 800000000000081
Minute 5-5 => 20
Minute 5-8 => 1e0
Minute 5-59/20 => 200002000020
Minute */15 => *200040008001
Minute */59 => *800000000000001
Minute */60 => *1
Minute */999999999 => *1
Minute */007 => *102040810204081
MonthDay */10 => *80200802
Month */5 => *842
WeekDay */2 => *55
WeekDay */7 => *1
Minute 1,1,1 => 2
Minute *,1 => *fffffffffffffff
Minute 1,* => fffffffffffffff
Minute 1,*/30 => 40000003
Hour 1-3,20-22/2 => 50000e
Month jan,feb,mar,apr,may,jun => 7e
Month jul,aug,sep,oct,nov,dec => 1f80
Month JAN,Feb,mAR,apR => 1e
Month feb-4 => 1c
WeekDay sun,mon,tue,wed => f
WeekDay THU,Fri,saT => 70
WeekDay mon-fri => 3e
WeekDay Mon-SAT/2 => 2a
WeekDay sun-7/7 => 1
Minute ? => ?400000000000
Hour ? => ?20
";

#[test]
fn fields(rt: HostRuntime) -> Result<(), Fail> {
    for row in FIELDS.lines() {
        let (text, want) = sides(rt.alloc(), row)?;
        let got = show_field(rt.alloc(), &text)?;
        assert_eq!(rt; got, want, "{row}");
    }
    Ok(())
}

// Of each cause in turn, and then in the order of the rules: the first item decides, and in it the atoms, their numbers, and
// the step.
const FAULTS: &str = "\
Minute  => cause 1 at 0
Minute , => cause 1 at 0
Minute ,1 => cause 1 at 0
Minute 1, => cause 1 at 2
Minute 1,,2 => cause 1 at 2
Minute - => cause 1 at 0
Minute -5 => cause 1 at 0
Minute 5- => cause 1 at 2
Minute 1,5- => cause 1 at 4
Minute /5 => cause 1 at 0
Minute */ => cause 1 at 2
Minute 1-2/ => cause 1 at 4
Minute 0000000001 => cause 2 at 0
Minute 1-0000000001 => cause 2 at 2
Minute */0000000001 => cause 2 at 2
Minute */x => cause 2 at 2
Minute */1/2 => cause 2 at 2
Minute */-1 => cause 2 at 2
Minute */+1 => cause 2 at 2
Minute 60 => cause 3 at 0
Minute 999999999 => cause 3 at 0
Minute 1,60 => cause 3 at 2
Minute 60-70 => cause 3 at 0
Minute 5-70 => cause 3 at 2
Minute 70-5 => cause 3 at 0
Hour 24 => cause 3 at 0
MonthDay 0 => cause 3 at 0
MonthDay 32 => cause 3 at 0
MonthDay 0-32 => cause 3 at 0
Month 0 => cause 3 at 0
Month 13 => cause 3 at 0
Month 0-jan => cause 3 at 0
WeekDay 8 => cause 3 at 0
WeekDay 14 => cause 3 at 0
Minute jan => cause 4 at 0
Hour sun => cause 4 at 0
MonthDay mon => cause 4 at 0
Month sun => cause 4 at 0
WeekDay jan => cause 4 at 0
Month ja => cause 4 at 0
Month january => cause 4 at 0
Month jan-x => cause 4 at 4
Minute 5-1 => cause 5 at 0
Minute 1,5-1 => cause 5 at 2
WeekDay 7-0 => cause 5 at 0
WeekDay sat-sun => cause 5 at 0
Month dec-jan => cause 5 at 0
Minute */0 => cause 6 at 2
Minute */000000000 => cause 6 at 2
Minute 1-5/0 => cause 6 at 4
Minute 5/2 => cause 7 at 2
Minute 5/ => cause 7 at 2
Minute 5/0 => cause 7 at 2
Month jan/2 => cause 7 at 4
Minute ~ => cause 8 at 0
Minute 1~5 => cause 8 at 1
Minute 60,1~5~ => cause 8 at 4
Minute ?~ => cause 8 at 1
Minute 1a => cause 9 at 0
Minute +1 => cause 9 at 0
Minute ** => cause 9 at 0
Minute *5 => cause 9 at 0
Minute *-5 => cause 9 at 0
Minute 1-* => cause 9 at 2
Minute 1-2-3 => cause 9 at 2
Minute ?,1 => cause 9 at 0
Minute 1,? => cause 9 at 2
Minute ?/2 => cause 9 at 0
Minute  1 => cause 9 at 0
Minute 1  => cause 9 at 0
Minute 1¶ => cause 9 at 0
Minute 1\0 => cause 9 at 0
Minute 1;2 => cause 9 at 0
Minute é => cause 9 at 0
Minute 1,٣ => cause 9 at 2
Minute 60-x => cause 4 at 3
Minute x-60 => cause 4 at 0
Minute 60- => cause 1 at 3
Minute 60/2 => cause 3 at 0
Minute 60/0 => cause 3 at 0
Minute x/0 => cause 4 at 0
Minute 5-1/x => cause 5 at 0
Minute 5-60/0 => cause 3 at 2
Minute x,60 => cause 4 at 0
Minute 60,x => cause 3 at 0
Minute 1,2,5-1, => cause 5 at 4
";

#[test]
fn faults(rt: HostRuntime) -> Result<(), Fail> {
    for row in FAULTS.lines() {
        let (text, want) = sides(rt.alloc(), row)?;
        let got = show_field(rt.alloc(), &text)?;
        assert_eq!(rt; got, want, "{row}");
    }
    Ok(())
}
