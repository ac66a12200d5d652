//! Which dates and times the fields of an entry match.
use crate::rows::{short, sides};
use cron_fields::{FieldKind, FieldSet, Fields, HashSeed, read_field};
use std::alloc::Global;
use std::test::Fail;

const EVERY: FieldSet = FieldSet {
    bits: u64::MAX,
    star: true,
    hashed: false,
};

const ANY: Fields = Fields {
    minute: EVERY,
    hour: EVERY,
    month_day: EVERY,
    month: EVERY,
    week_day: EVERY,
};

fn field_of(kind: FieldKind, text: &str) -> Result<FieldSet, Fail> {
    let seed = HashSeed {
        owner: "a",
        command: "b",
    };
    match read_field(kind, short(text)?, seed) {
        Ok(set) => Ok(set),
        Err(_) => Err(Fail::from("no field")),
    }
}

// A day of the month and a day of the week, and whether they match Friday the 6th, Friday the 13th, Wednesday the 13th and
// Thursday the 12th. September 2024 begins on a Sunday, and the 13th of November is a Wednesday.
const DATES: &str = "\
13 5 => true true true false
13 * => false true true false
* 5 => true true false false
* * => true true true true
*/2 5 => false true false false
";

fn show_dates(alloc: Global, row: &str) -> Result<String, Fail> {
    let (month_day, week_day) = row.split_once(' ').ok_or("a row without a blank")?;
    let fields = Fields {
        month_day: field_of(FieldKind::MonthDay, month_day)?,
        week_day: field_of(FieldKind::WeekDay, week_day)?,
        ..ANY
    };
    let (friday_6, friday_13) = (fields.matches_date(9, 6, 5), fields.matches_date(9, 13, 5));
    let (wednesday, thursday) = (
        fields.matches_date(11, 13, 3),
        fields.matches_date(9, 12, 4),
    );
    Ok(format!(in alloc; "{friday_6} {friday_13} {wednesday} {thursday}")?)
}

#[test]
fn dates(rt: HostRuntime) -> Result<(), Fail> {
    for row in DATES.lines() {
        let (text, want) = sides(rt.alloc(), row)?;
        let got = show_dates(rt.alloc(), &text)?;
        assert_eq!(rt; got, want, "{row}");
    }
    Ok(())
}

// A minute and an hour, whether they match 4:30, 4:31 and 5:30, and whether such an entry is frequent.
const TIMES: &str = "\
30 4 => true false false false
* 4 => true true false true
30 * => true false true true
* * => true true true true
";

fn show_times(alloc: Global, row: &str) -> Result<String, Fail> {
    let (minute, hour) = row.split_once(' ').ok_or("a row without a blank")?;
    let fields = Fields {
        minute: field_of(FieldKind::Minute, minute)?,
        hour: field_of(FieldKind::Hour, hour)?,
        ..ANY
    };
    let (at_4_30, at_4_31) = (fields.matches_time(4, 30), fields.matches_time(4, 31));
    let (at_5_30, frequent) = (fields.matches_time(5, 30), fields.is_frequent());
    Ok(format!(in alloc; "{at_4_30} {at_4_31} {at_5_30} {frequent}")?)
}

#[test]
fn times(rt: HostRuntime) -> Result<(), Fail> {
    for row in TIMES.lines() {
        let (text, want) = sides(rt.alloc(), row)?;
        let got = show_times(rt.alloc(), &text)?;
        assert_eq!(rt; got, want, "{row}");
    }
    Ok(())
}
