ghost use Rattle.std.specs.Prelude.{◌≡◌, ◌≢◌, ◌↔◌, ◌+◌, ◌<◌, ℕ, ℤ, ◌++◌, length, IsTrue, codes, IfSome, IfNone, OnOk, OnErr, string_bytes, string_len, string_capacity};
ghost use Rattle.std.specs.Str.{IsAscii};
ghost use Rattle.zone_minutes.specs.Civil.{IsCalendarDay, IsCalendarMinute};
ghost use Rattle.zone_minutes.specs.Stamp.{two_digits, extended_text, basic_text, stamp_text, basic_stamp_text, date_text, IsStampable, HasTwoDigits, HasMarks};
ghost use Rattle.zone_minutes.specs.declared.civil.Civil.{Civil};

use crate::civil::{Civil, civil_of, day_of, number_of};
use crate::minute::Minute;
use cron_io::OutOfMemory;
use std::str;

/// The instant of a stamp as 2024-03-31T01:00Z: an existing minute of the years 0000 to 9999.
///
/// `None` for any other text.
pub fn read_stamp(text: &str) -> Option<Minute>
    ensures read { IfSome result (λ at. IsCalendarMinute at.0 × (text.now ≡ stamp_text at.0)) }
    ensures none { IfNone result ((at : ℤ) → IsCalendarMinute at → text.now ≢ stamp_text at) }
{
    read_minute(text.as_bytes())
}

/// The instant of a stamp as names have it, as 20240331T0100Z: an existing minute of the years 0000 to 9999.
///
/// `None` for any other text.
pub fn read_basic_stamp(text: &str) -> Option<Minute>
    ensures read { IfSome result (λ at. IsCalendarMinute at.0 × (text.now ≡ basic_stamp_text at.0)) }
    ensures none { IfNone result ((at : ℤ) → IsCalendarMinute at → text.now ≢ basic_stamp_text at) }
{
    let stamp = with_marks(text.as_bytes())?;
    read_minute(&stamp)
}

/// The stamp with its marks.
fn with_marks(basic: &[u8]) -> Option<[u8; 17]>
    ensures stamp { IfSome result (λ stamp. (at : ℤ) → (basic.now ≡ basic_stamp_text at) ↔ (stamp ≡ stamp_text at)) }
    ensures none { IfNone result (length basic.now ≢ 14) }
{
    if let [y0, y1, y2, y3, m0, m1, d0, d1, t, h0, h1, n0, n1, z] = *basic {
        Some([
            y0, y1, y2, y3, b'-', m0, m1, b'-', d0, d1, t, h0, h1, b':', n0, n1, z,
        ])
    } else {
        None
    }
}

/// The day number of a date as 2024-03-31: an existing day of the years 0000 to 9999.
///
/// `None` for any other text.
pub fn read_date(text: &str) -> Option<i64>
    ensures read { IfSome result (λ day. IsCalendarDay day × (text.now ≡ date_text day)) }
    ensures none { IfNone result ((day : ℤ) → IsCalendarDay day → text.now ≢ date_text day) }
{
    let midnight = midnight_of(text.as_bytes())?;
    let at = read_minute(&midnight)?;
    Some(day_of(at.0))
}

/// The stamp of the minute with which a date begins.
fn midnight_of(date: &[u8]) -> Option<[u8; 17]>
    ensures stamp { IfSome result (λ stamp. stamp ≡ date.now ++ codes "T00:00Z") }
    ensures none { IfNone result (length date.now ≢ 10) }
{
    if let [y0, y1, y2, y3, mark, m0, m1, other, d0, d1] = *date {
        Some([
            y0, y1, y2, y3, mark, m0, m1, other, d0, d1, b'T', b'0', b'0', b':', b'0', b'0', b'Z',
        ])
    } else {
        None
    }
}

/// The instant of a stamp's bytes.
fn read_minute(bytes: &[u8]) -> Option<Minute>
    ensures read { IfSome result (λ at. IsCalendarMinute at.0 × (bytes.now ≡ stamp_text at.0)) }
    ensures none { IfNone result ((at : ℤ) → IsCalendarMinute at → bytes.now ≢ stamp_text at) }
{
    let civil = read_civil(bytes)?;
    let number = number_of(civil)?;
    Some(Minute(number))
}

/// The numbers of a stamp, which may be no date or no time of day.
fn read_civil(bytes: &[u8]) -> Option<Civil>
    ensures read { IfSome result (λ civil. IsStampable civil × (bytes.now ≡ extended_text civil)) }
    ensures none { IfNone result ((civil : Civil) → IsStampable civil → bytes.now ≢ extended_text civil) }
{
    if !has_marks(bytes) {
        return None;
    }
    let century = read_two(bytes, 0)?;
    let year = read_two(bytes, 2)?;
    let month = read_two(bytes, 5)?;
    let day = read_two(bytes, 8)?;
    let hour = read_two(bytes, 11)?;
    let minute = read_two(bytes, 14)?;
    Some(Civil {
        year: (u16::from(century) * 100 + u16::from(year)) as i16,
        month,
        day,
        hour,
        minute,
    })
}

/// Whether the bytes are as many as a stamp's and have its marks between the numbers.
fn has_marks(bytes: &[u8]) -> bool
    ensures { IsTrue result ↔ HasMarks bytes.now }
{
    bytes.len() == 17
        && bytes[4] == b'-'
        && bytes[7] == b'-'
        && bytes[10] == b'T'
        && bytes[13] == b':'
        && bytes[16] == b'Z'
}

/// The number whose two digits stand from that place on.
fn read_two(bytes: &[u8], place: usize) -> Option<u8>
    requires { place + 1 < length bytes.now }
    ensures number { IfSome result (HasTwoDigits bytes.now place) }
    ensures none { IfNone result ((n : ℕ) → ¬ (HasTwoDigits bytes.now place n)) }
{
    let (tens, units) = (bytes[place], bytes[place + 1]);
    if tens.is_ascii_digit() && units.is_ascii_digit() {
        Some((tens - b'0') * 10 + (units - b'0'))
    } else {
        None
    }
}

/// Appends the stamp of an instant, as 2024-03-31T01:00Z; `into` is unchanged without memory, which can
/// be wanting only where it has no room.
pub fn write_stamp(at: Minute, into: &mut String) -> Result<(), OutOfMemory>
    requires { IsCalendarMinute at.0 }
    ensures ok { OnOk result (string_bytes into.new ≡ string_bytes into.old ++ stamp_text at.0) }
    ensures err { OnErr result (string_bytes into.new ≡ string_bytes into.old) }
    ensures full { OnErr result (string_capacity into.old < string_len into.old + 17) }
{
    push_ascii(&extended(civil_of(at.0)), into)
}

/// Appends the stamp of an instant as names have it, as 20240331T0100Z; `into` is unchanged
/// without memory, which can be wanting only where it has no room.
pub fn write_basic_stamp(at: Minute, into: &mut String) -> Result<(), OutOfMemory>
    requires { IsCalendarMinute at.0 }
    ensures ok { OnOk result (string_bytes into.new ≡ string_bytes into.old ++ basic_stamp_text at.0) }
    ensures err { OnErr result (string_bytes into.new ≡ string_bytes into.old) }
    ensures full { OnErr result (string_capacity into.old < string_len into.old + 14) }
{
    push_ascii(&basic(civil_of(at.0)), into)
}

/// Appends the date of a day number, as 2024-03-31; `into` is unchanged without memory, which can be
/// wanting only where it has no room.
pub fn write_date(day: i64, into: &mut String) -> Result<(), OutOfMemory>
    requires { IsCalendarDay day }
    ensures ok { OnOk result (string_bytes into.new ≡ string_bytes into.old ++ date_text day) }
    ensures err { OnErr result (string_bytes into.new ≡ string_bytes into.old) }
    ensures full { OnErr result (string_capacity into.old < string_len into.old + 10) }
{
    let midnight = extended(civil_of(day * 1440));
    push_ascii(&midnight[..10], into)
}

/// The bytes of YYYY-MM-DDTHH:MMZ.
fn extended(civil: Civil) -> [u8; 17]
    requires { IsStampable civil }
    ensures { result ≡ extended_text civil }
{
    let year = civil.year as u16;
    let [y0, y1] = digits_of((year / 100) as u8);
    let [y2, y3] = digits_of((year % 100) as u8);
    let [m0, m1] = digits_of(civil.month);
    let [d0, d1] = digits_of(civil.day);
    let [h0, h1] = digits_of(civil.hour);
    let [n0, n1] = digits_of(civil.minute);
    [
        y0, y1, y2, y3, b'-', m0, m1, b'-', d0, d1, b'T', h0, h1, b':', n0, n1, b'Z',
    ]
}

/// The bytes of YYYYMMDDTHHMMZ.
fn basic(civil: Civil) -> [u8; 14]
    requires { IsStampable civil }
    ensures { result ≡ basic_text civil }
{
    let stamp = extended(civil);
    // All but the marks at 4, 7 and 13.
    [
        stamp[0], stamp[1], stamp[2], stamp[3], stamp[5], stamp[6], stamp[8], stamp[9], stamp[10],
        stamp[11], stamp[12], stamp[14], stamp[15], stamp[16],
    ]
}

/// The two digits of a number below 100.
fn digits_of(number: u8) -> [u8; 2]
    requires { number < 100 }
    ensures { result ≡ two_digits number }
{
    [b'0' + number / 10, b'0' + number % 10]
}

/// Appends ASCII bytes, or leaves the text as it was without memory.
fn push_ascii(bytes: &[u8], into: &mut String) -> Result<(), OutOfMemory>
    requires { IsAscii bytes.now }
    ensures ok { OnOk result (string_bytes into.new ≡ string_bytes into.old ++ bytes.now) }
    ensures err { OnErr result (string_bytes into.new ≡ string_bytes into.old) }
    ensures full { OnErr result (string_capacity into.old < string_len into.old + length bytes.now) }
{
    let text = str::from_utf8(bytes).unwrap();
    into.push_str(text)?;
    Ok(())
}

/// Two instants of the calendar have two stamps, in either form, and two days two dates.
pub fn stamps_differ()
    ensures extended { (a b : ℤ) → IsCalendarMinute a → IsCalendarMinute b
        → stamp_text a ≡ stamp_text b → a ≡ b }
    ensures basic { (a b : ℤ) → IsCalendarMinute a → IsCalendarMinute b
        → basic_stamp_text a ≡ basic_stamp_text b → a ≡ b }
    ensures date { (a b : ℤ) → IsCalendarDay a → IsCalendarDay b → date_text a ≡ date_text b → a ≡ b }
{}

/// A stamp has 17 bytes, and 14 without the marks; a date has 10.
pub fn stamps_have_one_length()
    ensures extended { (at : ℤ) → IsCalendarMinute at → length (stamp_text at) ≡ 17 }
    ensures basic { (at : ℤ) → IsCalendarMinute at → length (basic_stamp_text at) ≡ 14 }
    ensures date { (day : ℤ) → IsCalendarDay day → length (date_text day) ≡ 10 }
{}
