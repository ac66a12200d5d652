ghost use Rattle.std.specs.Prelude.{◌≡◌, ◌↔◌, ℕ, IsTrue, IfSome, IfNone, IfOk, IfErr};
ghost use Rattle.std.specs.Str.Parse.{AllDigits};
ghost use Rattle.cron_fields.specs.Atom.{AllLetters, IsAtom, IsAtomFault, IsName, IsNumber, TakesNumber};
ghost use Rattle.cron_fields.specs.Base.{IsPlaceInTable};
ghost use Rattle.cron_fields.specs.Cause.{cause_number};

use crate::cause::Cause;
use crate::fault::Fault;
use crate::field::FieldKind;

const MONTHS: [[u8; 3]; 12] = [
    *b"jan", *b"feb", *b"mar", *b"apr", *b"may", *b"jun", *b"jul", *b"aug", *b"sep", *b"oct",
    *b"nov", *b"dec",
];

const WEEK_DAYS: [[u8; 3]; 7] = [
    *b"sun", *b"mon", *b"tue", *b"wed", *b"thu", *b"fri", *b"sat",
];

// The number of an atom that stands at a place, or what is wrong with it there.
pub(crate) fn read_atom(kind: FieldKind, atom: &str, place: usize) -> Result<u32, Fault>
    ensures read { IfOk result (IsAtom kind atom.now) }
    ensures fault { IfErr result (λ fault. IsAtomFault kind atom.now (cause_number fault.cause)) }
    ensures place { IfErr result (λ fault. fault.place ≡ place) }
{
    if let Some(number) = read_digits(atom) {
        return Ok(number);
    }
    if let Some(number) = read_name(kind, atom) {
        return Ok(number);
    }
    let cause = if atom.is_empty() {
        Cause::Empty
    } else if are_digits(atom.as_bytes()) {
        Cause::BadNumber
    } else if are_letters(atom.as_bytes()) {
        Cause::UnknownName
    } else {
        Cause::NoAtom
    };
    Err(Fault { cause, place })
}

// A number in one to nine digits. What std parses may begin with a plus.
pub(crate) fn read_digits(text: &str) -> Option<u32>
    ensures some { IfSome result (IsNumber text.now) }
    ensures none { IfNone result ((value : ℕ) → IsNumber text.now value → ⊥) }
{
    if text.len() > 9 || text.starts_with('+') {
        return None;
    }
    text.parse().ok()
}

// The number of a month or of a day of the week.
fn read_name(kind: FieldKind, text: &str) -> Option<u32>
    ensures some { IfSome result (IsName kind text.now) }
    ensures none { IfNone result ((value : ℕ) → IsName kind text.now value → ⊥) }
{
    match kind {
        FieldKind::Month => Some(place_of(text, &MONTHS)? as u32 + 1),
        FieldKind::WeekDay => Some(place_of(text, &WEEK_DAYS)? as u32),
        _ => None,
    }
}

// The place of a name in a table, where the case doesn't count.
fn place_of(text: &str, names: &[[u8; 3]]) -> Option<usize>
    ensures some { IfSome result (IsPlaceInTable names.now text.now) }
    ensures none { IfNone result ((index : ℕ) → IsPlaceInTable names.now text.now index → ⊥) }
{
    for (index, name) in names.iter().enumerate() {
        if name.eq_ignore_ascii_case(text.as_bytes()) {
            return Some(index);
        }
    }
    None
}

fn are_digits(bytes: &[u8]) -> bool
    ensures { IsTrue result ↔ AllDigits 10 bytes.now }
{
    for byte in bytes {
        if !byte.is_ascii_digit() {
            return false;
        }
    }
    true
}

fn are_letters(bytes: &[u8]) -> bool
    ensures { IsTrue result ↔ AllLetters bytes.now }
{
    for byte in bytes {
        if !byte.is_ascii_alphabetic() {
            return false;
        }
    }
    true
}

// A number that the kind takes, of the atom at a place.
pub(crate) fn take(kind: FieldKind, number: u32, place: usize) -> Result<u8, Fault>
    ensures taken { IfOk result (λ value. TakesNumber kind number × (value ≡ number)) }
    ensures fault { IfErr result (λ fault. (TakesNumber kind number → ⊥) × (cause_number fault.cause ≡ cause_number Cause.OutOfRange)) }
    ensures place { IfErr result (λ fault. fault.place ≡ place) }
{
    let (least, greatest) = match kind {
        FieldKind::Minute => (0, 59),
        FieldKind::Hour => (0, 23),
        FieldKind::MonthDay => (1, 31),
        FieldKind::Month => (1, 12),
        FieldKind::WeekDay => (0, 7),
    };
    if number < least || number > greatest {
        let cause = Cause::OutOfRange;
        return Err(Fault { cause, place });
    }
    Ok(number as u8)
}
