ghost use Rattle.std.specs.Prelude.{◌≡◌, ◌^◌, ◌<◌, length, codes, IfOk, IfErr};
ghost use Rattle.cron_fields.specs.Hash.{digit_of};
ghost use Rattle.cron_fields.specs.Field.{IsField, IsFieldFault, IsHashed, IsList, IsListFault};
ghost use Rattle.cron_fields.specs.Seed.{seed_of};
ghost use Rattle.cron_fields.specs.Cause.{cause_number};

use crate::cause::Cause;
use crate::fault::{Fault, FieldFault};
use crate::field::{FieldKind, FieldSet};
use crate::hash::{FNV_START, HashSeed, fnv, pick};
use crate::item::read_item;

/// Reads a field of a crontab line: `?`, or items with commas between them. An item is `*`, a number, a name or a
/// range, and after `*` or a range perhaps a step (crontab(5)). A name is the first three letters of an English month
/// or day of the week, in any case. The one value of `?` is picked by a hash of the seed.
///
/// # Errors
///
/// The first rule that the text breaks. A `~` comes before all others. Then the first item decides that is wrong, and of an item
/// its atoms, then their numbers, then its step.
///
/// | Cause | Rule |
/// |---|---|
/// | 1 | an item, an atom or a step is empty |
/// | 2 | a number has more than 9 digits, or a step is no number |
/// | 3 | a number is outside the field's range |
/// | 4 | a name is none of the field's |
/// | 5 | the low end of a range is above its high end |
/// | 6 | a step is 0 |
/// | 7 | a step follows a single number or name |
/// | 8 | the field has a `~` |
/// | 9 | an atom is neither a number nor a name |
pub fn read_field(kind: FieldKind, text: &str, seed: HashSeed<'_>) -> Result<FieldSet, FieldFault>
    requires { length text.now < 2 ^ 32 }
    ensures read { IfOk result (IsField kind text.now (seed_of seed.entry)) }
    ensures fault { IfErr result (λ fault. IsFieldFault kind text.now fault.cause fault.place) }
{
    if let Some((before, _)) = text.split_once('~') {
        let cause = Cause::Tilde;
        let place = before.len();
        return Err(Fault { cause, place }.told());
    }
    if text == "?" {
        return Ok(hashed(kind, seed));
    }
    match read_list(kind, text) {
        Ok(set) => Ok(set),
        Err(fault) => Err(fault.told()),
    }
}

// The set of `?`.
fn hashed(kind: FieldKind, seed: HashSeed<'_>) -> FieldSet
    ensures { IsHashed kind (codes "?") (seed_of seed.entry) result }
{
    let hash = fnv(FNV_START, seed.owner.as_bytes());
    let hash = fnv(hash, b"\0");
    let hash = fnv(hash, seed.command.as_bytes());
    let hash = fnv(hash, &[0, digit_of(kind)]);
    FieldSet {
        bits: 1 << pick(kind, hash),
        star: false,
        hashed: true,
    }
}

// The digit that the hash takes for a kind.
fn digit_of(kind: FieldKind) -> u8
    ensures { result ≡ digit_of kind }
{
    match kind {
        FieldKind::Minute => b'0',
        FieldKind::Hour => b'1',
        FieldKind::MonthDay => b'2',
        FieldKind::Month => b'3',
        FieldKind::WeekDay => b'4',
    }
}

// The set of a list of items.
fn read_list(kind: FieldKind, text: &str) -> Result<FieldSet, Fault>
    requires { length text.now < 2 ^ 32 }
    ensures read { IfOk result (IsList kind text.now) }
    ensures fault { IfErr result (λ fault. IsListFault kind text.now (cause_number fault.cause) fault.place) }
{
    let mut bits = 0;
    let mut place = 0;
    for item in text.split(',') {
        let values = match read_item(kind, item) {
            Ok(values) => values,
            Err(fault) => return Err(fault.after(place)),
        };
        bits = values.join(kind, bits);
        place += item.len() + 1;
    }
    Ok(FieldSet {
        bits,
        star: text.starts_with('*'),
        hashed: false,
    })
}
