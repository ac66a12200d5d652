ghost use Rattle.std.specs.Prelude.{◌≡◌, ◌<◌, ◌≤◌, IfOk, IfErr, codes};
ghost use Rattle.cron_fields.specs.Atom.{IsNumber};
ghost use Rattle.cron_fields.specs.Base.{IsBase, Joins, steps_of};
ghost use Rattle.cron_fields.specs.Cause.{cause_number};
ghost use Rattle.cron_fields.specs.FieldSet.{value_of};
ghost use Rattle.cron_fields.specs.Item.{IsItem, IsRange};
ghost use Rattle.cron_fields.specs.ItemFault.{IsBaseFault, IsItemFault, IsRangeFault, IsStepFault};

use crate::atom::{read_atom, read_digits, take};
use crate::cause::Cause;
use crate::fault::Fault;
use crate::field::FieldKind;

// The base of an item: an atom alone, or what a step may follow.
#[derive(Clone, Copy, Debug)]
enum Base {
    Single(u8),
    Wide(u8, u8),
}

// The numbers from `low` to `high` at a distance of `step`.
#[derive(Clone, Copy, Debug)]
pub(crate) struct Progression {
    low: u8,
    high: u8,
    step: u32,
}

// An item of a field:
//
//     item = base [ "/" number ]
//     base = "*" | atom | atom "-" atom
//     atom = number | name
//
// A step follows `*` or a range alone.
pub(crate) fn read_item(kind: FieldKind, item: &str) -> Result<Progression, Fault>
    ensures read { IfOk result (λ p. IsItem kind item.now (steps_of p)) }
    ensures fault { IfErr result (λ fault. IsItemFault kind item.now (cause_number fault.cause) fault.place) }
{
    let Some((base, step)) = item.split_once('/') else {
        return match read_base(kind, item)? {
            Base::Single(value) => Ok(Progression {
                low: value,
                high: value,
                step: 1,
            }),
            Base::Wide(low, high) => Ok(Progression { low, high, step: 1 }),
        };
    };
    let place = base.len() + 1;
    match read_base(kind, base)? {
        Base::Single(_) => {
            let cause = Cause::StepAfterAtom;
            Err(Fault { cause, place })
        }
        Base::Wide(low, high) => {
            let step = read_step(step, place)?;
            Ok(Progression { low, high, step })
        }
    }
}

// `*`, an atom or a range.
fn read_base(kind: FieldKind, base: &str) -> Result<Base, Fault>
    ensures read { IfOk result (IsBase kind base.now) }
    ensures fault { IfErr result (λ fault. IsBaseFault kind base.now (cause_number fault.cause) fault.place) }
{
    if base == "*" {
        return Ok(every(kind));
    }
    let Some((low, high)) = base.split_once('-') else {
        let value = take(kind, read_atom(kind, base, 0)?, 0)?;
        return Ok(Base::Single(value));
    };
    let (low, high) = read_range(kind, low, high)?;
    Ok(Base::Wide(low, high))
}

// The numbers of `*`.
fn every(kind: FieldKind) -> Base
    ensures { IsBase kind (codes "*") result }
{
    let (low, high) = match kind {
        FieldKind::Minute => (0, 59),
        FieldKind::Hour => (0, 23),
        FieldKind::MonthDay => (1, 31),
        FieldKind::Month => (1, 12),
        FieldKind::WeekDay => (0, 6),
    };
    Base::Wide(low, high)
}

// A range between two atoms.
fn read_range(kind: FieldKind, low: &str, high: &str) -> Result<(u8, u8), Fault>
    ensures read { IfOk result (λ ends. IsRange kind low.now high.now ends.0 ends.1) }
    ensures fault { IfErr result (λ fault. IsRangeFault kind low.now high.now (cause_number fault.cause) fault.place) }
{
    let high_place = low.len() + 1;
    let low = read_atom(kind, low, 0)?;
    let high = read_atom(kind, high, high_place)?;
    let low = take(kind, low, 0)?;
    let high = take(kind, high, high_place)?;
    if low > high {
        let cause = Cause::BadOrder;
        return Err(Fault { cause, place: 0 });
    }
    Ok((low, high))
}

// A step: a number in one to nine digits that isn't 0.
fn read_step(step: &str, place: usize) -> Result<u32, Fault>
    ensures read { IfOk result (λ by. IsNumber step.now by × (0 < by)) }
    ensures fault { IfErr result (λ fault. IsStepFault step.now (cause_number fault.cause)) }
    ensures place { IfErr result (λ fault. fault.place ≡ place) }
{
    let cause = match read_digits(step) {
        Some(0) => Cause::ZeroStep,
        Some(by) => return Ok(by),
        None if step.is_empty() => Cause::Empty,
        None => Cause::BadNumber,
    };
    Err(Fault { cause, place })
}

impl Progression {
    // The bits with those of the progression's values. Day 7 of the week is day 0.
    pub(crate) fn join(&self, kind: FieldKind, bits: u64) -> u64
        requires high { self.now.high < 64 }
        requires step { 0 < self.now.step }
        ensures { Joins kind bits (steps_of self.now) result }
    {
        let mut bits = bits;
        let high = self.high as u64;
        let mut number = self.low as u64;
        while number <= high {
            bits |= 1 << value_of(kind, number);
            number += self.step as u64;
        }
        bits
    }
}

// The value that a number stands for: day 7 of the week is day 0.
fn value_of(kind: FieldKind, number: u64) -> u64
    ensures value { result ≡ value_of kind number }
    ensures bound { result ≤ number }
{
    match kind {
        FieldKind::WeekDay => number % 7,
        _ => number,
    }
}
