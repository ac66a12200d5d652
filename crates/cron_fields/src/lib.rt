//! What a field's text stands for, and which civil times match. `read_field` answers with the set of `IsField`, or
//! with the first rule that the text breaks and the place of the byte (`IsFieldFault`); each text has one of the two
//! and never both (`a_field_has_one_reading`). `fnv` and `pick` give the value of a hashed field (`hashed_value`).
//! `Fields::matches_date` is the day rule of crontab(5) (`MatchesDay`), and `matches_time` the match of a time of
//! day. `atom`, `item` and `read` have the reader in its three layers, `fault` the rules' numbers.
#![tactic(auto)]

mod atom;
mod cause;
mod fault;
mod field;
mod hash;
mod item;
mod law;
mod read;

pub use cause::Cause;
pub use fault::FieldFault;
pub use field::{FieldKind, FieldSet, Fields};
pub use hash::{FNV_START, HashSeed, fnv, pick};
pub use law::{
    a_fault_lies_in_its_text, a_field_has_no_blank, a_field_has_one_reading,
    a_field_has_values_of_its_kind,
};
pub use read::read_field;
