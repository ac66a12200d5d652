//! A step that is planned, beside a replica that stays as it is. The verbs of a `Draft` go on by acts of the
//! definition in step_spec: what the draft stands for afterwards is what it stood for before, with those acts done
//! (`Goes`; `LearnsNext` and `Chooses` if an entry is learned, `TakesRows` if a launch table comes in the place of
//! entries, `HasSent` if much is sent at once). `write_letters` spells what was sent, to each replica at most one
//! letter, byte for byte those of the acts (`Carry`), of which there is one list (`acts_have_one_list_of_letters`).
//! `draft` has the verbs, `change` what changes on the disk, `tell` what is sent of entries and of a launch table,
//! `letters` the letters.
#![tactic(auto)]

mod change;
mod draft;
mod laws;
mod letters;
mod tell;

pub use change::{Change, Rebased, RebasedBox};
pub use draft::{Draft, SendList, Sent, Target};
pub use laws::acts_have_one_list_of_letters;
pub use letters::{LetterList, write_letters};
pub use tell::{tell_entries, tell_learnt, tell_rows};
