//! One replica's step, and its start from its disk. A step does what the definition in step_spec says: the state
//! after it, what is to be stored, the letters byte for byte, the entries that were learned and the call are those
//! of its acts (`Replica::step`, clause `steps`). The replica and its input settle all of that, whatever room it has
//! (`a_step_has_one_outcome`). Bytes that are no letter are refused with the first rule that they break (`fault`),
//! and a refusal leaves the replica as it was, but for the room that it has (`err`). `plan` finds the change and
//! leaves the replica as it was, and `complete`, which takes no memory and can't refuse, makes it. A replica starts
//! from what is on its disk (`start`), and a copy is equal (`copy`). A step needs a small replica (`is_small`), the
//! table of jobs that it was started with, and a clock reading in the window. `parts` has what a replica knows,
//! `lines` and `hear` a function for each line of a message, `lead` those of a campaign, a tick and an answer,
//! `bounds` which letters are heard as none, `plan` what is done at an input, `commit` how a planned step is taken.
//!
//! A step is two halves. First it is planned: the replica stays as it is, and all memory is taken. Then it is taken, which
//! needs no memory and can't refuse. Between the two its caller stores what changes on the disk, so that no letter and no
//! call leaves before its change is safe.
#![tactic(auto)]

mod begin;
mod bounds;
mod commit;
mod hear;
mod input;
mod laws;
mod lead;
mod lines;
mod out;
mod parts;
mod plan;
mod replica;

pub use input::{Input, StepFault};
pub use laws::{a_step_has_one_outcome, a_step_keeps_the_table};
pub use out::{LearntList, StepOut};
pub use replica::{Planned, Replica};
pub use replica_draft::LetterList;
pub use step_spec::{LearntRow, OutLetter};
