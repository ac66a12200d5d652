//! What a replica keeps, over a stop of an honest disk. A change that `Store::save` answered with `Ok` is in the
//! files whatever a stop does, and whatever a stop within a save or an attach leaves stands for the state before the
//! change or for the one after it (`save`, `attach`, clauses `images` and `recoverable`;
//! `a_stop_leaves_one_of_two_states`). `attach` finds one of the two and never damage (clauses `either`, `sound`),
//! on a disk that was empty at first (`an_empty_disk_is_recoverable`) and that only these two calls wrote, or whose
//! files are synced and closed (`synced_files_are_recoverable`); if files stand for no state it names the first gate
//! at fault and writes nothing (`damaged`, `unwritten`). Files stand for one state at most
//! (`files_stand_for_one_state`). If the selected area begins with a base of format 1, `attach` saves what it stands for
//! as a base (`migrated`, `moved`). On a disk that shows its calls, both say which they make (`AreAttachCalls`,
//! `save_calls`), and how many were done at each answer (`told`). If such a disk was armed and stops within a save,
//! the number of calls left and the number of the image say whether the change is kept, and which area is in use
//! (`a_stop_may_keep_a_record`, `a_stop_may_keep_a_base`). Over a disk that isn't honest nothing is said of images.
//! `chooser` has the byte that selects an area, `store` the two calls.
//!
//! The low bit of the chooser's byte selects an area: the first for 0, and for an empty chooser, the second for 1. The
//! records of the selected area stand for what is kept. A change is one record more, appended to that area. A base is the
//! start of the other area: that is written anew, with the base's rows and a copy of what is kept beside them, and synced
//! before the chooser's byte is written. So whatever a stop makes of the three files, within any call, they stand for the
//! state before the change that was being saved or for the one after it.
#![tactic(auto)]

mod chooser;
mod fault;
mod laws;
mod store;

pub use fault::StoreFault;
pub use laws::{
    a_disk_is_ready_for_a_save, a_stop_leaves_one_of_two_states, a_stop_may_keep_a_base,
    a_stop_may_keep_a_record, a_store_at_rest_is_recoverable, a_store_at_rest_stays_so,
    an_empty_disk_is_recoverable, files_stand_for_one_state, synced_files_are_recoverable,
};
pub use store::Store;
