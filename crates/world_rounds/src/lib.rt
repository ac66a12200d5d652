//! Replicas in rounds, each a node on a disk of its own, and the book of their turns. `World::new` starts them on
//! empty disks, in the first situation of script_semantics (`IsWorldAt`). `World::round` and `World::command` add
//! just the turns of the rounds or of the command's part, from whichever situation the world was in, and the world
//! is then in the situation after them (clauses `goes`: `GoesOnBy`), in however many lanes; all commands are taken
//! but free turns (`IsTaken`). `World::settle` adds just the turns of a script's settling, and `World::walk` those
//! of a walk (clauses `goes`); both come to an end, and leave a book within the bounds in which each letter is heard
//! whole (`bounded`). `into_book` hands out the book and a node of each replica (clause `nodes`), `take_parts` and
//! `from_parts` take a world apart and put it together, without memory (clauses `parts`, `world`). Running out of
//! memory is the only fault, over disks that are honest, empty and reliable at first (`IsFreshDisk`;
//! `a_new_disk_in_memory_is_fresh`); after it the book is legal (`legal`). That lanes run at the same time is no
//! promise. `member`, `steps` and `turns` have a replica's part of a round, `one_by_one` rounds in which a disk is
//! armed, `clear`, `settle` and `walking` what leads to quiet, `parts` and `rooms` a world in parts.
#![tactic(auto)]

mod alone;
mod bounds;
mod clear;
mod commands;
mod lanes;
mod laws;
mod letters;
mod mails;
mod member;
mod one_by_one;
mod parts;
mod quiet;
mod rooms;
mod rounds;
mod settle;
mod start;
mod steps;
mod turns;
mod walking;
mod world;

pub use laws::a_new_disk_in_memory_is_fresh;
pub use parts::Parts;
pub use rooms::MemberRoom;
pub use world::World;
