//! A body is in a file or not, and no other is lost. A body that was appended is in the file whatever a stop does; a
//! stop within an append leaves the bodies from before, with the new one or without (`GateFile::append`, clauses
//! `rests`, `images`), and so does a stop within an attach after it (`attach`). `ReadGates::read` reads what the
//! file has and writes nothing, `close` makes it ready, and `attach` is both; `rewrite` writes a file anew. A file
//! has one list of bodies (`a_file_has_one_list_of_bodies`); one in which an append was cut short has the bodies
//! from before, with the new one or without (`a_staged_file_has_its_bodies`). On a disk that shows its calls, each
//! call says which writes, cuts and syncs it makes (`append_calls`, `rewrite_calls`, `read_calls`, `close_calls`),
//! and how many were done at each answer (clauses `told`). No checksum is trusted. Over a disk that isn't honest
//! nothing is said of images. `reading` has the bytes, `read_gates` and `gate_file` the calls.
//!
//! Gate k is the byte at `57 * k`, and body k the 56 bytes after it. A gate is open where its byte is 1 and its body
//! and the next gate's byte lie within the file. A file has the bodies before its first gate that is not open, the tail
//! gate. A body is written behind the closed tail gate, with a closed gate after it, and synced before its own gate is
//! opened by a write of one byte: so whatever a stop makes of the file, it has the bodies that it had, with the new one
//! or without.
#![tactic(auto)]

mod body;
mod fault;
mod gate_file;
mod laws;
mod read_gates;
mod reading;

pub use body::Body56;
pub use fault::GateFault;
pub use gate_file::GateFile;
pub use laws::{a_file_has_one_list_of_bodies, a_staged_file_has_its_bodies};
pub use read_gates::ReadGates;
