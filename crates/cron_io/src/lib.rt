//! Bytes come and go whole. `read_all` answers with all bytes up to the end (`IsReadToEnd`), and with `TooLong` only
//! if more bytes came than the limit; whatever it answers, what is left of the source is a last part of what was
//! (`HasReadOn`). `write_all` writes all bytes (`HasGained`) or a prefix of them. A fault comes only if the object's
//! own count of faults rose (`HasCause`). `MemSource` and `MemSink` fail at exactly the calls that they are set to
//! fail at; if there are none, no read fails, and a write fails exactly if the piece is longer than the room.
//! `StdSource` and `StdSink` ask their reader or writer once, hand that answer on, and count a fault exactly if it
//! is one (`HandsOn`). What contracts see of a source or a sink is one value, `SourceView` or `SinkView`.
//! `OutOfMemory` is the one error of calls that fail for lack of memory alone.
#![tactic(auto)]

mod asked;
mod laws;
mod memory;
mod number;
mod out_of_memory;
mod sink;
mod source;
mod standard;

pub use laws::{
    a_count_that_stays_has_not_risen, an_adapter_hands_one_answer_on, what_a_sink_gained,
    what_a_source_gave,
};
pub use memory::{MemSink, MemSource};
pub use number::read_number;
pub use out_of_memory::OutOfMemory;
pub use sink::{Sink, SinkFault, write_all};
pub use source::{ReadAllFault, Source, SourceFault, read_all};
pub use standard::{StdSink, StdSource};
