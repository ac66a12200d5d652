//! What the rows of the tests share.
ghost use Rattle.std.specs.Prelude.{◌<◌, ◌^◌, length, IfOk};

use cron_io::MemSink;
use due_list::ListFault;
use std::alloc::Global;
use std::test::Fail;

/// The run file of one replica without grace, over a window.
pub fn run_file(alloc: Global, window: &str, parts: &str) -> Result<String, Fail> {
    Ok(format!(in alloc; "cronrun 1\nreplicas 1\nwindow {window}\ngrace 0\n{parts}script\nend\n")?)
}

/// The text, which is short enough to be read.
pub fn short(text: &str) -> Result<&str, Fail>
    ensures { IfOk result (λ short. length short.now < 2 ^ 32) }
{
    if text.len() < 2_000_000 {
        Ok(text)
    } else {
        Err(Fail::from("a long text"))
    }
}

/// A sink: its room in bytes, and the numbers of the writes that fail.
#[derive(Clone, Copy)]
pub struct Into {
    pub room: u32,
    pub fails: &'static [u64],
}

/// A sink that takes all.
pub const WHOLE: Into = Into {
    room: 1 << 10,
    fails: &[],
};

/// A sink whose first write fails.
pub const FAULTY: Into = Into {
    room: 1 << 10,
    fails: &[0],
};

/// A sink without room for a list.
pub const NARROW: Into = Into {
    room: 10,
    fails: &[],
};

impl Into {
    /// The empty sink.
    pub fn sink(self, alloc: Global) -> Result<MemSink, Fail> {
        Ok(MemSink::new(alloc, self.room, self.fails.to_vec(alloc)?)?)
    }
}

/// A list that is written into a sink, what comes of it, and what is written then.
pub struct Row {
    pub window: &'static str,
    pub parts: &'static str,
    pub into: Into,
    pub result: Result<(), ListFault>,
    pub text: &'static str,
}
