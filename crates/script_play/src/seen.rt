/// What a reader of a board saw after a command `free` of a script.
#[derive(Clone, Copy, Debug, PartialEq, Eq)]
pub struct Seen {
    /// The number of the command in its script, from 1.
    pub number: usize,
    /// How many entries of the log were in the launch table that it saw.
    pub prefix: u64,
    /// How many jobs were open in that.
    pub jobs_open: u32,
}
