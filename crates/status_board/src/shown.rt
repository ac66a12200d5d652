use paxos_base::JobRow;

/// A state of a board: the launch table as the entries of the log below a slot leave it. No value of it is made: clauses name
/// the states of a board, and an array in a clause is a list of any length.
pub struct Shown {
    /// How many entries of the log are in the rows.
    pub prefix: u64,
    /// A row for each job, in the order of their numbers, and then the table's own.
    pub rows: [JobRow; 0],
}
