/// Which board it is. No value of it is made: it stands for a board in the rule that readers are under.
pub struct Name {
    pub number: u64,
    pub log: u64,
    pub cells: u64,
}
