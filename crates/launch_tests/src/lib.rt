//! The launch table, the scheduler that is called by names, the tree of least instants, and the report.
#![tactic(auto)]

#[cfg(test)]
mod build;
#[cfg(test)]
mod dates;
#[cfg(test)]
mod ledger;
#[cfg(test)]
mod limits;
#[cfg(test)]
mod machine;
#[cfg(test)]
mod names;
#[cfg(test)]
mod report;
#[cfg(test)]
mod tree;
#[cfg(test)]
mod versions;
