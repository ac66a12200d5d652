//! What an audit finds of inputs: runs with their reports and their journals, unchanged, and with a line that is changed or
//! left out, in the report and in the journal, for each of the five faults; inputs without a report, or broken off; and runs
//! that are refused, or over their limit. The journals have turns of each command of a script. What is found of each was
//! worked out by `tools/small_world`.
#![tactic(auto)]

#[cfg(test)]
mod finding_tests;
#[cfg(test)]
mod runs;
