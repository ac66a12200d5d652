//! A replica's first campaign by its bytes, and long letters. A node over a disk in memory: what it finds again
//! after each start, and how far it comes if a call of the disk fails or stops. A node that has armed its disk is
//! reopened with the change of a campaign, a promise, a vote and a base exactly if the image that is left has it,
//! and its disk keeps what was worked out by hand; so with bases that have a row, and after none, one and two of
//! them. A disk whose area begins with such a base, and has a record whose gate was stopped, is attached again,
//! armed too; and so is one whose area is of format 1.
#![tactic(auto)]

#[cfg(test)]
mod again;
#[cfg(test)]
mod arms;
#[cfg(test)]
mod builders;
#[cfg(test)]
mod campaign;
#[cfg(test)]
mod format1;
#[cfg(test)]
mod long;
#[cfg(test)]
mod nodes;
#[cfg(test)]
mod rows;
#[cfg(test)]
mod steps;
#[cfg(test)]
mod stops;
