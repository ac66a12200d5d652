//! Zones, stamps, due instants and dates, compared with what other programs say.
#![tactic(auto)]

#[cfg(test)]
mod build;
#[cfg(test)]
mod changes;
#[cfg(test)]
mod dates;
#[cfg(test)]
mod due;
#[cfg(test)]
mod stamps;
#[cfg(test)]
mod versions;
#[cfg(test)]
mod zones;
