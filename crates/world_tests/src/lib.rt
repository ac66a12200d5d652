//! A book that replicas fill by their steps, over a table of one job. From turn to turn it is proved that the book
//! is legal and that each replica is as the book has it (`IsLegalScene`). The campaign of one of three is a turn
//! with two letters. One alone leads, starts a launch and calls it. Three take the twenty-one turns of the takeover
//! of history: in the end the book has just those turns, with their seventeen letters, and the scheduler holds the
//! launch once.
#![tactic(auto)]

#[cfg(test)]
mod hour;
#[cfg(test)]
mod scene;
#[cfg(test)]
mod seat;
#[cfg(test)]
mod takeover;
#[cfg(test)]
mod turn;
#[cfg(test)]
mod turns;
