//! The order rule: which changes may follow what is kept.
ghost use Rattle.std.specs.Prelude.{◌≡◌, ◌↔◌, ◌&&◌, nat_lt, nat_le, IsTrue};
ghost use Rattle.paxos_base.specs.declared.rows.TableSize.{TableSize};
ghost use Rattle.paxos_base.specs.Ballot.{round_of};
ghost use Rattle.store_format.specs.Order.{ChangeMayFollow, delta_record};
ghost use Rattle.store_format.specs.Places.{is_above, is_at_least, keeps_order};

use crate::body::Record;
use paxos_base::{Ballot, Delta, Durable, TableSize, Vote};

/// Whether the ballot is above the promise, as each is where there is none.
pub(crate) fn is_above(ballot: Ballot, promised: Option<Ballot>) -> bool
    ensures { result ≡ is_above ballot promised }
{
    match promised {
        Some(promised) => promised < ballot,
        None => true,
    }
}

// The ballot is the promised one or above it.
fn is_at_least(ballot: Ballot, promised: Option<Ballot>) -> bool
    ensures { result ≡ is_at_least ballot promised }
{
    match promised {
        Some(promised) => promised <= ballot,
        None => true,
    }
}

fn may_try(kept: &Durable, ballot: Ballot) -> bool
    ensures { result ≡ (nat_lt kept.now.tried (round_of ballot) && is_above ballot kept.now.promised) }
{
    kept.tried < ballot.round() && is_above(ballot, kept.promised)
}

fn may_vote(kept: &Durable, vote: Vote) -> bool
    ensures { result ≡ (is_at_least vote.ballot kept.now.promised && nat_le kept.now.base vote.slot) }
{
    is_at_least(vote.ballot, kept.promised) && kept.base <= vote.slot
}

/// Whether the change of the record may follow what is kept.
pub(crate) fn keeps_order(kept: &Durable, item: &Record) -> bool
    ensures { result ≡ keeps_order kept.now item.now }
{
    match *item {
        Record::Tried(ballot) => may_try(kept, ballot),
        Record::Promised(ballot) => is_above(ballot, kept.promised),
        Record::Voted(vote) => may_vote(kept, vote),
        Record::Base { .. } | Record::Row { .. } => false,
    }
}

/// Whether a change may follow what is kept, of a table of that size.
pub fn may_follow(kept: &Durable, size: TableSize, delta: &Delta) -> bool
    ensures { IsTrue result ↔ ChangeMayFollow size kept.now delta.now }
{
    match delta {
        Delta::Tried(ballot) => may_try(kept, *ballot),
        Delta::Promised(ballot) => is_above(*ballot, kept.promised),
        Delta::Voted(vote) => may_vote(kept, *vote),
        Delta::Base { slot, rows } => kept.base < *slot && rows.stand_for(size),
    }
}

/// The record of a change. A base has none: it begins an area anew, with [`write_base`](crate::write_base).
pub fn delta_record(delta: &Delta) -> Option<Record>
    ensures { result ≡ delta_record delta.now }
{
    match delta {
        Delta::Tried(ballot) => Some(Record::Tried(*ballot)),
        Delta::Promised(ballot) => Some(Record::Promised(*ballot)),
        Delta::Voted(vote) => Some(Record::Voted(*vote)),
        Delta::Base { .. } => None,
    }
}
