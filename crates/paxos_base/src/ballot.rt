ghost use Rattle.std.specs.Prelude.{◌≡◌, ℕ, ◌<◌, ◌≤◌, ◌^◌, ◌↔◌, IsTrue, IsSome, IfSome};
ghost use Rattle.paxos_base.specs.Ballot.{ballot_number, round_of, member_of, is_ballot_of, IsBallot};

use std::marker::Model;

// How many replicas there are at most.
const MOST_MEMBERS: u8 = 7;

/// A ballot: a round, from 1 on, and the replica that the ballot belongs to.
///
/// Its number is `8 * round + replica`, so that no two replicas share one ("Paxos Made Simple", section 2.4), and
/// ballots are compared by their numbers: first by round, then by replica. Contracts see a ballot as its number.
#[derive(Clone, Copy, Debug, PartialEq, Eq, PartialOrd, Ord, Hash)]
pub struct Ballot(u64);

impl Model for Ballot {
    ghost Value = { ℕ };

    ghost view = { λ ballot. ballot.0 };

    ghost invariant = { λ ballot. IsBallot ballot.0 };

    ghost inverse = { λ number. record { 0 = number } };
}

impl Ballot {
    /// The ballot of a replica, from 0 to 6, in a round.
    pub fn of(round: u64, member: u8) -> Ballot
        requires round_from_one { 1 ≤ round }
        requires round_below { round < 2 ^ 61 }
        requires member_below { member < 7 }
        ensures number { result ≡ ballot_number round member }
        ensures round { round_of result ≡ round }
        ensures member { member_of result ≡ member }
    {
        Ballot(8 * round + u64::from(member))
    }

    /// Whether the number is a ballot's: of a round from 1 on, and of one of that many replicas, which are numbered from 0.
    pub fn is_number_of(members: u8, number: u64) -> bool
        ensures { result ≡ is_ballot_of members number }
    {
        number >= 8 && number % 8 < u64::from(members)
    }

    /// The ballot that has this number: None exactly where there is no such ballot.
    pub fn from_number(number: u64) -> Option<Ballot>
        ensures some { IsSome result ↔ IsBallot number }
        ensures value { IfSome result (λ ballot. ballot ≡ number) }
    {
        if Ballot::is_number_of(MOST_MEMBERS, number) {
            Some(Ballot(number))
        } else {
            None
        }
    }

    /// The ballot's number, by which ballots are compared.
    pub fn number(&self) -> u64
        ensures value { result ≡ self.now }
        ensures parts { result ≡ ballot_number (round_of self.now) (member_of self.now) }
        ensures ballot { IsBallot self.now }
    {
        self.0
    }

    /// The round, from 1 on and below 2^61.
    pub fn round(&self) -> u64
        ensures value { result ≡ round_of self.now }
        ensures from_one { 1 ≤ result }
        ensures below { result < 2 ^ 61 }
    {
        self.0 / 8
    }

    /// The replica that the ballot belongs to, from 0 to 6.
    pub fn member(&self) -> u8
        ensures value { result ≡ member_of self.now }
        ensures below { result < 7 }
    {
        (self.0 % 8) as u8
    }

    /// Whether the ballot belongs to one of that many replicas, which are numbered from 0.
    pub fn is_of(&self, members: u8) -> bool
        ensures { IsTrue result ↔ (member_of self.now < members) }
    {
        self.member() < members
    }
}
