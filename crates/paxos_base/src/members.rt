ghost use Rattle.std.specs.Prelude.{◌≡◌, ℕ, ◌<◌, ◌≤◌, ◌↔◌, ◌⊎◌, IsTrue};
ghost use Rattle.paxos_base.specs.Members.{HasMember, no_members, with_member, member_count, majority_of};

use std::marker::Model;

/// A set of replicas, which are numbered from 0 to 7.
///
/// Contracts see it as a number, of which they ask only which replicas it has (`HasMember`).
#[derive(Clone, Copy, Debug, PartialEq, Eq)]
pub struct Members(u8);

impl Model for Members {
    ghost Value = { ℕ };

    ghost view = { λ set. set.0 };

    ghost inverse = { λ number. record { 0 = number } };
}

impl Members {
    /// The empty set.
    pub fn none() -> Members
        ensures value { result ≡ no_members }
        ensures empty { (k : ℕ) → ¬ HasMember result k }
    {
        Members(0)
    }

    /// The set with a replica put in, which may be there already.
    pub fn with(self, member: u8) -> Members
        requires { member < 8 }
        ensures value { result ≡ with_member member self }
        ensures members { (k : ℕ) → HasMember result k ↔ ((k ≡ member) ⊎ HasMember self k) }
    {
        Members(self.0 | 1 << member)
    }

    /// Whether a replica is in the set.
    pub fn has(self, member: u8) -> bool
        requires { member < 8 }
        ensures { IsTrue result ↔ HasMember self member }
    {
        self.0 >> member & 1 == 1
    }

    /// How many replicas are in the set, at most 8.
    pub fn count(self) -> u8
        ensures value { result ≡ member_count self }
        ensures bound { result ≤ 8 }
    {
        self.0.count_ones() as u8
    }
}

/// The least number of replicas that is more than half of them: a quorum has so many.
pub fn majority(members: u8) -> u8
    requires some { 1 ≤ members }
    requires few { members ≤ 7 }
    ensures value { result ≡ majority_of members }
    ensures within { result ≤ members }
{
    members / 2 + 1
}
