ghost use Rattle.std.specs.Prelude.{◌≡◌, ◌<◌, ◌≤◌, ◌++◌, [], ◌∷◌, length, map, IfOk, OnOk};
ghost use Rattle.paxos_letter.specs.Letters.{Spells};
ghost use Rattle.paxos_letter.specs.Fields.{FitPacketFields};
ghost use Rattle.paxos_letter.specs.Spelling.{AllFit, fields_of, packet_bytes, spelling};
ghost use Rattle.step_spec.specs.Message.{goes_to};
ghost use Rattle.replica_draft.specs.Draft.{meant, said_in};
ghost use Rattle.replica_draft.specs.Letters.{AllKeep, Carry, HasCursor, HaveCursors, KeepGroups, packets_to};

use crate::draft::{Sent, Target};
use cron_io::OutOfMemory;
use paxos_base::PACKET_BYTES;
use paxos_letter::{LetterBytes, Packet, packet_bytes};
use std::alloc::Global;
use std::marker::Model;
use step_spec::OutLetter;

/// Letters in the order of the replicas that they go to. Contracts see the list.
#[derive(Debug, Drop)]
pub struct LetterList {
    pub items: Vec<OutLetter>,
}

impl Model for LetterList {
    ghost use Rattle.std.specs.Prelude.{List};
    ghost use Rattle.step_spec.specs.declared.out.OutLetter.{OutLetter};

    ghost Value = { List OutLetter };

    ghost view = { λ list. list.items.items };
}

impl Target {
    /// Whether what a replica sends so goes to this one.
    pub fn reaches(self, me: u8, member: u8) -> bool
        requires { member < 8 }
        ensures { result ≡ goes_to me (meant self) member }
    {
        match self {
            Target::Only(other) => member == other,
            Target::Others => member != me,
            Target::Outside(set) => member != me && !set.has(member),
        }
    }
}

// How many packets go to a replica.
fn count_to(me: u8, member: u8, sends: &[Sent]) -> usize
    requires member { member < 8 }
    ensures { result ≡ length (packets_to me member (map said_in sends.now)) }
{
    let mut count = 0;
    for sent in sends {
        if sent.target.reaches(me, member) {
            count += 1;
        }
    }
    count
}

impl Sent {
    /// The packet.
    pub fn packet(&self) -> Packet
        ensures { result ≡ self.now.packet }
    {
        self.packet
    }
}

// Appends a packet that is sent, which keeps the rules that a packet keeps by itself, as its type says.
fn put_packet(me: u8, sent: &Sent, into: &mut Vec<u8>) -> Result<(), OutOfMemory>
    requires me { me < 7 }
    requires cursor { HasCursor sent.now.packet }
    ensures spelled { OnOk result (into.new.items ≡ into.old.items ++ packet_bytes me sent.now.packet) }
    ensures fits { OnOk result (FitPacketFields (fields_of me sent.now.packet)) }
    ensures keep { OnOk result (AllKeep me (sent.now.packet ∷ [])) }
{
    into.extend_from_slice(&packet_bytes(me, &sent.packet()))?;
    Ok(())
}

// Appends the packets to a replica.
fn put_packets(me: u8, member: u8, sends: &[Sent], into: &mut Vec<u8>) -> Result<(), OutOfMemory>
    requires me { me < 7 }
    requires member { member < 8 }
    requires cursors { HaveCursors (map said_in sends.now) }
    ensures spelled { OnOk result (into.new.items ≡ into.old.items ++ spelling me (packets_to me member (map said_in sends.now))) }
    ensures fits { OnOk result (AllFit me (packets_to me member (map said_in sends.now))) }
    ensures keep { OnOk result (AllKeep me (packets_to me member (map said_in sends.now))) }
{
    for sent in sends {
        if sent.target.reaches(me, member) {
            put_packet(me, sent, into)?;
        }
    }
    Ok(())
}

// The letter with the packets to a replica, of which there are so many.
fn letter_to(
    alloc: Global,
    me: u8,
    member: u8,
    sends: &[Sent],
    count: usize,
) -> Result<OutLetter, OutOfMemory>
    requires me { me < 7 }
    requires member { member < 8 }
    requires groups { KeepGroups me (map said_in sends.now) }
    requires cursors { HaveCursors (map said_in sends.now) }
    requires count { count ≡ length (packets_to me member (map said_in sends.now)) }
    requires some { 0 < count }
    ensures to { IfOk result (λ letter. letter.to ≡ member) }
    ensures spells { IfOk result (λ letter. Spells 7 me (packets_to me member (map said_in sends.now)) letter.bytes) }
{
    let mut items = Vec::with_capacity(alloc, count.saturating_mul(PACKET_BYTES))?;
    put_packets(me, member, sends, &mut items)?;
    Ok(OutLetter {
        to: member,
        bytes: LetterBytes { items },
    })
}

/// The letters of a step: one to each replica that a packet goes to, in the order of their numbers.
pub fn write_letters(
    alloc: Global,
    me: u8,
    members: u8,
    sends: &[Sent],
) -> Result<LetterList, OutOfMemory>
    requires few { members ≤ 7 }
    requires me { me < members }
    requires groups { KeepGroups me (map said_in sends.now) }
    requires cursors { HaveCursors (map said_in sends.now) }
    ensures { IfOk result (λ letters. Carry (record { me = me; members = members }) (map said_in sends.now) letters) }
{
    let mut letters = Vec::new(alloc);
    for member in 0..members {
        let count = count_to(me, member, sends);
        if count > 0 {
            letters.push(letter_to(alloc, me, member, sends, count)?)?;
        }
    }
    Ok(LetterList { items: letters })
}
