//! Entries, packets and letters in words.
use crate::noops::Ends;
use crate::text::Text;
use cron_io::OutOfMemory;
use paxos_base::{Ballot, Entry, JobRow, Kind};
use paxos_letter::{LetterFault, Packet};
use zone_minutes::Minute;

/// The word for how a launch ends.
pub fn word_of(kind: Kind) -> &'static str {
    match kind {
        Kind::Launch => "launch",
        Kind::Void => "void",
    }
}

// The slot of the no-op that a packet tells, where there is such a packet.
fn noop_at(packets: &[Packet], place: usize) -> Option<u64> {
    match packets.get(place)? {
        Packet::Known {
            slot,
            entry: Entry::Noop,
        } => Some(*slot),
        _ => None,
    }
}

impl Text {
    /// Appends words, and an entry behind them.
    pub fn put_entry(&mut self, words: &str, entry: &Entry) -> Result<(), OutOfMemory> {
        self.put(words)?;
        match entry {
            Entry::Noop => self.put("noop"),
            Entry::Start { job, at, now } => self.put_start(*job, *at, *now),
            Entry::End { job, at, kind } => {
                self.put_launch("end job ", *job, *at)?;
                self.put(" ")?;
                self.put(word_of(*kind))
            }
            Entry::Table { version, now } => {
                self.put_number("version ", u64::from(*version))?;
                self.put_stamp(" ", Minute(*now))
            }
        }
    }

    // Appends the start of a launch, and when it was decided where that is another minute.
    fn put_start(&mut self, job: u32, at: i64, now: i64) -> Result<(), OutOfMemory> {
        self.put_launch("start job ", job, at)?;
        if at == now {
            return Ok(());
        }
        self.put_stamp(" decided ", Minute(now))
    }

    // Appends words, and a job and when its launch is due behind them.
    fn put_launch(&mut self, words: &str, job: u32, at: i64) -> Result<(), OutOfMemory> {
        self.put_number(words, u64::from(job))?;
        self.put_stamp(" ", Minute(at))
    }

    /// Appends words, a ballot, words and a slot.
    pub fn put_place(
        &mut self,
        words: &str,
        ballot: Ballot,
        between: &str,
        slot: u64,
    ) -> Result<(), OutOfMemory> {
        self.put_ballot(words, ballot)?;
        self.put_number(between, slot)
    }

    /// Appends words, a ballot, a slot and the entry of a vote.
    pub fn put_vote(
        &mut self,
        words: &str,
        ballot: Ballot,
        slot: u64,
        entry: &Entry,
    ) -> Result<(), OutOfMemory> {
        self.put_place(words, ballot, " at ", slot)?;
        self.put_entry(" ", entry)
    }

    // Appends a promise with so many votes.
    fn put_promise(&mut self, ballot: Ballot, slot: u64, count: u64) -> Result<(), OutOfMemory> {
        self.put_place("promise ", ballot, " from ", slot)?;
        self.put_number(", votes ", count)
    }

    // Appends the refusal of a ballot.
    fn put_nack(&mut self, ballot: Ballot, promised: Ballot) -> Result<(), OutOfMemory> {
        self.put_ballot("nack ", ballot)?;
        self.put_ballot(", promised ", promised)
    }

    // Appends what is told of a slot.
    fn put_known(&mut self, slot: u64, entry: &Entry) -> Result<(), OutOfMemory> {
        self.put_number("known ", slot)?;
        self.put_entry(" ", entry)
    }

    // Appends the beginning of a snapshot with so many rows.
    fn put_snapshot(&mut self, slot: u64, count: u64) -> Result<(), OutOfMemory> {
        self.put_number("snapshot at ", slot)?;
        self.put_number(", rows ", count)
    }

    // Appends a row of a snapshot. The last one, behind which there is no other, is the table's own.
    fn put_snapshot_row(&mut self, row: &JobRow, next: Option<&Packet>) -> Result<(), OutOfMemory> {
        match next {
            Some(Packet::SnapRow { .. }) => self.put_row(row),
            _ => self.put_table_row(row),
        }
    }

    // Appends a packet, by the one behind it too, where there is one.
    fn put_packet(&mut self, packet: &Packet, next: Option<&Packet>) -> Result<(), OutOfMemory> {
        match packet {
            Packet::Prepare { ballot, slot } => {
                self.put_place("prepare ", *ballot, " from ", *slot)
            }
            Packet::Promise {
                ballot,
                slot,
                count,
            } => self.put_promise(*ballot, *slot, *count),
            Packet::OldVote {
                slot,
                cast,
                entry,
                ..
            } => self.put_vote("vote ", *cast, *slot, entry),
            Packet::Nack { ballot, promised } => self.put_nack(*ballot, *promised),
            Packet::Accept {
                ballot,
                slot,
                entry,
            } => self.put_vote("accept ", *ballot, *slot, entry),
            Packet::Accepted { ballot, slot } => {
                self.put_place("accepted ", *ballot, " at ", *slot)
            }
            Packet::Known { slot, entry } => self.put_known(*slot, entry),
            Packet::AskFrom { slot } => self.put_number("ask from ", *slot),
            Packet::Snap { slot, count } => self.put_snapshot(*slot, *count),
            Packet::SnapRow { row, .. } => self.put_snapshot_row(row, next),
            Packet::Lead { ballot, slot } => self.put_place("lead ", *ballot, " up to ", *slot),
        }
    }

    /// Appends the line of a letter: its number, to whom it goes, and its packets.
    pub fn put_letter(
        &mut self,
        number: u64,
        to: u8,
        packets: &[Packet],
    ) -> Result<(), OutOfMemory> {
        self.put_number("  letter ", number)?;
        self.put_number(" to ", u64::from(to))?;
        self.put_packets(packets)?;
        self.put("\n")
    }

    // Appends packets, and as one those that tell no-ops of slots that follow one another.
    fn put_packets(&mut self, packets: &[Packet]) -> Result<(), OutOfMemory> {
        let mut mark = ": ";
        let mut before = None;
        for place in 0..packets.len() {
            let slot = noop_at(packets, place);
            let ends = Ends::of(before, slot, noop_at(packets, place + 1));
            if ends.first {
                self.put(mark)?;
                mark = "; ";
            }
            match slot {
                Some(slot) => self.put_noop("known ", slot, " noop", ends)?,
                None => self.put_packet(&packets[place], packets.get(place + 1))?,
            }
            before = slot;
        }
        Ok(())
    }

    /// Appends the line of a fault of a letter: the rule, and the packet that breaks it.
    pub fn put_letter_fault(&mut self, fault: LetterFault) -> Result<(), OutOfMemory> {
        let (rule, packet) = match fault {
            LetterFault::BadLength { packet } => ("BadLength", packet),
            LetterFault::BadKind { packet } => ("BadKind", packet),
            LetterFault::NotZero { packet } => ("NotZero", packet),
            LetterFault::BadMember { packet } => ("BadMember", packet),
            LetterFault::BadGroup { packet } => ("BadGroup", packet),
        };
        self.put("  fault Letter(")?;
        self.put(rule)?;
        self.put_number(" { packet: ", packet)?;
        self.put(" })\n")
    }
}
