//! What comes of a step in words: changes of the disk, entries that are learned, calls, and the term.
use crate::noops::Ends;
use crate::packet_text::word_of;
use crate::text::Text;
use cluster_sched::SchedRow;
use cron_io::OutOfMemory;
use paxos_base::{Delta, Entry};
use replica_core::LearntRow;
use term_core::{Flight, Term};
use zone_minutes::Minute;

// The slot of the no-op that is learned, where there is one.
fn noop_at(rows: &[LearntRow], place: usize) -> Option<u64> {
    let row = rows.get(place)?;
    match row.entry {
        Entry::Noop => Some(row.slot),
        _ => None,
    }
}

impl Text {
    /// Appends the line of what a step that is planned would change on the disk.
    pub fn put_plan(&mut self, delta: Option<&Delta>) -> Result<(), OutOfMemory> {
        match delta {
            Some(delta) => self.put_delta("  plans ", delta),
            None => self.put("  plans nothing\n"),
        }
    }

    /// Appends the line of a change of the disk behind words.
    pub fn put_delta(&mut self, words: &str, delta: &Delta) -> Result<(), OutOfMemory> {
        self.put(words)?;
        match delta {
            Delta::Tried(ballot) => self.put_ballot("tried ", *ballot)?,
            Delta::Promised(ballot) => self.put_ballot("promised ", *ballot)?,
            Delta::Voted(vote) => self.put_vote("voted ", vote.ballot, vote.slot, &vote.entry)?,
            Delta::Base { slot, rows } => self.put_table("base ", *slot, &rows.items)?,
        }
        self.put("\n")
    }

    /// Appends the lines of the entries that a step learns, and one line of no-ops of slots that follow one another.
    pub fn put_learnt(&mut self, rows: &[LearntRow]) -> Result<(), OutOfMemory> {
        let mut before = None;
        for place in 0..rows.len() {
            let slot = noop_at(rows, place);
            let ends = Ends::of(before, slot, noop_at(rows, place + 1));
            match slot {
                Some(slot) => self.put_noop("  learned ", slot, ": noop\n", ends)?,
                None => self.put_learnt_row(&rows[place])?,
            }
            before = slot;
        }
        Ok(())
    }

    // Appends the line of an entry that is learned.
    fn put_learnt_row(&mut self, row: &LearntRow) -> Result<(), OutOfMemory> {
        self.put_number("  learned ", row.slot)?;
        self.put_entry(": ", &row.entry)?;
        self.put("\n")
    }

    /// Appends the line of a call of the scheduler.
    pub fn put_call(&mut self, row: &SchedRow) -> Result<(), OutOfMemory> {
        self.put_number("  call job ", u64::from(row.name.job))?;
        self.put_stamp(" at ", Minute(row.name.at))?;
        self.put(" ")?;
        self.put(word_of(row.kind))?;
        self.put_stamp(" now ", row.now)?;
        self.put("\n")
    }

    /// Appends the line of a replica's term.
    pub fn put_term(&mut self, member: u8, term: &Term) -> Result<(), OutOfMemory> {
        self.put_number("  ", u64::from(member))?;
        match term {
            Term::Follower { ended: None } => self.put(": follower")?,
            Term::Follower { ended: Some(by) } => self.put_ballot(": follower, ended by ", *by)?,
            Term::Candidate { ballot, .. } => self.put_ballot(": candidate ", *ballot)?,
            Term::Leader { ballot, flight, .. } => {
                self.put_ballot(": leader ", *ballot)?;
                self.put_flight(flight)?;
            }
        }
        self.put("\n")
    }

    // Appends at which slot a leader's proposal waits for votes, where one does.
    fn put_flight(&mut self, flight: &Option<Flight>) -> Result<(), OutOfMemory> {
        match flight {
            Some(flight) => self.put_number(" flight at ", flight.slot),
            None => Ok(()),
        }
    }
}
