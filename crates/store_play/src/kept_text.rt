//! What is kept, and what changes it, in words.
use crate::text::Text;
use paxos_base::{Delta, Durable, Entry, JobRow, Kind, Vote};
use zone_minutes::Minute;

/// The word for how a launch ends.
pub fn word_of(kind: Kind) -> &'static str {
    match kind {
        Kind::Launch => "launch",
        Kind::Void => "void",
    }
}

impl Text {
    /// Appends words, and an entry behind them.
    pub fn put_entry(&mut self, words: &str, entry: &Entry) {
        self.put(words);
        match entry {
            Entry::Noop => self.put("noop"),
            Entry::Start { job, at, now } => {
                self.put_launch("start job ", *job, *at);
                if at != now {
                    self.put_stamp(" decided ", Minute(*now));
                }
            }
            Entry::End { job, at, kind } => {
                self.put_launch("end job ", *job, *at);
                self.put(" ");
                self.put(word_of(*kind));
            }
            Entry::Table { version, now } => {
                self.put_number("version ", u64::from(*version));
                self.put_stamp(" ", Minute(*now));
            }
        }
    }

    // Appends words, and a job and when its launch is due behind them.
    fn put_launch(&mut self, words: &str, job: u32, at: i64) {
        self.put_number(words, u64::from(job));
        self.put_stamp(" ", Minute(at));
    }

    // Appends words, and a vote behind them.
    fn put_vote(&mut self, words: &str, vote: &Vote) {
        self.put_ballot(words, vote.ballot);
        self.put_number(" at ", vote.slot);
        self.put_entry(" ", &vote.entry);
    }

    // Appends rows of the launch table, each with words before and behind it: those of the jobs, and the table's own, the last.
    fn put_rows(&mut self, before: &str, rows: &[JobRow], behind: &str) {
        let Some((own, jobs)) = rows.split_last() else {
            return;
        };
        for row in jobs {
            self.put(before);
            self.put_number("row job ", u64::from(row.job));
            self.put_parts(row);
            self.put(behind);
        }
        self.put(before);
        self.put("row table");
        self.put_parts(own);
        self.put(behind);
    }

    // Appends the parts of a row. What isn't there is left out, and so is a count of 0.
    fn put_parts(&mut self, row: &JobRow) {
        self.put_instant(", cursor ", row.cursor);
        self.put_instant(", open ", row.open_now);
        self.put_instant(", last ", row.last);
        self.put_count(", launched ", row.launched);
        self.put_count(", voided ", row.voided);
    }

    // Appends words and an instant, where there is one.
    fn put_instant(&mut self, words: &str, at: Option<i64>) {
        if let Some(at) = at {
            self.put_stamp(words, Minute(at));
        }
    }

    // Appends words and a count, unless it is 0.
    fn put_count(&mut self, words: &str, count: u32) {
        if count != 0 {
            self.put_number(words, u64::from(count));
        }
    }

    /// Appends the line of a change behind words.
    pub fn put_delta(&mut self, words: &str, delta: &Delta) {
        self.put(words);
        match delta {
            Delta::Tried(ballot) => self.put_ballot("tried ", *ballot),
            Delta::Promised(ballot) => self.put_ballot("promised ", *ballot),
            Delta::Voted(vote) => self.put_vote("voted ", vote),
            Delta::Base { slot, rows } => {
                self.put_number("base ", *slot);
                self.put_rows("; ", &rows.items, "");
            }
        }
        self.put("\n");
    }

    /// Appends the lines of what is kept: the round, the promise and the base, and one for each vote and each row.
    pub fn put_kept(&mut self, kept: &Durable) {
        self.put_number("  kept: tried ", kept.tried);
        match kept.promised {
            Some(ballot) => self.put_ballot(", promised ", ballot),
            None => self.put(", promised none"),
        }
        self.put_number(", base ", kept.base);
        self.put("\n");
        for vote in &kept.votes.items {
            self.put_vote("  vote ", vote);
            self.put("\n");
        }
        self.put_rows("  ", &kept.rows.items, "\n");
    }
}
