//! What a command comes to, as text: words, numbers, ballots and stamps.
use crate::hour::HOUR;
use cron_io::OutOfMemory;
use itoa::Buffer;
use paxos_base::Ballot;
use std::alloc::Global;
use zone_minutes::{Minute, write_stamp};

/// A text that grows at its end.
#[derive(Drop)]
pub struct Text {
    written: String,
}

impl Text {
    /// An empty text.
    pub fn new(alloc: Global) -> Text {
        Text {
            written: String::new(alloc),
        }
    }

    /// Its bytes.
    pub fn bytes(&self) -> &[u8] {
        self.written.as_bytes()
    }

    /// Begins anew.
    pub fn clear(&mut self) {
        self.written.clear();
    }

    /// Appends words.
    pub fn put(&mut self, words: &str) -> Result<(), OutOfMemory> {
        self.written.push_str(words)?;
        Ok(())
    }

    /// Appends words, and a number behind them.
    pub fn put_number(&mut self, words: &str, number: u64) -> Result<(), OutOfMemory> {
        let mut digits = Buffer::new();
        self.put(words)?;
        self.put(digits.format(number))
    }

    /// Appends words, and a ballot behind them: its round and its replica.
    pub fn put_ballot(&mut self, words: &str, ballot: Ballot) -> Result<(), OutOfMemory> {
        self.put_number(words, ballot.round())?;
        self.put_number(".", u64::from(ballot.member()))
    }

    /// Appends words, and an instant behind them: a stamp, or outside the hour of the scenarios its number.
    pub fn put_stamp(&mut self, words: &str, at: Minute) -> Result<(), OutOfMemory> {
        self.put(words)?;
        if HOUR.contains(at) {
            write_stamp(at, &mut self.written)
        } else {
            self.put_minute(at)
        }
    }

    // Appends the number of an instant.
    fn put_minute(&mut self, at: Minute) -> Result<(), OutOfMemory> {
        let mut digits = Buffer::new();
        self.put("minute ")?;
        self.put(digits.format(at.0))
    }
}
