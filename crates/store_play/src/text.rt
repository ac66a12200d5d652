//! What a command comes to, as text: words, numbers, ballots, stamps and bytes.
use crate::fault::PlayFault;
use crate::hour::HOUR;
use cron_io::{Sink, write_all};
use itoa::Buffer;
use paxos_base::Ballot;
use replica_node::NodeFault;
use std::alloc::Global;
use std::fmt::Write;
use zone_minutes::{Minute, write_stamp};

/// A text that grows at its end. Where memory is wanting it notes so, and its last words may be lacking.
#[derive(Drop)]
pub struct Text {
    alloc: Global,
    written: String,
    is_short: bool,
}

impl Text {
    /// An empty text.
    pub fn new(alloc: Global) -> Text {
        Text {
            alloc,
            written: String::new(alloc),
            is_short: false,
        }
    }

    /// Writes it, unless words are lacking, and begins anew.
    pub fn write_to<K: Sink>(&mut self, sink: &mut K) -> Result<(), PlayFault> {
        if self.is_short {
            return Err(PlayFault::OutOfMemory);
        }
        write_all(sink, self.written.as_bytes())?;
        self.written.clear();
        Ok(())
    }

    /// Appends words.
    pub fn put(&mut self, words: &str) {
        self.is_short |= self.written.push_str(words).is_err();
    }

    /// Appends words, and a number behind them.
    pub fn put_number(&mut self, words: &str, number: u64) {
        let mut digits = Buffer::new();
        self.put(words);
        self.put(digits.format(number));
    }

    /// Appends words, and a ballot behind them: its round and its replica.
    pub fn put_ballot(&mut self, words: &str, ballot: Ballot) {
        self.put_number(words, ballot.round());
        self.put_number(".", u64::from(ballot.member()));
    }

    /// Appends words, and an instant behind them: a stamp, or outside the hour of the tables its number.
    pub fn put_stamp(&mut self, words: &str, at: Minute) {
        self.put(words);
        if HOUR.contains(at) {
            self.is_short |= write_stamp(at, &mut self.written).is_err();
        } else {
            let mut digits = Buffer::new();
            self.put("minute ");
            self.put(digits.format(at.0));
        }
    }

    /// Appends words, and bytes behind them: two digits for each of them, or that there are none.
    pub fn put_bytes(&mut self, words: &str, bytes: &[u8]) {
        self.put(words);
        if bytes.is_empty() {
            self.put("none");
            return;
        }
        match hex::encode(self.alloc, bytes) {
            Ok(digits) => self.put(&digits),
            Err(_) => self.is_short = true,
        }
    }

    /// Appends the line of a fault.
    pub fn put_fault(&mut self, fault: NodeFault) {
        self.is_short |= write!(self.written, "  fault {fault:?}\n").is_err();
    }

    /// Appends the line of what can't be done, and why.
    pub fn put_refusal(&mut self, why: &str) {
        self.put("  refused: ");
        self.put(why);
        self.put("\n");
    }
}
