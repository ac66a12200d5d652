//! No-ops of slots that follow one another, which are written together: `known 0 to 63 noop`.
use crate::text::Text;
use cron_io::OutOfMemory;

/// Whether a no-op is the first, and whether it is the last, of those that are written together.
#[derive(Clone, Copy)]
pub struct Ends {
    pub first: bool,
    pub last: bool,
}

// Whether there are two no-ops, of slots that follow one another.
fn follow(slot: Option<u64>, next: Option<u64>) -> bool {
    match (slot, next) {
        (Some(slot), Some(next)) => slot < next && next - slot == 1,
        _ => false,
    }
}

impl Ends {
    /// Of a no-op, by its slot and those of its neighbours, where they are no-ops. What is none stands alone.
    pub fn of(before: Option<u64>, slot: Option<u64>, behind: Option<u64>) -> Ends {
        Ends {
            first: !follow(before, slot),
            last: !follow(slot, behind),
        }
    }
}

impl Text {
    /// Appends what a no-op adds to those that are written together: the first one words and its slot, the last one its slot
    /// and the words behind it.
    pub fn put_noop(
        &mut self,
        words: &str,
        slot: u64,
        behind: &str,
        ends: Ends,
    ) -> Result<(), OutOfMemory> {
        if ends.first {
            self.put_number(words, slot)?;
        } else if ends.last {
            self.put_number(" to ", slot)?;
        }
        if ends.last {
            self.put(behind)?;
        }
        Ok(())
    }
}
