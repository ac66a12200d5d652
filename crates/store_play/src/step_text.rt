//! What comes of a step of a node, in words.
use crate::kept_text::word_of;
use crate::text::Text;
use cluster_sched::SchedRow;
use replica_core::StepOut;
use replica_node::NodeFault;
use zone_minutes::Minute;

impl Text {
    /// Appends the lines of a step, or of the fault that came in its place.
    pub fn put_answer(&mut self, answer: &Result<StepOut, NodeFault>) {
        match answer {
            Ok(out) => self.put_step(out),
            Err(fault) => self.put_fault(*fault),
        }
    }

    // Appends the lines of a step: its change, its letters, the entries that it learns, and its call.
    fn put_step(&mut self, out: &StepOut) {
        if let Some(delta) = &out.delta {
            self.put_delta("  delta ", delta);
        }
        for letter in &out.letters.items {
            self.put_number("  letter to ", u64::from(letter.to));
            self.put_bytes(": ", &letter.bytes.items);
            self.put("\n");
        }
        for row in &out.learnt.items {
            self.put_number("  learned ", row.slot);
            self.put_entry(": ", &row.entry);
            self.put("\n");
        }
        if let Some(row) = &out.call {
            self.put_call(row);
        }
    }

    // Appends the line of a call of the scheduler.
    fn put_call(&mut self, row: &SchedRow) {
        self.put_number("  call job ", u64::from(row.name.job));
        self.put_stamp(" at ", Minute(row.name.at));
        self.put(" ");
        self.put(word_of(row.kind));
        self.put_stamp(" now ", row.now);
        self.put("\n");
    }
}
