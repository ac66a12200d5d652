//! Rows of the launch table in words.
use crate::text::Text;
use cron_io::OutOfMemory;
use paxos_base::JobRow;
use zone_minutes::Minute;

impl Text {
    /// Appends the row of a job.
    pub fn put_row(&mut self, row: &JobRow) -> Result<(), OutOfMemory> {
        self.put_number("row job ", u64::from(row.job))?;
        self.put_parts(row)
    }

    /// Appends the table's own row.
    pub fn put_table_row(&mut self, row: &JobRow) -> Result<(), OutOfMemory> {
        self.put("row table")?;
        self.put_parts(row)
    }

    // Appends the parts of a row. What isn't there is left out, and so is a count of 0.
    fn put_parts(&mut self, row: &JobRow) -> Result<(), OutOfMemory> {
        self.put_instant(", cursor ", row.cursor)?;
        self.put_instant(", open ", row.open_now)?;
        self.put_instant(", last ", row.last)?;
        self.put_count(", launched ", row.launched)?;
        self.put_count(", voided ", row.voided)
    }

    // Appends words and an instant, where there is one.
    fn put_instant(&mut self, words: &str, at: Option<i64>) -> Result<(), OutOfMemory> {
        match at {
            Some(at) => self.put_stamp(words, Minute(at)),
            None => Ok(()),
        }
    }

    // Appends words and a count, unless it is 0.
    fn put_count(&mut self, words: &str, count: u32) -> Result<(), OutOfMemory> {
        if count == 0 {
            return Ok(());
        }
        self.put_number(words, u64::from(count))
    }

    /// Appends a slot and the rows of the launch table there: those of the jobs, and the table's own, the last.
    pub fn put_table(
        &mut self,
        words: &str,
        slot: u64,
        rows: &[JobRow],
    ) -> Result<(), OutOfMemory> {
        self.put_number(words, slot)?;
        let Some((own, jobs)) = rows.split_last() else {
            return Ok(());
        };
        for row in jobs {
            self.put("; ")?;
            self.put_row(row)?;
        }
        self.put("; ")?;
        self.put_table_row(own)
    }
}
