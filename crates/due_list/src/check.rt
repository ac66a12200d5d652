//! The check of a frame.
ghost use Rattle.std.specs.Prelude.{◌≡◌, ◌++◌, ◌∷◌, [], map, IfOk, OnOk, string_bytes};
ghost use Rattle.cron_io.specs.Lines.{text_of_lines};
ghost use Rattle.run_text.specs.Reading.{IsReadFrame};
ghost use Rattle.run_text.specs.Run.{run_of};
ghost use Rattle.due_list.specs.CheckText.{IsCheckText, check_lines, fault_line};
ghost use Rattle.due_list.specs.Listing.{WritesListing};

use crate::fault::{ListFault, TableFault};
use crate::table::faults_of;
use crate::write::write_text;
use cron_io::{OutOfMemory, Sink};
use run_text::RunFile;
use std::alloc::Global;
use std::fmt::Write;

// Appends the line of a fault.
fn put_fault(into: &mut String, fault: TableFault) -> Result<(), OutOfMemory>
    ensures { OnOk result (string_bytes into.new ≡ string_bytes into.old ++ (fault_line fault ++ 10 ∷ [])) }
{
    let TableFault { line, cause, place } = fault;
    write!(into, "line {line} cause {cause} at {place}\n")?;
    Ok(())
}

// Appends the lines of faults.
fn put_faults(into: &mut String, faults: &[TableFault]) -> Result<(), OutOfMemory>
    ensures { OnOk result (string_bytes into.new ≡ string_bytes into.old ++ text_of_lines (map fault_line faults.now)) }
{
    for fault in faults {
        put_fault(into, *fault)?;
    }
    Ok(())
}

// The check that tells these faults.
fn check_text(alloc: Global, faults: &[TableFault]) -> Result<String, OutOfMemory>
    ensures { IfOk result (λ text. string_bytes text ≡ text_of_lines (check_lines faults.now)) }
{
    let count = faults.len();
    let mut text = String::from_str(alloc, "cron check 1\n")?;
    put_faults(&mut text, faults)?;
    write!(text, "faults {count}\nend\n")?;
    Ok(text)
}

/// Writes the check of a frame: a line for each line of its tables that breaks a rule, in order, with its number in the run
/// file, the number of the rule and the place of the byte, counted from 0; and how many there are.
///
/// # Errors
///
/// `WriteFault` only where a write failed: then some front of the check may be written. `OutOfMemory`: then nothing is written.
pub fn write_check<K: Sink>(alloc: Global, sink: &mut K, run: &RunFile<'_>) -> Result<(), ListFault>
    requires { IsReadFrame run.now }
    ensures { WritesListing (K.seen sink.old) (K.seen sink.new) result (IsCheckText (run_of run.now)) }
{
    let faults = faults_of(alloc, &run.sections)?;
    let text = check_text(alloc, &faults)?;
    write_text(sink, &text)
}
