//! The lines of tables that break a rule.
ghost use Rattle.std.specs.Prelude.{◌≡◌, ◌+◌, ◌<◌, ◌^◌, ◌++◌, length, map, All, IfOk, OnOk};
ghost use Rattle.anacron_text.specs.LogicalLines.{logical_lines};
ghost use Rattle.anacron_text.specs.Settings.{no_settings};
ghost use Rattle.anacron_text.specs.TableReader.{anacron_table_reader};
ghost use Rattle.crontab_text.specs.Lines.{lines_of};
ghost use Rattle.crontab_text.specs.TableReader.{table_reader};
ghost use Rattle.run_text.specs.Run.{section_of};
ghost use Rattle.due_list.specs.CheckText.{AreAnacrontabFaults, AreCrontabFaults, AreFaultsIn, AreFaultsOf};
ghost use Rattle.due_list.specs.Parts.{AddsFaults, fault_behind};

use crate::fault::TableFault;
use anacron_text::AnaLines;
use cron_io::OutOfMemory;
use crontab_text::{LineFault, Lines};
use run_text::Section;
use std::alloc::Global;

// The fault of a table's line, behind so many lines of the file.
fn in_file(above: u32, fault: LineFault) -> TableFault
    ensures { result ≡ record { line = above + fault.line; cause = fault.cause; place = fault.place } }
{
    TableFault {
        line: u64::from(above) + u64::from(fault.line),
        cause: fault.cause,
        place: fault.place,
    }
}

// Adds the fault of a table's line, if it has one.
fn add_fault(
    above: u32,
    fault: Option<LineFault>,
    faults: &mut Vec<TableFault>,
) -> Result<(), OutOfMemory>
    ensures { OnOk result (faults.new.items ≡ faults.old.items ++ fault_behind above fault) }
{
    if let Some(fault) = fault {
        faults.push(in_file(above, fault))?;
    }
    Ok(())
}

// Adds the faults of a crontab, behind so many lines of the file.
fn add_crontab(
    above: u32,
    lines: &mut Lines<'_>,
    faults: &mut Vec<TableFault>,
) -> Result<(), OutOfMemory>
    requires { lines.old ≡ table_reader lines.old.text lines.old.style lines.old.owner }
    ensures { OnOk result (AddsFaults faults.old.items faults.new.items
        (AreCrontabFaults lines.old.style lines.old.owner (above + 1) (lines_of lines.old.text))) }
{
    'lines: while let Some(line) = lines.next() {
        add_fault(above, line.err(), faults)?;
    }
    Ok(())
}

// Adds the faults of an anacrontab, behind so many lines of the file.
fn add_anacrontab(
    above: u32,
    lines: &mut AnaLines<'_>,
    faults: &mut Vec<TableFault>,
) -> Result<(), OutOfMemory>
    requires { lines.old ≡ anacron_table_reader lines.old.text }
    ensures { OnOk result (AddsFaults faults.old.items faults.new.items
        (AreAnacrontabFaults no_settings (above + 1) (logical_lines lines.old.text))) }
{
    'lines: while let Some(logical) = lines.next() {
        add_fault(above, logical.err(), faults)?;
    }
    Ok(())
}

// Adds the faults of a section.
fn add_section(section: &Section<'_>, faults: &mut Vec<TableFault>) -> Result<(), OutOfMemory>
    requires { length section.now.text.now < 2 ^ 32 }
    ensures { OnOk result (AddsFaults faults.old.items faults.new.items (AreFaultsOf (section_of section.now))) }
{
    match section.kind.style() {
        Some(style) => {
            let mut lines = Lines::new(section.text, style, section.label);
            add_crontab(section.line, &mut lines, faults)
        }
        None => add_anacrontab(section.line, &mut AnaLines::new(section.text), faults),
    }
}

/// The lines of sections that break a rule, in order.
pub fn faults_of(alloc: Global, sections: &[Section<'_>]) -> Result<Vec<TableFault>, OutOfMemory>
    requires { All (λ section. length section.text.now < 2 ^ 32) sections.now }
    ensures { IfOk result (λ faults. AreFaultsIn (map section_of sections.now) faults.items) }
{
    let mut faults = Vec::new(alloc);
    for section in sections {
        add_section(section, &mut faults)?;
    }
    Ok(faults)
}
