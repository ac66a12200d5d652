//! The lines of a section.
ghost use Rattle.std.specs.Prelude.{◌≡◌, ◌≤◌, ◌+◌, ◌<◌, ◌^◌, length, IfOk, IfErr, IfSome, IfNone, OnOk};
ghost use Rattle.std.specs.List.{AllByRecursion};
ghost use Rattle.anacron_text.specs.LogicalLines.{logical_lines};
ghost use Rattle.anacron_text.specs.Settings.{no_settings};
ghost use Rattle.anacron_text.specs.TableReader.{anacron_table_reader};
ghost use Rattle.crontab_text.specs.Lines.{lines_of};
ghost use Rattle.crontab_text.specs.TableReader.{table_reader};
ghost use Rattle.run_text.specs.Anacrontab.{SayAll, IsFirstBreak};
ghost use Rattle.run_text.specs.Follow.{style_of};
ghost use Rattle.run_text.specs.Steps.{CanCountLines, PassesTable, RefusesTable};
ghost use Rattle.run_text.specs.Table.{Says, AreSaid, IsFirstFault, IsTableFault};

use crate::opening::Opening;
use crate::reader::{Reader, cut_lines};
use crate::refusal::Refusal;
use crate::run::Section;
use anacron_text::AnaLines;
use cron_fields::Cause;
use crontab_text::{LineFault, Lines};

/// How the lines of tables are read.
#[derive(Clone, Copy, Debug, PartialEq, Eq)]
pub enum Tables {
    /// Each line is judged by the rules of its table.
    Judged,
    /// Lines are only counted, whatever they say.
    Counted,
}

/// Reads the lines of a section. The reader stands at the line that opened it.
pub fn read_table<'a>(
    reader: &mut Reader<'a>,
    opening: Opening<'a>,
    tables: Tables,
) -> Result<Section<'a>, Refusal>
    requires { CanCountLines reader.old }
    ensures read { IfOk result (PassesTable tables reader.old reader.new opening.entry) }
    ensures refused { IfErr result (RefusesTable tables reader.old opening.entry) }
    ensures room { OnOk result (CanCountLines reader.new) }
    ensures shorter { OnOk result (length reader.new.rest.now ≤ length reader.old.rest.now) }
    ensures part { IfOk result (λ section. length section.text.now ≤ length reader.old.rest.now) }
{
    let Some((text, rest)) = cut_lines(reader.rest, opening.count) else {
        return Err(Refusal::of_line(reader.number, Cause::BadSection));
    };
    if let Some(fault) = judged_fault(text, &opening, tables) {
        return Err(refusal_of(reader.number, fault));
    }
    let line = reader.number;
    reader.rest = rest;
    reader.number += opening.count;
    Ok(Section {
        line,
        kind: opening.kind,
        label: opening.label,
        zone: opening.zone,
        text,
    })
}

// The refusal of a table's line, behind that many lines of the file.
fn refusal_of(above: u32, fault: LineFault) -> Refusal
    requires { above + fault.line < 2 ^ 32 }
    ensures line { result.line ≡ above + fault.line }
    ensures cause { result.cause ≡ fault.cause }
    ensures place { result.place ≡ fault.place }
{
    Refusal {
        line: above + fault.line,
        cause: fault.cause,
        place: fault.place,
    }
}

// The first line of a section's text that says nothing, where lines are judged.
fn judged_fault(text: &str, opening: &Opening<'_>, tables: Tables) -> Option<LineFault>
    requires { length text.now < 2 ^ 32 }
    ensures judged { IfSome result (λ fault. tables ≡ Tables.Judged) }
    ensures fault { IfSome result (IsTableFault (style_of opening.now.kind) opening.now.label.now (lines_of text.now)) }
    ensures none { IfNone result (tables ≡ Tables.Judged → AreSaid (style_of opening.now.kind) opening.now.label.now (lines_of text.now)) }
    ensures within { IfSome result (λ fault. fault.line ≤ length text.now) }
{
    match tables {
        Tables::Judged => first_fault(text, opening),
        Tables::Counted => None,
    }
}

// The first line of a section's text that says nothing.
fn first_fault(text: &str, opening: &Opening<'_>) -> Option<LineFault>
    requires { length text.now < 2 ^ 32 }
    ensures fault { IfSome result (IsTableFault (style_of opening.now.kind) opening.now.label.now (lines_of text.now)) }
    ensures none { IfNone result (AreSaid (style_of opening.now.kind) opening.now.label.now (lines_of text.now)) }
    ensures within { IfSome result (λ fault. fault.line ≤ length text.now) }
{
    match opening.kind.style() {
        Some(style) => crontab_fault(&mut Lines::new(text, style, opening.label)),
        None => anacrontab_fault(&mut AnaLines::new(text)),
    }
}

// The first line of a crontab that says nothing.
fn crontab_fault(lines: &mut Lines<'_>) -> Option<LineFault>
    requires { lines.old ≡ table_reader lines.old.text lines.old.style lines.old.owner }
    ensures fault { IfSome result (IsFirstFault lines.old.style lines.old.owner (lines_of lines.old.text)) }
    ensures none { IfNone result (AllByRecursion (Says lines.old.style lines.old.owner) (lines_of lines.old.text)) }
    ensures within { IfSome result (λ fault. fault.line ≤ length lines.old.text) }
{
    'lines: while let Some(line) = lines.next() {
        if let Err(fault) = line {
            return Some(fault);
        }
    }
    None
}

// The first logical line of an anacrontab that says nothing.
fn anacrontab_fault(lines: &mut AnaLines<'_>) -> Option<LineFault>
    requires { lines.old ≡ anacron_table_reader lines.old.text }
    ensures fault { IfSome result (λ fault. IsFirstBreak no_settings (logical_lines lines.old.text) fault.line fault.cause fault.place) }
    ensures none { IfNone result (SayAll no_settings (logical_lines lines.old.text)) }
    ensures within { IfSome result (λ fault. fault.line ≤ length lines.old.text) }
{
    'lines: while let Some(logical) = lines.next() {
        if let Err(fault) = logical {
            return Some(fault);
        }
    }
    None
}
