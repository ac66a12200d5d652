ghost use Rattle.std.specs.Prelude.{IfSome, IfNone};
ghost use Rattle.crontab_text.specs.Lines.{lines_of};
ghost use Rattle.audit_text.specs.Parts.{IsOfParts, NoneIs, report_head};
ghost use Rattle.audit_text.specs.Steps.{GoesOnBehindReport, GoesOnToReport};

use crate::line::cut_first;

// The first line of a report.
const HEAD: &[u8] = b"cron report 1";

// Its last line.
const END: &[u8] = b"end";

/// The parts of what an audit reads.
#[derive(Clone, Copy, Debug, PartialEq, Eq)]
pub struct InputParts<'a> {
    /// The run.
    pub run: &'a [u8],
    /// The report, from its first line to its last.
    pub report: &'a [u8],
    /// The journal.
    pub journal: &'a [u8],
}

/// Cuts what an audit reads into its parts. The run is what stands before the last line `cron report 1`, and all where there is no such
/// line. The report reaches from there to its first line `end`, and the journal is the rest, which is empty where there is no such line.
pub fn split_input(input: &[u8]) -> InputParts<'_>
    ensures { IsOfParts input.now result.run.now result.report.now result.journal.now }
{
    match from_report(input) {
        Some(rest) => {
            let journal = behind_report(rest);
            InputParts {
                run: &input[..input.len() - rest.len()],
                report: &rest[..rest.len() - journal.len()],
                journal,
            }
        }
        None => InputParts {
            run: input,
            report: &[],
            journal: &[],
        },
    }
}

// What stands from the last line on that begins a report.
fn from_report(input: &[u8]) -> Option<&[u8]>
    ensures found { IfSome result (λ rest. GoesOnToReport input.now rest.now) }
    ensures none { IfNone result (NoneIs report_head (lines_of input.now)) }
{
    let mut rest = input;
    let mut found = None;
    'lines: while let Some((line, after)) = cut_first(rest) {
        if line == HEAD {
            found = Some(rest);
        }
        rest = after;
    }
    found
}

// What stands behind the first line that ends a report; nothing where there is none.
fn behind_report(text: &[u8]) -> &[u8]
    ensures { GoesOnBehindReport text.now result.now }
{
    let mut rest = text;
    'lines: while let Some((line, after)) = cut_first(rest) {
        if line == END {
            return after;
        }
        rest = after;
    }
    rest
}
