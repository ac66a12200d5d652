//! The audit of an input, and the line that tells what it finds.
ghost use Rattle.std.specs.Prelude.{◌≡◌, IfOk, IfErr, IsErrOf, None};
ghost use Rattle.cron_io.specs.Reading.{HasReadOn, StaysReliable};
ghost use Rattle.cron_serve.specs.Audit.{EndsTelling, IsFoundOfInput, LeavesBookOf, audit_line, audit_status};
ghost use Rattle.cron_serve.specs.Served.{EndsServing};
ghost use Rattle.cron_serve.specs.Stop.{StopsFor};
ghost use Rattle.program_options.specs.declared.words.Request.{Request};

use crate::run_end::RunEnd;
use crate::stop::Stop;
use arrayvec::ArrayString;
use audit_finding::{Finding, judge_input};
use cron_io::{Sink, Source, read_all, write_all};
use itoa::Buffer;
use std::alloc::Global;

/// The most bytes of an input that is audited.
const MAX_AUDITED: u32 = 67_108_864;

// The longest line has 22 bytes.
const LINE_ROOM: usize = 32;

// audit yes, or audit no L W
fn audit_line(finding: &Finding) -> ArrayString<LINE_ROOM>
    ensures { result.bytes ≡ audit_line finding.now }
{
    let mut text = ArrayString::new();
    match finding {
        Finding::Passes { .. } => text.push_str("audit yes\n"),
        Finding::Fails { line, fault } => {
            let mut digits = Buffer::new();
            text.push_str("audit no ");
            text.push_str(digits.format(*line));
            text.push_str(" ");
            text.push_str(digits.format(fault.number()));
            text.push_str("\n");
        }
    }
    text
}

// The status that goes with what was found.
fn audit_status(finding: &Finding) -> u8
    ensures { result ≡ audit_status finding.now }
{
    match finding {
        Finding::Passes { .. } => 0,
        Finding::Fails { .. } => 6,
    }
}

// The end of a program that tells what was found, at this status: the book is left that passed.
fn end_of_audit(alloc: Global, status: u8, finding: Finding) -> RunEnd
    ensures status { result.status ≡ status }
    ensures refusal { result.refusal ≡ None }
    ensures left { LeavesBookOf finding result.book result.nodes.items }
{
    match finding {
        Finding::Passes { book } => RunEnd {
            status,
            refusal: None,
            book,
            nodes: Vec::new(alloc),
        },
        Finding::Fails { .. } => RunEnd::without_run(alloc, status, None),
    }
}

// Writes the line of what was found.
fn tell<K: Sink>(alloc: Global, sink: &mut K, finding: Finding) -> RunEnd
    ensures { EndsTelling (K.seen sink.old) (K.seen sink.new) finding result }
{
    let written = write_all(sink, audit_line(&finding).as_bytes());
    let status = match written {
        Ok(()) => audit_status(&finding),
        Err(_) => 4,
    };
    end_of_audit(alloc, status, finding)
}

// Reads the input, and judges it.
fn judge<S: Source>(alloc: Global, source: &mut S) -> Result<Finding, Stop>
    ensures found { IfOk result (IsFoundOfInput (S.seen source.old) (S.seen source.new)) }
    ensures stop { IfErr result (StopsFor Request.Audit (S.seen source.old) (S.seen source.new)) }
    ensures read_on { HasReadOn (S.seen source.old) (S.seen source.new) }
    ensures reliable { S.reliable source.old → IsErrOf result Stop.ReadFault → ⊥ }
    ensures lasting { S.reliable source.old →
        StaysReliable (S.seen source.old) (S.seen source.new) (S.reliable source.new) }
{
    let bytes = read_all(alloc, source, MAX_AUDITED)?;
    let finding = judge_input(alloc, &bytes)?;
    Ok(finding)
}

/// Audits the input, and writes the line of what is found of it, or stops.
pub fn serve_audit<S: Source, K: Sink>(alloc: Global, source: &mut S, sink: &mut K) -> RunEnd
    ensures { EndsServing Request.Audit (S.seen source.old) (S.seen source.new) (S.reliable source.old) (S.reliable source.new)
        (K.seen sink.old) (K.seen sink.new) result }
{
    match judge(alloc, source) {
        Ok(finding) => tell(alloc, sink, finding),
        Err(stop) => RunEnd::stopped(alloc, stop),
    }
}
