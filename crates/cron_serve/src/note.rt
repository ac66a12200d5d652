ghost use Rattle.std.specs.Prelude.{◌≡◌};
ghost use Rattle.cron_serve.specs.Serve.{refusal_note, status_note, note_text, IsNoted};

use crate::run_end::RunEnd;
use arrayvec::ArrayString;
use cron_io::{Sink, write_all};
use itoa::Buffer;
use run_text::Refusal;

// The longest note of a refusal has 55 bytes.
const NOTE_ROOM: usize = 80;

// cron_cluster: line L: cause C at P
fn refusal_note(refusal: Refusal) -> ArrayString<NOTE_ROOM>
    ensures { result.bytes ≡ refusal_note refusal }
{
    let mut note = ArrayString::new();
    let mut digits = Buffer::new();
    note.push_str("cron_cluster: line ");
    note.push_str(digits.format(refusal.line));
    note.push_str(": cause ");
    note.push_str(digits.format(refusal.cause));
    note.push_str(" at ");
    note.push_str(digits.format(refusal.place));
    note.push_str("\n");
    note
}

// The note of a status without a refusal; none for status 0.
fn status_note(status: u8) -> &'static str
    ensures { result.now ≡ status_note status }
{
    match status {
        1 =>
            "cron_cluster: usage: cron_cluster [--journal] [--lanes N] [--make SEED] [--list] [--check] [--watch] [--audit]\n",
        3 => "cron_cluster: read fault\n",
        4 => "cron_cluster: write fault\n",
        5 => "cron_cluster: out of memory\n",
        _ => "",
    }
}

// Writes a note. A fault is passed over: the notes' count of faults tells it.
fn write_text<E: Sink>(notes: &mut E, text: &str)
    ensures { IsNoted (E.seen notes.old) (E.seen notes.new) text.now }
{
    let _ = write_all(notes, text.as_bytes());
}

/// Writes the note that goes with an end: that of its refusal, or else that of its status. It takes no memory, and a fault
/// changes nothing of the end.
pub fn write_note<E: Sink>(notes: &mut E, end: &RunEnd)
    ensures { IsNoted (E.seen notes.old) (E.seen notes.new) (note_text end.now.status end.now.refusal) }
{
    match end.refusal {
        Some(refusal) => write_text(notes, refusal_note(refusal).as_str()),
        None => write_text(notes, status_note(end.status)),
    }
}
