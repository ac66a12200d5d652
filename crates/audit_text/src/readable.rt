ghost use Rattle.std.specs.Prelude.{◌≡◌, ◌≤◌, length, string_bytes, IfOk};
ghost use Rattle.audit_text.specs.Readable.{IsReadText, line_as_read};

use crate::line::cut_first;
use cron_io::OutOfMemory;
use std::alloc::Global;

/// Reads bytes as text. A line that isn't UTF-8 is taken as the line `?`, so that no text is longer than its bytes.
///
/// # Errors
///
/// Memory ran out.
pub fn read_text(alloc: Global, bytes: &[u8]) -> Result<String, OutOfMemory>
    ensures text { IfOk result (λ text. IsReadText bytes.now (string_bytes text)) }
    ensures short { IfOk result (λ text. length (string_bytes text) ≤ length bytes.now) }
{
    let mut text = String::with_capacity(alloc, bytes.len())?;
    let mut rest = bytes;
    'lines: while let Some((line, after)) = cut_first(rest) {
        text.push_str(as_read(line))?;
        if line.len() < rest.len() {
            text.push_str("\n")?;
        }
        rest = after;
    }
    Ok(text)
}

// A line as it is read.
fn as_read(line: &[u8]) -> &str
    ensures { result.now ≡ line_as_read line.now }
{
    match std::str::from_utf8(line) {
        Ok(text) => text,
        Err(_) => "?",
    }
}
