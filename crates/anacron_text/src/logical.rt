//! Logical lines: a line that ends with a backslash goes on with the next one.
ghost use Rattle.std.specs.Prelude.{◌≡◌, ◌↔◌, ◌+◌, ◌<◌, ◌≤◌, ◌^◌, [], length, IsTrue, IsNone, IfSome};
ghost use Rattle.anacron_text.specs.LogicalLines.{BeginsWithLogicalLine, IsLogicalEnd, IsLineEnd, IsContinuedAt, line_count};

/// The first logical line of a text, without the newline at its end, and what is behind it; `None` at the end of the text.
pub fn next_logical_line(text: &str) -> Option<(&str, &str)>
    ensures none { IsNone result ↔ (text.now ≡ []) }
    ensures line { IfSome result (λ parts. BeginsWithLogicalLine text.now parts.0.now parts.1.now) }
    ensures count { IfSome result (λ parts. line_count parts.0.now + length parts.1.now ≤ length text.now) }
{
    if text.is_empty() {
        return None;
    }
    let (line, rest) = text.split_at(logical_end(text));
    Some((line, rest.strip_prefix('\n').unwrap_or("")))
}

/// How many lines of the text a logical line is made of.
pub fn count_lines(line: &str) -> u32
    requires { line_count line.now < 2 ^ 32 }
    ensures { result ≡ line_count line.now }
{
    let newlines = line
        .as_bytes()
        .iter()
        .filter(|byte| **byte == b'\n')
        .count();
    newlines as u32 + 1
}

// Where the first logical line ends.
fn logical_end(text: &str) -> usize
    requires { 0 < length text.now }
    ensures { IsLogicalEnd text.now result }
{
    let bytes = text.as_bytes();
    let mut end = line_end(bytes, 0);
    while is_continued_at(bytes, end) {
        end = line_end(bytes, end + 1);
    }
    end
}

// The first newline from a place on, or the end of the text.
fn line_end(bytes: &[u8], from: usize) -> usize
    requires { from ≤ length bytes.now }
    ensures { IsLineEnd bytes.now from result }
{
    let mut end = from;
    while end < bytes.len() && bytes[end] != b'\n' {
        end += 1;
    }
    end
}

// Whether a line that ends at this place goes on with another.
fn is_continued_at(bytes: &[u8], end: usize) -> bool
    requires { end ≤ length bytes.now }
    ensures { IsTrue result ↔ IsContinuedAt bytes.now end }
{
    end > 0 && bytes[end - 1] == b'\\' && bytes.len() - end > 1
}
