ghost use Rattle.std.specs.Prelude.{◌≡◌, ◌+◌, ◌<◌, ◌^◌, length, IfSome, IfNone};
ghost use Rattle.crontab_text.specs.Lines.{lines_of};
ghost use Rattle.audit_text.specs.Difference.{IsFirstDifference};

use crate::line::cut_first;

/// The number of the first line, from 1, at which a text differs from the one that was expected, or which it lacks; `None` where it has
/// the very lines of that one.
pub fn first_other_line(text: &[u8], expected: &[u8]) -> Option<u32>
    requires { length text.now + 1 < 2 ^ 32 }
    ensures other { IfSome result (IsFirstDifference (lines_of text.now) (lines_of expected.now)) }
    ensures none { IfNone result (lines_of text.now ≡ lines_of expected.now) }
{
    let mut number = 1;
    let mut rest = text;
    let mut wanted = expected;
    'lines: while let Some((line, after)) = cut_first(rest) {
        match cut_first(wanted) {
            Some((other, behind)) if line == other => wanted = behind,
            _ => return Some(number),
        }
        rest = after;
        number += 1;
    }
    if wanted.is_empty() {
        None
    } else {
        Some(number)
    }
}

/// How many lines a text has. The last one may lack its newline.
pub fn lines_in(text: &[u8]) -> u32
    requires { length text.now < 2 ^ 32 }
    ensures { result ≡ length (lines_of text.now) }
{
    let mut count = 0;
    let mut rest = text;
    'lines: while let Some((_, after)) = cut_first(rest) {
        count += 1;
        rest = after;
    }
    count
}
