//! Numbers of any length.
ghost use Rattle.std.specs.Prelude.{◌↔◌, IsTrue, IfSome, IfNone};
ghost use Rattle.std.specs.List.{AllByRecursion};
ghost use Rattle.journal_line.specs.Count.{IsCountText, IsDecimal, IsDigit};
ghost use Rattle.journal_line.specs.declared.line.Count.{Count};

use crate::line::Count;

/// Reads a number in decimal, of any length, without a sign or a leading zero.
///
/// `None` for any other text.
pub fn read_count(text: &str) -> Option<Count>
    ensures read { IfSome result (λ count. IsCountText count text.now) }
    ensures none { IfNone result ((count : Count) → IsCountText count text.now → ⊥) }
{
    if !is_decimal(text.as_bytes()) {
        return None;
    }
    match text.parse::<u64>() {
        Ok(number) => Some(Count::Number(number)),
        Err(_) => Some(Count::Larger),
    }
}

// Whether the bytes are those of a number in decimal.
fn is_decimal(bytes: &[u8]) -> bool
    ensures { IsTrue result ↔ IsDecimal bytes.now }
{
    !bytes.is_empty() && (bytes[0] != b'0' || bytes.len() == 1) && are_digits(bytes)
}

fn are_digits(bytes: &[u8]) -> bool
    ensures { IsTrue result ↔ AllByRecursion IsDigit bytes.now }
{
    bytes.iter().all(|byte| is_digit(*byte))
}

fn is_digit(byte: u8) -> bool
    ensures { IsTrue result ↔ IsDigit byte }
{
    (b'0'..=b'9').contains(&byte)
}
