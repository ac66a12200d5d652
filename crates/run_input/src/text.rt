//! The check that an input is text.
ghost use Rattle.std.specs.Prelude.{◌≡◌, ◌⊎◌, ◌∷◌, [], ◌+◌, ◌<◌, ◌^◌, length, IfSome, IfNone, IfOk, OnOk, IfErr};
ghost use Rattle.crontab_text.specs.Blanks.{IsFirstIndex, LacksAny};
ghost use Rattle.crontab_text.specs.Lines.{lines_of};
ghost use Rattle.job_table.specs.Table.{at_line};
ghost use Rattle.run_input.specs.Text.{IsText, AreTexts, IsNotText, PassesText, BeginsWithNoText};

use cron_fields::Cause;
use run_text::Refusal;

/// The text of an input.
///
/// # Errors
///
/// The first line that isn't UTF-8, or has a zero byte.
pub fn as_text(bytes: &[u8]) -> Result<&str, Refusal>
    requires { length bytes.now + 1 < 2 ^ 32 }
    ensures text { IfOk result (λ text. text.now ≡ bytes.now) }
    ensures lines { OnOk result (AreTexts (lines_of bytes.now)) }
    ensures refused { IfErr result (IsNotText bytes.now) }
{
    match one_text(bytes) {
        Some(text) => Ok(text),
        None => Err(Refusal::of_line(line_at_fault(bytes), Cause::NotText)),
    }
}

// The bytes as one text: UTF-8 without a zero byte.
fn one_text(bytes: &[u8]) -> Option<&str>
    ensures text { IfSome result (λ text. text.now ≡ bytes.now) }
    ensures is_text { IfSome result (λ _. IsText bytes.now) }
    ensures none { IfNone result (IsText bytes.now → ⊥) }
{
    if bytes.contains(&0) {
        return None;
    }
    std::str::from_utf8(bytes).ok()
}

// The number of the first line that is no text: one more than there are lines above it.
fn line_at_fault(bytes: &[u8]) -> u32
    requires short { length bytes.now + 1 < 2 ^ 32 }
    requires at_fault { AreTexts (lines_of bytes.now) → ⊥ }
    ensures { IsNotText bytes.now (at_line result Cause.NotText) }
{
    let mut number = 1;
    let mut rest = bytes;
    'lines: while let Some(after) = behind_text(rest) {
        number += 1;
        rest = after;
    }
    number
}

// What is behind the first line, if that line is text.
fn behind_text(bytes: &[u8]) -> Option<&[u8]>
    ensures passes { IfSome result (λ after. PassesText bytes.now after.now) }
    ensures shorter { IfSome result (λ after. length after.now < length bytes.now) }
    ensures none { IfNone result ((bytes.now ≡ []) ⊎ BeginsWithNoText bytes.now) }
{
    let (line, after) = next_line(bytes)?;
    one_text(line)?;
    Some(after)
}

// The first line, without its newline, and what is behind it. None at the end.
fn next_line(bytes: &[u8]) -> Option<(&[u8], &[u8])>
    ensures line { IfSome result (λ parts. lines_of bytes.now ≡ parts.0.now ∷ lines_of parts.1.now) }
    ensures shorter { IfSome result (λ parts. length parts.1.now < length bytes.now) }
    ensures none { IfNone result (bytes.now ≡ []) }
{
    match first_newline(bytes) {
        Some(end) => Some((&bytes[..end], &bytes[end + 1..])),
        None if bytes.is_empty() => None,
        None => Some((bytes, &[])),
    }
}

// The index of the first newline.
fn first_newline(bytes: &[u8]) -> Option<usize>
    ensures found { IfSome result (λ index. IsFirstIndex (λ byte. byte ≡ 10) bytes.now index) }
    ensures none { IfNone result (LacksAny (λ byte. byte ≡ 10) bytes.now) }
{
    bytes.iter().position(|byte| *byte == b'\n')
}
