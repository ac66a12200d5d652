ghost use Rattle.std.specs.Prelude.{◌≡◌, ◌↔◌, ℕ, List, IsTrue, IfSome, IfNone};
ghost use Rattle.crontab_text.specs.Blanks.{IsFirstIndex, IsCutAt, LacksAny};
ghost use Rattle.crontab_text.specs.Assignment.{IsNameStart, IsNameByte, IsNoNameByte, IsVariableName, HasQuotes, IsUnquoted, IsValue, IsAssignment};

use crate::blank::{drop_blanks, skip_blanks};

/// Reads a text that sets a variable: its name, and the value without outer blanks and without quotes round it. Any
/// other text is `None`, also one that begins with a blank.
pub fn read_assignment(text: &str) -> Option<(&str, &str)>
    ensures read { IfSome result (λ parts. IsAssignment text.now parts.0.now parts.1.now) }
    ensures none { IfNone result ((name value : List ℕ) → IsAssignment text.now name value → ⊥) }
{
    let (name, behind) = cut_behind_name(text);
    if !is_name(name) {
        return None;
    }
    let behind = skip_blanks(behind).strip_prefix('=')?;
    Some((name, value_of(behind)))
}

// A value without its outer blanks, and without the quotes round it.
fn value_of(text: &str) -> &str
    ensures { IsValue text.now result.now }
{
    unquote(drop_blanks(skip_blanks(text)))
}

/// What is inside the quotes round a text; a text without matched quotes stays.
pub fn unquote(text: &str) -> &str
    ensures { IsUnquoted text.now result.now }
{
    if is_quoted(text) {
        &text[1..text.len() - 1]
    } else {
        text
    }
}

// Whether a text begins and ends with the same quote.
fn is_quoted(text: &str) -> bool
    ensures { IsTrue result ↔ HasQuotes text.now }
{
    match text.as_bytes() {
        [first, .., last] => matches!(*first, b'"' | b'\'') && first == last,
        _ => false,
    }
}

/// A text up to the first byte that can't stand in a name, and from there on.
pub fn cut_behind_name(text: &str) -> (&str, &str)
    ensures { IsCutAt IsNoNameByte text.now result.0.now result.1.now }
{
    match first_other(text) {
        Some(index) => text.split_at(index),
        None => (text, ""),
    }
}

// The index of the first byte that can't stand in a name.
fn first_other(text: &str) -> Option<usize>
    ensures found { IfSome result (λ index. IsFirstIndex IsNoNameByte text.now index) }
    ensures none { IfNone result (LacksAny IsNoNameByte text.now) }
{
    text.as_bytes().iter().position(|byte| !is_name_byte(*byte))
}

/// Whether name bytes begin with one that may begin a name.
pub fn is_name(text: &str) -> bool
    requires { LacksAny IsNoNameByte text.now }
    ensures { IsTrue result ↔ IsVariableName text.now }
{
    match text.as_bytes().first() {
        Some(byte) => is_name_start(*byte),
        None => false,
    }
}

/// Whether a byte may begin a name.
pub fn is_name_start(byte: u8) -> bool
    ensures { IsTrue result ↔ IsNameStart byte }
{
    matches!(byte, b'a'..=b'z' | b'A'..=b'Z' | b'_')
}

/// Whether a byte may stand in a name.
pub fn is_name_byte(byte: u8) -> bool
    ensures { IsTrue result ↔ IsNameByte byte }
{
    is_name_start(byte) || byte.is_ascii_digit()
}
