//! Blanks and words of a line that may be continued. A text is the rest of a logical line, up to its end.
ghost use Rattle.std.specs.Prelude.{◌≡◌, ◌+◌, ◌<◌, ◌≤◌, ◌-◌, ◌↔◌, ℕ, IsTrue, IfSome, IfNone, length, slice_index, take, drop};
ghost use Rattle.crontab_text.specs.Blanks.{IsBlank, IsMark, LacksAny, IsFirstIndex, IsCutAt, SkipsBlanks, DropsBlanks, IsFirstWord, AreBlanksFrom};
ghost use Rattle.anacron_text.specs.Spaced.{is_at_line_end, spaced, IsPartWithin};

use crontab_text::{Word, is_blank};

// Whether the byte at a place is read as a blank: it's one, or it joins two lines.
fn is_blank_at(bytes: &[u8], index: usize) -> bool
    requires { index < length bytes.now }
    ensures { IsTrue result ↔ IsBlank (slice_index (spaced bytes.now) index) }
{
    let byte = bytes[index];
    if byte == b'\n' {
        true
    } else if byte == b'\\' {
        is_at_line_end(bytes, index + 1)
    } else {
        is_blank(byte)
    }
}

// Whether a line of the text ends at a place.
fn is_at_line_end(bytes: &[u8], index: usize) -> bool
    requires { index ≤ length bytes.now }
    ensures { result ≡ is_at_line_end (drop index bytes.now) }
{
    index == bytes.len() || bytes[index] == b'\n'
}

/// The text without the blanks that it begins with.
pub fn skip_blanks(text: &str) -> &str
    ensures skips { SkipsBlanks (spaced text.now) (spaced result.now) }
    ensures stands { IsPartWithin text.now result.now (length result.now) }
{
    match first_mark(text) {
        Some(index) => text.split_at(index).1,
        None => "",
    }
}

/// The text without the blanks that it ends with.
pub fn drop_blanks(text: &str) -> &str
    ensures drops { DropsBlanks (spaced text.now) (take (length result.now) (spaced text.now)) }
    ensures front { result.now ≡ take (length result.now) text.now }
{
    text.split_at(end_of_marks(text)).0
}

/// The first word of a text, and what is behind it. The word is empty where there are only blanks.
pub fn take_word(text: &str) -> (Word<'_>, &str)
    ensures word { IsFirstWord (spaced text.now) result.0.text.now (spaced result.1.now) }
    ensures left { result.0.left ≡ length result.0.text.now + length result.1.now }
    ensures stands { IsPartWithin text.now result.1.now (length result.1.now) }
{
    let (word, after) = cut_at_blank(skip_blanks(text));
    let left = word.len() + after.len();
    (Word { text: word, left }, after)
}

// A text up to its first blank, and from there on.
fn cut_at_blank(text: &str) -> (&str, &str)
    ensures cut { IsCutAt IsBlank (spaced text.now) result.0.now (spaced result.1.now) }
    ensures stands { IsPartWithin text.now result.1.now (length result.1.now) }
{
    match first_blank(text) {
        Some(index) => text.split_at(index),
        None => (text, ""),
    }
}

// The index of the first byte that is read as a blank.
fn first_blank(text: &str) -> Option<usize>
    ensures found { IfSome result (λ index. IsFirstIndex IsBlank (spaced text.now) index) }
    ensures none { IfNone result (LacksAny IsBlank (spaced text.now)) }
{
    let bytes = text.as_bytes();
    for index in 0..bytes.len() {
        if is_blank_at(bytes, index) {
            return Some(index);
        }
    }
    None
}

// The index of the first byte that is read as no blank.
fn first_mark(text: &str) -> Option<usize>
    ensures found { IfSome result (λ index. IsFirstIndex IsMark (spaced text.now) index) }
    ensures none { IfNone result (LacksAny IsMark (spaced text.now)) }
{
    let bytes = text.as_bytes();
    for index in 0..bytes.len() {
        if !is_blank_at(bytes, index) {
            return Some(index);
        }
    }
    None
}

// Where the blanks begin that the text ends with.
fn end_of_marks(text: &str) -> usize
    ensures blank { AreBlanksFrom (spaced text.now) result }
    ensures mark { 0 < result → IsMark (slice_index (spaced text.now) (result - 1)) }
{
    let bytes = text.as_bytes();
    let mut end = bytes.len();
    while end > 0 && is_blank_at(bytes, end - 1) {
        end -= 1;
    }
    end
}
