ghost use Rattle.std.specs.Prelude.{◌≡◌, ◌+◌, ◌<◌, ◌≤◌, ◌↔◌, ℕ, IsTrue, IfSome, IfNone, length, slice_index, ◌-◌};
ghost use Rattle.crontab_text.specs.Blanks.{IsBlank, IsMark, LacksAny, IsFirstIndex, IsCutAt, SkipsBlanks, DropsBlanks, IsFirstWord, AreBlanksFrom};

/// Whether a byte is a space or a tab.
pub fn is_blank(byte: u8) -> bool
    ensures { IsTrue result ↔ IsBlank byte }
{
    matches!(byte, b' ' | b'\t')
}

/// The text without the blanks that it begins with.
pub fn skip_blanks(text: &str) -> &str
    ensures { SkipsBlanks text.now result.now }
{
    match first_mark(text) {
        Some(index) => text.split_at(index).1,
        None => "",
    }
}

/// The text without the blanks that it ends with.
pub fn drop_blanks(text: &str) -> &str
    ensures { DropsBlanks text.now result.now }
{
    text.split_at(end_of_marks(text)).0
}

/// The first word of a text, and what is behind it. The word is empty where there are only blanks.
pub fn first_word(text: &str) -> (&str, &str)
    ensures { IsFirstWord text.now result.0.now result.1.now }
{
    cut_at_blank(skip_blanks(text))
}

// A text up to its first blank, and from there on.
fn cut_at_blank(text: &str) -> (&str, &str)
    ensures { IsCutAt IsBlank text.now result.0.now result.1.now }
{
    match first_blank(text) {
        Some(index) => text.split_at(index),
        None => (text, ""),
    }
}

// The index of the first blank.
fn first_blank(text: &str) -> Option<usize>
    ensures found { IfSome result (λ index. IsFirstIndex IsBlank text.now index) }
    ensures none { IfNone result (LacksAny IsBlank text.now) }
{
    text.as_bytes().iter().position(|byte| is_blank(*byte))
}

// The index of the first byte that is no blank.
fn first_mark(text: &str) -> Option<usize>
    ensures found { IfSome result (λ index. IsFirstIndex IsMark text.now index) }
    ensures none { IfNone result (LacksAny IsMark text.now) }
{
    text.as_bytes().iter().position(|byte| !is_blank(*byte))
}

// Where the blanks begin that the text ends with.
fn end_of_marks(text: &str) -> usize
    ensures blank { AreBlanksFrom text.now result }
    ensures mark { 0 < result → IsMark (slice_index text.now (result - 1)) }
{
    let bytes = text.as_bytes();
    let mut end = bytes.len();
    while end > 0 && is_blank(bytes[end - 1]) {
        end -= 1;
    }
    end
}
