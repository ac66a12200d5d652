ghost use Rattle.std.specs.Prelude.{◌≡◌, ◌≢◌, ◌+◌, ◌<◌, ◌≤◌, ◌↔◌, ℕ, [], IsNone, IfSome, IfNone, length, take, drop, slice_index};
ghost use Rattle.crontab_text.specs.Blanks.{IsFirstIndex, LacksAny, MayBeginWith};
ghost use Rattle.crontab_text.specs.Percent.{TextPiece, IsPercent, BeginsWithEscape, BeginsWithPiece, MayEndBefore, SkipsEscape, piece_of};

use std::marker::Model;

/// A piece of a command.
#[derive(Clone, Copy, Debug, PartialEq, Eq)]
pub enum Piece<'a> {
    /// Some of the text of a line, never empty.
    Text(&'a str),
    /// An unescaped `%`, which ends a line.
    NewLine,
}

/// The pieces of a command that are left, in order.
#[derive(Debug, Drop)]
pub struct Pieces<'a> {
    rest: &'a str,
}

impl<'a> Model for Pieces<'a> {
    ghost use Rattle.std.specs.Prelude.{ℕ, List};

    ghost Value = { List ℕ };

    ghost view = { λ pieces. pieces.rest.now };
}

/// The pieces of a command (crontab(5)): an unescaped `%` ends a line, and `\%` is a percent sign, whose backslash is in
/// no piece. A `%` is escaped by a backslash directly before it, whatever stands before that.
pub fn split_percent(command: &str) -> Pieces<'_>
    ensures { result ≡ command.now }
{
    Pieces { rest: command }
}

impl<'a> Pieces<'a> {
    /// The next piece; `None` where none is left.
    pub fn next(&mut self) -> Option<Piece<'a>>
        ensures none { IsNone result ↔ (self.old ≡ []) }
        ensures end { IfNone result (self.new ≡ []) }
        ensures piece { IfSome result (λ piece. BeginsWithPiece self.old (piece_of piece) self.new) }
        ensures shorter { IfSome result (λ _. length self.new < length self.old) }
    {
        let command = self.rest;
        if command.is_empty() {
            return None;
        }
        if let Some(rest) = command.strip_prefix('%') {
            self.rest = rest;
            return Some(Piece::NewLine);
        }
        let (text, rest) = take_text(command);
        self.rest = rest;
        Some(Piece::Text(text))
    }
}

// The text that a command begins with, and what is behind it.
fn take_text(command: &str) -> (&str, &str)
    requires some { 0 < length command.now }
    requires text { MayBeginWith (λ c. c ≢ 37) command.now }
    ensures piece { BeginsWithPiece command.now (TextPiece result.0.now) result.1.now }
    ensures shorter { length result.1.now < length command.now }
{
    let text = skip_escape(command);
    text.split_at(text_end(text.as_bytes()))
}

// A command without the backslash of an escaped `%` that it begins with.
fn skip_escape(command: &str) -> &str
    ensures { SkipsEscape command.now result.now }
{
    match command.strip_prefix('\\') {
        Some(text) if text.starts_with('%') => text,
        _ => command,
    }
}

// Where the text ends that these bytes begin with. The first byte belongs to it, also an escaped `%`.
fn text_end(bytes: &[u8]) -> usize
    requires some { 0 < length bytes.now }
    requires bare { BeginsWithEscape bytes.now → ⊥ }
    ensures some { 0 < result }
    ensures within { result ≤ length bytes.now }
    ensures lacks { LacksAny IsPercent (drop 1 (take result bytes.now)) }
    ensures end { MayEndBefore (take result bytes.now) (drop result bytes.now) }
{
    match first_percent(&bytes[1..]) {
        Some(index) if bytes[index] == b'\\' => index,
        Some(index) => index + 1,
        None => bytes.len(),
    }
}

// The index of the first percent sign.
fn first_percent(bytes: &[u8]) -> Option<usize>
    ensures found { IfSome result (λ index. IsFirstIndex IsPercent bytes.now index) }
    ensures none { IfNone result (LacksAny IsPercent bytes.now) }
{
    bytes.iter().position(|byte| *byte == b'%')
}
