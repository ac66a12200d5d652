ghost use Rattle.std.specs.Prelude.{◌≡◌, ◌↔◌, ◌+◌, ◌<◌, ◌≤◌, [], length, IsTrue, IfErr, OnOk};
ghost use Rattle.std.specs.List.{AllByRecursion};
ghost use Rattle.crontab_text.specs.Blanks.{IsFirstWord, SkipsBlanks};
ghost use Rattle.crontab_text.specs.Tail.{IsUser, IsUserByte, IsCommand, IsBadCommand};
ghost use Rattle.crontab_text.specs.TailParts.{IsSplitTail, IsGoodTail, IsBadTail};

use crate::answer::Style;
use crate::assignment::{is_name_byte, is_name_start};
use crate::blank::{first_word, skip_blanks};
use crate::fault::Fault;
use cron_fields::Cause;

/// The most bytes of a command.
const MAX_COMMAND: usize = 1000;

/// A word of a line.
#[derive(Clone, Copy, Debug)]
pub struct Word<'a> {
    /// Empty where the line has no more words.
    pub text: &'a str,
    /// How many bytes of the line stand from the word's first byte to its end.
    pub left: usize,
}

/// What stands behind the fields or a nickname.
#[derive(Clone, Copy, Debug)]
pub struct Tail<'a> {
    /// Empty in a user's table.
    pub user: Word<'a>,
    pub command: &'a str,
}

/// The first word of a text, and what is behind it.
pub fn take_word(text: &str) -> (Word<'_>, &str)
    ensures word { IsFirstWord text.now result.0.text.now result.1.now }
    ensures left { result.0.left ≡ length result.0.text.now + length result.1.now }
    ensures within { result.0.left ≤ length text.now }
{
    let (word, after) = first_word(text);
    let left = word.len() + after.len();
    (Word { text: word, left }, after)
}

/// The user, in a system table, and the command, both as they stand there.
pub fn split_tail(style: Style, text: &str) -> Tail<'_>
    ensures { IsSplitTail style text.now result }
{
    match style {
        Style::User => Tail {
            user: Word { text: "", left: 0 },
            command: skip_blanks(text),
        },
        Style::System => {
            let (user, after) = take_word(text);
            Tail {
                user,
                command: skip_blanks(after),
            }
        }
    }
}

/// Whether a tail is a user, in a system table, and a command.
pub fn check_tail(style: Style, tail: &Tail<'_>) -> Result<(), Fault>
    ensures good { OnOk result (IsGoodTail style tail.now) }
    ensures bad { IfErr result (λ fault. IsBadTail style tail.now fault.cause fault.left) }
{
    match style {
        Style::System if !is_user(tail.user.text) => {
            Err(Fault::new(Cause::BadUser, tail.user.left))
        }
        _ => check_command(tail.command),
    }
}

/// Whether a command has 1 to 1,000 bytes.
pub fn check_command(command: &str) -> Result<(), Fault>
    ensures good { OnOk result (IsCommand command.now) }
    ensures bad { IfErr result (λ fault. IsBadCommand command.now fault.cause fault.left) }
{
    if command.is_empty() {
        return Err(Fault::new(Cause::NoCommand, 0));
    }
    if command.len() > MAX_COMMAND {
        return Err(Fault::new(Cause::LongCommand, command.len()));
    }
    Ok(())
}

// Whether a text is a user's name: `[A-Za-z_][A-Za-z0-9_.-]{0,31}`.
fn is_user(text: &str) -> bool
    ensures { IsTrue result ↔ IsUser text.now }
{
    match text.as_bytes().split_first() {
        Some((first, rest)) => { is_name_start(*first) && rest.len() <= 31 && are_user_bytes(rest) }
        None => false,
    }
}

fn are_user_bytes(bytes: &[u8]) -> bool
    ensures { IsTrue result ↔ AllByRecursion IsUserByte bytes.now }
{
    bytes.iter().all(|byte| is_user_byte(*byte))
}

fn is_user_byte(byte: u8) -> bool
    ensures { IsTrue result ↔ IsUserByte byte }
{
    is_name_byte(byte) || matches!(byte, b'.' | b'-')
}
