ghost use Rattle.std.specs.Prelude.{◌≡◌, ◌+◌, ◌<◌, ◌≤◌, ◌^◌, length, IfOk, IfErr};
ghost use Rattle.cron_fields.specs.Field.{IsField};
ghost use Rattle.cron_fields.specs.Seed.{seed_of};
ghost use Rattle.crontab_text.specs.Entry.{IsBadWord, IsEntry, IsEntryFault, entry_seed};
ghost use Rattle.crontab_text.specs.EntryBody.{IsEntryBody};

use crate::answer::{Body, Style};
use crate::fault::Fault;
use crate::tail::{Tail, Word, check_tail, split_tail, take_word};
use cron_fields::{Cause, FieldKind, FieldSet, Fields, HashSeed, read_field};

/// Reads a text of five fields, in a system table a user, and a command.
pub fn read_entry<'a>(style: Style, owner: &'a str, text: &'a str) -> Result<Body<'a>, Fault>
    requires { length text.now < 2 ^ 32 }
    ensures read { IfOk result (IsEntryBody style owner.now text.now) }
    ensures fault { IfErr result (λ fault. IsEntryFault style text.now fault.cause fault.left) }
{
    let (minute, rest) = take_word(text);
    let (hour, rest) = take_word(rest);
    let (month_day, rest) = take_word(rest);
    let (month, rest) = take_word(rest);
    let (week_day, rest) = take_word(rest);
    let tail = split_tail(style, rest);
    let seed = seed_of_entry(style, owner, &tail);
    let fields = Fields {
        minute: read_word(FieldKind::Minute, minute, seed)?,
        hour: read_word(FieldKind::Hour, hour, seed)?,
        month_day: read_word(FieldKind::MonthDay, month_day, seed)?,
        month: read_word(FieldKind::Month, month, seed)?,
        week_day: read_word(FieldKind::WeekDay, week_day, seed)?,
    };
    check_tail(style, &tail)?;
    Ok(Body::Entry {
        fields,
        user: tail.user.text,
        command: tail.command,
    })
}

// What the entry's hashed fields are picked by.
fn seed_of_entry<'a>(style: Style, owner: &'a str, tail: &Tail<'a>) -> HashSeed<'a>
    ensures { seed_of result ≡ entry_seed style owner.now tail.now.user.text.now tail.now.command.now }
{
    let owner = match style {
        Style::User => owner,
        Style::System => tail.user.text,
    };
    HashSeed {
        owner,
        command: tail.command,
    }
}

// Reads a word as a field. An empty word is a field that the line lacks.
fn read_word(kind: FieldKind, word: Word<'_>, seed: HashSeed<'_>) -> Result<FieldSet, Fault>
    requires long { length word.text.now ≤ word.left }
    requires short { length word.text.now < 2 ^ 32 }
    ensures read { IfOk result (IsField kind word.entry.text.now (seed_of seed.entry)) }
    ensures fault { IfErr result (λ fault.
        IsBadWord kind word.entry.text.now word.entry.left fault.cause fault.left) }
{
    if word.text.is_empty() {
        return Err(Fault::new(Cause::TooFewFields, 0));
    }
    match read_field(kind, word.text, seed) {
        Ok(set) => Ok(set),
        Err(fault) => Err(Fault {
            cause: fault.cause,
            left: word.left - fault.place as usize,
        }),
    }
}
