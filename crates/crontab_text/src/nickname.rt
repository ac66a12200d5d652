ghost use Rattle.std.specs.Prelude.{◌≡◌, IfOk, IfErr, IfSome, IfNone, None};
ghost use Rattle.crontab_text.specs.EntryBody.{IsNickBody};
ghost use Rattle.crontab_text.specs.Nickname.{IsNickFault, Means, meaning_of};
ghost use Rattle.crontab_text.specs.NicknameView.{meaning_of_nickname};

use crate::answer::{Body, Style};
use crate::fault::Fault;
use crate::tail::{check_tail, split_tail, take_word};
use cron_fields::{Cause, FieldSet, Fields};

// The nicknames, where two names stand for the same fields.
#[derive(Clone, Copy, Debug, PartialEq, Eq)]
enum Nickname {
    Yearly,
    Monthly,
    Weekly,
    Daily,
    Hourly,
    Reboot,
}

// The field `0`: midnight, the first minute of an hour, or Sunday.
const ZERO: FieldSet = FieldSet {
    bits: 1,
    star: false,
    hashed: false,
};

// The field `1`: the first day of a month, or January.
const ONE: FieldSet = FieldSet {
    bits: 2,
    star: false,
    hashed: false,
};

// The fields `0 0 * * *`.
const DAILY: Fields = Fields {
    minute: ZERO,
    hour: ZERO,
    month_day: FieldSet {
        bits: 0xffff_fffe,
        star: true,
        hashed: false,
    },
    month: FieldSet {
        bits: 0x1ffe,
        star: true,
        hashed: false,
    },
    week_day: FieldSet {
        bits: 0x7f,
        star: true,
        hashed: false,
    },
};

// The field `*` of the hours.
const EVERY_HOUR: FieldSet = FieldSet {
    bits: 0xff_ffff,
    star: true,
    hashed: false,
};

/// Reads a text of a nickname, in a system table a user, and a command.
pub fn read_nick(style: Style, text: &str) -> Result<Body<'_>, Fault>
    ensures read { IfOk result (IsNickBody style text.now) }
    ensures fault { IfErr result (λ fault. IsNickFault style text.now fault.cause fault.left) }
{
    let (word, rest) = take_word(text);
    let Some(nickname) = nickname_of(word.text) else {
        return Err(Fault::new(Cause::BadNickname, word.left));
    };
    let tail = split_tail(style, rest);
    check_tail(style, &tail)?;
    Ok(Body::Nick {
        fields: fields_of(nickname),
        user: tail.user.text,
        command: tail.command,
    })
}

// The nickname that a word is, as it is written.
fn nickname_of(word: &str) -> Option<Nickname>
    ensures found { IfSome result (λ nickname. meaning_of word.now ≡ meaning_of_nickname nickname) }
    ensures none { IfNone result (meaning_of word.now ≡ None) }
{
    match word {
        "@yearly" | "@annually" => Some(Nickname::Yearly),
        "@monthly" => Some(Nickname::Monthly),
        "@weekly" => Some(Nickname::Weekly),
        "@daily" | "@midnight" => Some(Nickname::Daily),
        "@hourly" => Some(Nickname::Hourly),
        "@reboot" => Some(Nickname::Reboot),
        _ => None,
    }
}

// The fields that a nickname stands for; `None` for `@reboot`.
fn fields_of(nickname: Nickname) -> Option<Fields>
    ensures { Means (meaning_of_nickname nickname) result }
{
    match nickname {
        Nickname::Yearly => Some(Fields {
            month_day: ONE,
            month: ONE,
            ..DAILY
        }),
        Nickname::Monthly => Some(Fields {
            month_day: ONE,
            ..DAILY
        }),
        Nickname::Weekly => Some(Fields {
            week_day: ZERO,
            ..DAILY
        }),
        Nickname::Daily => Some(DAILY),
        Nickname::Hourly => Some(Fields {
            hour: EVERY_HOUR,
            ..DAILY
        }),
        Nickname::Reboot => None,
    }
}
