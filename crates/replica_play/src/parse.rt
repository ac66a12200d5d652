//! How commands are read.
ghost use Rattle.std.specs.Prelude.{◌≡◌, ◌<◌, IfOk, IfSome, decimal};

use crate::command::{Command, Event, Extent};
use crate::fault::PlayFault;
use itoa::Buffer;
use paxos_base::Kind;
use zone_minutes::{Minute, read_stamp};

/// A word, and what follows it.
pub fn split(text: &str) -> Result<(&str, &str), PlayFault> {
    text.split_once(' ').ok_or(PlayFault::MissingWord)
}

/// A number, which is written without a sign and without zeros in front.
pub fn number_of(word: &str) -> Option<u64>
    ensures { IfSome result (λ number. word.now ≡ decimal number) }
{
    let number = word.parse::<u64>().ok()?;
    let mut digits = Buffer::new();
    if digits.format(number) == word {
        Some(number)
    } else {
        None
    }
}

/// A replica's number.
pub fn member_of(word: &str) -> Result<u8, PlayFault>
    ensures { IfOk result (λ member. member < 7) }
{
    match number_of(word) {
        Some(member) if member < 7 => Ok(member as u8),
        _ => Err(PlayFault::BadMember),
    }
}

/// The minute of a stamp.
pub fn minute_of(word: &str) -> Result<Minute, PlayFault> {
    read_stamp(word).ok_or(PlayFault::BadStamp)
}

// How many replicas there are.
fn members_of(word: &str) -> Result<u8, PlayFault> {
    match number_of(word) {
        Some(members) if 1 <= members && members <= 7 => Ok(members as u8),
        _ => Err(PlayFault::BadCount),
    }
}

// A letter's number.
fn letter_of(word: &str) -> Result<usize, PlayFault> {
    match number_of(word) {
        Some(letter) => Ok(letter as usize),
        None => Err(PlayFault::BadNumber),
    }
}

fn kind_of(word: &str) -> Result<Kind, PlayFault> {
    match word {
        "launch" => Ok(Kind::Launch),
        "void" => Ok(Kind::Void),
        _ => Err(PlayFault::BadKind),
    }
}

// What happens to a replica.
fn event_of(text: &str) -> Result<Event, PlayFault> {
    let (verb, rest) = split(text)?;
    match verb {
        "campaign" => Ok(Event::Campaign {
            member: member_of(rest)?,
        }),
        "tick" => tick_of(rest),
        "answer" => answer_of(rest),
        "deliver" => Ok(Event::Deliver {
            letter: letter_of(rest)?,
        }),
        _ => Err(PlayFault::BadCommand),
    }
}

fn tick_of(text: &str) -> Result<Event, PlayFault> {
    let (member, stamp) = split(text)?;
    Ok(Event::Tick {
        member: member_of(member)?,
        now: minute_of(stamp)?,
    })
}

fn answer_of(text: &str) -> Result<Event, PlayFault> {
    let (member, kind) = split(text)?;
    Ok(Event::Answer {
        member: member_of(member)?,
        kind: kind_of(kind)?,
    })
}

// A letter that the scenario makes up.
fn write_of(text: &str) -> Result<Command<'_>, PlayFault> {
    let (from, rest) = split(text)?;
    let (to, packets) = split(rest)?;
    Ok(Command::Write {
        from: member_of(from)?,
        to: member_of(to)?,
        packets,
    })
}

/// The command that a line says.
pub fn command_of(text: &str) -> Result<Command<'_>, PlayFault> {
    let (verb, rest) = split(text)?;
    match verb {
        "start" => Ok(Command::Start {
            members: members_of(rest)?,
        }),
        "stop" => Ok(Command::Stop {
            member: member_of(rest)?,
        }),
        "restart" => Ok(Command::Restart {
            member: member_of(rest)?,
        }),
        "copy" => Ok(Command::Copy {
            member: member_of(rest)?,
        }),
        "plan" => Ok(Command::Step {
            extent: Extent::Plan,
            event: event_of(rest)?,
        }),
        "complete" => Ok(Command::Step {
            extent: Extent::Halves,
            event: event_of(rest)?,
        }),
        _ => letter_command_of(text, verb, rest),
    }
}

// A command on letters, or what happens to a replica.
fn letter_command_of<'a>(text: &str, verb: &str, rest: &'a str) -> Result<Command<'a>, PlayFault> {
    match verb {
        "deliver" if rest == "all" => Ok(Command::DeliverAll),
        "drop" if rest == "all" => Ok(Command::DropAll),
        "drop" => Ok(Command::Drop {
            letter: letter_of(rest)?,
        }),
        "shorten" => Ok(Command::Shorten {
            letter: letter_of(rest)?,
        }),
        "spoil" => Ok(Command::Spoil {
            letter: letter_of(rest)?,
        }),
        "write" => write_of(rest),
        _ => Ok(Command::Step {
            extent: Extent::Whole,
            event: event_of(text)?,
        }),
    }
}
