//! How commands are read.
ghost use Rattle.std.specs.Prelude.{◌≡◌, ◌<◌, IfOk, decimal};

use crate::change::change_of;
use crate::command::{Command, Member, Told};
use crate::fault::PlayFault;
use crate::hour::Jobs;
use hex::FromHexError;
use itoa::Buffer;
use std::alloc::Global;
use zone_minutes::{Minute, read_stamp};

/// A word, and what follows it.
pub fn split(text: &str) -> Result<(&str, &str), PlayFault> {
    text.split_once(' ').ok_or(PlayFault::MissingWord)
}

/// A number, which is written without a sign and without zeros in front.
pub fn number_of(word: &str) -> Result<u64, PlayFault>
    ensures { IfOk result (λ number. word.now ≡ decimal number) }
{
    let Ok(number) = word.parse::<u64>() else {
        return Err(PlayFault::BadNumber);
    };
    let mut digits = Buffer::new();
    if digits.format(number) == word {
        Ok(number)
    } else {
        Err(PlayFault::BadNumber)
    }
}

/// A number below 2^32.
pub fn small_of(word: &str) -> Result<u32, PlayFault> {
    u32::try_from(number_of(word)?).map_err(|_| PlayFault::BadNumber)
}

/// A replica's number.
pub fn member_of(word: &str) -> Result<u8, PlayFault>
    ensures { IfOk result (λ member. member < 7) }
{
    match number_of(word) {
        Ok(member) if member < 7 => Ok(member as u8),
        _ => Err(PlayFault::BadMember),
    }
}

/// The minute of a stamp.
pub fn minute_of(word: &str) -> Result<Minute, PlayFault> {
    read_stamp(word).ok_or(PlayFault::BadStamp)
}

fn jobs_of(word: &str) -> Result<Jobs, PlayFault> {
    match word {
        "0" => Ok(Jobs::None),
        "1" => Ok(Jobs::One),
        "2" => Ok(Jobs::Two),
        _ => Err(PlayFault::BadJobs),
    }
}

// One of so many replicas.
fn one_of(members: &str, me: &str) -> Result<Member, PlayFault> {
    let me = member_of(me)?;
    match number_of(members) {
        Ok(members) if members <= 7 && u64::from(me) < members => Ok(Member {
            me,
            members: members as u8,
        }),
        _ => Err(PlayFault::BadMember),
    }
}

// A disk of a replica, by how many there are, its number, and how many jobs its table has.
fn disk_of(text: &str) -> Result<Command, PlayFault> {
    let (members, rest) = split(text)?;
    let (me, jobs) = split(rest)?;
    Ok(Command::Disk {
        member: one_of(members, me)?,
        jobs: jobs_of(jobs)?,
    })
}

fn arm_of(text: &str) -> Result<Command, PlayFault> {
    let (pass, image) = split(text)?;
    Ok(Command::Arm {
        pass: small_of(pass)?,
        image: small_of(image)?,
    })
}

// The bytes that pairs of digits stand for.
fn bytes_of(alloc: Global, digits: &str) -> Result<Vec<u8>, PlayFault> {
    match hex::decode(alloc, digits) {
        Ok(bytes) => Ok(bytes),
        Err(FromHexError::OutOfMemory) => Err(PlayFault::OutOfMemory),
        Err(_) => Err(PlayFault::BadHex),
    }
}

// A command of one word.
fn word_of(word: &str) -> Result<Command, PlayFault> {
    match word {
        "disarm" => Ok(Command::Disarm),
        "revive" => Ok(Command::Revive),
        "files" => Ok(Command::Files),
        "attach" => Ok(Command::Attach),
        "keeps" => Ok(Command::Keeps),
        "start" => Ok(Command::Start),
        "campaign" => Ok(Command::Step(Told::Campaign)),
        "reopen" => Ok(Command::Reopen),
        "stop" => Ok(Command::Stop),
        _ => Err(PlayFault::BadCommand),
    }
}

/// The command that a line says.
pub fn command_of(alloc: Global, text: &str) -> Result<Command, PlayFault> {
    let Some((verb, rest)) = text.split_once(' ') else {
        return word_of(text);
    };
    match verb {
        "disk" => disk_of(rest),
        "arm" => arm_of(rest),
        "save" => Ok(Command::Save(change_of(alloc, rest)?)),
        "tick" => Ok(Command::Step(Told::Tick(minute_of(rest)?))),
        "hear" => Ok(Command::Step(Told::Hear(bytes_of(alloc, rest)?))),
        _ => Err(PlayFault::BadCommand),
    }
}
