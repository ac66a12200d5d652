//! The line of a command: its word, and what stands behind it.
ghost use Rattle.std.specs.Prelude.{◌≡◌, ◌≢◌, ℕ, ℤ, ◌<◌, ◌^◌, List, ◌++◌, ◌∷◌, codes, decimal, IfSome, IfNone};
ghost use Rattle.std.specs.Fmt.{signed_decimal};
ghost use Rattle.zone_minutes.specs.Stamp.{stamp_text};
ghost use Rattle.zone_minutes.specs.declared.minute.Window.{Window};
ghost use Rattle.script_text.specs.Command.{fate_word, IsStampIn, IsCount, IsSkew, IsCommandLine};
ghost use Rattle.script_text.specs.Words.{IsMemberWord, IsMembersWord, IsNumberWord, IsInstantWord};
ghost use Rattle.script_text.specs.declared.command.Command.{Command};
ghost use Rattle.script_text.specs.declared.command.FateWord.{FateWord};

use crate::command::Command;
use crate::operands::{
    read_fate, read_instant, read_instant_and_count, read_member, read_skew, read_two_members,
    read_two_numbers,
};
use cron_io::read_number;
use zone_minutes::Window;

// Rounds of one command, and turns of each replica.
const MOST_ROUNDS: u32 = 10_000;

const MOST_TURNS: u32 = 20_000;

/// Reads the line of a command, for a run of so many replicas over the window.
///
/// `None` for any other text.
pub fn read_command(line: &str, members: u8, window: &Window) -> Option<Command>
    ensures read { IfSome result (IsCommandLine line.now members window.now) }
    ensures none { IfNone result ((command : Command) → IsCommandLine line.now members window.now command → ⊥) }
{
    if line == "heal" {
        return Some(Command::Heal);
    }
    let (word, operands) = line.split_once(' ')?;
    if let Some(command) = of_member(word, operands, members) {
        return Some(command);
    }
    if let Some(command) = of_two_members(word, operands, members) {
        return Some(command);
    }
    if let Some(command) = of_member_and_more(word, operands, members) {
        return Some(command);
    }
    if let Some(command) = of_number(word, operands) {
        return Some(command);
    }
    if let Some(command) = of_instant(word, operands, window) {
        return Some(command);
    }
    of_instant_and_count(word, operands, window)
}

// campaign R, stop R, restart R, or reverse R
fn of_member(word: &str, operand: &str, members: u8) -> Option<Command>
    ensures read { IfSome result (λ command. (window : Window) → IsCommandLine (word.now ++ 32 ∷ operand.now) members window command) }
    ensures none { IfNone result (IsMemberWord word.now → (member : ℕ) → member < members → operand.now ≢ decimal member) }
{
    let member = read_member(operand, members)?;
    match word {
        "campaign" => Some(Command::Campaign { member }),
        "stop" => Some(Command::Stop { member }),
        "restart" => Some(Command::Restart { member }),
        "reverse" => Some(Command::Reverse { member }),
        _ => None,
    }
}

// cut A B, drop A B, or repeat A B
fn of_two_members(word: &str, operands: &str, members: u8) -> Option<Command>
    ensures read { IfSome result (λ command. (window : Window) → IsCommandLine (word.now ++ 32 ∷ operands.now) members window command) }
    ensures none { IfNone result (IsMembersWord word.now → (from to : ℕ) → from < members → to < members → operands.now ≢ decimal from ++ 32 ∷ decimal to) }
{
    let (from, to) = read_two_members(operands, members)?;
    match word {
        "cut" => Some(Command::Cut { from, to }),
        "drop" => Some(Command::Drop { from, to }),
        "repeat" => Some(Command::Repeat { from, to }),
        _ => None,
    }
}

// break R C I, skew R S, or fate R F
fn of_member_and_more(word: &str, operands: &str, members: u8) -> Option<Command>
    ensures read { IfSome result (λ command. (window : Window) → IsCommandLine (word.now ++ 32 ∷ operands.now) members window command) }
    ensures no_break { IfNone result (word.now ≡ codes "break" → (member pass image : ℕ) → member < members → pass < 2 ^ 32 → image < 2 ^ 32
        → operands.now ≢ decimal member ++ (32 ∷ decimal pass ++ 32 ∷ decimal image)) }
    ensures no_skew { IfNone result (word.now ≡ codes "skew" → (member : ℕ) (minutes : ℤ) → member < members → IsSkew minutes
        → operands.now ≢ decimal member ++ 32 ∷ signed_decimal minutes) }
    ensures no_fate { IfNone result (word.now ≡ codes "fate" → (member : ℕ) (fate : FateWord) → member < members
        → operands.now ≢ decimal member ++ 32 ∷ fate_word fate) }
{
    let (member, rest) = operands.split_once(' ')?;
    let member = read_member(member, members)?;
    match word {
        "break" => {
            let (pass, image) = read_two_numbers(rest)?;
            Some(Command::Break {
                member,
                pass,
                image,
            })
        }
        "skew" => {
            let minutes = read_skew(rest)?;
            Some(Command::Skew { member, minutes })
        }
        "fate" => {
            let fate = read_fate(rest)?;
            Some(Command::Fate { member, fate })
        }
        _ => None,
    }
}

// again K, or arrive K
fn of_number(word: &str, operand: &str) -> Option<Command>
    ensures read { IfSome result (λ command. (members : ℕ) (window : Window) → IsCommandLine (word.now ++ 32 ∷ operand.now) members window command) }
    ensures none { IfNone result (IsNumberWord word.now → (number : ℕ) → number < 2 ^ 32 → operand.now ≢ decimal number) }
{
    let number = read_number(operand, u32::MAX)?;
    match word {
        "again" => Some(Command::Again { letter: number }),
        "arrive" => Some(Command::Arrive { late: number }),
        _ => None,
    }
}

// settle STAMP, or walk STAMP
fn of_instant(word: &str, operand: &str, window: &Window) -> Option<Command>
    ensures read { IfSome result (λ command. (members : ℕ) → IsCommandLine (word.now ++ 32 ∷ operand.now) members window.now command) }
    ensures none { IfNone result (IsInstantWord word.now → (at : ℤ) → IsStampIn window.now at → operand.now ≢ stamp_text at) }
{
    let at = read_instant(operand, window)?;
    match word {
        "settle" => Some(Command::Settle { at }),
        "walk" => Some(Command::Walk { to: at }),
        _ => None,
    }
}

// round STAMP K, or free STAMP T
fn of_instant_and_count(word: &str, operands: &str, window: &Window) -> Option<Command>
    ensures read { IfSome result (λ command. (members : ℕ) → IsCommandLine (word.now ++ 32 ∷ operands.now) members window.now command) }
    ensures no_round { IfNone result (word.now ≡ codes "round" → (at : ℤ) (rounds : ℕ) → IsStampIn window.now at → IsCount 10_000 rounds
        → operands.now ≢ stamp_text at ++ 32 ∷ decimal rounds) }
    ensures no_free { IfNone result (word.now ≡ codes "free" → (at : ℤ) (turns : ℕ) → IsStampIn window.now at → IsCount 20_000 turns
        → operands.now ≢ stamp_text at ++ 32 ∷ decimal turns) }
{
    match word {
        "round" => {
            let (at, rounds) = read_instant_and_count(operands, window, MOST_ROUNDS)?;
            Some(Command::Round { at, rounds })
        }
        "free" => {
            let (at, turns) = read_instant_and_count(operands, window, MOST_TURNS)?;
            Some(Command::Free { at, turns })
        }
        _ => None,
    }
}
