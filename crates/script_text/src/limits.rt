//! The limits of a script.
ghost use Rattle.std.specs.Prelude.{◌≡◌, List, [], ◌∷◌, ◌++◌, IfSome, IfNone};
ghost use Rattle.script_text.specs.Script.{rounds_of, free_turns_of, IsScriptWithinLimits, IsLeftBy};
ghost use Rattle.script_text.specs.declared.command.Command.{Command};

use crate::command::Command;

/// What is left of a script's limits.
#[derive(Clone, Copy, Debug, PartialEq, Eq)]
pub struct Limits {
    /// Commands, of 1,000.
    pub commands: u32,
    /// Rounds, of 100,000.
    pub rounds: u32,
    /// Free turns of each replica, of 100,000.
    pub free_turns: u32,
}

impl Limits {
    /// What a script may have before its first command.
    pub fn whole() -> Limits
        ensures { IsLeftBy [] result }
    {
        Limits {
            commands: 1_000,
            rounds: 100_000,
            free_turns: 100_000,
        }
    }

    /// What is left behind one command more.
    ///
    /// `None` where that command goes past a limit.
    pub fn after(self, command: &Command) -> Option<Limits>
        ensures left { IfSome result (λ left. (script : List Command) → IsLeftBy script self → IsLeftBy (script ++ command.now ∷ []) left) }
        ensures none { IfNone result ((script : List Command) → IsLeftBy script self → IsScriptWithinLimits (script ++ command.now ∷ []) → ⊥) }
    {
        let commands = self.commands.checked_sub(1)?;
        let rounds = self.rounds.checked_sub(rounds_of(command))?;
        let free_turns = self.free_turns.checked_sub(free_turns_of(command))?;
        Some(Limits {
            commands,
            rounds,
            free_turns,
        })
    }
}

fn rounds_of(command: &Command) -> u32
    ensures { result ≡ rounds_of command.now }
{
    match *command {
        Command::Round { rounds, .. } => rounds,
        _ => 0,
    }
}

fn free_turns_of(command: &Command) -> u32
    ensures { result ≡ free_turns_of command.now }
{
    match *command {
        Command::Free { turns, .. } => turns,
        _ => 0,
    }
}
