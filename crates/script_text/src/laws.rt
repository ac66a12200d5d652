ghost use Rattle.std.specs.Prelude.{◌≡◌, ◌≢◌, ◌<◌, ◌^◌, ℕ, ℤ, List};
ghost use Rattle.std.specs.List.{AllByRecursion};
ghost use Rattle.std.specs.Str.{IsAscii};
ghost use Rattle.zone_minutes.specs.Window.{IsInWindow, IsWithinLimits};
ghost use Rattle.zone_minutes.specs.declared.minute.Window.{Window};
ghost use Rattle.script_text.specs.Command.{command_line, IsStampIn, IsInRange, IsCommandLine};
ghost use Rattle.script_text.specs.Script.{IsScriptWithinLimits, IsLeftBy, HasLeft};
ghost use Rattle.script_text.specs.declared.command.Command.{Command};
ghost use Rattle.script_text.specs.declared.limits.Limits.{Limits};

/// A law: a line says one command, whatever the run.
pub fn a_line_says_one_command()
    ensures { (line : List ℕ) (m n : ℕ) (v w : Window) (a b : Command) → m < 2 ^ 8 → n < 2 ^ 8
        → IsCommandLine line m v a → IsCommandLine line n w b → a ≡ b }
{}

/// A law: each command that is in range has a line that a text can have, of ASCII and without a line feed.
pub fn each_command_has_a_line()
    ensures ascii { (members : ℕ) (window : Window) (command : Command) → members < 2 ^ 8
        → IsInRange members window command → IsAscii (command_line command) }
    ensures one_line { (members : ℕ) (window : Window) (command : Command) → members < 2 ^ 8
        → IsInRange members window command → AllByRecursion (λ byte. byte ≢ 10) (command_line command) }
{}

/// A law: a stamp can say each instant of a window that is within the limits of a run.
pub fn each_instant_of_a_run_has_a_stamp()
    ensures { (window : Window) (instant : ℤ) → IsWithinLimits window → IsInWindow window instant → IsStampIn window instant }
{}

/// A law: a script is within its limits exactly where it leaves something of them, be it 0.
pub fn a_script_within_its_limits_leaves_some()
    ensures left { (script : List Command) → IsScriptWithinLimits script → HasLeft script }
    ensures within { (script : List Command) (left : Limits) → IsLeftBy script left → IsScriptWithinLimits script }
{}
