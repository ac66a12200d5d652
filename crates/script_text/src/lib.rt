//! The commands of a script, each by the exact text of its line, without memory. `read_command` reads a line as the
//! command that it says in a run of N replicas over a window (`IsCommandLine`: `command_line`, `IsInRange`), and
//! answers with `None` exactly if it says none. A line says one command, whatever the run
//! (`a_line_says_one_command`); the line of each command in range is ASCII without a line feed
//! (`each_command_has_a_line`). `Limits` is what a script leaves of 1,000 commands, 100,000 rounds and 100,000 free
//! turns of each replica (`IsLeftBy`). `Limits::after` has what is left after one command more, and `None` exactly
//! if the script would go past a limit (clauses `left`, `none`; `a_script_within_its_limits_leaves_some`). What a
//! command does is no matter of this crate. `command` has the commands, `read` the forms of their lines, `operands`
//! what follows the first word.
#![tactic(auto)]

mod command;
mod laws;
mod limits;
mod operands;
mod read;

pub use command::{Command, FateWord};
pub use laws::{
    a_line_says_one_command, a_script_within_its_limits_leaves_some, each_command_has_a_line,
    each_instant_of_a_run_has_a_stamp,
};
pub use limits::Limits;
pub use read::read_command;
