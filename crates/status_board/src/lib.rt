//! A launch table that one writer shows to readers. `Board::start` makes the writer and one to eight readers, which
//! all see fresh rows before the log (`Starts`, `AreReadersOf`). `learn` applies the entry at the writer's prefix to
//! its rows, and says exactly whether it was the next (`Learns`); `install` takes the rows of a snapshot, exactly if
//! its base is above the prefix (`HasNext`). `publish` makes all of its states published, and gives their place
//! (`mark_of`). What a reader has seen is a list of states whose prefixes rise: `view` gives a state that is the
//! last of a list which begins with that one (`ViewsOn`); after `told` it begins with the states up to the mark too.
//! So a reader that knows a mark views that state or a later one. After running out of memory the writer can only be
//! ended, and what was published stays. All this is proved by the steps of the kit's `left_right` and `logbook`, as
//! those crates state them. `start`, `view`, `publish` and `end` may wait; that a view comes, or that readers wait
//! for nobody, isn't claimed. That `learn` and `install` find the word of the log as the writer left it is known by
//! reading alone. `past` has the log, `sheet` and `change` what is shown, `keeper` the writer's parts, `naming`
//! the rule by which a reader knows whose board it reads.
#![tactic(auto)]

mod board;
mod change;
mod keeper;
mod latest;
mod mark;
mod name;
mod naming;
mod past;
mod reader;
mod sheet;
mod shown;
mod writer;

pub use board::Board;
pub use mark::Mark;
pub use reader::{BoardReader, BoardView};
pub use shown::Shown;
pub use writer::BoardWriter;
