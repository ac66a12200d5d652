//! A list of instants, some of which may be missing, whose least is known at once. Contracts see a `LeastTree` as
//! that list (`build`, `copy`, `len`, `get`, `set`): `set` changes one place and nothing else, `least` is the least
//! of all (`IsLeast`), and `first_at_most` the first place from another on whose instant is at most a limit
//! (`IsFirstAtMost`); `None` comes exactly if there is none (clauses `none`). `set` and `first_at_most` go over as
//! many nodes as the tree is high, which no contract says.
#![tactic(auto)]

mod nodes;
mod tree;

pub use tree::LeastTree;
