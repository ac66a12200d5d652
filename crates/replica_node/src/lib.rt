//! A replica on its disk. `Node::handle` plans a step, saves its change, and then takes the step, so no letter,
//! learned entry or call leaves before the change is safe: if it answers `Ok`, whatever a stop leaves of an honest
//! disk from then on stands for the state after the step (clauses `steps`, `safe`). If the disk stops or fails
//! within the call, nothing is handed out and the node doesn't run any more (`ended`); whatever a stop leaves stands
//! for what the replica kept before the step or for what it keeps after it (`images`, `recoverable`). Bytes that are
//! no letter are refused and the disk isn't touched (`fault`, `untouched`); after that and when memory runs out the
//! node is as it was (`refused`, `alike`). `recover` attaches a disk and starts the replica with what that keeps
//! (`started`, `stand`). `reopen` says whether the change of a stopped step was kept (`change`, `kept`, `lost`), as
//! the numbers of the arm say (`answer_by_arm`, `lost_by_arm`; `a_change_is_kept_by_the_numbers`); `attach_again`
//! starts the replica too. On a disk that is neither armed nor stopped and can't fail (`IsReliable`) `recover` and
//! `handle` answer with no stop and no fault of the disk (`unended`). A node needs a small replica and a clock
//! reading in the window. Over a disk that isn't honest nothing is said of images.
#![tactic(auto)]

mod change;
mod fault;
mod laws;
mod node;
mod reopen;
mod start;

pub use fault::NodeFault;
pub use laws::{
    a_base_is_kept_by_the_low_bit, a_change_is_kept_by_the_numbers, a_node_at_rest_is_recoverable,
    a_reliable_disk_is_unfailing_and_unarmed, a_step_leads_to_one_state,
};
pub use node::Node;
