//! Where threads may be held.

/// Where the thread of a replica may be held before a turn. It holds no ticket then, so others take their turns.
pub trait TurnGate {
    /// The turn of that number, from 0, of a replica is about to come.
    fn pass(&self, member: u8, turn: u32);
}

/// A gate that never holds anybody.
#[derive(Clone, Copy, Debug)]
pub struct OpenGate;

impl TurnGate for OpenGate {
    fn pass(&self, _member: u8, _turn: u32) {}
}
