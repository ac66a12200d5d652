//! Numbers that a seed draws, one after another.
ghost use Rattle.std.specs.Prelude.{◌≡◌, ◌<◌, ◌/◌, ◌%◌, ◌^◌};
ghost use Rattle.generated_run.specs.Draws.{next_state};

const FACTOR: u64 = 6_364_136_223_846_793_005;

const SUMMAND: u64 = 1_442_695_040_888_963_407;

/// A linear congruential generator of 64 bits, of which each draw has the upper 31.
#[derive(Clone, Copy, Debug, PartialEq, Eq)]
pub struct Draws {
    /// The state behind the last draw, or the seed.
    pub state: u64,
}

impl Draws {
    /// The draws of a seed.
    pub fn new(seed: u32) -> Draws
        ensures { result.state ≡ seed }
    {
        Draws {
            state: u64::from(seed),
        }
    }

    /// The next number below that one.
    #[tactic(auto, unfolding(crate::specs::Draws::next_state))]
    pub fn below(&mut self, limit: u32) -> u32
        requires { 0 < limit }
        ensures state { self.new.state ≡ next_state self.old.state }
        ensures value { result ≡ self.new.state / 2 ^ 33 % limit }
        ensures within { result < limit }
    {
        self.state = self.state.wrapping_mul(FACTOR).wrapping_add(SUMMAND);
        (self.state / (1 << 33) % u64::from(limit)) as u32
    }
}
