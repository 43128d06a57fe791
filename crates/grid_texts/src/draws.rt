ghost use Rattle.std.specs.Prelude.{◌≡◌};
ghost use Rattle.grid_texts.specs.Draws.{state_after, draw};

/// The draws of a seed, one after another.
#[derive(Drop)]
pub(crate) struct Draws {
    pub(crate) state: u64,
}

impl Draws {
    pub(crate) fn new(seed: u64) -> Self
        ensures { result.state ≡ seed }
    {
        Draws { state: seed }
    }

    /// The next draw, below 2^31.
    #[tactic(auto, unfolding(crate::specs::Draws::state_after, crate::specs::Draws::next_state))]
    pub(crate) fn draw(&mut self) -> u64
        ensures value { result ≡ draw self.old.state 1 }
        ensures state { self.new.state ≡ state_after self.old.state 1 }
    {
        self.state = self
            .state
            .wrapping_mul(6_364_136_223_846_793_005)
            .wrapping_add(1_442_695_040_888_963_407);
        self.state >> 33
    }
}
