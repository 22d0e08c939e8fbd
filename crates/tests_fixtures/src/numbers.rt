/// Numbers as if drawn, by a linear congruence.
#[derive(Drop)]
pub struct Numbers {
    state: u64,
}

impl Numbers {
    /// Numbers that begin at a state.
    pub fn new(state: u64) -> Numbers {
        Numbers { state }
    }

    /// A number below the end, or 0 where the end is 0.
    pub fn below(&mut self, end: u64) -> u64 {
        self.state = self
            .state
            .wrapping_mul(6_364_136_223_846_793_005)
            .wrapping_add(1_442_695_040_888_963_407);
        let drawn = self.state >> 33;
        if end == 0 { 0 } else { drawn % end }
    }
}
