// Values from a seeded generator (splitmix64).
ghost use Rattle.std.specs.Prelude.{◌≡◌, ◌≢◌, ◌%◌, ◌^◌, All, length};
ghost use Rattle.measuring.specs.Splitmix.{next_state, mixed, state_after, low_bytes, Drawn, DrawnInTurn};

use fields::tower::TowerLevel;

#[derive(Drop)]
pub struct Generator {
    pub state: u64,
}

impl Generator {
    pub fn number(&mut self) -> u64
        ensures state { self.new.state ≡ next_state self.old.state }
        ensures value { result ≡ mixed (next_state self.old.state) }
    {
        self.state = self.state.wrapping_add(0x9e37_79b9_7f4a_7c15);
        let mut z = self.state;
        z = (z ^ (z >> 30)).wrapping_mul(0xbf58_476d_1ce4_e5b9);
        z = (z ^ (z >> 27)).wrapping_mul(0x94d0_49bb_1331_11eb);
        z ^ (z >> 31)
    }

    // An element other than zero: one, where zero is drawn.
    pub fn element<F: TowerLevel>(&mut self) -> F
        ensures state { self.new.state ≡ next_state self.old.state }
        ensures nonzero { result ≢ F.Field.ops.zero }
        ensures value { Drawn F.Field.ops F.TowerLevel.level (mixed (next_state self.old.state)) result }
    {
        let x = F::from_number(self.number() as u128);
        if x == F::zero() { F::one() } else { x }
    }

    // Fills the buffer with elements, each from a number.
    #[tactic(auto, using(crate::proofs::Turns::one_later, crate::proofs::Turns::drawn_more, crate::proofs::Turns::nonzero_more))]
    pub fn fill_elements<F: TowerLevel>(&mut self, drawn: &mut [F])
        ensures state { self.new.state ≡ state_after self.old.state (length drawn.old) }
        ensures values { DrawnInTurn F.Field.ops F.TowerLevel.level self.old.state (length drawn.old) drawn.new }
        ensures nonzero { All (λ x. x ≢ F.Field.ops.zero) drawn.new }
    {
        for x in drawn.iter_mut() {
            *x = self.element();
        }
    }

    // Fills the buffer with bytes, each the low bits of a number.
    #[tactic(auto, using(crate::proofs::Turns::one_later, crate::proofs::Turns::byte_more))]
    pub fn fill_bytes(&mut self, drawn: &mut [u8])
        ensures state { self.new.state ≡ state_after self.old.state (length drawn.old) }
        ensures values { drawn.new ≡ low_bytes self.old.state (length drawn.old) }
    {
        for byte in drawn.iter_mut() {
            *byte = (self.number() % 256) as u8;
        }
    }
}
