//! The numbers that a session is drawn from.
ghost use Rattle.std.specs.Prelude.{◌≡◌, length};

use arrayvec::ArrayVec;

/// The bytes of a frame of either protocol.
pub type FrameBytes = ArrayVec<u8, 292>;

/// Numbers that are drawn one after the other from a seed: a linear congruential generator (Knuth,
/// MMIX). Each draw gives the high half of its state.
#[derive(Drop)]
pub struct Draws {
    state: u64,
}

impl Draws {
    ghost use Rattle.trial_session.specs.Draws.{next_state, drawn, draw_state_after, bytes_drawn};
    ghost use Rattle.trial_session.specs.Draws.{draw_state};

    /// A generator with this seed, from which nothing is drawn yet.
    pub fn new(seed: u32) -> Draws
        ensures { draw_state result ≡ seed }
    {
        Draws {
            state: u64::from(seed),
        }
    }

    /// Draws the next number.
    #[inline]
    pub fn draw(&mut self) -> u32
        /// The state becomes the next one of the generator.
        ensures state { draw_state self.new ≡ next_state (draw_state self.old) }
        /// The number is the high half of the new state.
        ensures value { result ≡ drawn (draw_state self.new) }
    {
        self.state = self
            .state
            .wrapping_mul(6_364_136_223_846_793_005)
            .wrapping_add(1_442_695_040_888_963_407);
        (self.state >> 32) as u32
    }

    /// Draws a byte for each of these places: the low byte of a draw.
    #[inline]
    pub fn draw_bytes(&mut self, places: &mut [u8])
        /// The state becomes that after as many draws as there are places.
        ensures state { draw_state self.new
            ≡ draw_state_after (length places.old) (draw_state self.old) }
        /// Each place gets the low byte of its draw.
        ensures bytes { places.new ≡ bytes_drawn (length places.old) (draw_state self.old) }
    {
        for place in places.iter_mut() {
            *place = (self.draw() % 256) as u8;
        }
    }
}
