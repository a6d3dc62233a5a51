//! A generator of numbers that look random.
ghost use Rattle.std.specs.Prelude.{◌≡◌, ◌<◌};
ghost use Rattle.study.specs.declared.limits.TheConstants.{MODULUS};

use crate::limits::{MODULUS, MULTIPLIER};

/// The multiplicative generator of Lewis, Goodman and Miller (1969), the minimal standard of Park
/// and Miller (1988).
#[derive(Drop)]
pub(crate) struct Generator {
    pub(crate) state: u64,
    ghost within: { state < MODULUS },
}

impl Generator {
    ghost use Rattle.study.specs.Draws.{draw, next_state};

    /// A generator at this state.
    pub(crate) fn new(state: u32) -> Generator
        requires { state < MODULUS }
        ensures { result.state ≡ state }
    {
        Generator {
            state: u64::from(state),
        }
    }

    /// The next number that is drawn, below `range`.
    pub(crate) fn draw(&mut self, range: u32) -> u32
        requires { 0 < range }
        ensures state { self.new.state ≡ next_state self.old.state }
        ensures value { result ≡ draw self.old.state 0 range }
    {
        self.state = MULTIPLIER * self.state % MODULUS;
        (self.state % u64::from(range)) as u32
    }
}
