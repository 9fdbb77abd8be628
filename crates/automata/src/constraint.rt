// An invariant or a guard, whose limits are fetched from the bytes of the automaton.
ghost use Rattle.std.specs.Prelude.{◌+◌, ◌*◌, ◌≤◌, length};

use crate::fields::Limits;

// The limits of `clocks` clocks, as they stand at a place.
#[derive(Clone, Copy)]
pub struct Constraint<'a> {
    pub bytes: &'a [u8],
    pub at: usize,
    pub clocks: usize,
    pub ghost there: { (clocks ≤ 8) × (at + 8 * clocks ≤ length bytes.now) },
}

impl<'a> Constraint<'a> {
    ghost use Rattle.std.specs.Prelude.{◌≡◌, ◌<◌};
    ghost use Rattle.automata.specs.Opened.{limits_of};

    // The limits of clock x, counted from 1.
    pub fn limits(&self, x: usize) -> Limits
        requires { (0 < x) × (x ≤ self.now.clocks) }
        ensures { result ≡ limits_of self.now.bytes.now self.now.at x }
    {
        Limits::read(self.bytes, self.at, x)
    }
}
