// A state in whole time units with no loosening, and the test of its clocks.
ghost use Rattle.std.specs.Prelude.{◌≡◌};
ghost use Rattle.run_judge.specs.Clocks.{within_at};

use crate::clocks::holds;
use automata::constraint::Constraint;

// A location and eight clocks, clock 1 first, of which those of the automaton count: a length beside each would say that again. It is no valuation
// of witness, whose clocks are on the scale: a wait that is judged may pass it.
#[derive(Clone, Copy)]
pub(crate) struct State {
    pub location: usize,
    pub clocks: [u64; 8],
}

impl State {
    // Whether the clocks are within an invariant or a guard.
    pub(crate) fn is_within(&self, constraint: &Constraint) -> bool
        ensures { result ≡ within_at constraint.now.bytes.now constraint.now.at self.now.clocks constraint.now.clocks }
    {
        (0..constraint.clocks).all(|x| holds(constraint.limits(x + 1), self.clocks[x]))
    }
}
