// The clocks of a state in whole time units with no loosening: whether one is within its limits, and what a wait and a reset leave.
ghost use Rattle.std.specs.Prelude.{◌≡◌, ◌≤◌, length};
ghost use Rattle.runs.specs.Limits.{scale};
ghost use Rattle.run_judge.specs.Clocks.{holds, waited, reset_by, marked_in, LowLent};

use automata::fields::{Limits, NO_UPPER};

// Whether a clock is within its limits.
// By `upper`, whose Option is made anew for each limit of each step, the judging of a run with eight clocks takes a third longer.
#[tactic(auto, unfolding(crate::specs::Clocks::holds))]
pub(crate) fn holds(limits: Limits, y: u64) -> bool
    ensures { result ≡ holds limits.lo limits.hi y }
{
    u64::from(limits.lo) <= y && (limits.hi == NO_UPPER || y <= u64::from(limits.hi))
}

// A wait adds its time units to the clocks.
#[tactic(auto, unfolding(crate::specs::Clocks::waited), using(crate::proofs::clocks::Showing::wait_turns))]
pub(crate) fn wait(clocks: &mut [u64], t: u64)
    requires { (t ≤ scale) × LowLent clocks.old }
    ensures { clocks.new ≡ waited t (length clocks.old) clocks.old }
{
    for c in clocks.iter_mut() {
        *c += t;
    }
}

// A jump puts those clocks to 0 that the edge resets, by clock from 1.
#[tactic(auto, unfolding(crate::specs::Clocks::reset_by), using(crate::proofs::clocks::Showing::reset_turns))]
pub(crate) fn reset(clocks: &mut [u64], resets: [bool; 9])
    requires { length clocks.old ≤ 8 }
    ensures { clocks.new ≡ reset_by (marked_in resets) (length clocks.old) clocks.old }
{
    for (x, c) in clocks.iter_mut().enumerate() {
        if resets[x + 1] {
            *c = 0;
        }
    }
}
