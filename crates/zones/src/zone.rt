// A zone at work: the first one, reset, and a clock's limits met.
ghost use Rattle.std.specs.Prelude.{◌≡◌, ◌≤◌};
ghost use Rattle.zones.specs.Zones.{first_work, bounds_met, bounds_below, set_of, reset_of};
ghost use Rattle.zones.specs.Ranges.{LimitsReady};

use crate::fraction::{Fraction, lower};
use crate::pair::Pair;

// A square of pairs, nine to a row, and the running fraction: document 01's fixed array for up to nine indices, passed and returned by value.
#[derive(Clone, Copy)]
pub struct Work {
    pub zone: [Pair; 81],
    pub fraction: Fraction,
}

impl Work {
    // Document 01's first zone.
    #[tactic(auto, unfolding(crate::specs::Zones::first_work))]
    pub fn first() -> Work
        ensures { result ≡ first_work }
    {
        Work {
            zone: [Pair::ZERO; 81],
            fraction: Fraction::NO_LIMIT,
        }
    }

    // The rows and columns of the clocks that are marked become those of 0, in place: an entry that is read is that of two
    // indices which keep their rows and columns, so no turn changes it. Of what Unreduced carries this asks the size alone.
    // Inline, as two crates call it: else the search copies its square once more a step, and "chain, 1 clock" takes 4 % more instructions.
    #[inline]
    pub fn reset(self, size: usize, marked: [bool; 9]) -> Work
        requires { size ≤ 9 }
        ensures { result ≡ reset_of size (set_of marked) self }
    {
        let mut work = self;
        for i in 0..size {
            let a = if marked[i] { 0 } else { i };
            for j in 0..9 {
                let b = if marked[j] { 0 } else { j };
                let q = work.zone[a * 9 + b];
                work.zone[i * 9 + j] = q;
            }
        }
        work
    }
}

// A clock's entries (x, 0) and (0, x), with the running fraction. Limits are met on these,
// so that a loop over the clocks need not pass the whole square on for each.
#[derive(Clone, Copy)]
pub struct Bounds {
    pub upper: Pair,
    pub lower: Pair,
    pub fraction: Fraction,
}

impl Bounds {
    // The limits lo and hi of the clock are met; where there is no hi, lo alone.
    pub fn meet(self, lo: u32, hi: Option<u32>) -> Bounds
        requires { LimitsReady self lo hi }
        ensures { result ≡ bounds_met lo hi self }
    {
        let mut met = self;
        if let Some(hi) = hi {
            let choice = met.upper.smaller(Pair::at_most(hi));
            met.upper = choice.pair;
            lower(&mut met.fraction, choice.threshold);
        }
        let choice = met.lower.smaller(Pair::at_least(lo));
        met.lower = choice.pair;
        lower(&mut met.fraction, choice.threshold);
        met
    }

    // Whether one of the two entries is below the other's.
    #[tactic(auto, unfolding(crate::specs::Pairs::is_less, crate::specs::Zones::bounds_below))]
    pub fn is_below(self, o: Bounds) -> bool
        ensures { result ≡ bounds_below self o }
    {
        self.upper < o.upper || self.lower < o.lower
    }
}
