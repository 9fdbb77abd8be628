// The step back through zones: from a valuation of a successor, the wait before it and a valuation before the jump.
// Squares are document 01's fixed arrays "for up to nine indices", by value; valuations and sets of clocks have the same nine places, of which the
// square's size counts.
#![tactic(auto)]

ghost use Rattle.std.specs.Prelude.{◌≡◌, ◌-◌, ◌*◌, ◌<◌, ◌≤◌, replicate};
ghost use Rattle.runs.specs.Limits.{scale};
ghost use Rattle.zones.specs.Zones.{set_of};
ghost use Rattle.witness.specs.Sizes.{AllUpTo, Spans};
ghost use Rattle.witness.specs.Witnesses.{wait_to, earlier_of, least_to, valuation_before, landing_of, back_of};

use zones::pair::Pair;

// A valuation, clock x at place x: none is above the scale.
#[derive(Clone, Copy)]
pub struct Valuation {
    pub clocks: [u64; 9],
    pub ghost up_to: { AllUpTo scale clocks },
}

// The square of a zone of `size` indices, on the scale.
#[derive(Clone, Copy)]
pub struct Square {
    pub pairs: [Pair; 81],
    pub size: usize,
    pub ghost few: { size ≤ 9 },
    pub ghost spans: { Spans scale size pairs },
}

// A zone on its way along an edge: the square that met the guard, the one that met the invariant after the reset, and the clocks
// that are reset.
#[derive(Clone, Copy)]
pub struct Crossing {
    pub guarded: Square,
    pub arrived: Square,
    pub resets: [bool; 9],
    pub ghost same: { guarded.size ≡ arrived.size },
}

// The wait before a valuation, and the valuation before the jump that the wait follows.
#[derive(Clone, Copy)]
pub struct Back {
    pub wait: u64,
    pub valuation: Valuation,
    pub ghost short: { wait ≤ 2 * scale },
}

impl Valuation {
    // All clocks at 0.
    pub fn start() -> Valuation
        ensures { result.clocks ≡ replicate 9 0 }
    {
        Valuation { clocks: [0; 9] }
    }

    // The valuation before the wait, of the clocks of a square of that size.
    #[tactic(auto, unfolding(crate::specs::Witnesses::places_of), using(crate::proofs::Turns::valuation_next))]
    fn earlier(self, wait: u64, size: usize) -> Valuation
        requires { size ≤ 9 }
        ensures { result.clocks ≡ earlier_of self.clocks wait (size - 1) }
    {
        let mut clocks = [0; 9];
        for x in 1..size {
            clocks[x] = self.clocks[x].saturating_sub(wait);
        }
        Valuation { clocks }
    }
}

impl Square {
    // A valuation of it: each clock at its least.
    #[tactic(auto, unfolding(crate::specs::Witnesses::places_of), using(crate::proofs::Parts::row_less, crate::proofs::Turns::valuation_next))]
    pub fn landing(self) -> Valuation
        ensures { result.clocks ≡ landing_of self.pairs self.size }
    {
        let mut clocks = [0; 9];
        for x in 1..self.size {
            clocks[x] = 0_u64.saturating_sub_signed(self.pairs[x].m);
        }
        Valuation { clocks }
    }

    // The most by which a clock of v is above its bound: the shortest wait that may have led there.
    #[tactic(auto, unfolding(crate::specs::Witnesses::wait_to), using(crate::proofs::Parts::column_less, crate::proofs::Turns::wait_next))]
    fn wait_before(self, v: Valuation) -> u64
        ensures { result ≡ wait_to v.clocks self.pairs (self.size - 1) }
    {
        let mut wait: u64 = 0;
        for x in 1..self.size {
            wait = wait.max(v.clocks[x].saturating_sub_signed(self.pairs[x * 9].m));
        }
        wait
    }

    // The valuation before the jump that resets and leaves u.
    #[tactic(auto, unfolding(crate::specs::Witnesses::places_of), using(crate::proofs::Turns::valuation_next))]
    fn valuation_before(self, u: Valuation, resets: [bool; 9]) -> Valuation
        ensures { result.clocks ≡ valuation_before u.clocks self.pairs (set_of resets) (self.size - 1) }
    {
        let mut clocks = [0; 9];
        for x in 1..self.size {
            clocks[x] = self.clock_before(u, resets, x);
        }
        Valuation { clocks }
    }

    // Clock x of it.
    #[tactic(auto, unfolding(crate::specs::Witnesses::least_to), using(crate::proofs::Parts::column_plus))]
    fn clock_before(self, u: Valuation, resets: [bool; 9], x: usize) -> u64
        requires { x < self.size }
        ensures { result ≡ least_to u.clocks self.pairs (set_of resets) x (self.size - 1) }
    {
        let mut least = 0_u64.saturating_add_signed(self.pairs[x * 9].m);
        for b in 1..self.size {
            if !resets[b] {
                least = least.min(u.clocks[b].saturating_add_signed(self.pairs[x * 9 + b].m));
            }
        }
        least
    }
}

impl Crossing {
    ghost use Rattle.witness.specs.Told.{step_of};

    // One step back from the valuation v of the successor.
    #[tactic(auto, unfolding(crate::specs::Witnesses::back_of))]
    pub fn step_back(self, v: Valuation) -> Back
        ensures { step_of result ≡ back_of v.clocks self.arrived.pairs self.guarded.pairs (set_of self.resets) self.arrived.size }
    {
        let wait = self.arrived.wait_before(v);
        let u = v.earlier(wait, self.arrived.size);
        let valuation = self.guarded.valuation_before(u, self.resets);
        Back { wait, valuation }
    }
}
