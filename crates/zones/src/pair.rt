// Pairs, how one stands to another, and the threshold of a comparison.
ghost use Rattle.std.specs.Prelude.{◌≡◌, ◌≤ℤ◌};
ghost use Rattle.std.proofs.Common.{rules};
ghost use Rattle.std.specs.Cmp.{partial_order_from_own_ties};
ghost use Rattle.std.specs.Cmp.Rules.{comparing};
ghost use Rattle.std.specs.Ordering.{as_partial_cmp};
ghost use Rattle.zones.specs.Fractions.{lowered_by};
ghost use Rattle.zones.specs.Pairs.{compare_of, at_most, at_least, sum_of, threshold_of, smaller_of};
ghost use Rattle.zones.specs.Ranges.{Small, Fits32, ChoiceReady};

use crate::fraction::Fraction;
use std::cmp::Ordering;

// A pair stands for m + p × error. Of two pairs the smaller has the smaller m; at equal m, the smaller p.
// What adds and subtracts asks Small: a sum of two Small pairs need not be Small, so with Small in the type `sum` would still ask for its result's.
#[derive(Clone, Copy, PartialEq, Eq)]
pub struct Pair {
    pub m: i64,
    pub p: u64,
}

// Written out, as a derived order would cost a reduction two thirds more time.
impl Ord for Pair {
    ghost cmp = { compare_of };

    ghost total = { Prim.search (comparing, rules) };

    ghost matches_partial_cmp = { Prim.search (comparing, rules) };

    ghost matches_eq = { Prim.search (comparing, rules) };

    fn cmp(&self, other: &Pair) -> Ordering {
        if self.m < other.m {
            return Ordering::Less;
        }
        if other.m < self.m {
            return Ordering::Greater;
        }
        if self.p < other.p {
            return Ordering::Less;
        }
        if other.p < self.p {
            return Ordering::Greater;
        }
        Ordering::Equal
    }
}

impl PartialOrd for Pair {
    ghost partial_cmp = { as_partial_cmp compare_of };

    ghost laws = { partial_order_from_own_ties (Prim.search (comparing, rules)) (Prim.search (comparing, rules)) };

    fn partial_cmp(&self, other: &Pair) -> Option<Ordering> {
        Some(self.cmp(other))
    }
}

// The smaller of two pairs, and the comparison's threshold.
#[derive(Clone, Copy)]
pub(crate) struct Choice {
    pub pair: Pair,
    pub threshold: Fraction,
}

impl Pair {
    pub const ZERO: Pair = Pair { m: 0, p: 0 };

    // An upper limit hi, loosened by the error.
    pub fn at_most(hi: u32) -> Pair
        ensures { result ≡ at_most hi }
    {
        Pair {
            m: i64::from(hi),
            p: 1,
        }
    }

    // A lower limit lo, as a bound on 0 less the clock. One function for both limits would take a sign, and be no plainer.
    pub(crate) fn at_least(lo: u32) -> Pair
        ensures { result ≡ at_least lo }
    {
        Pair {
            m: -i64::from(lo),
            p: 1,
        }
    }

    // Entry by entry.
    #[tactic(auto, unfolding(crate::specs::Pairs::sum_of))]
    pub(crate) fn sum(self, o: Pair) -> Pair
        requires { Small self × Small o }
        ensures { result ≡ sum_of self o }
    {
        Pair {
            m: self.m + o.m,
            p: self.p + o.p,
        }
    }

    // The threshold of a comparison in which this pair was chosen and o was not.
    #[tactic(auto, unfolding(crate::specs::Pairs::threshold_of))]
    pub(crate) fn threshold(self, o: Pair) -> Fraction
        requires { Small self × Small o × (self.m ≤ℤ o.m) }
        ensures { result ≡ threshold_of self o }
    {
        if o.p < self.p {
            Fraction {
                // By abs_diff, which tests the sign, a reduction would cost a fifth more time.
                n: (o.m - self.m) as u64,
                d: self.p - o.p,
            }
        } else {
            Fraction::NO_LIMIT
        }
    }

    // The smaller of this pair, which is there, and o.
    #[tactic(auto, unfolding(crate::specs::Pairs::is_less, crate::specs::Pairs::smaller_of))]
    pub(crate) fn smaller(self, o: Pair) -> Choice
        requires { Small self × Small o }
        ensures { result ≡ smaller_of self o }
    {
        if o < self {
            Choice {
                pair: o,
                threshold: o.threshold(self),
            }
        } else {
            Choice {
                pair: self,
                threshold: self.threshold(o),
            }
        }
    }
}

impl Fraction {
    // The running fraction after a comparison in which `chosen` was chosen and `other` was not.
    #[tactic(auto, using(crate::proofs::ranges::Ranges::bounded_small, crate::proofs::ranges::Ranges::last_narrow))]
    pub fn after_choice(self, chosen: Pair, other: Pair) -> Fraction
        requires { Fits32 self × ChoiceReady chosen other }
        ensures { result ≡ lowered_by self (threshold_of chosen other) }
    {
        self.lowered(chosen.threshold(other))
    }
}
