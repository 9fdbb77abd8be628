// The reduction of a zone, and the comparisons that can be left out of it.
ghost use Rattle.std.specs.Prelude.{◌≡◌};
ghost use Rattle.zones.specs.Ranges.{Ready, DiagonalReady};
ghost use Rattle.zones.specs.Reductions.{reduce_of, seen_with};
ghost use Rattle.zones.specs.Settled.{Lifted, Begun};

use crate::fraction::{Fraction, lower};
use crate::pair::Pair;
use crate::zone::Work;

// What a reduction leaves; of an empty zone, where work on it stopped. Such a zone has no valuation below `emptied`, which the safe
// fraction is lowered by.
#[derive(Clone, Copy)]
pub struct Reduced {
    pub work: Work,
    pub emptied: Option<Fraction>,
}

// A zone to be reduced, and how many indices it has: at most nine, with entries in the range in which no sum overflows. Square and size go by
// value, as document 01's fixed arrays do.
#[derive(Clone, Copy)]
pub struct Unreduced {
    pub work: Work,
    pub size: usize,
    pub ghost ready: { Ready work size },
}

// What the pairs of a diagonal show, with one more: the lowest of the thresholds of those with m below 0 against (0, 0), if there are any.
fn seen_with(seen: Option<Fraction>, q: Pair) -> Option<Fraction>
    requires { DiagonalReady seen q }
    ensures { result ≡ seen_with q seen }
{
    if q.m < 0 {
        let before = seen.unwrap_or(Fraction::NO_LIMIT);
        return Some(before.lowered(q.threshold(Pair::ZERO)));
    }
    seen
}

impl Unreduced {
    // The middle indices in order, up to the first that leaves the zone empty.
    #[tactic(auto, unfolding(crate::specs::Reductions::reduce_steps))]
    pub fn reduce(self) -> Reduced
        ensures { result ≡ reduce_of self.size self.work }
    {
        self.reduce_from(0)
    }

    // The same where the middle indices before `first` leave the zone as it is. The row of a middle index stays, so it is
    // left out. All loops stand in one function, so that the square is changed where it stands.
    #[tactic(auto, unfolding(crate::specs::Reductions::row_steps, crate::specs::Reductions::round_steps))]
    pub fn reduce_from(self, first: usize) -> Reduced
        requires { Begun self.size first self.work }
        ensures { result ≡ reduce_of self.size self.work }
    {
        let mut work = self.work;
        let mut emptied = None;
        for k in first..self.size {
            for i in 0..self.size {
                if i != k {
                    for j in 0..self.size {
                        let there = work.zone[i * 9 + j];
                        let choice = there.smaller(work.zone[i * 9 + k].sum(work.zone[k * 9 + j]));
                        // Lowered in either branch: a common end would cost a tenth of the time.
                        if choice.pair < there {
                            work.zone[i * 9 + j] = choice.pair;
                            lower(&mut work.fraction, choice.threshold);
                        } else {
                            lower(&mut work.fraction, choice.threshold);
                        }
                    }
                }
            }
            for d in 0..self.size {
                emptied = seen_with(emptied, work.zone[d * 9 + d]);
            }
            if emptied.is_some() {
                break;
            }
        }
        Reduced { work, emptied }
    }

    // The same where column 0 of a settled zone was raised: no comparison changes anything else, and the zone is not empty.
    // By `reduce` in its place a search executes a fifth more: 987 M instructions for 815 M with three clocks, 152 M for 126 M with eight.
    pub fn reduce_raised(self) -> Reduced
        requires { Lifted self.size self.work }
        ensures { result ≡ reduce_of self.size self.work }
    {
        let mut work = self.work;
        for k in 1..self.size {
            for i in 1..self.size {
                let there = work.zone[i * 9];
                let choice = there.smaller(work.zone[i * 9 + k].sum(work.zone[k * 9]));
                work.zone[i * 9] = choice.pair;
                lower(&mut work.fraction, choice.threshold);
            }
        }
        Reduced {
            work,
            emptied: None,
        }
    }
}
