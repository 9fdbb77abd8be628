// A verdict, and document 01's numbers for it: both directions, and which numbers are those of a verdict.
ghost use Rattle.std.specs.Prelude.{◌≡◌};
ghost use Rattle.search.specs.Verdicts.{fraction_of, holding_of, numbers_of, verdict_of, sound_numbers};

use crate::outcome::Dropped;
use zones::fraction::{Fraction, gcd};

// Up to which error an automaton holds: document 01's own enum, where an Option of a fraction would do.
#[derive(Clone, Copy)]
pub enum Holding {
    AnyError,
    Below(Fraction),
}

// Document 01's verdict.
#[derive(Clone, Copy)]
pub enum Verdict {
    Reached,
    Holds(Holding),
}

// A verdict with the number of zones kept: what is printed, and what a cache gives back.
#[derive(Clone, Copy)]
pub struct Answer {
    pub verdict: Verdict,
    pub zones: u32,
}

// What the bare search finds: an answer, which has the safe fraction, and beside it the exact fraction and the zones dropped.
#[derive(Clone, Copy)]
pub struct Findings {
    pub answer: Answer,
    pub exact: Fraction,
    pub dropped: Dropped,
}

// A verdict as numbers: its kind, as a record's byte, and the n and d of its fraction.
#[derive(Clone, Copy)]
pub struct Numbers {
    pub kind: u8,
    pub n: u64,
    pub d: u64,
}

const REACHED: u8 = 0;

const HOLDS: u8 = 1;

// Up to which error a fraction says that it holds.
impl From<Fraction> for Holding {
    ghost from_gives = { λ f h. h ≡ holding_of f };

    #[tactic(auto, unfolding(crate::specs::Verdicts::holding_of))]
    fn from(f: Fraction) -> Holding {
        if f.d == 0 {
            Holding::AnyError
        } else {
            Holding::Below(f)
        }
    }
}

// The fraction below which it holds: any error counts as 1/0.
impl From<Holding> for Fraction {
    ghost from_gives = { λ h f. f ≡ fraction_of h };

    fn from(h: Holding) -> Fraction {
        match h {
            Holding::AnyError => Fraction::NO_LIMIT,
            Holding::Below(f) => f,
        }
    }
}

// The numbers of a verdict.
impl From<Verdict> for Numbers {
    ghost from_gives = { λ v x. x ≡ numbers_of v };

    #[tactic(auto, unfolding(crate::specs::Verdicts::numbers_of))]
    fn from(v: Verdict) -> Numbers {
        match v {
            Verdict::Reached => Numbers {
                kind: REACHED,
                n: 0,
                d: 0,
            },
            Verdict::Holds(h) => {
                let f = Fraction::from(h);
                Numbers {
                    kind: HOLDS,
                    n: f.n,
                    d: f.d,
                }
            }
        }
    }
}

impl Numbers {
    // The verdict that numbers say: every kind but 0 counts as holding, and of sound numbers 1 is the only other. A method and no From, since
    // what it says of numbers that are not sound is nobody's verdict: callers ask `are_sound` first.
    #[tactic(auto, unfolding(crate::specs::Verdicts::verdict_of))]
    pub fn verdict(self) -> Verdict
        ensures { result ≡ verdict_of self }
    {
        if self.kind == REACHED {
            return Verdict::Reached;
        }
        Verdict::Holds(Holding::from(Fraction {
            n: self.n,
            d: self.d,
        }))
    }

    // Whether the numbers are those of a verdict.
    #[tactic(auto, unfolding(crate::specs::Verdicts::sound_numbers))]
    pub fn are_sound(self) -> bool
        ensures { result ≡ sound_numbers self }
    {
        if self.kind == REACHED {
            return self.n == 0 && self.d == 0;
        }
        if self.kind == HOLDS {
            return self.n != 0 && gcd(self.n, self.d) == 1;
        }
        false
    }
}
