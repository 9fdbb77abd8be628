// The search as it stands, and why it stops.
ghost use Rattle.std.specs.Prelude.{◌≡◌};
ghost use Rattle.zones.specs.Ranges.{Fits32};
ghost use Rattle.search.specs.Outcomes.{outcome_of, has_ended, Few, most_offers, dropped_with, emptied_by, contained_by, refused_by};

use automata::refusals::Refusal;
use slots::containment::Inside;
use slots::slot::Origin;
use zones::fraction::Fraction;

// A search that goes on, or has stopped: at the target, by a zone of the origin told, or by a refusal. One that goes on when
// no zone is left to take holds. The definition's three cases, and no ControlFlow of turns with `?`: the counts of a turn are read whichever it
// is, so that both arms would hold them. A caller of `findings` may refuse by what it likes, any number too; the search refuses by the table.
#[derive(Clone, Copy)]
pub enum Outcome<R = Refusal> {
    Going,
    Reached(Origin),
    Refused(R),
}

// How many zones were dropped by containment: as again, of which every pair equals that of the kept zone, and as inside.
#[derive(Clone, Copy)]
pub struct Dropped {
    pub again: u64,
    pub inside: u64,
}

impl Dropped {
    // Before any zone was dropped.
    pub const NONE: Dropped = Dropped {
        again: 0,
        inside: 0,
    };

    // With one zone more. `Few` is asked where one is added, and is no ghost field: how many a step may have dropped grows with the search.
    #[tactic(auto, unfolding(crate::specs::Outcomes::dropped_with))]
    fn with(self, equal: bool) -> Dropped
        requires { Few most_offers self }
        ensures { result ≡ dropped_with self equal }
    {
        if equal {
            Dropped {
                again: self.again + 1,
                ..self
            }
        } else {
            Dropped {
                inside: self.inside + 1,
                ..self
            }
        }
    }
}

// The number of kept zones, the exact and the safe fraction, the zones dropped, and the outcome so far.
#[derive(Clone, Copy)]
pub struct Turn<R = Refusal> {
    pub count: usize,
    pub exact: Fraction,
    pub safe: Fraction,
    pub dropped: Dropped,
    pub outcome: Outcome<R>,
}

impl Turn {
    // Whether the search has stopped.
    #[tactic(auto, unfolding(crate::specs::Outcomes::outcome_of, crate::specs::Outcomes::has_ended))]
    pub(crate) fn has_ended(self) -> bool
        ensures { result ≡ has_ended (outcome_of self.outcome) }
    {
        match self.outcome {
            Outcome::Going => false,
            Outcome::Reached(_) | Outcome::Refused(_) => true,
        }
    }

    // The search goes on after an empty zone: the exact fraction is as told, the safe one lowered by `below`.
    pub(crate) fn emptied(self, exact: Fraction, below: Fraction) -> Turn
        requires { Fits32 self.safe × Fits32 below }
        ensures { result ≡ emptied_by self exact below }
    {
        Turn {
            exact,
            safe: self.safe.lowered(below),
            outcome: Outcome::Going,
            ..self
        }
    }

    // The search goes on after a zone that was dropped inside a kept one: the test's lowest threshold lowers both fractions.
    pub(crate) fn contained(self, exact: Fraction, inside: Inside) -> Turn
        requires { Fits32 exact × Fits32 self.safe × Fits32 inside.below × Few most_offers self.dropped }
        ensures { result ≡ contained_by self exact inside }
    {
        Turn {
            exact: exact.lowered(inside.below),
            safe: self.safe.lowered(inside.below),
            dropped: self.dropped.with(inside.equal),
            outcome: Outcome::Going,
            ..self
        }
    }

    // The search is refused by k, the exact fraction being as told.
    pub(crate) fn refused(self, exact: Fraction, k: Refusal) -> Turn
        ensures { result ≡ refused_by self exact k }
    {
        Turn {
            exact,
            outcome: Outcome::Refused(k),
            ..self
        }
    }
}
