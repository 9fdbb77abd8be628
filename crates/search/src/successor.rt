// How a zone goes from location to location, with the limits fetched from the lent bytes.
ghost use Rattle.std.specs.Prelude.{◌≡◌, true, suc, ◌*◌, ◌<◌};
ghost use Rattle.zones.specs.Ranges.{Sized, OnScale, counts, step_counts};
ghost use Rattle.runs.specs.Limits.{scale};
ghost use Rattle.zones.specs.Settled.{Settled};
ghost use Rattle.zones.specs.Successors.{meet_of};
ghost use Rattle.zones.specs.Zones.{raise_limits, set_of};
ghost use Rattle.automata.specs.Automata.{clocks, locations, limits_at};
ghost use Rattle.search.specs.Exploring.{arrival_of};
ghost use Rattle.search.specs.Meeting.{MetBy};

use automata::constraint::Constraint;
use automata::opened::Automaton;
use zones::pair::Pair;
use zones::reduction::{Reduced, Unreduced};
use zones::zone::{Bounds, Work};

// A zone on which limits were met, and whether it is known to be settled: the zone counts either way, so no Option says it. `meet` and `narrow`
// take the two apart: each caller of `narrow` has the zone alone, and writes the other as a constant.
#[derive(Clone, Copy)]
struct Met {
    work: Work,
    settled: bool,
}

// The limits are met, clock by clock. A settled zone stays settled where they lower no entry.
fn meet(constraint: &Constraint, w: Work, settled: bool) -> Met
    requires on_scale { OnScale scale constraint.now.clocks (limits_at constraint.now.bytes.now constraint.now.at)
        × Sized step_counts (suc constraint.now.clocks) w }
    ensures { MetBy (limits_at constraint.now.bytes.now constraint.now.at) constraint.now.clocks w «settled» result }
{
    let mut work = w;
    let mut same = settled;
    for x in 1..constraint.clocks + 1 {
        let limits = constraint.limits(x);
        let there = Bounds {
            upper: work.zone[x * 9],
            lower: work.zone[x],
            fraction: work.fraction,
        };
        let met = there.meet(limits.lo, limits.upper());
        if met.is_below(there) {
            same = false;
        }
        work.zone[x * 9] = met.upper;
        work.zone[x] = met.lower;
        work.fraction = met.fraction;
    }
    Met {
        work,
        settled: same,
    }
}

// The limits are met, and the zone is reduced. A settled zone is its own reduction: every middle index is left out.
pub fn narrow(constraint: &Constraint, w: Work, settled: bool) -> Reduced
    requires on_scale { OnScale scale constraint.now.clocks (limits_at constraint.now.bytes.now constraint.now.at)
        × Sized step_counts (suc constraint.now.clocks) w }
    requires settled { «settled» ≡ true → Settled (suc constraint.now.clocks) w }
    ensures { result ≡ meet_of constraint.now.clocks (limits_at constraint.now.bytes.now constraint.now.at) w }
{
    let size = constraint.clocks + 1;
    let met = meet(constraint, w, settled);
    // The first middle index that counts: with a branch of its own that gives a settled zone back, a search of 3 clocks took 2.8 in a hundred
    // instructions more, and one of 8 clocks 3.9.
    let first = if met.settled { size } else { 0 };
    let unreduced = Unreduced {
        work: met.work,
        size,
    };
    unreduced.reduce_from(first)
}

// Each entry (clock, 0) is put to (hi, 1), hi among the limits: in place, since by value the compiler copies the square
// twice more, and small searches take up to 18 % longer.
fn raise(constraint: &Constraint, work: &mut Work)
    ensures { work.new ≡ raise_limits (limits_at constraint.now.bytes.now constraint.now.at) constraint.now.clocks work.old }
{
    for x in 1..constraint.clocks + 1 {
        work.zone[x * 9] = Pair::at_most(constraint.limits(x).hi);
    }
}

// The zone, which is settled, enters location l after a reset.
pub(crate) fn enter(automaton: &Automaton, l: usize, w: Work, resets: [bool; 9]) -> Reduced
    requires there { l < locations automaton.now.bytes.now }
    requires sized { Sized (10 * counts) (suc (clocks automaton.now.bytes.now)) w × Settled (suc (clocks automaton.now.bytes.now)) w }
    ensures { result ≡ arrival_of automaton.now.bytes.now l (set_of resets) w }
{
    let size = automaton.clocks + 1;
    let invariant = automaton.invariant(l);
    let mut met = narrow(&invariant, w.reset(size, resets), true);
    if met.emptied.is_some() {
        return met;
    }
    raise(&invariant, &mut met.work);
    let raised = Unreduced {
        work: met.work,
        size,
    };
    raised.reduce_raised()
}
