// The zone of a slot on its way along an edge, in whole time units with no loosening, and a step back. Squares and sets of clocks are
// document 01's fixed arrays, passed by value.
ghost use Rattle.std.specs.Prelude.{◌≡◌};
ghost use Rattle.std.proofs.Props.{props};
ghost use Rattle.run_writer.specs.Crossing.{Leaves};

use automata::opened::Automaton;
use search::successor::narrow;
use slots::slot::decode;
use witness::{Back, Crossing, Square, Valuation};
use zones::fraction::Fraction;
use zones::reduction::Reduced;
use zones::zone::Work;

// A jump: its edge, and the slot of the kept zone from which it is made.
#[derive(Clone, Copy)]
pub(crate) struct Jump<'a> {
    pub(crate) automaton: Automaton<'a>,
    pub(crate) edge: usize,
    pub(crate) slot: &'a [i32],
    pub(crate) ghost leaves: { Leaves automaton.bytes.now edge slot.now } by { Prim.hlevel props },
}

impl<'a> Jump<'a> {
    ghost use Rattle.witness.specs.Told.{step_of};
    ghost use Rattle.run_writer.specs.Jumps.{guarded_over, CrossedOver, back_over, landing_over};

    // The zone meets the guard.
    fn guarded(self) -> Reduced
        ensures { result ≡ guarded_over self.entry }
    {
        let w = Work {
            zone: decode(self.slot, self.automaton.clocks + 1),
            fraction: Fraction::NO_LIMIT,
        };
        narrow(&self.automaton.guard(self.edge), w, false)
    }

    // The zone on its way along the edge. Reset and invariant are the first half of search's `enter`: one call around two, were it shared.
    // Arrays that are fields are named first: the check reads no literal that takes one from another value.
    fn cross(self) -> Crossing
        ensures { CrossedOver self.entry result }
    {
        let size = self.automaton.clocks + 1;
        let edge = self.automaton.edge(self.edge);
        let resets = edge.resets;
        let before = self.guarded().work;
        let invariant = self.automaton.invariant(edge.to);
        let after = narrow(&invariant, before.reset(size, resets), true).work;
        let pairs = before.zone;
        let guarded = Square { pairs, size };
        let pairs = after.zone;
        let arrived = Square { pairs, size };
        Crossing {
            guarded,
            arrived,
            resets,
        }
    }

    // The step back over it, from the valuation v of the zone's successor.
    #[tactic(auto, using(crate::proofs::crossing::Along::back_is))]
    pub(crate) fn back(self, v: Valuation) -> Back
        ensures { step_of result ≡ back_over self.entry v.clocks }
    {
        self.cross().step_back(v)
    }

    // A valuation with which it arrives.
    #[tactic(auto, using(crate::proofs::crossing::Along::landing_is))]
    pub(crate) fn landing(self) -> Valuation
        ensures { result.clocks ≡ landing_over self.entry }
    {
        self.cross().arrived.landing()
    }
}
