// The branch that led to a zone, walked from its end back over the slots of the store.
ghost use Rattle.std.specs.Prelude.{◌≡◌, ◌++◌, ◌+◌, ◌*◌, ◌≤◌, ◌<◌, length, drop, set, pos};
ghost use Rattle.runs.specs.Written.{written};
ghost use Rattle.run_writer.specs.Branch.{Stands};

use crate::crossing::Jump;
use automata::opened::Automaton;
use slots::slot::{Origin, origin_of, slot_length};
use witness::Valuation;

// The branch to a zone of this origin, in the store where a search has ended: its jumps, from the last one back.
#[derive(Clone, Copy)]
pub(crate) struct Branch<'a> {
    pub(crate) automaton: Automaton<'a>,
    pub(crate) store: &'a [i32],
    pub(crate) origin: Origin,
    pub(crate) ghost stands: { ∥ Stands automaton.bytes.now store.now origin ∥₁ },
}

impl<'a> Iterator for Branch<'a> {
    ghost use Rattle.std.specs.Iterator.{at_most};
    ghost use Rattle.run_writer.specs.Walks.{jumps_left, Walks};

    type Item = Jump<'a>;

    ghost next_gives = { Walks };

    ghost remaining = { λ x. at_most (jumps_left x) };

    fn next(&mut self) -> Option<Jump<'a>> {
        let origin = self.origin;
        if !origin.is_along() {
            return None;
        }
        let stride = slot_length(self.automaton.clocks + 1);
        // By its place: `chunks_exact(stride).nth(..)` would give an Option, which is never None.
        let slot = &self.store[origin.slot() * stride..];
        self.origin = origin_of(slot);
        Some(Jump {
            automaton: self.automaton,
            edge: origin.edge(),
            slot,
        })
    }
}

// Two numbers of the run become a and b. They are cast, here and where an edge or a count is handed in, as std has no From for these types.
fn put_two(run: &mut [i64], at: usize, a: u64, b: u64)
    requires { (at + 2 ≤ length run.old) × (a < 9223372036854775808) × (b < 9223372036854775808) }
    ensures { run.new ≡ set (set run.old at (pos a)) (at + 1) (pos b) }
{
    run[at] = a as i64;
    run[at + 1] = b as i64;
}

impl<'a> Branch<'a> {
    ghost use Rattle.run_writer.specs.Walks.{jumps_left, last_left, run_left};

    // How many jumps lead to the zone.
    pub(crate) fn jumps(self) -> usize
        ensures { result ≡ jumps_left self.entry }
    {
        self.count()
    }

    // The last valuation of the run to the zone.
    #[tactic(auto, unfolding(reachability::specs::Witnesses::last_state))]
    fn last_state(mut self) -> Valuation
        ensures { result.clocks ≡ last_left self.entry }
    {
        match self.next() {
            Some(jump) => jump.landing(),
            None => Valuation::start(),
        }
    }

    // The run to the zone, to which k jumps lead, is written from its end back. The caller has counted k for the buffer's length: a walk of its own.
    pub(crate) fn write_back(self, run: &mut [i64], k: usize)
        requires jumps_fit { (k ≡ jumps_left self) × (2 * k + 2 ≤ length run.old) }
        ensures { run.new ≡ written (run_left self.entry) ++ drop (2 * k + 2) run.old }
    {
        let mut v = self.last_state();
        for (left, jump) in (0..k).rev().zip(self) {
            let back = jump.back(v);
            put_two(run, 2 * left + 2, jump.edge as u64, back.wait);
            v = back.valuation;
        }
        put_two(run, 0, (2 * k + 2) as u64, v.clocks[1]);
    }
}
