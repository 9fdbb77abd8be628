// Bytes that are all there, and whether document 01's "Turned down" has 6, 7 or 8 for what they say.
ghost use Rattle.std.specs.Prelude.{Bool, ◌≡◌, ◌+◌, ◌*◌, ◌^◌, ◌≤◌, ◌<◌, length};
ghost use Rattle.automata.specs.Accepted.{Complete};
ghost use Rattle.automata.specs.Automata.{invariant_at, edge_at};
ghost use Rattle.automata.specs.Opened.{head_of};
ghost use Rattle.automata.specs.Refusals.{misplaced, no_such_location, no_such_clock, out_of_range_at, invariant_out_of_range};
ghost use Rattle.automata.specs.Refusals.{guard_out_of_range, limit_out_of_range};
ghost use Rattle.automata.specs.Testing.{TestsRange};

use crate::fields::{Edge, Head, Limits, edge_in, invariant_in};

// As many bytes as the counts ask, and their head. Its methods take it by value: behind a reference each turn would load the counts again.
#[derive(Clone, Copy)]
pub(crate) struct Whole<'a> {
    pub bytes: &'a [u8],
    pub head: Head,
    pub ghost complete: { Complete bytes.now },
    pub ghost read: { head ≡ head_of bytes.now },
}

impl<'a> Whole<'a> {
    // Not `Automaton`'s two: these promise that the place is there, too, which the closures of `any` need.
    // The place of the limits of location l, which are there.
    #[tactic(auto, using(crate::proofs::fields::Places::places))]
    fn invariant_at(self, l: usize) -> usize
        requires { l < self.head.locations }
        ensures place { result ≡ invariant_at self.entry.bytes.now l }
        ensures within { result + 8 * self.entry.head.clocks ≤ length self.entry.bytes.now }
    {
        invariant_in(self.head.clocks, l)
    }

    // The place of edge i, which is there.
    #[tactic(auto, using(crate::proofs::fields::Places::places))]
    fn edge_at(self, i: usize) -> usize
        requires { i < self.head.edges }
        ensures place { result ≡ edge_at self.entry.bytes.now i }
        ensures within { result + (3 + 8 * self.entry.head.clocks) ≤ length self.entry.bytes.now }
    {
        edge_in(self.head.clocks, self.head.locations, i)
    }

    // The tests of edges and of locations go from the last on, as `some` does in the definition; that of clocks goes from the first.
    pub(crate) fn no_such_location(self) -> bool
        ensures { result ≡ no_such_location self.entry.bytes.now }
    {
        misplaced(self.head.locations, self.head.start, self.head.target)
            || (0..self.head.edges).any(|k| {
                let i = self.head.edges - 1 - k;
                let edge = Edge::read(self.bytes, self.edge_at(i));
                misplaced(self.head.locations, edge.from, edge.to)
            })
    }

    pub(crate) fn no_such_clock(self) -> bool
        ensures { result ≡ no_such_clock self.entry.bytes.now }
    {
        let bound = reset_bound(self.head.clocks);
        (0..self.head.edges).any(|k| {
            let i = self.head.edges - 1 - k;
            bound <= u32::from(self.bytes[self.edge_at(i) + 2])
        })
    }

    // Whether one clock's limits at `at` are out of range, by a test of an invariant's or a guard's.
    fn out_of_range_at<F: Fn(Limits) -> bool>(self, at: usize, out: F) -> bool
        requires place { at + 8 * self.head.clocks ≤ length self.bytes.now }
        requires test { (limits : Limits) → F.pre out limits }
        ensures { (may_lack : Bool) → TestsRange may_lack (F.post out) → result ≡ out_of_range_at self.entry.bytes.now may_lack at }
    {
        (0..self.head.clocks).any(|x| out(Limits::read(self.bytes, at, x + 1)))
    }

    // This and the next stay two: one for both would take a count, a place and a test, which is all that they say.
    fn invariant_out_of_range(self) -> bool
        ensures { result ≡ invariant_out_of_range self.entry.bytes.now }
    {
        (0..self.head.locations).any(|k| {
            let l = self.head.locations - 1 - k;
            self.out_of_range_at(self.invariant_at(l), Limits::invariant_out_of_range)
        })
    }

    fn guard_out_of_range(self) -> bool
        ensures { result ≡ guard_out_of_range self.entry.bytes.now }
    {
        (0..self.head.edges).any(|k| {
            let i = self.head.edges - 1 - k;
            self.out_of_range_at(self.edge_at(i) + 3, Limits::guard_out_of_range)
        })
    }

    pub(crate) fn limit_out_of_range(self) -> bool
        ensures { result ≡ limit_out_of_range self.entry.bytes.now }
    {
        self.invariant_out_of_range() || self.guard_out_of_range()
    }
}

// Whether one of two places is none of the m locations.
fn misplaced(m: usize, a: usize, b: usize) -> bool
    ensures { result ≡ misplaced m a b }
{
    m <= a || m <= b
}

// The first reset byte that names a clock above n.
fn reset_bound(n: usize) -> u32
    requires { n ≤ 8 }
    ensures { result ≡ 2 ^ n }
{
    1 << n
}
